//! The normal form of a constructor in an environment, and the scope of names that are prepared once.
ghost use Rattle.std.specs.Prelude.{◌≡◌, ◌≤◌, ◌<◌, ◌+◌, ℕ, [], List as GhostList, codes, true, IfOk, OnOk, OnErr};
ghost use Rattle.ur_base.specs.Stopping.{IfRefused, Says};
ghost use Rattle.ur_syntax.specs.declared.kind.Kind.{Kind as GhostKind};
ghost use Rattle.ur_syntax.specs.declared.con.ConName.{ConName as GhostName};
ghost use Rattle.ur_syntax.specs.declared.con.ConEntry.{ConEntry as GhostEntry};
ghost use Rattle.ur_syntax.specs.declared.con.ConEnv.{ConEnv as GhostEnv};
ghost use Rattle.ur_syntax.specs.Names.{own, member};
ghost use Rattle.ur_rows.specs.declared.normal.Normal.{Normal as GhostNormal};
ghost use Rattle.ur_rows.specs.IsNormal.{is_normal};
ghost use Rattle.ur_rows.specs.Nodes.{nodes, most_nodes};
ghost use Rattle.ur_rows.specs.Normal.{nf, nf_with, known_in, label_of, entry_form, variables_with};
ghost use Rattle.ur_rows_reduce.specs.Height.{height, most_levels};
ghost use Rattle.ur_rows_reduce.specs.Held.{Holds};
ghost use Rattle.ur_rows_normal.specs.declared.environment.Place.{Place as GhostPlace};
ghost use Rattle.ur_rows_normal.specs.Walk.{Agrees, declared, known_so, home_in};
ghost use Rattle.ur_rows_normal.specs.Preparing.{Prepares, Reads, Covers, with_entry, definition, variable_entry, variables_after};

use crate::names::{Entry, Names, Scope};
use crate::walk::walk;
use crate::words::{label, variable};
use std::alloc::Global;
use ur_base::{List, Memory, Refusal, Span, Stop, Text};
use ur_rows::{Label, Normal, NormalType, Var, copy_text};
use ur_rows_reduce::{Args, Held};
use ur_syntax::{Con, ConEntry, ConEnv, ConMeaning, ConName, FieldName, Kind};

fn home_of<'a>(entry: &'a ConEntry, home: &'a Text) -> &'a Text
    ensures { result.now ≡ home_in entry.now.name.home home.now }
{
    match &entry.name.home {
        Some(m) => m,
        None => home,
    }
}

/// What a constructor stands for in a module, over the names that are known.
fn held_at(alloc: Global, home: &Text, known: &[Entry], con: &Con) -> Result<Held, Memory>
    ensures { IfOk result (λ h. (names : GhostList (GhostName × (ℕ × GhostNormal))) → Agrees (declared known.now []) names →
        Holds h (nf_with (known_so home.now names) con.now.form [])) }
{
    let names = Names::Declared(known);
    let scope = Scope {
        home,
        depth: 0,
        names: &names,
    };
    walk(alloc, &scope, &con.form, &Args::Empty)
}

/// What a name of the environment stands for, where `variables` variables stand before it.
fn held_for(
    alloc: Global,
    home: &Text,
    known: &[Entry],
    variables: u32,
    entry: &ConEntry,
) -> Result<Held, Memory>
    ensures { IfOk result (λ h. (names : GhostList (GhostName × (ℕ × GhostNormal))) → Agrees (declared known.now []) names →
        Holds h (entry_form (known_so home.now names) variables entry.now.name.home entry.now.kind entry.now.meaning)) }
{
    match &entry.meaning {
        ConMeaning::Variable => Ok(Held::Form(variable(alloc, &entry.kind, Var::Free(variables))?)),
        ConMeaning::Defined(con) => held_at(alloc, home_of(entry, home), known, con),
        ConMeaning::Datatype(d) => Ok(Held::Form(Normal::Type(NormalType::Datatype(*d)))),
    }
}

/// The number of variables with one more.
fn next(variables: u32) -> Result<u32, Memory>
    ensures { IfOk result (λ n. n ≡ variables + 1) }
{
    match variables.checked_add(1) {
        Some(n) => Ok(n),
        None => Err(Memory),
    }
}

fn after(variables: u32, meaning: &ConMeaning) -> Result<u32, Memory>
    ensures { IfOk result (λ n. n ≡ variables_with meaning.now variables) }
{
    match meaning {
        ConMeaning::Variable => next(variables),
        ConMeaning::Defined(_) => Ok(variables),
        ConMeaning::Datatype(_) => Ok(variables),
    }
}

fn copy_home(alloc: Global, home: &Option<Text>) -> Result<Option<Text>, Memory>
    ensures { IfOk result (λ h. h ≡ home.now) }
{
    match home {
        Some(m) => Ok(Some(copy_text(alloc, m)?)),
        None => Ok(None),
    }
}

fn copy_name(alloc: Global, name: &ConName) -> Result<ConName, Memory>
    ensures { IfOk result (λ n. n ≡ name.now) }
{
    Ok(ConName {
        home: copy_home(alloc, &name.home)?,
        name: copy_text(alloc, &name.name)?,
    })
}

/// The name `M.x`.
fn name_in(alloc: Global, home: &Text, name: &Text) -> Result<ConName, Memory>
    ensures { IfOk result (λ n. n ≡ member home.now name.now) }
{
    Ok(ConName {
        home: Some(copy_text(alloc, home)?),
        name: copy_text(alloc, name)?,
    })
}

/// The name `x`.
fn own_name(alloc: Global, name: &Text) -> Result<ConName, Memory>
    ensures { IfOk result (λ n. n ≡ own name.now) }
{
    Ok(ConName {
        home: None,
        name: copy_text(alloc, name)?,
    })
}

/// A module with the names in scope there, in order of binding, each with what it stands for. `variables` counts those that
/// are variables.
#[derive(Drop)]
pub struct Prepared {
    pub home: Text,
    pub known: List<Entry>,
    pub variables: u32,
}

impl Prepared {
    /// A module without names in scope.
    pub fn empty(alloc: Global, home: &Text) -> Result<Prepared, Memory>
        ensures { IfOk result (λ p. (p.home ≡ home.now) × (p.known ≡ []) × (p.variables ≡ 0)) }
    {
        Ok(Prepared {
            home: copy_text(alloc, home)?,
            known: List::new(alloc),
            variables: 0,
        })
    }

    /// The names of an environment.
    pub fn new(alloc: Global, env: &ConEnv) -> Result<Prepared, Memory>
        ensures { IfOk result (λ p. Prepares p env.now) }
    {
        let mut made = Prepared::empty(alloc, &env.home)?;
        let entries = env.entries.as_slice();
        for i in 0..entries.len() {
            made.push(alloc, &entries[i])?;
        }
        Ok(made)
    }

    /// One name more, the latest.
    pub fn push(&mut self, alloc: Global, entry: &ConEntry) -> Result<(), Memory>
        ensures ok { OnOk result ((env : GhostEnv) → Prepares self.old env → Prepares self.new (with_entry entry.now env)) }
        ensures err { OnErr result (self.new ≡ self.old) }
    {
        let held = held_for(
            alloc,
            &self.home,
            self.known.as_slice(),
            self.variables,
            entry,
        )?;
        let variables = after(self.variables, &entry.meaning)?;
        let name = copy_name(alloc, &entry.name)?;
        self.known.push(Entry { name, held })?;
        self.variables = variables;
        Ok(())
    }

    /// The definition `M.x` more, the latest, of whatever kind.
    pub fn define(
        &mut self,
        alloc: Global,
        home: &Text,
        name: &Text,
        con: &Con,
    ) -> Result<(), Memory>
        ensures ok { OnOk result ((env : GhostEnv) (k : GhostKind) → Prepares self.old env → Prepares self.new (with_entry (definition home.now name.now k con.now) env)) }
        ensures err { OnErr result (self.new ≡ self.old) }
    {
        let held = held_at(alloc, home, self.known.as_slice(), con)?;
        let name = name_in(alloc, home, name)?;
        self.known.push(Entry { name, held })?;
        Ok(())
    }

    /// Without the latest name, before which there were so many variables.
    pub fn pop(&mut self, variables: u32)
        ensures { (env : GhostEnv) (e : GhostEntry) → Prepares self.old (with_entry e env) → variables ≡ variables_after 0 env.entries → Prepares self.new env }
    {
        let _latest = self.known.pop();
        self.variables = variables;
    }

    /// Where these names are in scope.
    pub fn in_scope(&self) -> Place<'_>
        ensures { (env : GhostEnv) → Prepares self.now env → Reads result env }
    {
        Place {
            home: &self.home,
            names: Names::Declared(self.known.as_slice()),
            variables: self.variables,
        }
    }
}

/// Where constructors are read: a module, the names in scope there, and how many of these are variables.
#[derive(Clone, Copy)]
pub struct Place<'a> {
    pub home: &'a Text,
    pub names: Names<'a>,
    pub variables: u32,
}

/// Further variables over the names of a place, with the number of all variables.
#[derive(Drop)]
pub struct Layer {
    pub known: List<Entry>,
    pub variables: u32,
}

impl Layer {
    /// No further variable.
    pub fn new(alloc: Global, place: &Place) -> Layer
        ensures { (env : GhostEnv) → Reads place.now env → Covers result place.now env }
    {
        Layer {
            known: List::new(alloc),
            variables: place.variables,
        }
    }

    /// One variable more, the latest.
    pub fn bind(&mut self, alloc: Global, name: &Text, kind: &Kind) -> Result<(), Memory>
        ensures ok { OnOk result ((place : GhostPlace) (env : GhostEnv) → Covers self.old place env → Covers self.new place (with_entry (variable_entry name.now kind.now) env)) }
        ensures err { OnErr result (self.new ≡ self.old) }
    {
        let form = variable(alloc, kind, Var::Free(self.variables))?;
        let variables = next(self.variables)?;
        let name = own_name(alloc, name)?;
        let held = Held::Form(form);
        self.known.push(Entry { name, held })?;
        self.variables = variables;
        Ok(())
    }

    /// The place with these variables in scope too.
    pub fn over<'a>(&'a self, place: &'a Place<'a>) -> Place<'a>
        ensures { (env : GhostEnv) → Covers self.now place.now env → Reads result env }
    {
        Place {
            home: place.home,
            names: Names::Over(self.known.as_slice(), &place.names),
            variables: self.variables,
        }
    }
}

fn held_in(alloc: Global, place: &Place, con: &Con) -> Result<Held, Memory>
    ensures { IfOk result (λ h. (env : GhostEnv) → Reads place.now env → Holds h (nf env con.now)) }
{
    let scope = Scope {
        home: place.home,
        depth: 0,
        names: &place.names,
    };
    walk(alloc, &scope, &con.form, &Args::Empty)
}

/// The name of a field, which is a literal or what a name stands for.
pub fn label_in(alloc: Global, place: &Place, name: &FieldName) -> Result<Label, Memory>
    ensures { IfOk result (λ l. (env : GhostEnv) → Reads place.now env → l ≡ label_of (known_in env) name.now) }
{
    let scope = Scope {
        home: place.home,
        depth: 0,
        names: &place.names,
    };
    label(alloc, &scope, name)
}

fn too_large(alloc: Global, span: Span) -> Result<Refusal, Memory>
    ensures { IfOk result (λ r. Says r 16 (codes "65537") (codes "65536")) }
{
    Ok(Refusal {
        code: 16,
        span,
        left: List::from_slice(alloc, b"65537")?,
        right: List::from_slice(alloc, b"65536")?,
    })
}

/// The normal form of a constructor at a place, in which definition names stand for their right sides. The refusal E16 comes
/// only where that form has more than 65,536 nodes. Forms with more nodes are not kept on the way: there is want of memory
/// for a function with too many nodes that is applied, and for an argument with too many nodes that a function uses in maps
/// alone. There is want of memory for a form of more than 4,096 levels too, of the whole or on the way, where a function that
/// is mapped over a row counts with the row's highest part.
pub fn normal_in(alloc: Global, place: &Place, con: &Con) -> Result<Normal, Stop>
    ensures form { IfOk result (λ n. (env : GhostEnv) → Reads place.now env → n ≡ nf env con.now) }
    ensures small { IfOk result (λ n. (env : GhostEnv) → Reads place.now env → nodes n ≤ most_nodes) }
    ensures low { IfOk result (λ n. (env : GhostEnv) → Reads place.now env → height n ≤ most_levels) }
    ensures in_order { IfOk result (λ n. (env : GhostEnv) → Reads place.now env → is_normal n ≡ true) }
    ensures refused { IfRefused result (λ r. Says r 16 (codes "65537") (codes "65536") × ((env : GhostEnv) → Reads place.now env → most_nodes < nodes (nf env con.now))) }
{
    let held = held_in(alloc, place, con)?;
    match held {
        Held::Form(form) => Ok(form),
        Held::Large(_) => {
            let refusal = too_large(alloc, con.span)?;
            Err(Stop::Refused(refusal))
        }
    }
}

/// The normal form of a constructor in an environment. Where several constructors are read in one environment, `Prepared`
/// makes the forms of its definitions once.
pub fn normal(alloc: Global, env: &ConEnv, con: &Con) -> Result<Normal, Stop>
    ensures form { IfOk result (λ n. n ≡ nf env.now con.now) }
    ensures small { IfOk result (λ n. nodes n ≤ most_nodes) }
    ensures low { IfOk result (λ n. height n ≤ most_levels) }
    ensures in_order { IfOk result (λ n. is_normal n ≡ true) }
    ensures refused { IfRefused result (λ r. Says r 16 (codes "65537") (codes "65536") × (most_nodes < nodes (nf env.now con.now))) }
{
    let scope = Prepared::new(alloc, env)?;
    let place = scope.in_scope();
    let form = normal_in(alloc, &place, con)?;
    Ok(form)
}
