//! Tables, sequences and cookies.
ghost use Rattle.std.specs.Prelude.{◌≡◌, ◌++◌, ℕ, false, nat_le, [], ◌∷◌, Some, Option, option_and_then, IfOk, OnOk, List as GhostList};
ghost use Rattle.ur_base.specs.Stopping.{IfRefused};
ghost use Rattle.ur_syntax.specs.declared.decl.Constraint.{Constraint as GhostConstraint};
ghost use Rattle.ur_check_scopes.specs.Views.{Refuses, IsLarge};
ghost use Rattle.ur_rows.specs.declared.normal.Normal.TheVariants as normal;
ghost use Rattle.ur_rows.specs.Nodes.{nodes, most_nodes};
ghost use Rattle.ur_rows.specs.Normal.{nf};
ghost use Rattle.ur_sqltype.specs.Table.{type_kind, PrimaryComesFirst};
ghost use Rattle.ur_sqltype.specs.SqltableFaults.{TableBreaks};
ghost use Rattle.ur_typed_rules.specs.Rules.{small_type};
ghost use Rattle.ur_typed.specs.Project.{env_at, written_key, written_keys};
ghost use Rattle.ur_typed.specs.Declaring.{Sofar, datatype_names, full_name, shape_out, table_out, with_named_sequence, with_named_cookie, cookie_out};
ghost use Rattle.ur_typed.specs.DeclFaults.{form_of, BreaksTable, BreaksCookie};
ghost use Rattle.ur_check_heads.specs.Views.{Sees, Comes, SaysAs};

use crate::project::{Project, full_name, named, number, top};
use std::alloc::Global;
use std::str;
use ur_base::{List, Memory, Refusal, Span, Stop, Text};
use ur_check_scopes::{normal_at, not_of_type};
use ur_rows::{Normal, NormalType, as_type, copy_text};
use ur_sqltype::{SqlKey, table_shape};
use ur_syntax::{Con, Constraint};
use ur_values::{ColumnKind, TableShape};

fn copy_texts(alloc: Global, texts: &[Text]) -> Result<List<Text>, Memory>
    ensures { IfOk result (λ list. list ≡ texts.now) }
{
    let mut list = List::new(alloc);
    for i in 0..texts.len() {
        let text = copy_text(alloc, &texts[i])?;
        list.push(text)?;
    }
    Ok(list)
}

fn key_of(alloc: Global, columns: &[Text], primary: bool) -> Result<SqlKey, Memory>
    ensures { IfOk result (λ key. key ≡ written_key primary columns.now) }
{
    let columns = copy_texts(alloc, columns)?;
    Ok(SqlKey { columns, primary })
}

/// The PRIMARY KEY, if there is one.
fn primary_key(alloc: Global, primary: &Option<List<Text>>) -> Result<List<SqlKey>, Memory>
    ensures { IfOk result (λ keys. keys ≡ written_keys primary.now []) }
{
    let mut keys = List::new(alloc);
    match primary {
        Some(columns) => {
            let key = key_of(alloc, columns.as_slice(), true)?;
            keys.push(key)?;
            Ok(keys)
        }
        None => Ok(keys),
    }
}

fn add_constraint(
    alloc: Global,
    keys: &mut List<SqlKey>,
    constraint: &Constraint,
) -> Result<(), Memory>
    ensures { OnOk result (keys.new ≡ keys.old ++ written_key false constraint.now.columns ∷ []) }
{
    let key = key_of(alloc, constraint.columns.as_slice(), false)?;
    keys.push(key)?;
    Ok(())
}

/// The keys as they are written, the PRIMARY KEY first.
fn written_keys(
    alloc: Global,
    primary: &Option<List<Text>>,
    constraints: &[Constraint],
) -> Result<List<SqlKey>, Memory>
    ensures { IfOk result (λ keys. keys ≡ written_keys primary.now constraints.now) }
{
    let mut keys = primary_key(alloc, primary)?;
    for i in 0..constraints.len() {
        add_constraint(alloc, &mut keys, &constraints[i])?;
    }
    Ok(keys)
}

/// The same stop where the declaration stands.
fn placed(span: Span, stop: Stop) -> Stop
    ensures { SaysAs stop result }
{
    match stop {
        Stop::Refused(refusal) => {
            let Refusal {
                code,
                left,
                right,
                ..
            } = refusal;
            Stop::Refused(Refusal {
                code,
                span,
                left,
                right,
            })
        }
        Stop::Memory => Stop::Memory,
    }
}

/// The type of a table or of a cookie.
fn written_type(alloc: Global, project: &Project, con: &Con) -> Result<NormalType, Stop>
    ensures of { IfOk result (λ t. (home : ℕ) (z : Sofar) → Sees project.now home z → small_type most_nodes (nf (env_at z.place) con.now) ≡ Some t) }
    ensures refused { IfRefused result (λ r. IsLarge r × ((home : ℕ) (z : Sofar) → Sees project.now home z → nat_le (nodes (form_of z con.now)) most_nodes ≡ false)) }
{
    let around = top(project);
    let form = normal_at(alloc, &around.scope.cons, con)?;
    let of = as_type(alloc, form);
    Ok(of)
}

/// A table of this name, of a type and with these keys.
fn shape_of(
    alloc: Global,
    project: &Project,
    name: &[u8],
    of: NormalType,
    keys: &[SqlKey],
) -> Result<TableShape, Stop>
    requires { PrimaryComesFirst keys.now }
    ensures shape { IfOk result (λ s. shape_out name.now keys.now of ≡ Some s) }
    ensures refused { IfRefused result (TableBreaks project.now.world.datatype_names (normal.Type of) keys.now) }
{
    let form = Normal::Type(of);
    let names = project.world.datatype_names.as_slice();
    match str::from_utf8(name) {
        Ok(text) => {
            let shape = table_shape(alloc, text, &form, keys, names)?;
            Ok(shape)
        }
        Err(_bytes) => Err(Stop::Memory),
    }
}

fn table_at(
    alloc: Global,
    project: &Project,
    name: &Text,
    con: &Con,
    keys: &[SqlKey],
) -> Result<TableShape, Stop>
    requires { PrimaryComesFirst keys.now }
    ensures shape { IfOk result (λ s. (home : ℕ) (z : Sofar) → Sees project.now home z → option_and_then (shape_out (full_name z name.now) keys.now) (small_type most_nodes (nf (env_at z.place) con.now)) ≡ Some s) }
    ensures refused { IfRefused result (λ r. (home : ℕ) (z : Sofar) → Sees project.now home z → (primary : Option (GhostList (GhostList ℕ))) (constraints : GhostList GhostConstraint) → keys.now ≡ written_keys primary constraints → Refuses (datatype_names z) (BreaksTable most_nodes z con.now primary constraints) r) }
{
    let of = written_type(alloc, project, con)?;
    let full = full_name(alloc, project, name)?;
    let shape = shape_of(alloc, project, full.as_slice(), of, keys)?;
    Ok(shape)
}

/// `table`.
pub fn table_in(
    alloc: Global,
    project: &mut Project,
    span: Span,
    name: &Text,
    con: &Con,
    primary: &Option<List<Text>>,
    constraints: &[Constraint],
) -> Result<(), Stop>
    ensures ok { OnOk result ((home : ℕ) (z : Sofar) → Sees project.old home z → Comes project.new home (table_out most_nodes name.now con.now primary.now constraints.now z)) }
    ensures refused { IfRefused result (λ r. (home : ℕ) (z : Sofar) → Sees project.old home z → Refuses (datatype_names z) (BreaksTable most_nodes z con.now primary.now constraints.now) r) }
{
    let keys = written_keys(alloc, primary, constraints)?;
    match table_at(alloc, project, name, con, keys.as_slice()) {
        Ok(shape) => {
            project.world.schema.tables.push(shape)?;
            Ok(())
        }
        Err(stop) => Err(placed(span, stop)),
    }
}

/// `sequence`.
pub fn sequence_in(alloc: Global, project: &mut Project, name: &Text) -> Result<(), Memory>
    ensures { OnOk result ((home : ℕ) (z : Sofar) → Sees project.old home z → Sees project.new home (with_named_sequence name.now z)) }
{
    let at = number(project.world.sequences.len())?;
    let entry = named(alloc, project, name, at)?;
    let full = full_name(alloc, project, name)?;
    project.world.sequences.push(entry)?;
    project.world.schema.sequences.push(full)?;
    Ok(())
}

fn kind_of(of: &NormalType) -> Option<ColumnKind>
    ensures { result ≡ type_kind of.now }
{
    match of {
        NormalType::Int => Some(ColumnKind::Int),
        NormalType::Str => Some(ColumnKind::Str),
        NormalType::Bool => Some(ColumnKind::Bool),
        _ => None,
    }
}

/// The kind of a cookie.
fn cookie_kind(alloc: Global, project: &Project, con: &Con) -> Result<ColumnKind, Stop>
    ensures kind { IfOk result (λ k. (home : ℕ) (z : Sofar) → Sees project.now home z → option_and_then type_kind (small_type most_nodes (nf (env_at z.place) con.now)) ≡ Some k) }
    ensures refused { IfRefused result (λ r. (home : ℕ) (z : Sofar) → Sees project.now home z → Refuses (datatype_names z) (BreaksCookie most_nodes z con.now) r) }
{
    let of = written_type(alloc, project, con)?;
    match kind_of(&of) {
        Some(kind) => Ok(kind),
        None => {
            let names = project.world.datatype_names.as_slice();
            Err(not_of_type(alloc, names, con.span, &of, b"int, string or bool"))
        }
    }
}

fn add_cookie(
    alloc: Global,
    project: &mut Project,
    name: &Text,
    kind: ColumnKind,
) -> Result<(), Memory>
    ensures { OnOk result ((home : ℕ) (z : Sofar) → Sees project.old home z → Sees project.new home (with_named_cookie name.now z kind)) }
{
    let at = number(project.world.cookies.len())?;
    let entry = named(alloc, project, name, at)?;
    let full = full_name(alloc, project, name)?;
    project.world.cookies.push(entry)?;
    project.world.cookie_kinds.push((full, kind))?;
    Ok(())
}

/// `cookie`.
pub fn cookie_in(alloc: Global, project: &mut Project, name: &Text, con: &Con) -> Result<(), Stop>
    ensures ok { OnOk result ((home : ℕ) (z : Sofar) → Sees project.old home z → Comes project.new home (cookie_out most_nodes name.now con.now z)) }
    ensures refused { IfRefused result (λ r. (home : ℕ) (z : Sofar) → Sees project.old home z → Refuses (datatype_names z) (BreaksCookie most_nodes z con.now) r) }
{
    let kind = cookie_kind(alloc, project, con)?;
    add_cookie(alloc, project, name, kind)?;
    Ok(())
}
