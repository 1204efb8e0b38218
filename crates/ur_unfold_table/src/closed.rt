//! The forms of closed static expressions.
ghost use Rattle.std.specs.Prelude.{◌≡◌, map, ◌++◌, IfOk};
ghost use Rattle.ur_tree.specs.declared.closed.Static.{Static, out-Static};
ghost use Rattle.ur_tree.specs.declared.closed.Static.TheVariants as st;
ghost use Rattle.ur_terms.specs.declared.term.Op.TheVariants as op;
ghost use Rattle.ur_source.specs.Items.{closed, closed_form};
ghost use Rattle.ur_source.specs.Reading.{Cons};
ghost use Rattle.ur_meaning.specs.declared.head.Head.TheVariants as head;
ghost use Rattle.ur_unfold_static.specs.Scopes.{AreAt, IsAt};
ghost use Rattle.ur_unfold_pieces.specs.Forming.{FormedAs, OpensItem};
ghost use Rattle.ur_unfold_pieces.specs.Moving.{Moves};
ghost use Rattle.ur_unfold_pieces.specs.Keys.{Gives};
ghost use Rattle.ur_unfold_pieces.specs.Standing.{IsWhole};
ghost use Rattle.ur_unfold_pieces.specs.Told.{told, closed as told_closed};
ghost use Rattle.ur_unfold_table.specs.Opened.{IsOpened};

use crate::parts::{leaf, nothing};
use crate::shapes::text_form;
use std::alloc::Global;
use ur_base::{List, Memory, Name};
use ur_meaning::{Halt, Head, Opened};
use ur_terms::Op;
use ur_unfold_pieces::{Key, Opening, Piece};
use ur_unfold_static::{Field, Node};

/// The form of the closed static expression with this number.
pub fn closed_form<'a>(
    alloc: Global,
    table: &mut Opening<'a>,
    number: u32,
) -> Result<Opened<Piece<'a>>, Halt>
    ensures form { (s : Static) → IsAt table.old.closing.statics number s → OpensItem table.old table.new (closed s) result }
    ensures moves { Moves table.old table.new }
{
    match table.closing.node(number) {
        None => Err(Halt::Memory),
        Some(node) => match node {
            Node::Int(n) => leaf(alloc, Head::Int(*n)),
            Node::Str(text) => text_form(alloc, text),
            Node::Bool(b) => leaf(alloc, Head::Bool(*b)),
            Node::Function(k, cons) => {
                let k = *k;
                let cons = List::from_slice(alloc, cons.as_slice())?;
                constant_form(alloc, table, k, cons)
            }
            Node::Lambda {
                of: _,
                cons: _,
                fixed: _,
            } => nothing(alloc),
            Node::Record(fields) => record_form(alloc, fields),
        },
    }
}

/// The form of a function that stands for a value: it is called at each use, where it has no parameters.
fn constant_form<'a>(
    alloc: Global,
    table: &mut Opening<'a>,
    k: u32,
    cons: List<u32>,
) -> Result<Opened<Piece<'a>>, Halt>
    ensures form { (cs : Cons) → IsWhole table.old → AreAt table.old.closing.cons cons cs → FormedAs table.old table.new (closed_form table.old.typed.now.functions (out-Static (st.Function k cs))) result }
    ensures moves { Moves table.old table.new }
{
    let typed = table.typed;
    match typed.functions.get(k as usize) {
        None => nothing(alloc),
        Some(function) => {
            if !function.params.is_empty() {
                return nothing(alloc);
            }
            let key = Key {
                function: k,
                cons,
                fixed: List::new(alloc),
            };
            let j = table.number(key)?;
            leaf(alloc, Head::Call(j))
        }
    }
}

fn name_of(field: &Field) -> Name
    ensures { result ≡ field.now.name }
{
    field.name
}

/// What a field is.
fn closed_piece<'a>(field: &Field) -> Piece<'a>
    ensures { told result ≡ told_closed field.now.of }
{
    Piece::Closed(field.of)
}

fn names_of(alloc: Global, fields: &List<Field>) -> Result<List<Name>, Memory>
    ensures { IfOk result (λ ns. ns ≡ map (λ f. f.name) fields.now) }
{
    let all = fields.as_slice();
    let mut names = List::new(alloc);
    for i in 0..all.len() {
        names.push(name_of(&all[i]))?;
    }
    Ok(names)
}

/// Adds what fields are to the parts.
fn push_closed<'a>(parts: &mut List<Piece<'a>>, fields: &List<Field>) -> Result<(), Halt>
    ensures { Gives (λ done. map told parts.new ≡ map told parts.old ++ map (λ f. told_closed f.of) fields.now) result }
{
    let all = fields.as_slice();
    for i in 0..all.len() {
        parts.push(closed_piece(&all[i]))?;
    }
    Ok(())
}

fn record_form<'a>(alloc: Global, fields: &List<Field>) -> Result<Opened<Piece<'a>>, Halt>
    ensures { IsOpened (head.Strict (op.Record (map (λ f. f.name) fields.now))) (map (λ f. told_closed f.of) fields.now) result }
{
    let names = names_of(alloc, fields)?;
    let mut parts = List::new(alloc);
    push_closed(&mut parts, fields)?;
    Ok(Opened {
        head: Head::Strict(Op::Record(names)),
        parts,
    })
}
