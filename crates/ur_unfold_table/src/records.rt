//! The forms of records.
ghost use Rattle.std.specs.Prelude.{◌≡◌, ◌++◌, map};
ghost use Rattle.ur_tree.specs.declared.exp.Exp.TheVariants as x;
ghost use Rattle.ur_source.specs.Items.{Scope, field_numbers};
ghost use Rattle.ur_source.specs.Reading.{label_number};
ghost use Rattle.ur_unfold_pieces.specs.Forming.{OpensExp};
ghost use Rattle.ur_unfold_pieces.specs.Keys.{Gives};
ghost use Rattle.ur_unfold_pieces.specs.Standing.{ScopeIs};
ghost use Rattle.ur_unfold_pieces.specs.Told.{told, exp};

use crate::parts::nothing;
use std::alloc::Global;
use ur_base::{List, Name};
use ur_meaning::{Halt, Head, Opened};
use ur_terms::Op;
use ur_tree::FieldExp;
use ur_unfold_pieces::{Opening, Piece, name_in};

/// The numbers of the fields' names; none where one stands for no name of the project.
fn names_in(
    alloc: Global,
    table: &Opening<'_>,
    scope: u32,
    fields: &List<FieldExp>,
) -> Result<Option<List<Name>>, Halt>
    ensures { (around : Scope) → ScopeIs table.now scope around → Gives (λ ns. ns ≡ field_numbers table.now.typed.now.names around.cons fields.now) result }
{
    let all = fields.as_slice();
    let mut names = List::new(alloc);
    for i in 0..all.len() {
        match field_name(table, scope, &all[i])? {
            None => return Ok(None),
            Some(name) => names.push(name)?,
        }
    }
    Ok(Some(names))
}

/// The number of a field's name.
fn field_name(table: &Opening<'_>, scope: u32, field: &FieldExp) -> Result<Option<Name>, Halt>
    ensures { (around : Scope) → ScopeIs table.now scope around → Gives (λ n. n ≡ label_number table.now.typed.now.names around.cons field.now.name) result }
{
    name_in(table, scope, &field.name)
}

/// A field's expression.
fn field_piece<'a>(scope: u32, field: &'a FieldExp) -> Piece<'a>
    ensures { told result ≡ exp scope field.now.of }
{
    Piece::Exp(scope, &field.of)
}

/// Adds the expressions of fields to the parts.
fn push_fields<'a>(
    parts: &mut List<Piece<'a>>,
    scope: u32,
    fields: &'a List<FieldExp>,
) -> Result<(), Halt>
    ensures { Gives (λ done. map told parts.new ≡ map told parts.old ++ map (λ g. exp scope g.of) fields.now) result }
{
    let all = fields.as_slice();
    for i in 0..all.len() {
        parts.push(field_piece(scope, &all[i]))?;
    }
    Ok(())
}

/// The form of a record, whose fields are evaluated in written order.
pub fn record_form<'a>(
    alloc: Global,
    table: &Opening<'a>,
    scope: u32,
    fields: &'a List<FieldExp>,
) -> Result<Opened<Piece<'a>>, Halt>
    ensures { OpensExp table.now table.now scope (x.Record fields.now) result }
{
    match names_in(alloc, table, scope, fields)? {
        None => nothing(alloc),
        Some(names) => {
            let mut parts = List::new(alloc);
            push_fields(&mut parts, scope, fields)?;
            let head = Head::Strict(Op::Record(names));
            Ok(Opened { head, parts })
        }
    }
}
