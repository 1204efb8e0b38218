//! Records.
ghost use Rattle.std.specs.Prelude.{◌≡◌, true, ℕ, List as GhostList, IfOk, OnOk, Some, codes};
ghost use Rattle.std.specs.List.{list_any};
ghost use Rattle.std.specs.Option.{option_copied};
ghost use Rattle.ur_base.specs.Stopping.{IfRefused};
ghost use Rattle.ur_syntax.specs.declared.exp.ExpForm.TheVariants as e;
ghost use Rattle.ur_rows.specs.declared.normal.Part.{Part as GhostPart};
ghost use Rattle.ur_rows.specs.Apart.{Assumptions as GhostAssumptions};
ghost use Rattle.ur_typed_rules.specs.Names.{is_named};
ghost use Rattle.ur_typed_rules.specs.Scopes.{World as GhostWorld, Scope as GhostScope};
ghost use Rattle.ur_typed_rules.specs.Tests.{are_apart};
ghost use Rattle.ur_typed_rules.specs.Repeats.{twice_of, literal_name};
ghost use Rattle.ur_typed_rules.specs.Arguments.{BreaksFields};
ghost use Rattle.ur_typed_rules.specs.Faults as faults;
ghost use Rattle.ur_typed.specs.Rules as rules;
ghost use Rattle.ur_typed.specs.Rules.{Sites as GhostSites};
ghost use Rattle.ur_check_scopes.specs.Given.{again};
ghost use Rattle.ur_check_scopes.specs.Views.{Stands, Refuses, StopIs, StopTells, env_in};
ghost use Rattle.ur_check_rules.specs.Promises.{TellsRecord, GivesProjection, TellsProjection, GivesCut, TellsCut};
ghost use Rattle.ur_check_rules.specs.Views.{out_with, row_with, fields_with};
ghost use Rattle.ur_check_rules.specs.Written.{written_names};
ghost use Rattle.ur_check_rules.specs.Fields.{field_in, row_cut, BreaksField, BreaksRecord};

use crate::out::Out;
use std::alloc::Global;
use ur_base::{Boxed, List, Memory, Span, Stop, Text};
use ur_check_scopes::{Around, fields_apart, not_of_type, row_of, twice};
use ur_rows::{Label, NormalType, Part, copy_row, copy_type, joined};
use ur_rows_normal::{field_type, without};
use ur_syntax::{Field, FieldName};
use ur_tree::{Exp, FieldExp};

/// Whether that is the field's literal name.
fn is_named(field: &Field, name: &Text) -> bool
    ensures { result ≡ is_named name.now (literal_name field.now.name) }
{
    match &field.name {
        FieldName::Literal(a) => name.as_slice() == a.as_slice(),
        FieldName::Variable(_) => false,
    }
}

/// Whether that is the literal name of one of the fields.
fn some_is(fields: &[Field], name: &Text) -> bool
    ensures { result ≡ list_any (is_named name.now) (written_names fields.now) }
{
    for i in 0..fields.len() {
        if is_named(&fields[i], name) {
            return true;
        }
    }
    false
}

/// The literal name of a field that one of the others has too.
fn again<'a>(field: &'a Field, others: &[Field]) -> Option<&'a Text>
    ensures { option_copied result ≡ again (literal_name field.now.name) (written_names others.now) }
{
    match &field.name {
        FieldName::Literal(a) => {
            if some_is(others, a) {
                return Some(a);
            }
            None
        }
        FieldName::Variable(_) => None,
    }
}

/// The first literal name that a later field has too.
#[tactic(auto, using(crate::proofs::Recorded::repeating))]
fn repeated<'a>(fields: &'a [Field]) -> Option<&'a Text>
    ensures { option_copied result ≡ twice_of (written_names fields.now) }
{
    let mut left = fields;
    while let Some((first, rest)) = left.split_first() {
        match again(first, rest) {
            Some(name) => return Some(name),
            None => left = rest,
        }
    }
    None
}

/// The row of these parts.
#[tactic(auto, using(crate::proofs::Recorded::row_made))]
fn row_with(alloc: Global, parts: List<Part>) -> Result<List<Part>, Memory>
    ensures { IfOk result (λ r. r ≡ row_with parts) }
{
    let row = joined(parts, List::new(alloc))?;
    Ok(row)
}

/// How it is told that the fields of a record are not apart, which was told as `stop`: a literal name twice is E08, and
/// other fields are E11.
fn not_all_apart(alloc: Global, span: Span, written: &[Field], stop: Stop) -> Stop
    ensures { (names : GhostList (GhostList ℕ)) (known : GhostAssumptions) (row : GhostList GhostPart) → StopTells names (BreaksFields known row) stop → StopTells names (BreaksRecord known (written_names written.now) row) result }
{
    match stop {
        Stop::Memory => Stop::Memory,
        Stop::Refused(refusal) => match repeated(written) {
            Some(name) => twice(alloc, span, name.as_slice()),
            None => Stop::Refused(refusal),
        },
    }
}

/// The parts of the row are apart from each other.
fn are_apart(
    alloc: Global,
    around: &Around,
    span: Span,
    written: &[Field],
    row: &[Part],
) -> Result<(), Stop>
    ensures ok { OnOk result (are_apart (env_in around.now.scope.cons).known row.now ≡ true) }
    ensures refused { IfRefused result (Refuses around.now.world.now.datatype_names (BreaksRecord (env_in around.now.scope.cons).known (written_names written.now) row.now)) }
{
    match fields_apart(alloc, around, span, row) {
        Ok(()) => Ok(()),
        Err(stop) => Err(not_all_apart(alloc, span, written, stop)),
    }
}

/// A record of fields with their types.
pub fn record_out(
    alloc: Global,
    around: &Around,
    span: Span,
    written: &[Field],
    parts: List<Part>,
    fields: List<FieldExp>,
) -> Result<Out, Stop>
    ensures made { IfOk result (λ o. (w : GhostWorld) (s : GhostScope) (st : GhostSites) → Stands around.now w s → rules.record_out s (Some (fields_with parts fields st)) ≡ Some (out_with o st)) }
    ensures refused { IfRefused result (TellsRecord around.now written.now parts fields) }
{
    let row = row_with(alloc, parts)?;
    are_apart(alloc, around, span, written, row.as_slice())?;
    let exp = Boxed::new(alloc, Exp::Record(fields))?;
    Ok(Out {
        of: NormalType::Record(row),
        exp,
    })
}

fn no_field(alloc: Global, around: &Around, span: Span, of: &NormalType) -> Stop
    ensures { StopIs around.now.world.now.datatype_names (faults.not_of_type around.now.world.now.datatype_names of.now (codes "the field")) result }
{
    let names = around.world.datatype_names.as_slice();
    not_of_type(alloc, names, span, of, b"the field")
}

pub fn no_record(alloc: Global, around: &Around, span: Span, of: &NormalType) -> Stop
    ensures { StopIs around.now.world.now.datatype_names (faults.not_of_type around.now.world.now.datatype_names of.now (codes "a record")) result }
{
    let names = around.world.datatype_names.as_slice();
    not_of_type(alloc, names, span, of, b"a record")
}

/// The type of a field of a record.
fn type_in(
    alloc: Global,
    around: &Around,
    span: Span,
    label: &Label,
    of: &NormalType,
) -> Result<NormalType, Stop>
    ensures field { IfOk result (λ t. field_in label.now of.now ≡ Some t) }
    ensures refused { IfRefused result (Refuses around.now.world.now.datatype_names (BreaksField around.now.world.now.datatype_names label.now of.now)) }
{
    match row_of(of) {
        Some(row) => match field_type(label, row) {
            Some(t) => {
                let found = copy_type(alloc, t)?;
                Ok(found)
            }
            None => Err(no_field(alloc, around, span, of)),
        },
        None => Err(no_record(alloc, around, span, of)),
    }
}

/// `e.A`.
pub fn project_out(
    alloc: Global,
    around: &Around,
    span: Span,
    label: Label,
    out: Out,
) -> Result<Out, Stop>
    ensures projected { IfOk result (GivesProjection label out) }
    ensures refused { IfRefused result (TellsProjection around.now label out) }
{
    let of = type_in(alloc, around, span, &label, &out.of)?;
    let exp = Boxed::new(alloc, Exp::Project(out.exp, label))?;
    Ok(Out { of, exp })
}

/// The row of a record without a field.
fn row_without(
    alloc: Global,
    around: &Around,
    span: Span,
    label: &Label,
    of: &NormalType,
) -> Result<List<Part>, Stop>
    ensures row { IfOk result (λ r. row_cut label.now of.now ≡ Some r) }
    ensures refused { IfRefused result (Refuses around.now.world.now.datatype_names (BreaksField around.now.world.now.datatype_names label.now of.now)) }
{
    match row_of(of) {
        Some(row) => match field_type(label, row) {
            Some(_) => {
                let whole = copy_row(alloc, row)?;
                Ok(without(label, whole))
            }
            None => Err(no_field(alloc, around, span, of)),
        },
        None => Err(no_record(alloc, around, span, of)),
    }
}

/// `e -- #A`.
pub fn cut_out(
    alloc: Global,
    around: &Around,
    span: Span,
    label: Label,
    out: Out,
) -> Result<Out, Stop>
    ensures cut { IfOk result (GivesCut label out) }
    ensures refused { IfRefused result (TellsCut around.now label out) }
{
    let row = row_without(alloc, around, span, &label, &out.of)?;
    let exp = Boxed::new(alloc, Exp::Cut(out.exp, label))?;
    Ok(Out {
        of: NormalType::Record(row),
        exp,
    })
}
