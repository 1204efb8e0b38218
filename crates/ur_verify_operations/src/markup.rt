//! XML.
ghost use Rattle.std.specs.Prelude.{◌≡◌, ◌↔◌, [], IsTrue, All, MatchOption, Some};
ghost use Rattle.ur_values.specs.declared.types.ValueType.TheVariants as ty;
ghost use Rattle.ur_terms.specs.Types.{MakeUp, Holds, ElementStands};
ghost use Rattle.ur_verify_operations.specs.Answering.{Answers, Says};
ghost use Rattle.ur_verify_operations.specs.Misfits.{UnlikePart, UnlikeFlow, UnlikeAll, UnlikeParts, UnlikePlace};
ghost use Rattle.ur_verify_operations.specs.Fields.{add_part, flow_before};
ghost use Rattle.ur_verify_operations.specs.Parts.{place_in};

use crate::fields::{are_apart, together};
use crate::misfit::{Untyped, mismatch, no_type, unlike};
use std::alloc::Global;
use ur_base::List;
use ur_code::Code;
use ur_values::{Tag, TypeField, ValueType, same_type};

/// Where an element stands, and what it holds: in a body or form, and what stands around it; in a body, and a form; or a
/// type of its own, and another.
#[derive(Drop)]
pub enum Place {
    InFlow,
    AroundForm,
    Own(ValueType, ValueType),
}

fn all_are(ts: &[ValueType], of: &ValueType) -> bool
    ensures { IsTrue result ↔ All (λ t. t ≡ of.now) ts.now }
{
    for t in ts {
        if !same_type(t, of) {
            return false;
        }
    }
    true
}

/// The fields of a part of a body or form, and those of the parts behind it.
fn with_part(
    alloc: Global,
    code: &Code,
    part: &ValueType,
    behind: List<TypeField>,
) -> Result<List<TypeField>, Untyped>
    ensures fits { Answers (λ fs. add_part part.now behind ≡ Some fs) result }
    ensures told { Says (UnlikePart code.now.names part.now behind) result }
{
    if same_type(part, &ValueType::Xbody) {
        return Ok(behind);
    }
    let Some(fields) = as_form(part) else {
        return Err(Untyped::Misfit(unlike(alloc, code, part, b"xbody or a form")?));
    };
    if !are_apart(fields.as_slice(), behind.as_slice()) {
        return Err(Untyped::Misfit(no_type(alloc, b"forms without a name in both")?));
    }
    Ok(together(alloc, fields.as_slice(), behind)?)
}

fn as_form(of: &ValueType) -> Option<&List<TypeField>>
    ensures { MatchOption result ((fs : List TypeField) → of.now ≡ ty.Form fs → ⊥) (λ fs. of.now ≡ ty.Form fs.now) }
{
    match of {
        ValueType::Form(fields) => Some(fields),
        _ => None,
    }
}

/// The fields of the parts of a body or form.
fn flow(alloc: Global, code: &Code, ts: &[ValueType]) -> Result<List<TypeField>, Untyped>
    ensures fits { Answers (λ fs. flow_before ts.now [] ≡ Some fs) result }
    ensures told { Says (UnlikeFlow code.now.names ts.now) result }
{
    let mut fields = List::new(alloc);
    let mut left = ts;
    while let Some((part, rest)) = left.split_last() {
        fields = with_part(alloc, code, part, fields)?;
        left = rest;
    }
    Ok(fields)
}

fn form_of(alloc: Global, code: &Code, ts: &[ValueType]) -> Result<ValueType, Untyped>
    ensures fits { Answers (λ r. (fs : List TypeField) × (r ≡ ty.Form fs) × MakeUp ts.now r) result }
    ensures told { Says (UnlikeFlow code.now.names ts.now) result }
{
    Ok(ValueType::Form(flow(alloc, code, ts)?))
}

fn alike(alloc: Global, code: &Code, ts: &[ValueType], of: &ValueType) -> Result<(), Untyped>
    ensures fits { Answers (λ u. All (λ t. t ≡ of.now) ts.now) result }
    ensures told { Says (UnlikeAll code.now.names of.now ts.now) result }
{
    if all_are(ts, of) {
        return Ok(());
    }
    Err(Untyped::Misfit(unlike(alloc, code, of, b"parts of this type")?))
}

fn makes_form(
    alloc: Global,
    code: &Code,
    ts: &[ValueType],
    of: &ValueType,
    fields: &List<TypeField>,
) -> Result<(), Untyped>
    requires { of.now ≡ ty.Form fields.now }
    ensures fits { Answers (λ u. MakeUp ts.now of.now) result }
    ensures told { Says (UnlikeParts code.now.names of.now ts.now) result }
{
    let made = form_of(alloc, code, ts)?;
    if same_type(&made, of) {
        return Ok(());
    }
    Err(Untyped::Misfit(mismatch(alloc, code, &made, of)?))
}

/// The parts make up XML of this type.
pub fn makes_up(alloc: Global, code: &Code, ts: &[ValueType], of: &ValueType) -> Result<(), Untyped>
    ensures fits { Answers (λ u. MakeUp ts.now of.now) result }
    ensures told { Says (UnlikeParts code.now.names of.now ts.now) result }
{
    match of {
        ValueType::Int => Err(Untyped::Misfit(unlike(alloc, code, of, b"xml")?)),
        ValueType::Str => Err(Untyped::Misfit(unlike(alloc, code, of, b"xml")?)),
        ValueType::Bool => Err(Untyped::Misfit(unlike(alloc, code, of, b"xml")?)),
        ValueType::Record(_) => Err(Untyped::Misfit(unlike(alloc, code, of, b"xml")?)),
        ValueType::Opt(_) => Err(Untyped::Misfit(unlike(alloc, code, of, b"xml")?)),
        ValueType::Many(_) => Err(Untyped::Misfit(unlike(alloc, code, of, b"xml")?)),
        ValueType::Datatype(_) => Err(Untyped::Misfit(unlike(alloc, code, of, b"xml")?)),
        ValueType::Page => alike(alloc, code, ts, of),
        ValueType::Xbody => alike(alloc, code, ts, of),
        ValueType::Xtable => alike(alloc, code, ts, of),
        ValueType::Xtr => alike(alloc, code, ts, of),
        ValueType::Form(fields) => makes_form(alloc, code, ts, of, fields),
    }
}

/// What holds these parts in a body or form.
pub fn holding(alloc: Global, code: &Code, ts: &[ValueType]) -> Result<ValueType, Untyped>
    ensures fits { Answers (Holds ts.now) result }
    ensures told { Says (UnlikeFlow code.now.names ts.now) result }
{
    if all_are(ts, &ValueType::Xbody) {
        return Ok(ValueType::Xbody);
    }
    form_of(alloc, code, ts)
}

fn place_of(tag: Tag) -> Place
    ensures { result ≡ place_in tag }
{
    match tag {
        Tag::Head => Place::Own(ValueType::Page, ValueType::Page),
        Tag::Title => Place::Own(ValueType::Page, ValueType::Xbody),
        Tag::Body => Place::Own(ValueType::Page, ValueType::Xbody),
        Tag::Table => Place::Own(ValueType::Xbody, ValueType::Xtable),
        Tag::Tr => Place::Own(ValueType::Xtable, ValueType::Xtr),
        Tag::Td => Place::Own(ValueType::Xtr, ValueType::Xbody),
        Tag::Th => Place::Own(ValueType::Xtr, ValueType::Xbody),
        Tag::Form => Place::AroundForm,
        _ => Place::InFlow,
    }
}

/// An element around these parts.
pub fn element(alloc: Global, code: &Code, ts: &[ValueType], tag: Tag) -> Result<ValueType, Untyped>
    ensures fits { Answers (ElementStands tag ts.now) result }
    ensures told { Says (UnlikePlace code.now.names (place_in tag) ts.now) result }
{
    match place_of(tag) {
        Place::InFlow => holding(alloc, code, ts),
        Place::AroundForm => {
            form_of(alloc, code, ts)?;
            Ok(ValueType::Xbody)
        }
        Place::Own(of, within) => {
            makes_up(alloc, code, ts, &within)?;
            Ok(of)
        }
    }
}
