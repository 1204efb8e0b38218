//! Text, and what is spliced.
ghost use Rattle.std.specs.Prelude.{◌≡◌, not, true, false, if◌then◌else◌, Some, None, codes, IfOk, OnOk};
ghost use Rattle.ur_base.specs.Stopping.{IfRefused};
ghost use Rattle.ur_tree.specs.Places as places;
ghost use Rattle.ur_tree.specs.Scalars.{is_basic};
ghost use Rattle.ur_tree.specs.Text.{type_text};
ghost use Rattle.ur_xmltype.specs.Literal as literals;
ghost use Rattle.ur_xmltype.specs.Faults.{IsMisplaced};
ghost use Rattle.ur_xmltype.specs.Views.{place_in, asked_in};

use crate::places::{Place, drops_blank, holds_fields, holds_text, place_type};
use crate::refusals::misplaced;
use std::alloc::Global;
use ur_base::{List, Memory, Refusal, Span, Stop, Text};
use ur_rows::{NormalType, Part, copy_row};
use ur_tree::type_text;

fn is_blank_byte(byte: u8) -> bool
    ensures { result ≡ literals.is_blank_byte byte }
{
    byte == b' ' || (byte == b'\t' || (byte == b'\n' || byte == b'\r'))
}

/// Whether the text is of spaces, tabs and line ends.
pub fn is_blank(text: &[u8]) -> bool
    ensures { result ≡ literals.is_blank text.now }
{
    text.iter().all(|byte| is_blank_byte(*byte))
}

fn is_dropped(place: Place, text: &[u8]) -> bool
    ensures { not result ≡ literals.is_kept (place_in place) text.now }
{
    drops_blank(place) && is_blank(text)
}

/// Whether text stays at a place. Text that may not stand there is E13.
pub fn text_at(alloc: Global, span: Span, place: Place, text: &[u8]) -> Result<bool, Stop>
    ensures kept { IfOk result (λ k. literals.text_at (place_in place) text.now ≡ Some k) }
    ensures refused { IfRefused result (λ r. (literals.text_at (place_in place) text.now ≡ None) × IsMisplaced r (codes "text") (place_in place)) }
{
    if is_dropped(place, text) {
        return Ok(false);
    }
    if holds_text(place) {
        return Ok(true);
    }
    Err(Stop::Refused(misplaced(alloc, span, b"text", place)?))
}

/// `{[e]}` may stand where text does, and is E13 elsewhere.
pub fn may_show(alloc: Global, span: Span, place: Place) -> Result<(), Stop>
    ensures shows { OnOk result (places.holds_text (place_in place) ≡ true) }
    ensures refused { IfRefused result (λ r. (places.holds_text (place_in place) ≡ false) × IsMisplaced r (codes "text") (place_in place)) }
{
    if holds_text(place) {
        return Ok(());
    }
    Err(Stop::Refused(misplaced(alloc, span, b"text", place)?))
}

fn is_basic(of: &NormalType) -> bool
    ensures { result ≡ is_basic of.now }
{
    match of {
        NormalType::Int => true,
        NormalType::Str => true,
        NormalType::Bool => true,
        _ => false,
    }
}

/// A type that is found where another one is wanted at that place.
fn other_type(
    alloc: Global,
    names: &[Text],
    span: Span,
    place: Place,
    found: &NormalType,
) -> Result<Refusal, Memory>
    ensures { IfOk result (λ r. IsMisplaced r (type_text names.now found.now) (place_in place)) }
{
    let text = type_text(alloc, names, found)?;
    let refusal = misplaced(alloc, span, text.as_slice(), place)?;
    Ok(refusal)
}

/// The type that is found of e in `{[e]}` is int, string or bool, or else E13.
pub fn shown_at(
    alloc: Global,
    names: &[Text],
    span: Span,
    place: Place,
    found: &NormalType,
) -> Result<(), Stop>
    ensures shown { OnOk result (is_basic found.now ≡ true) }
    ensures refused { IfRefused result (λ r. (is_basic found.now ≡ false) × IsMisplaced r (type_text names.now found.now) (place_in place)) }
{
    if is_basic(found) {
        return Ok(());
    }
    Err(Stop::Refused(other_type(alloc, names, span, place, found)?))
}

/// What is asked of an expression that is spliced: any type that is found of it, which then decides, or this one.
#[derive(Drop)]
pub enum Asked {
    Decides,
    Asks(NormalType),
}

fn asked_in_form(lacks: bool) -> Asked
    ensures { asked_in result ≡ (if lacks then literals.asks NormalType.Xbody else literals.decides) }
{
    match lacks {
        true => Asked::Asks(NormalType::Xbody),
        false => Asked::Decides,
    }
}

/// What is asked of `{e}` at a place, `lacks` saying that no type is found of e. It is E13 where no XML is spliced.
pub fn splice_at(alloc: Global, span: Span, place: Place, lacks: bool) -> Result<Asked, Stop>
    ensures asked { IfOk result (λ a. literals.splice_at (place_in place) lacks ≡ Some (asked_in a)) }
    ensures refused { IfRefused result (λ r. (literals.splice_at (place_in place) lacks ≡ None) × IsMisplaced r (codes "{e}") (place_in place)) }
{
    if holds_fields(place) {
        return Ok(asked_in_form(lacks));
    }
    match place_type(place) {
        Some(of) => Ok(Asked::Asks(of)),
        None => Err(Stop::Refused(misplaced(alloc, span, b"{e}", place)?)),
    }
}

/// The fields of what is spliced into a form, by the type that is found of it: those of its row, or none of a body. Any
/// other type is E13.
#[tactic(auto, using(crate::proofs::Equations::forms))]
pub fn fields_found(
    alloc: Global,
    names: &[Text],
    span: Span,
    place: Place,
    found: &NormalType,
) -> Result<List<Part>, Stop>
    ensures row { IfOk result (λ r. places.fields_found found.now ≡ Some r) }
    ensures refused { IfRefused result (λ r. (places.fields_found found.now ≡ None) × IsMisplaced r (type_text names.now found.now) (place_in place)) }
{
    match found {
        NormalType::Form(row) => Ok(copy_row(alloc, row)?),
        NormalType::Xbody => Ok(List::new(alloc)),
        _ => Err(Stop::Refused(other_type(alloc, names, span, place, found)?)),
    }
}
