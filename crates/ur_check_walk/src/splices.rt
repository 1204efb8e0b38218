//! Text in literals of XML, and what is spliced into them.
ghost use Rattle.std.specs.Prelude.{◌≡◌, [], Some, None, IfOk, option_and_then, slice_get, true, false, codes};
ghost use Rattle.ur_base.specs.Stopping.{IfRefused};
ghost use Rattle.ur_syntax.specs.declared.xml.XmlForm.TheVariants as form;
ghost use Rattle.ur_tree.specs.Places as places;
ghost use Rattle.ur_tree.specs.Places.{Place as GhostPlace};
ghost use Rattle.ur_tree.specs.Scalars.{is_basic};
ghost use Rattle.ur_tree.specs.Text as texts;
ghost use Rattle.ur_xmltype.specs.Faults.{IsMisplaced};
ghost use Rattle.ur_xmltype.specs.Literal as literals;
ghost use Rattle.ur_xmltype.specs.Views.{place_in, asked_in};
ghost use Rattle.ur_tree.specs.declared.exp.Markup.TheVariants as markup;
ghost use Rattle.ur_typed.specs.Rules.{Sites as GhostSites};
ghost use Rattle.ur_typed.specs.Markups as markups;
ghost use Rattle.ur_check_forms.specs.Views.{marked_with};
ghost use Rattle.ur_check_walk.specs.Promises.{StandsSomewhere};
ghost use Rattle.ur_check_walk.specs.Marking.{GivesPart, TellsPart};
ghost use Rattle.ur_check_walk.specs.Splicing.{GivesAsked, TellsAsked};

use crate::markup::Within;
use crate::walk::typed;
use std::alloc::Global;
use ur_base::{Boxed, List, Memory, Span, Stop};
use ur_check_forms::{Marked, mark_of, no_marks};
use ur_check_rules::{Out, Sites, lacks_type};
use ur_check_scopes::Around;
use ur_rows::{NormalType, Part};
use ur_syntax::Exp;
use ur_tree::{Exp as Resolved, Markup};
use ur_xmltype::{Asked, Place, fields_found, may_show, shown_at, splice_at, text_at};

/// Text, which is dropped where it is blank and the place holds no text.
pub fn text_out(alloc: Global, span: Span, place: Place, text: &[u8]) -> Result<Marked, Stop>
    ensures text { IfOk result (λ d. (st : GhostSites) → markups.text_out (place_in place) text.now st ≡ Some (marked_with d st)) }
    ensures refused { IfRefused result (λ r. (literals.text_at (place_in place) text.now ≡ None) × IsMisplaced r (codes "text") (place_in place)) }
{
    let kept = text_at(alloc, span, place, text)?;
    if kept {
        let made = text_mark(alloc, text)?;
        return Ok(made);
    }
    Ok(no_marks(alloc))
}

fn text_mark(alloc: Global, text: &[u8]) -> Result<Marked, Memory>
    ensures { IfOk result (λ d. (st : GhostSites) → markups.one_mark [] [] (markup.Text text.now) st ≡ Some (marked_with d st)) }
{
    let copy = List::from_slice(alloc, text)?;
    let made = alone(alloc, List::new(alloc), Markup::Text(copy))?;
    Ok(made)
}

/// A part for which no button waits.
fn alone(alloc: Global, row: List<Part>, mark: Markup) -> Result<Marked, Memory>
    ensures { IfOk result (λ d. (st : GhostSites) → markups.one_mark row [] mark st ≡ Some (marked_with d st)) }
{
    let waiting = List::new(alloc);
    let made = mark_of(alloc, row, waiting, mark)?;
    Ok(made)
}

/// The splice with this number. The parser gives none that is not there.
fn splice_of<'a>(within: &Within<'a>, number: u32) -> Result<&'a Exp, Memory>
    ensures { IfOk result (λ x. slice_get within.now.splices.now number ≡ Some x.now) }
{
    match within.splices.get(number as usize) {
        Some(e) => Ok(e),
        None => Err(Memory),
    }
}

/// `{[e]}`.
#[cycle(walk)]
pub fn shown(
    alloc: Global,
    around: &Around,
    sites: &mut Sites,
    within: &Within,
    span: Span,
    number: u32,
    place: Place,
) -> Result<Marked, Stop>
    requires { StandsSomewhere around.now }
    ensures typed { IfOk result (λ d. GivesPart around.now sites.old within.now (place_in place) (form.Show number) d sites.new) }
    ensures refused { IfRefused result (TellsPart around.now sites.old within.now (place_in place) (form.Show number)) }
{
    may_show(alloc, span, place)?;
    let e = splice_of(within, number)?;
    let out = typed(alloc, around, sites, e, None)?;
    let made = shown_out(alloc, around, e.span, place, out)?;
    Ok(made)
}

/// What is shown as text is of a basic type.
fn shown_out(
    alloc: Global,
    around: &Around,
    span: Span,
    place: Place,
    out: Out,
) -> Result<Marked, Stop>
    ensures basic { IfOk result (λ d. is_basic out.of ≡ true) }
    ensures mark { IfOk result (λ d. (st : GhostSites) → markups.one_mark [] [] (markup.Shown out.exp) st ≡ Some (marked_with d st)) }
    ensures refused { IfRefused result (λ r. (is_basic out.of ≡ false) × IsMisplaced r (texts.type_text around.now.world.now.datatype_names out.of) (place_in place)) }
{
    let names = around.world.datatype_names.as_slice();
    shown_at(alloc, names, span, place, &out.of)?;
    let made = shown_mark(alloc, out.exp)?;
    Ok(made)
}

fn shown_mark(alloc: Global, e: Boxed<Resolved>) -> Result<Marked, Memory>
    ensures { IfOk result (λ d. (st : GhostSites) → markups.one_mark [] [] (markup.Shown e) st ≡ Some (marked_with d st)) }
{
    let none = List::new(alloc);
    let made = alone(alloc, none, Markup::Shown(e.into_inner()))?;
    Ok(made)
}

fn splice_mark(alloc: Global, row: List<Part>, e: Boxed<Resolved>) -> Result<Marked, Memory>
    ensures { IfOk result (λ d. (st : GhostSites) → markups.one_mark row [] (markup.Splice e) st ≡ Some (marked_with d st)) }
{
    let made = alone(alloc, row, Markup::Splice(e.into_inner()))?;
    Ok(made)
}

/// `{e}`.
#[cycle(walk)]
pub fn spliced(
    alloc: Global,
    around: &Around,
    sites: &mut Sites,
    within: &Within,
    span: Span,
    number: u32,
    place: Place,
) -> Result<Marked, Stop>
    requires { StandsSomewhere around.now }
    ensures typed { IfOk result (λ d. GivesPart around.now sites.old within.now (place_in place) (form.Splice number) d sites.new) }
    ensures refused { IfRefused result (TellsPart around.now sites.old within.now (place_in place) (form.Splice number)) }
{
    let e = splice_of(within, number)?;
    let lacks = lacks_type(e);
    let asked = splice_at(alloc, span, place, lacks)?;
    let made = splice_asked(alloc, around, sites, e, &asked, place)?;
    Ok(made)
}

/// A splice of which this is asked.
#[cycle(walk)]
fn splice_asked(
    alloc: Global,
    around: &Around,
    sites: &mut Sites,
    e: &Exp,
    asked: &Asked,
    place: Place,
) -> Result<Marked, Stop>
    requires { StandsSomewhere around.now }
    ensures typed { IfOk result (λ d. GivesAsked around.now sites.old e.now.form (asked_in asked.now) d sites.new) }
    ensures refused { IfRefused result (TellsAsked around.now sites.old (place_in place) e.now.form (asked_in asked.now)) }
{
    match asked {
        Asked::Decides => found_splice(alloc, around, sites, e, place),
        Asked::Asks(of) => typed_splice(alloc, around, sites, e, of),
    }
}

/// A splice whose type decides which fields it gives.
#[cycle(walk)]
fn found_splice(
    alloc: Global,
    around: &Around,
    sites: &mut Sites,
    e: &Exp,
    place: Place,
) -> Result<Marked, Stop>
    requires { StandsSomewhere around.now }
    ensures typed { IfOk result (λ d. GivesAsked around.now sites.old e.now.form literals.decides d sites.new) }
    ensures refused { IfRefused result (TellsAsked around.now sites.old (place_in place) e.now.form literals.decides) }
{
    let out = typed(alloc, around, sites, e, None)?;
    let made = fields_out(alloc, around, e.span, place, out)?;
    Ok(made)
}

/// The fields of what is spliced into a form.
fn fields_out(
    alloc: Global,
    around: &Around,
    span: Span,
    place: Place,
    out: Out,
) -> Result<Marked, Stop>
    ensures mark { IfOk result (λ d. (st : GhostSites) → option_and_then (λ r. markups.one_mark r [] (markup.Splice out.exp) st) (places.fields_found out.of) ≡ Some (marked_with d st)) }
    ensures refused { IfRefused result (λ r. (places.fields_found out.of ≡ None) × IsMisplaced r (texts.type_text around.now.world.now.datatype_names out.of) (place_in place)) }
{
    let names = around.world.datatype_names.as_slice();
    let row = fields_found(alloc, names, span, place, &out.of)?;
    let made = splice_mark(alloc, row, out.exp)?;
    Ok(made)
}

/// A splice of which a type is wanted.
#[cycle(walk)]
fn typed_splice(
    alloc: Global,
    around: &Around,
    sites: &mut Sites,
    e: &Exp,
    of: &NormalType,
) -> Result<Marked, Stop>
    requires { StandsSomewhere around.now }
    ensures typed { IfOk result (λ d. GivesAsked around.now sites.old e.now.form (literals.asks of.now) d sites.new) }
    ensures refused { IfRefused result (λ r. (p : GhostPlace) → TellsAsked around.now sites.old p e.now.form (literals.asks of.now) r) }
{
    let out = typed(alloc, around, sites, e, Some(of))?;
    let none = List::new(alloc);
    let made = splice_mark(alloc, none, out.exp)?;
    Ok(made)
}
