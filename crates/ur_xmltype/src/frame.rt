//! The frame of a page.
ghost use Rattle.std.specs.Prelude.{◌≡◌, [], false, None, OnOk, option_map};
ghost use Rattle.ur_base.specs.Stopping.{IfRefused};
ghost use Rattle.ur_tree.specs.Places as places;
ghost use Rattle.ur_xmltype.specs.Literal as literals;
ghost use Rattle.ur_xmltype.specs.Faults.{IsBadFrame};
ghost use Rattle.ur_xmltype.specs.Views.{sort_in, framed_in, step_in};

use crate::places::Place;
use crate::refusals::misplaced;
use crate::sorts::Sort;
use crate::splices::is_blank;
use crate::words::same;
use std::alloc::Global;
use ur_base::{Span, Stop};
use ur_syntax::{XmlForm, XmlPart};

/// A part of a page: blank text, a head, a body, or what may not stand there.
#[derive(Clone, Copy)]
pub enum PagePart<'a> {
    Nothing,
    Head,
    Body,
    Other(&'a [u8]),
}

/// Whether a head and a body stood before, or what breaks the frame.
#[derive(Clone, Copy)]
pub enum Step<'a> {
    GoesOn(bool, bool),
    Breaks(&'a [u8]),
}

fn framed_element<'a>(word: &'a [u8]) -> PagePart<'a>
    ensures { framed_in result ≡ literals.element_framed word.now }
{
    if same(word, b"head") {
        return PagePart::Head;
    }
    if same(word, b"body") {
        return PagePart::Body;
    }
    PagePart::Other(word)
}

fn framed_text<'a>(text: &'a [u8]) -> PagePart<'a>
    ensures { framed_in result ≡ literals.text_framed text.now }
{
    match is_blank(text) {
        true => PagePart::Nothing,
        false => PagePart::Other(b"text"),
    }
}

fn framed_form<'a>(part: &'a XmlPart) -> PagePart<'a>
    ensures { framed_in result ≡ literals.framed_form part.now.form }
{
    match &part.form {
        XmlForm::Text(text) => framed_text(text.as_slice()),
        XmlForm::Show(_) => PagePart::Other(b"text"),
        XmlForm::Splice(_) => PagePart::Other(b"{e}"),
        XmlForm::Element(tag, _, _) => framed_element(tag.word.as_slice()),
    }
}

fn head_step<'a>(had_head: bool, had_body: bool) -> Step<'a>
    ensures { step_in result ≡ literals.framed_step literals.head had_head had_body }
{
    let stood = had_head || had_body;
    match stood {
        true => Step::Breaks(b"head"),
        false => Step::GoesOn(true, had_body),
    }
}

fn framed_step<'a>(part: PagePart<'a>, had_head: bool, had_body: bool) -> Step<'a>
    ensures { step_in result ≡ literals.framed_step (framed_in part.entry) had_head had_body }
{
    match part {
        PagePart::Nothing => Step::GoesOn(had_head, had_body),
        PagePart::Head => head_step(had_head, had_body),
        PagePart::Body => match had_body {
            true => Step::Breaks(b"body"),
            false => Step::GoesOn(had_head, true),
        },
        PagePart::Other(word) => Step::Breaks(word),
    }
}

fn at_end<'a>(had_body: bool) -> Option<&'a [u8]>
    ensures { option_map (λ w. w.now) result ≡ literals.frame_fault [] false had_body }
{
    match had_body {
        true => None,
        false => Some(b"nothing"),
    }
}

/// What breaks the frame of a page.
fn frame_fault<'a>(parts: &'a [XmlPart]) -> Option<&'a [u8]>
    ensures { option_map (λ w. w.now) result ≡ literals.frame_fault parts.now false false }
{
    let mut left = parts;
    let mut had_head = false;
    let mut had_body = false;
    'parts: while let Some((first, rest)) = left.split_first() {
        match framed_step(framed_form(first), had_head, had_body) {
            Step::Breaks(word) => return Some(word),
            Step::GoesOn(head, body) => {
                had_head = head;
                had_body = body;
                left = rest;
            }
        }
    }
    at_end(had_body)
}

/// The parts of a literal of a sort are those of a page, where it is one: blank text, one head before one body, or the
/// body alone. What breaks this frame is E13; where the body is missing its left is `nothing`.
pub fn framed(alloc: Global, span: Span, sort: Sort, parts: &[XmlPart]) -> Result<(), Stop>
    ensures framed { OnOk result (literals.fault_of_sort (sort_in sort) parts.now ≡ None) }
    ensures refused { IfRefused result (IsBadFrame (sort_in sort) parts.now) }
{
    match sort {
        Sort::Page => page_framed(alloc, span, parts),
        _ => Ok(()),
    }
}

fn page_framed(alloc: Global, span: Span, parts: &[XmlPart]) -> Result<(), Stop>
    ensures framed { OnOk result (literals.fault_of_sort places.page parts.now ≡ None) }
    ensures refused { IfRefused result (IsBadFrame places.page parts.now) }
{
    match frame_fault(parts) {
        None => Ok(()),
        Some(word) => Err(Stop::Refused(misplaced(alloc, span, word, Place::Page)?)),
    }
}
