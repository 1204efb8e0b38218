//! Whether a variable is read again in what is left of the nearest function's run.
ghost use Rattle.std.specs.Prelude.{◌≡◌, ◌<◌, ◌∷◌, List, IsTrue, drop, length, reverse, suc};
ghost use Rattle.ur_terms.specs.declared.term.Term.{out-Term};
ghost use Rattle.ur_terms.specs.declared.term.Function.{Function};
ghost use Rattle.ur_machine_frames.specs.Unread.{AreUnread};
ghost use Rattle.ur_machine_frames.specs.Places.{AreLed};
ghost use Rattle.ur_machine_frames.specs.Rest.{standing};
ghost use Rattle.ur_machine_frames.specs.Over.{Outside, LeavesUnread, IsThere, IsOver};

use crate::frame::Frame;
use crate::{are_branches_unread, are_unread, is_unread, is_unread_under};
use ur_base::List;
use ur_terms::Term;
use ur_values::Value;

/// How many looks for a later read are worth while to save the copy of a value.
pub(crate) fn weight(value: &Value) -> usize {
    match value {
        Value::Int(_) => 0,
        Value::Bool(_) => 0,
        Value::Absent => 0,
        Value::Str(text) => text.len(),
        Value::Row(fields) => fields.len(),
        Value::Many(items) => items.len(),
        Value::Present(_) => 1,
        Value::Tagged(_, _) => 1,
        Value::Markup(nodes) => nodes.len(),
    }
}

/// Whether no frame up to the nearest function's body reads the variable, as far as it is seen by so many looks; the
/// frames, and the terms to which they lead, stand with the nearest last.
#[cycle(over)]
pub(crate) fn is_over(frames: &[Frame], places: &[&Term], number: usize, looks: &mut usize) -> bool
    ensures { (fs : List Function) → AreLed fs (reverse frames.now) (reverse places.now) → IsTrue result → IsOver fs (reverse frames.now) number }
{
    if *looks == 0 {
        return false;
    }
    *looks -= 1;
    match frames.split_last() {
        None => true,
        Some((frame, under)) => is_over_with(under, frame, places, number, looks),
    }
}

/// The same of a frame and those under it, and the terms to which they lead.
#[cycle(over)]
fn is_over_with(
    under: &[Frame],
    frame: &Frame,
    places: &[&Term],
    number: usize,
    looks: &mut usize,
) -> bool
    ensures { (fs : List Function) → AreLed fs (frame.now ∷ reverse under.now) (reverse places.now) → IsTrue result → IsOver fs (frame.now ∷ reverse under.now) number }
{
    match places.split_last() {
        None => false,
        Some((_nearest, known)) => is_over_from(under, frame, known, number, looks),
    }
}

/// The same of a frame and those under it, and the terms to which these alone lead.
#[cycle(over)]
fn is_over_from(
    under: &[Frame],
    frame: &Frame,
    known: &[&Term],
    number: usize,
    looks: &mut usize,
) -> bool
    ensures { (fs : List Function) → AreLed fs (reverse under.now) (reverse known.now) → IsTrue result → IsOver fs (frame.now ∷ reverse under.now) number }
{
    match frame {
        Frame::Body { .. } => true,
        Frame::LetBody(bound) => is_over_outside(under, known, *bound, number, looks),
        Frame::Branch { bound, .. } => is_over_outside(under, known, *bound, number, looks),
        Frame::Side(_) => is_over(under, known, number, looks),
        Frame::Item { rest, .. } => {
            if !rest.as_slice().is_empty() {
                return false;
            }
            is_over_outside(under, known, 1, number, looks)
        }
        Frame::Args(_) => is_over_head(under, frame, known, number, looks),
        Frame::Condition => is_over_head(under, frame, known, number, looks),
        Frame::Subject => is_over_head(under, frame, known, number, looks),
        Frame::Rows => is_over_head(under, frame, known, number, looks),
    }
}

/// The same outside a binder of so many variables.
#[cycle(over)]
fn is_over_outside(
    under: &[Frame],
    known: &[&Term],
    bound: usize,
    number: usize,
    looks: &mut usize,
) -> bool
    ensures { (fs : List Function) → AreLed fs (reverse under.now) (reverse known.now) → IsTrue result → Outside bound number (IsOver fs (reverse under.now)) }
{
    if number < bound {
        true
    } else {
        is_over(under, known, number - bound, looks)
    }
}

/// The same of a frame that goes on in its term.
#[cycle(over)]
fn is_over_head(
    under: &[Frame],
    frame: &Frame,
    known: &[&Term],
    number: usize,
    looks: &mut usize,
) -> bool
    ensures { (fs : List Function) → AreLed fs (reverse under.now) (reverse known.now) → IsTrue result → IsThere (standing fs (reverse under.now)) (λ a. LeavesUnread frame.now a number) × IsOver fs (reverse under.now) number }
{
    match known {
        [] => false,
        [.., place] => {
            if !leaves_unread(frame, place, number, looks) {
                return false;
            }
            is_over(under, known, number, looks)
        }
    }
}

/// Whether what a frame still evaluates of its term does not read the variable.
fn leaves_unread(frame: &Frame, place: &Term, number: usize, looks: &mut usize) -> bool
    ensures { IsTrue result → LeavesUnread frame.now (out-Term place.now) number }
{
    match (frame, place) {
        (Frame::Args(done), Term::Make(_, args)) => rest_unread(args, done.len(), number, looks),
        (Frame::Args(done), Term::Call(_, args)) => rest_unread(args, done.len(), number, looks),
        (Frame::Args(done), Term::Let(args, body)) => {
            if !rest_unread(args, done.len(), number, looks) {
                return false;
            }
            is_unread_under(body.get(), args.len(), number, looks)
        }
        (Frame::Condition, Term::If(_, yes, no)) => {
            if !is_unread(yes.get(), number, looks) {
                return false;
            }
            is_unread(no.get(), number, looks)
        }
        (Frame::Subject, Term::Case(_, branches)) => {
            are_branches_unread(branches.as_slice(), number, looks)
        }
        (Frame::Rows, Term::Each(_, body)) => is_unread_under(body.get(), 1, number, looks),
        _ => false,
    }
}

/// Whether the arguments after the next one do not read the variable.
fn rest_unread(args: &List<Term>, done: usize, number: usize, looks: &mut usize) -> bool
    ensures { IsTrue result → (done < length args.now) × AreUnread number (drop (suc done) args.now) }
{
    let args = args.as_slice();
    if done < args.len() {
        are_unread(&args[done + 1..], number, looks)
    } else {
        false
    }
}
