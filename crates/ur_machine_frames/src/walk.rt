//! Where frames lead.
ghost use Rattle.std.specs.Prelude.{◌≡◌, ◌++◌, ◌∷◌, [], reverse, slice_get, option_and_then};
ghost use Rattle.std.specs.Option.{option_copied};
ghost use Rattle.ur_terms.specs.declared.term.Term.{out-Term};
ghost use Rattle.ur_machine_frames.specs.Rest.{args_of, part, standing};
ghost use Rattle.ur_machine_frames.specs.Steps.{IsFound};

use crate::control::{Found, Matched};
use crate::frame::Frame;
use crate::operations::Operations;
use ur_base::List;
use ur_terms::{Branch, Function, Term};
use ur_values::Value;

/// An argument of an operation, a call or a `let`.
pub(crate) fn argument(place: &Term, number: usize) -> Option<&Term>
    ensures { option_copied result ≡ option_and_then (λ args. slice_get args number) (args_of (out-Term place.now)) }
{
    match place {
        Term::Make(_, args) => args.get(number),
        Term::Call(_, args) => args.get(number),
        Term::Let(args, _) => args.get(number),
        _ => None,
    }
}

/// The part of a term that a frame leads to.
pub(crate) fn part_at<'a>(frame: &Frame, place: &'a Term) -> Option<&'a Term>
    ensures { option_copied result ≡ part frame.now (out-Term place.now) }
{
    match (frame, place) {
        (Frame::Args(done), _) => argument(place, done.len()),
        (Frame::LetBody(_), Term::Let(_, body)) => Some(body.get()),
        (Frame::Condition, Term::If(condition, _, _)) => Some(condition.get()),
        (Frame::Side(true), Term::If(_, yes, _)) => Some(yes.get()),
        (Frame::Side(false), Term::If(_, _, no)) => Some(no.get()),
        (Frame::Subject, Term::Case(subject, _)) => Some(subject.get()),
        (Frame::Branch { number, .. }, Term::Case(_, branches)) => match branches.get(*number) {
            Some(branch) => Some(&branch.body),
            None => None,
        },
        (Frame::Rows, Term::Each(rows, _)) => Some(rows.get()),
        (Frame::Item { .. }, Term::Each(_, body)) => Some(body.get()),
        _ => None,
    }
}

/// The term that the nearest frame leads to; the frames stand with the nearest last.
pub fn standing_at<'a>(functions: &'a List<Function>, frames: &[Frame]) -> Option<&'a Term>
    ensures { option_copied result ≡ standing functions.now (reverse frames.now) }
{
    match frames {
        [] => None,
        [below @ .., Frame::Body { function, .. }] => match functions.get(*function as usize) {
            Some(called) => Some(&called.body),
            None => None,
        },
        [below @ .., frame] => match standing_at(functions, below) {
            Some(place) => part_at(frame, place),
            None => None,
        },
    }
}

/// The first branch whose pattern matches.
pub(crate) fn find_branch<'a, O: Operations>(
    operations: &O,
    branches: &'a List<Branch>,
    value: Value,
) -> Found<'a>
    ensures { IsFound branches.now value result }
{
    let mut value = value;
    for (number, branch) in branches.as_slice().iter().enumerate() {
        match operations.bind(&branch.pattern, value) {
            Matched::Yes(bound) => return Found::Branch(number, branch, bound),
            Matched::No(same) => value = same,
            Matched::Memory => return Found::Memory,
        }
    }
    Found::None
}
