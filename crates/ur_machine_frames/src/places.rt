//! Where the frames of a machine lead, kept within a turn so that no step walks there from the function's body.
ghost use Rattle.std.specs.Prelude.{◌≡◌, ◌∷◌, [], List, Some, reverse};
ghost use Rattle.std.specs.Option.{option_copied};
ghost use Rattle.ur_terms.specs.declared.term.Function.{Function};
ghost use Rattle.ur_machine_frames.specs.declared.frame.Frame.{Frame};
ghost use Rattle.ur_machine_frames.specs.declared.frame.Frames.{Frames};
ghost use Rattle.ur_machine_frames.specs.Rest.{standing};
ghost use Rattle.ur_machine_frames.specs.Steps.{below, IsAbove, NextStands};
ghost use Rattle.ur_machine_frames.specs.Places.{AreLed, IfOn};

use crate::control::{Control, Next};
use crate::frame::Frame;
use crate::stack::Stack;
use crate::walk::part_at;
use std::alloc::Global;
use ur_base::List;
use ur_terms::{Function, Term};

/// The terms to which the nearest frames lead, as many as are known: the others are found when they are asked for. Where
/// memory is wanting none is known.
#[derive(Drop)]
pub(crate) struct Places<'a> {
    pub(crate) known: Stack<&'a Term>,
}

impl<'a> Places<'a> {
    pub(crate) fn new(alloc: Global) -> Places<'a>
        ensures { result.known ≡ [] }
    {
        Places {
            known: Stack::new(alloc),
        }
    }

    /// A frame on top leads to this term.
    fn note(&mut self, place: &'a Term)
        ensures { (fs : List Function) (f : Frame) (frames : List Frame) → AreLed fs frames self.old.known → standing fs (f ∷ frames) ≡ Some place.now → AreLed fs (f ∷ frames) self.new.known }
    {
        match self.known.push(place) {
            Ok(()) => {}
            Err(_wanting) => self.known.clear(),
        }
    }

    /// A step is done: a term that is entered is where the frames lead.
    pub(crate) fn follow(&mut self, next: &Next<'a>)
        ensures { (fs : List Function) (frames : List Frame) (m : Frames) → AreLed fs frames self.old.known → IsAbove frames m.frames next.now → NextStands fs m next.now → IfOn next.now (AreLed fs m.frames self.new.known) }
    {
        match next {
            Next::On(control) => match control {
                Control::Enter(term) => self.note(*term),
                Control::Give(_) => {}
            },
            Next::Off(_) => {}
        }
    }

    /// The nearest frame is left: the term to which those below it lead.
    pub(crate) fn leave(
        &mut self,
        functions: &'a List<Function>,
        frames: &Stack<Frame>,
    ) -> Option<&'a Term>
        requires { AreLed functions.now frames.now self.old.known }
        ensures place { option_copied result ≡ standing functions.now (below frames.now) }
        ensures led { AreLed functions.now (below frames.now) self.new.known }
    {
        let _ = self.known.pop();
        match self.known.get(0).copied() {
            Some(place) => Some(place),
            None => self.find_below(functions, frames.as_slice()),
        }
    }

    /// The term to which the frames below the nearest lead; the frames stand with the nearest last.
    fn find_below(&mut self, functions: &'a List<Function>, frames: &[Frame]) -> Option<&'a Term>
        ensures place { option_copied result ≡ standing functions.now (below (reverse frames.now)) }
        ensures led { AreLed functions.now (below (reverse frames.now)) self.new.known }
    {
        match frames {
            [] => self.forget(),
            [under @ .., _nearest] => self.find(functions, under),
        }
    }

    /// No term.
    fn forget(&mut self) -> Option<&'a Term>
        ensures none { result ≡ None }
        ensures known { self.new.known ≡ [] }
    {
        self.known.clear();
        None
    }

    /// The term to which the frames lead, and those on the way there from the nearest function's body.
    fn find(&mut self, functions: &'a List<Function>, frames: &[Frame]) -> Option<&'a Term>
        ensures place { option_copied result ≡ standing functions.now (reverse frames.now) }
        ensures led { AreLed functions.now (reverse frames.now) self.new.known }
    {
        match frames {
            [] => self.forget(),
            [under @ .., Frame::Body { function, .. }] => {
                self.forget();
                match functions.get(*function as usize) {
                    Some(called) => self.found(&called.body),
                    None => None,
                }
            }
            [under @ .., frame] => match self.find(functions, under) {
                Some(place) => match part_at(frame, place) {
                    Some(part) => self.found(part),
                    None => self.forget(),
                },
                None => self.forget(),
            },
        }
    }

    /// A frame on top leads to this term, which is given.
    fn found(&mut self, place: &'a Term) -> Option<&'a Term>
        ensures place { option_copied result ≡ Some place.now }
        ensures led { (fs : List Function) (f : Frame) (frames : List Frame) → AreLed fs frames self.old.known → standing fs (f ∷ frames) ≡ Some place.now → AreLed fs (f ∷ frames) self.new.known }
    {
        self.note(place);
        Some(place)
    }
}
