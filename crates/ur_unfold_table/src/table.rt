//! The checked source as a table of forms.
ghost use Rattle.ur_source.specs.Items.{Item};
ghost use Rattle.ur_unfold_pieces.specs.Forming.{OpensItem};
ghost use Rattle.ur_unfold_pieces.specs.Moving.{Moves};
ghost use Rattle.ur_unfold_pieces.specs.Standing.{StandsFor};

use crate::closed::closed_form;
use crate::exps::exp_form;
use crate::folds::folding_form;
use crate::markups::part_form;
use crate::parts::{all, leaf};
use std::alloc::Global;
use ur_meaning::{Halt, Head, Opened, Table};
use ur_terms::{AnswerForm, Op};
use ur_unfold_pieces::{Opening, Piece, body_of};

/// A checked source as a table of forms.
#[derive(Drop)]
pub struct Source<'a> {
    pub of: Opening<'a>,
}

impl<'a> Table for Source<'a> {
    ghost use Rattle.ur_tree.specs.declared.closed.Instance.{Instance};
    ghost use Rattle.ur_source.specs.Items.{Item};
    ghost use Rattle.ur_unfold_pieces.specs.Forming.{IsTooLarge};
    ghost use Rattle.ur_unfold_pieces.specs.Keys.{IsOf};
    ghost use Rattle.ur_unfold_pieces.specs.Standing.{IsWhole, StandsFor, instances_in, language};

    type Piece = Piece<'a>;

    ghost Item = { Item };

    ghost Instance = { Instance };

    ghost language = { λ s. language s.of.typed.now };

    ghost instances = { λ s. instances_in s.of };

    ghost large = { IsTooLarge };

    ghost named = { IsOf };

    ghost stands = { λ s q i. IsWhole s.of × StandsFor s.of q i };

    ghost sound = { λ s. IsWhole s.of };

    fn form(&mut self, alloc: Global, piece: &Piece<'a>) -> Result<Opened<Piece<'a>>, Halt> {
        let opened = piece_form(alloc, &mut self.of, piece);
        self.of.closing.each_once();
        opened
    }

    fn body(&mut self, alloc: Global, number: u32) -> Result<Piece<'a>, Halt> {
        body_of(alloc, &mut self.of, number)
    }

    fn has(&self, number: u32) -> bool {
        (number as usize) < self.of.instances.len()
    }

    fn name(&self, number: u32) -> Option<u32> {
        match self.of.instances.get_index(number as usize) {
            Some(key) => Some(key.function),
            None => None,
        }
    }
}

fn piece_form<'a>(
    alloc: Global,
    table: &mut Opening<'a>,
    piece: &Piece<'a>,
) -> Result<Opened<Piece<'a>>, Halt>
    ensures form { (i : Item) → StandsFor table.old piece.now i → OpensItem table.old table.new i result }
    ensures moves { Moves table.old table.new }
{
    match piece {
        Piece::Exp(scope, e) => exp_form(alloc, table, *scope, e),
        Piece::Part(scope, part) => part_form(alloc, table, *scope, part),
        Piece::Bool(_, b) => leaf(alloc, Head::Bool(*b)),
        Piece::Closed(number) => closed_form(alloc, table, *number),
        Piece::Folding {
            scope,
            step,
            start,
            steps,
            left,
        } => folding_form(alloc, table, *scope, step, start, *steps, *left),
        Piece::Asking(scope, q, args) => {
            let head = Head::Strict(Op::Ask(AnswerForm::All, *q));
            all(alloc, head, *scope, args)
        }
    }
}
