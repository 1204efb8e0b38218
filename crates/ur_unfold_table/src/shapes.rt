//! The forms of expressions that need no scope.
ghost use Rattle.std.specs.Prelude.{◌∷◌, []};
ghost use Rattle.ur_terms.specs.declared.term.Op.TheVariants as op;
ghost use Rattle.ur_meaning.specs.declared.head.Head.TheVariants as heads;
ghost use Rattle.ur_unfold_pieces.specs.Told.{exp, asking};
ghost use Rattle.ur_unfold_table.specs.Opened.{IsOpened};

use crate::parts::{leaf, three, two};
use std::alloc::Global;
use ur_base::{Boxed, List, Text};
use ur_meaning::{Halt, Head, Opened};
use ur_terms::Op;
use ur_tree::Exp;
use ur_unfold_pieces::Piece;

pub fn text_form<'a>(alloc: Global, text: &Text) -> Result<Opened<Piece<'a>>, Halt>
    ensures { IsOpened (heads.Text text.now) [] result }
{
    let text = List::from_slice(alloc, text.as_slice())?;
    leaf(alloc, Head::Text(text))
}

/// The text of XML.
pub fn shown_text_form<'a>(alloc: Global, text: &Text) -> Result<Opened<Piece<'a>>, Halt>
    ensures { IsOpened (heads.Strict (op.Text text.now)) [] result }
{
    let text = List::from_slice(alloc, text.as_slice())?;
    leaf(alloc, Head::Strict(Op::Text(text)))
}

pub fn choice_form<'a>(
    alloc: Global,
    scope: u32,
    c: &'a Boxed<Exp>,
    a: &'a Boxed<Exp>,
    b: &'a Boxed<Exp>,
) -> Result<Opened<Piece<'a>>, Halt>
    ensures { IsOpened heads.Choice (exp scope c.now ∷ exp scope a.now ∷ exp scope b.now ∷ []) result }
{
    let first = Piece::Exp(scope, c.get());
    let second = Piece::Exp(scope, a.get());
    let third = Piece::Exp(scope, b.get());
    three(alloc, Head::Choice, first, second, third)
}

pub fn each_form<'a>(
    alloc: Global,
    scope: u32,
    q: u32,
    args: &'a List<Exp>,
    body: &'a Boxed<Exp>,
) -> Result<Opened<Piece<'a>>, Halt>
    ensures { IsOpened heads.Each (asking scope q args.now ∷ exp scope body.now ∷ []) result }
{
    let rows = Piece::Asking(scope, q, args);
    let each = Piece::Exp(scope, body.get());
    two(alloc, Head::Each, rows, each)
}
