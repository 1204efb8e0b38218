//! The forms of operators.
ghost use Rattle.std.specs.Prelude.{◌∷◌, [], true, false};
ghost use Rattle.ur_meaning.specs.declared.head.Head.TheVariants as head;
ghost use Rattle.ur_unfold_pieces.specs.Told.{exp, bool};
ghost use Rattle.ur_unfold_table.specs.Opened.{IsOpened};
ghost use Rattle.ur_unfold_table.specs.Operators.{unary_op, Operates, IsBinary};

use crate::parts::{boxed_one, boxed_two, three};
use std::alloc::Global;
use ur_base::Boxed;
use ur_meaning::{Halt, Head, Opened};
use ur_terms::Op;
use ur_tree::{Binary, Exp, Unary};
use ur_unfold_pieces::Piece;

pub fn unary_form<'a>(
    alloc: Global,
    scope: u32,
    op: Unary,
    e: &'a Boxed<Exp>,
) -> Result<Opened<Piece<'a>>, Halt>
    ensures { Operates (unary_op op) head.Same (exp scope e.now ∷ []) result }
{
    match op {
        Unary::Neg => boxed_one(alloc, Head::Strict(Op::Neg), scope, e),
        Unary::Not => boxed_one(alloc, Head::Strict(Op::Not), scope, e),
        Unary::Show => boxed_one(alloc, Head::Strict(Op::Show), scope, e),
        Unary::Present => boxed_one(alloc, Head::Strict(Op::Present), scope, e),
        Unary::Return => boxed_one(alloc, Head::Same, scope, e),
    }
}

/// `&&` and `||` leave the right side where the left one decides.
pub fn binary_form<'a>(
    alloc: Global,
    scope: u32,
    op: Binary,
    a: &'a Boxed<Exp>,
    b: &'a Boxed<Exp>,
) -> Result<Opened<Piece<'a>>, Halt>
    ensures { IsBinary op scope a.now b.now result }
{
    match op {
        Binary::Add => boxed_two(alloc, Head::Strict(Op::Add), scope, a, b),
        Binary::Sub => boxed_two(alloc, Head::Strict(Op::Sub), scope, a, b),
        Binary::Mul => boxed_two(alloc, Head::Strict(Op::Mul), scope, a, b),
        Binary::Div => boxed_two(alloc, Head::Strict(Op::Div), scope, a, b),
        Binary::Rem => boxed_two(alloc, Head::Strict(Op::Rem), scope, a, b),
        Binary::Append => boxed_two(alloc, Head::Strict(Op::Append), scope, a, b),
        Binary::Equal => boxed_two(alloc, Head::Strict(Op::Equal), scope, a, b),
        Binary::Unequal => boxed_two(alloc, Head::Strict(Op::Unequal), scope, a, b),
        Binary::Less => boxed_two(alloc, Head::Strict(Op::Less), scope, a, b),
        Binary::LessEqual => boxed_two(alloc, Head::Strict(Op::LessEqual), scope, a, b),
        Binary::Greater => boxed_two(alloc, Head::Strict(Op::Greater), scope, a, b),
        Binary::GreaterEqual => boxed_two(alloc, Head::Strict(Op::GreaterEqual), scope, a, b),
        Binary::Cons => boxed_two(alloc, Head::Strict(Op::Cons), scope, a, b),
        Binary::Join => boxed_two(alloc, Head::Strict(Op::Join), scope, a, b),
        Binary::And => and_form(alloc, scope, a, b),
        Binary::Or => or_form(alloc, scope, a, b),
    }
}

fn and_form<'a>(
    alloc: Global,
    scope: u32,
    a: &'a Boxed<Exp>,
    b: &'a Boxed<Exp>,
) -> Result<Opened<Piece<'a>>, Halt>
    ensures { IsOpened head.Choice (exp scope a.now ∷ exp scope b.now ∷ bool scope false ∷ []) result }
{
    let first = Piece::Exp(scope, a.get());
    let second = Piece::Exp(scope, b.get());
    three(
        alloc,
        Head::Choice,
        first,
        second,
        Piece::Bool(scope, false),
    )
}

fn or_form<'a>(
    alloc: Global,
    scope: u32,
    a: &'a Boxed<Exp>,
    b: &'a Boxed<Exp>,
) -> Result<Opened<Piece<'a>>, Halt>
    ensures { IsOpened head.Choice (exp scope a.now ∷ bool scope true ∷ exp scope b.now ∷ []) result }
{
    let first = Piece::Exp(scope, a.get());
    let second = Piece::Exp(scope, b.get());
    three(alloc, Head::Choice, first, Piece::Bool(scope, true), second)
}
