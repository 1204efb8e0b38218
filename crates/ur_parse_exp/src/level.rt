//! Operators.
ghost use Rattle.std.specs.Prelude.{◌≡◌, IfOk, Some};
ghost use Rattle.ur_parse_rules.specs.Places.{Moves, Reads, Refuses, IfRefused};
ghost use Rattle.ur_parse_rules.specs.ExpParts as e;
ghost use Rattle.ur_parse_rules.specs.Parts.{of_exp};
ghost use Rattle.ur_parse_rules.specs.Language.{language};
ghost use Rattle.ur_parse_con.specs.Operators.{level_of, SignAt};
ghost use Rattle.ur_parse_exp_parts.specs.Lists.{StepRead};

use crate::atom::{argument, head};
use crate::signs::{past_signs, signed};
use std::alloc::Global;
use ur_base::{Boxed, List, Stop};
use ur_lex::{Symbol, TokenKind, Tokens};
use ur_parse_con::{Level, Sign, comparison_at, sign_at, taller};
use ur_parse_exp_parts::{
    Double, Piece, apply, greatest_height, listed, may_grow, read_gone, sees_argument, with_two,
};
use ur_parse_rules::{Parsed, pushed, sees, span, unexpected};
use ur_syntax::Exp;

/// What the operators of a level stand between.
#[cycle(exp)]
fn operand(
    alloc: Global,
    tokens: &Tokens,
    at: usize,
    depth: usize,
    levels: usize,
    level: Level,
) -> Result<Parsed<Boxed<Exp>>, Stop>
    ensures moves { IfOk result (λ p. Moves tokens.now at p.end) }
    ensures found { IfOk result (λ p. Reads language depth tokens.now at p.end (of_exp (e.operand (level_of level))) p.tree) }
    ensures refused { IfRefused result (λ r. Refuses language depth tokens.now at (of_exp (e.operand (level_of level))) r) }
{
    match level {
        Level::Disjunction => {
            let made = left(alloc, tokens, at, depth, levels, Level::Conjunction)?;
            Ok(made)
        }
        Level::Conjunction => {
            let made = comparison(alloc, tokens, at, depth, levels)?;
            Ok(made)
        }
        Level::Append => {
            let made = left(alloc, tokens, at, depth, levels, Level::Sum)?;
            Ok(made)
        }
        Level::Sum => {
            let made = left(alloc, tokens, at, depth, levels, Level::Product)?;
            Ok(made)
        }
        Level::Product => {
            let made = negative(alloc, tokens, at, depth, levels)?;
            Ok(made)
        }
    }
}

/// Operands with the operators of a level between, which group to the left.
#[cycle(exp)]
pub fn left(
    alloc: Global,
    tokens: &Tokens,
    at: usize,
    depth: usize,
    levels: usize,
    level: Level,
) -> Result<Parsed<Boxed<Exp>>, Stop>
    ensures moves { IfOk result (λ p. Moves tokens.now at p.end) }
    ensures found { IfOk result (λ p. Reads language depth tokens.now at p.end (of_exp (e.left (level_of level))) p.tree) }
    ensures refused { IfRefused result (λ r. Refuses language depth tokens.now at (of_exp (e.left (level_of level))) r) }
{
    let mut whole = operand(alloc, tokens, at, depth, levels, level)?;
    let greatest = greatest_height(depth);
    'steps: while let Some(sign) = sign_at(tokens, whole.end, level) {
        may_grow(whole.height, greatest)?;
        whole = step(alloc, tokens, at, depth, levels, level, sign, whole)?;
    }
    Ok(whole)
}

/// What stands before an operator, with the operator and its right side.
#[cycle(exp)]
fn step(
    alloc: Global,
    tokens: &Tokens,
    from: usize,
    depth: usize,
    levels: usize,
    level: Level,
    sign: Sign,
    whole: Parsed<Boxed<Exp>>,
) -> Result<Parsed<Boxed<Exp>>, Stop>
    requires moving { Moves tokens.now from whole.end }
    requires signed { SignAt tokens.now whole.end level (Some sign) }
    ensures moves { IfOk result (λ p. Moves tokens.now whole.end p.end) }
    ensures found { IfOk result (λ p. StepRead depth (level_of level) tokens.now from whole.end p.end whole.tree p.tree) }
    ensures refused { IfRefused result (λ r. Refuses language depth tokens.now whole.end (of_exp (e.left_step (level_of level))) r) }
{
    match sign {
        Sign::Infix(op) => {
            let right = operand(alloc, tokens, whole.end + 1, depth, levels, level)?;
            let covered = span(tokens, from, right.end);
            let made = with_two(alloc, covered, Double::Binary(op), whole, right)?;
            Ok(made)
        }
        Sign::Remove => {
            let made = read_gone(alloc, tokens, from, whole)?;
            Ok(made)
        }
    }
}

/// A comparison, of which there is no chain.
#[cycle(exp)]
fn comparison(
    alloc: Global,
    tokens: &Tokens,
    at: usize,
    depth: usize,
    levels: usize,
) -> Result<Parsed<Boxed<Exp>>, Stop>
    ensures moves { IfOk result (λ p. Moves tokens.now at p.end) }
    ensures found { IfOk result (λ p. Reads language depth tokens.now at p.end (of_exp e.comparison) p.tree) }
    ensures refused { IfRefused result (λ r. Refuses language depth tokens.now at (of_exp e.comparison) r) }
{
    let first = cons(alloc, tokens, at, depth, levels)?;
    match comparison_at(tokens, first.end) {
        None => Ok(first),
        Some(op) => {
            let second = cons(alloc, tokens, first.end + 1, depth, levels)?;
            match comparison_at(tokens, second.end) {
                Some(_) => Err(unexpected(alloc, tokens, second.end)),
                None => {
                    let covered = span(tokens, at, second.end);
                    let made = with_two(alloc, covered, Double::Binary(op), first, second)?;
                    Ok(made)
                }
            }
        }
    }
}

/// Expressions with `::` between, which groups to the right.
#[cycle(exp)]
fn cons(
    alloc: Global,
    tokens: &Tokens,
    at: usize,
    depth: usize,
    levels: usize,
) -> Result<Parsed<Boxed<Exp>>, Stop>
    ensures moves { IfOk result (λ p. Moves tokens.now at p.end) }
    ensures found { IfOk result (λ p. Reads language depth tokens.now at p.end (of_exp e.cons) p.tree) }
    ensures refused { IfRefused result (λ r. Refuses language depth tokens.now at (of_exp e.cons) r) }
{
    let mut before: List<Piece> = List::new(alloc);
    let mut tallest = 0;
    let mut begin = at;
    let mut last = left(alloc, tokens, at, depth, levels, Level::Append)?;
    'links: while sees(tokens, last.end, TokenKind::Symbol(Symbol::DoubleColon)) {
        let next = left(alloc, tokens, last.end + 1, depth, levels, Level::Append)?;
        let covered = span(tokens, begin, last.end);
        let Parsed { tree, end, height } = last;
        tallest = taller(tallest, height);
        begin = end + 1;
        pushed(
            &mut before,
            Piece {
                span: covered,
                exp: tree,
            },
        )?;
        last = next;
    }
    let covered = span(tokens, begin, last.end);
    let greatest = greatest_height(depth);
    let made = listed(alloc, before, covered, last, tallest, greatest)?;
    Ok(made)
}

/// An application, behind any number of unary minus signs.
#[cycle(exp)]
fn negative(
    alloc: Global,
    tokens: &Tokens,
    at: usize,
    depth: usize,
    levels: usize,
) -> Result<Parsed<Boxed<Exp>>, Stop>
    ensures moves { IfOk result (λ p. Moves tokens.now at p.end) }
    ensures found { IfOk result (λ p. Reads language depth tokens.now at p.end (of_exp e.negative) p.tree) }
    ensures refused { IfRefused result (λ r. Refuses language depth tokens.now at (of_exp e.negative) r) }
{
    let first = past_signs(tokens, at);
    let inner = app(alloc, tokens, first, depth, levels)?;
    let greatest = greatest_height(depth);
    let made = signed(alloc, tokens, at, first, greatest, inner)?;
    Ok(made)
}

/// Applications, which group to the left.
#[cycle(exp)]
fn app(
    alloc: Global,
    tokens: &Tokens,
    at: usize,
    depth: usize,
    levels: usize,
) -> Result<Parsed<Boxed<Exp>>, Stop>
    ensures moves { IfOk result (λ p. Moves tokens.now at p.end) }
    ensures found { IfOk result (λ p. Reads language depth tokens.now at p.end (of_exp e.app) p.tree) }
    ensures refused { IfRefused result (λ r. Refuses language depth tokens.now at (of_exp e.app) r) }
{
    let mut function = head(alloc, tokens, at, depth, levels)?;
    let greatest = greatest_height(depth);
    'arguments: while sees_argument(tokens, function.end) {
        may_grow(function.height, greatest)?;
        let given = argument(alloc, tokens, function.end, depth, levels)?;
        let covered = span(tokens, at, given.end);
        function = apply(alloc, covered, function, given)?;
    }
    Ok(function)
}
