//! Statements, `if`, `fn` and `case`.
ghost use Rattle.std.specs.Prelude.{◌≡◌, ◌+◌, ℕ, IfOk};
ghost use Rattle.ur_lex.specs.declared.token.Keyword.TheVariants as keyword;
ghost use Rattle.ur_lex.specs.declared.token.TokenKind.TheVariants as token;
ghost use Rattle.ur_parse_rules.specs.Places.{Moves, IsAt, Other, OfKind, Reads, Refuses, IfRefused};
ghost use Rattle.ur_parse_rules.specs.ExpParts.{exp, line, lambda, bar, branches};
ghost use Rattle.ur_parse_rules.specs.Parts.{of_exp};
ghost use Rattle.ur_parse_rules.specs.Language.{language};
ghost use Rattle.ur_parse_con.specs.Forms.{Stays};
ghost use Rattle.ur_parse_exp_parts.specs.Lines.{ended};
ghost use Rattle.ur_parse_exp.specs.Branches.{BranchRead};
ghost use Rattle.ur_parse_exp.specs.Choices.{ChoiceRead};

use crate::choice::{Choice, chosen};
use crate::level::left;
use std::alloc::Global;
use ur_base::{List, Stop};
use ur_lex::{Keyword, Symbol, TokenKind, Tokens};
use ur_parse_con::{Level, read_pat};
use ur_parse_exp_parts::{
    Line, bind_of, binding, case_of, closed, greatest_height, lambda_of, read_lambda_head,
    sees_binding, sequence_of, with_branch,
};
use ur_parse_rules::{Parsed, expect, pushed, sees, span, too_deep, unexpected};
use ur_syntax::Branch;

/// An expression with at most `depth` nested, itself among them, and at most `levels` parentheses around kinds.
#[cycle(exp)]
pub fn exp(
    alloc: Global,
    tokens: &Tokens,
    at: usize,
    depth: usize,
    levels: usize,
) -> Result<Parsed<Line>, Stop>
    ensures moves { IfOk result (λ p. Moves tokens.now at p.end) }
    ensures found { IfOk result (λ p. Reads language depth tokens.now at p.end (of_exp exp) (ended p.tree)) }
    ensures refused { IfRefused result (λ r. Refuses language depth tokens.now at (of_exp exp) r) }
{
    if depth == 0 {
        return Err(too_deep(alloc, tokens, at));
    }
    if sees_binding(tokens, at) {
        let (binder, begin) = binding(alloc, tokens, at)?;
        let first = line(alloc, tokens, begin, depth - 1, levels)?;
        let begin = expect(
            alloc,
            tokens,
            first.end,
            TokenKind::Symbol(Symbol::Semicolon),
        )?;
        let second = exp(alloc, tokens, begin, depth - 1, levels)?;
        let covered = span(tokens, at, second.end);
        let made = bind_of(alloc, covered, binder, first, second)?;
        Ok(made)
    } else {
        let first = line(alloc, tokens, at, depth - 1, levels)?;
        if sees(tokens, first.end, TokenKind::Symbol(Symbol::Semicolon)) {
            let second = exp(alloc, tokens, first.end + 1, depth - 1, levels)?;
            let covered = span(tokens, at, second.end);
            let made = sequence_of(alloc, covered, first, second)?;
            Ok(made)
        } else if sees(tokens, first.end, TokenKind::Symbol(Symbol::LeftArrow)) {
            Err(unexpected(alloc, tokens, first.end))
        } else {
            Ok(first)
        }
    }
}

/// An expression that is no statement.
#[cycle(exp)]
fn line(
    alloc: Global,
    tokens: &Tokens,
    at: usize,
    depth: usize,
    levels: usize,
) -> Result<Parsed<Line>, Stop>
    ensures moves { IfOk result (λ p. Moves tokens.now at p.end) }
    ensures found { IfOk result (λ p. Reads language depth tokens.now at p.end (of_exp line) (ended p.tree)) }
    ensures refused { IfRefused result (λ r. Refuses language depth tokens.now at (of_exp line) r) }
{
    if sees(tokens, at, TokenKind::Keyword(Keyword::If)) {
        conditional(alloc, tokens, at, depth, levels)
    } else {
        unconditional(alloc, tokens, at, depth, levels)
    }
}

/// Any number of `if`, each but the first behind an `else`, and what stands behind the last one.
#[cycle(exp)]
#[inline(never)]
fn conditional(
    alloc: Global,
    tokens: &Tokens,
    at: usize,
    depth: usize,
    levels: usize,
) -> Result<Parsed<Line>, Stop>
    ensures moves { IfOk result (λ p. Moves tokens.now at p.end) }
    ensures found { IfOk result (λ p. Reads language depth tokens.now at p.end (of_exp line) (ended p.tree)) }
    ensures refused { IfRefused result (λ r. Refuses language depth tokens.now at (of_exp line) r) }
{
    let mut before: List<Choice> = List::new(alloc);
    let mut begin = at;
    'choices: while sees(tokens, begin, TokenKind::Keyword(Keyword::If)) {
        let (one, next) = tested(alloc, tokens, begin, depth, levels)?;
        pushed(&mut before, one)?;
        begin = next;
    }
    let last = unconditional(alloc, tokens, begin, depth, levels)?;
    let covered = span(tokens, begin, last.end);
    let greatest = greatest_height(depth);
    let made = chosen(alloc, before, covered, last, greatest)?;
    Ok(made)
}

/// `if`, a test, `then`, the first branch and `else`, with the place behind it.
#[cycle(exp)]
#[inline(never)]
fn tested(
    alloc: Global,
    tokens: &Tokens,
    at: usize,
    depth: usize,
    levels: usize,
) -> Result<(Choice, usize), Stop>
    requires { IsAt tokens.now at (at + 1) (OfKind (token.Keyword keyword.If)) }
    ensures found { IfOk result (λ c. ChoiceRead depth tokens.now at c.1 c.0) }
    ensures refused { IfRefused result (λ r. Refuses language depth tokens.now at (of_exp line) r) }
{
    let test = exp(alloc, tokens, at + 1, depth, levels)?;
    let begin = expect(alloc, tokens, test.end, TokenKind::Keyword(Keyword::Then))?;
    let first = exp(alloc, tokens, begin, depth, levels)?;
    let next = expect(alloc, tokens, first.end, TokenKind::Keyword(Keyword::Else))?;
    let covered = span(tokens, at, first.end);
    let one = Choice {
        span: covered,
        test,
        first,
    };
    Ok((one, next))
}

/// An expression that is no statement and no `if`.
#[cycle(exp)]
#[inline(never)]
fn unconditional(
    alloc: Global,
    tokens: &Tokens,
    at: usize,
    depth: usize,
    levels: usize,
) -> Result<Parsed<Line>, Stop>
    requires { Other tokens.now at (OfKind (token.Keyword keyword.If)) }
    ensures moves { IfOk result (λ p. Moves tokens.now at p.end) }
    ensures found { IfOk result (λ p. Reads language depth tokens.now at p.end (of_exp line) (ended p.tree)) }
    ensures refused { IfRefused result (λ r. Refuses language depth tokens.now at (of_exp line) r) }
{
    if sees(tokens, at, TokenKind::Keyword(Keyword::Fn)) {
        let made = lambda(alloc, tokens, at, depth, levels)?;
        Ok(made)
    } else if sees(tokens, at, TokenKind::Keyword(Keyword::Case)) {
        let scrutinee = exp(alloc, tokens, at + 1, depth, levels)?;
        let begin = expect(
            alloc,
            tokens,
            scrutinee.end,
            TokenKind::Keyword(Keyword::Of),
        )?;
        let first = past_bar(alloc, tokens, begin)?;
        let list = branches(alloc, tokens, first, depth, levels)?;
        let covered = span(tokens, at, list.end);
        let made = case_of(alloc, covered, scrutinee, list)?;
        Ok(made)
    } else {
        let tree = left(alloc, tokens, at, depth, levels, Level::Disjunction)?;
        Ok(closed(tree))
    }
}

/// `fn`, its parameters and its body.
#[cycle(exp)]
pub fn lambda(
    alloc: Global,
    tokens: &Tokens,
    at: usize,
    depth: usize,
    levels: usize,
) -> Result<Parsed<Line>, Stop>
    ensures moves { IfOk result (λ p. Moves tokens.now at p.end) }
    ensures found { IfOk result (λ p. Reads language depth tokens.now at p.end (of_exp lambda) (ended p.tree)) }
    ensures refused { IfRefused result (λ r. Refuses language depth tokens.now at (of_exp lambda) r) }
{
    let params = read_lambda_head(alloc, tokens, at, depth, levels)?;
    let body = exp(alloc, tokens, params.end, depth, levels)?;
    let covered = span(tokens, at, body.end);
    let made = lambda_of(alloc, covered, params, body)?;
    Ok(made)
}

/// The place behind `|`, if it stands there, behind which no other does.
fn past_bar(alloc: Global, tokens: &Tokens, at: usize) -> Result<usize, Stop>
    ensures stays { IfOk result (λ j. Stays tokens.now at j) }
    ensures found { IfOk result (λ j. (n : ℕ) → Reads language n tokens.now at j (of_exp bar) tt) }
    ensures refused { IfRefused result (λ r. (n : ℕ) → Refuses language n tokens.now at (of_exp bar) r) }
{
    if sees(tokens, at, TokenKind::Symbol(Symbol::Bar)) {
        let begin = at + 1;
        if sees(tokens, begin, TokenKind::Symbol(Symbol::Bar)) {
            return Err(unexpected(alloc, tokens, begin));
        }
        Ok(begin)
    } else {
        Ok(at)
    }
}

/// The branches of a `case` with `|` between. An expression that takes a `|` has taken each behind it.
#[cycle(exp)]
fn branches(
    alloc: Global,
    tokens: &Tokens,
    at: usize,
    depth: usize,
    levels: usize,
) -> Result<Parsed<List<Branch>>, Stop>
    ensures moves { IfOk result (λ p. Moves tokens.now at p.end) }
    ensures found { IfOk result (λ p. Reads language depth tokens.now at p.end (of_exp branches) p.tree) }
    ensures refused { IfRefused result (λ r. Refuses language depth tokens.now at (of_exp branches) r) }
{
    let none = Parsed {
        tree: List::new(alloc),
        end: at,
        height: 0,
    };
    let mut list = branch(alloc, tokens, at, depth, levels, none)?;
    'bars: while sees(tokens, list.end, TokenKind::Symbol(Symbol::Bar)) {
        let begin = list.end + 1;
        list = branch(alloc, tokens, begin, depth, levels, list)?;
    }
    Ok(list)
}

/// A pattern, `=>` and what it gives, behind other branches.
#[cycle(exp)]
fn branch(
    alloc: Global,
    tokens: &Tokens,
    at: usize,
    depth: usize,
    levels: usize,
    before: Parsed<List<Branch>>,
) -> Result<Parsed<List<Branch>>, Stop>
    ensures moves { IfOk result (λ p. Moves tokens.now at p.end) }
    ensures found { IfOk result (λ p. BranchRead depth tokens.now at p.end before.tree p.tree) }
    ensures refused { IfRefused result (λ r. Refuses language depth tokens.now at (of_exp branches) r) }
{
    let pat = read_pat(alloc, tokens, at)?;
    let begin = expect(alloc, tokens, pat.end, TokenKind::Symbol(Symbol::FatArrow))?;
    let body = exp(alloc, tokens, begin, depth, levels)?;
    let made = with_branch(before, pat, body)?;
    Ok(made)
}
