//! What operators and applications stand between.
ghost use Rattle.std.specs.Prelude.{◌≡◌, ◌+◌, IfOk, Bool, drop, true};
ghost use Rattle.ur_lex.specs.declared.token.Symbol.TheVariants as symbol;
ghost use Rattle.ur_lex.specs.declared.token.TokenKind.TheVariants as token;
ghost use Rattle.ur_parse_rules.specs.Places.{Moves, Reads, Refuses, IfRefused, IsAt, OfKind, span_of, starts};
ghost use Rattle.ur_parse_rules.specs.Classes.{member};
ghost use Rattle.ur_parse_rules.specs.Ends.{exp_args};
ghost use Rattle.ur_parse_rules.specs.ExpParts as e;
ghost use Rattle.ur_parse_rules.specs.Parts.{of_exp};
ghost use Rattle.ur_parse_rules.specs.Language.{language};
ghost use Rattle.ur_parse_exp_parts.specs.declared.word.FormWord.TheVariants as form_word;
ghost use Rattle.ur_parse_exp_parts.specs.Arguments.{given_of, given_at};
ghost use Rattle.ur_parse_exp_parts.specs.Words.{Stands};
ghost use Rattle.ur_parse_exp_parts.specs.Forms.{WordStands};

use crate::fields::{fields, let_in};
use crate::forms::formed;
use crate::line::exp;
use crate::markup::markup;
use std::alloc::Global;
use ur_base::{Boxed, Stop};
use ur_lex::{Keyword, Symbol, TokenKind, Tokens};
use ur_parse_con::read_con;
use ur_parse_embed_code::absent;
use ur_parse_exp_parts::{
    FormWord, Given, Single, as_type, as_value, boxed_con, expect_word_of, folded, form_at,
    greatest_height, inner, read_capital, read_dots, read_nil, read_simple, record_of, sees_base,
    sees_post, sees_word_of, unit_of, with_one,
};
use ur_parse_rules::{ConPlace, Parsed, expect, expect_name, sees, span, unexpected};
use ur_syntax::Exp;

/// What stands at the head of an application.
#[cycle(exp)]
pub fn head(
    alloc: Global,
    tokens: &Tokens,
    at: usize,
    depth: usize,
    levels: usize,
) -> Result<Parsed<Boxed<Exp>>, Stop>
    ensures moves { IfOk result (λ p. Moves tokens.now at p.end) }
    ensures found { IfOk result (λ p. Reads language depth tokens.now at p.end (of_exp e.head) p.tree) }
    ensures refused { IfRefused result (λ r. Refuses language depth tokens.now at (of_exp e.head) r) }
{
    match form_at(tokens, at) {
        None => {
            if sees_post(tokens, at, true) {
                let made = post(alloc, tokens, at, depth, levels, true)?;
                Ok(made)
            } else {
                Err(unexpected(alloc, tokens, at))
            }
        }
        Some(word) => {
            let made = formed(alloc, tokens, at, depth, levels, word)?;
            Ok(made)
        }
    }
}

/// A word that stands at a place, and the expression behind it.
#[cycle(exp)]
pub fn worded(
    alloc: Global,
    tokens: &Tokens,
    at: usize,
    depth: usize,
    levels: usize,
    word: FormWord,
    of: Single,
) -> Result<Parsed<Boxed<Exp>>, Stop>
    requires word { Stands tokens.now at word }
    requires of { WordStands tokens.now at of }
    ensures moves { IfOk result (λ p. Moves tokens.now at p.end) }
    ensures found { IfOk result (λ p. Reads language depth tokens.now at p.end (of_exp e.head) p.tree) }
    ensures refused { IfRefused result (λ r. Refuses language depth tokens.now at (of_exp e.head) r) }
{
    let inner = post(alloc, tokens, at + 1, depth, levels, false)?;
    let covered = span(tokens, at, inner.end);
    let made = with_one(alloc, covered, of, inner)?;
    Ok(made)
}

/// `fold [step] first second [con]`, whose `fold` stands at a place.
#[cycle(exp)]
pub fn fold(
    alloc: Global,
    tokens: &Tokens,
    at: usize,
    depth: usize,
    levels: usize,
) -> Result<Parsed<Boxed<Exp>>, Stop>
    requires { Stands tokens.now at form_word.Fold }
    ensures moves { IfOk result (λ p. Moves tokens.now at p.end) }
    ensures found { IfOk result (λ p. Reads language depth tokens.now at p.end (of_exp e.head) p.tree) }
    ensures refused { IfRefused result (λ r. Refuses language depth tokens.now at (of_exp e.head) r) }
{
    let opened = expect(alloc, tokens, at + 1, TokenKind::Symbol(Symbol::LBracket))?;
    let step = boxed_con(alloc, tokens, opened, depth, levels)?;
    let closed = expect(alloc, tokens, step.end, TokenKind::Symbol(Symbol::RBracket))?;
    let first = post(alloc, tokens, closed, depth, levels, false)?;
    let second = post(alloc, tokens, first.end, depth, levels, false)?;
    let begin = expect(
        alloc,
        tokens,
        second.end,
        TokenKind::Symbol(Symbol::LBracket),
    )?;
    let row = boxed_con(alloc, tokens, begin, depth, levels)?;
    let end = expect(alloc, tokens, row.end, TokenKind::Symbol(Symbol::RBracket))?;
    absent(alloc, tokens, end, TokenKind::Symbol(Symbol::Dot))?;
    let covered = span(tokens, at, end);
    let made = folded(alloc, covered, step, first, second, row, end)?;
    Ok(made)
}

/// An argument of an application, where one begins.
#[cycle(exp)]
pub fn argument(
    alloc: Global,
    tokens: &Tokens,
    at: usize,
    depth: usize,
    levels: usize,
) -> Result<Parsed<Given>, Stop>
    requires { starts (member exp_args) (drop at tokens.now) ≡ true }
    ensures moves { IfOk result (λ p. Moves tokens.now at p.end) }
    ensures found { IfOk result (λ p. Reads language depth tokens.now at p.end (of_exp e.arg) (given_at (span_of tokens.now at p.end) (given_of p.tree))) }
    ensures refused { IfRefused result (λ r. Refuses language depth tokens.now at (of_exp e.arg) r) }
{
    if sees(tokens, at, TokenKind::Symbol(Symbol::LBracket)) {
        let given = bracketed(alloc, tokens, at, depth, levels)?;
        Ok(given)
    } else if sees(tokens, at, TokenKind::Upper) {
        let (name, _end) = expect_name(alloc, tokens, at, TokenKind::Upper)?;
        let greatest = greatest_height(depth);
        let made = read_capital(alloc, tokens, at, name, greatest)?;
        Ok(as_value(made))
    } else {
        let inner = base(alloc, tokens, at, depth, levels, false)?;
        let greatest = greatest_height(depth);
        let made = read_dots(alloc, tokens, at, inner, greatest)?;
        Ok(as_value(made))
    }
}

/// `[con]`, or `[]` with the names of fields behind it, whose `[` stands at a place.
fn bracketed(
    alloc: Global,
    tokens: &Tokens,
    at: usize,
    depth: usize,
    levels: usize,
) -> Result<Parsed<Given>, Stop>
    requires { IsAt tokens.now at (at + 1) (OfKind (token.Symbol symbol.LBracket)) }
    ensures moves { IfOk result (λ p. Moves tokens.now at p.end) }
    ensures found { IfOk result (λ p. Reads language depth tokens.now at p.end (of_exp e.arg) (given_at (span_of tokens.now at p.end) (given_of p.tree))) }
    ensures refused { IfRefused result (λ r. Refuses language depth tokens.now at (of_exp e.arg) r) }
{
    let begin = at + 1;
    if sees(tokens, begin, TokenKind::Symbol(Symbol::RBracket)) {
        let greatest = greatest_height(depth);
        let made = read_nil(alloc, tokens, at, begin + 1, greatest)?;
        Ok(as_value(made))
    } else {
        let con = read_con(alloc, tokens, begin, depth, levels, ConPlace::Plain)?;
        let end = expect(alloc, tokens, con.end, TokenKind::Symbol(Symbol::RBracket))?;
        absent(alloc, tokens, end, TokenKind::Symbol(Symbol::Dot))?;
        Ok(as_type(con, end))
    }
}

/// An atom with the names of fields behind it. At the head of an application the words of forms are no names.
#[cycle(exp)]
pub fn post(
    alloc: Global,
    tokens: &Tokens,
    at: usize,
    depth: usize,
    levels: usize,
    first: bool,
) -> Result<Parsed<Boxed<Exp>>, Stop>
    ensures moves { IfOk result (λ p. Moves tokens.now at p.end) }
    ensures found { IfOk result (λ p. Reads language depth tokens.now at p.end (of_exp (e.post first)) p.tree) }
    ensures refused { IfRefused result (λ r. Refuses language depth tokens.now at (of_exp (e.post first)) r) }
{
    if sees(tokens, at, TokenKind::Symbol(Symbol::LBracket)) {
        let end = expect(alloc, tokens, at + 1, TokenKind::Symbol(Symbol::RBracket))?;
        let greatest = greatest_height(depth);
        let made = read_nil(alloc, tokens, at, end, greatest)?;
        Ok(made)
    } else if sees_word_of(tokens, at, TokenKind::Upper, first) {
        let (name, _end) = expect_word_of(alloc, tokens, at, TokenKind::Upper, first)?;
        let greatest = greatest_height(depth);
        let made = read_capital(alloc, tokens, at, name, greatest)?;
        Ok(made)
    } else if sees_base(tokens, at, first) {
        let inner = base(alloc, tokens, at, depth, levels, first)?;
        let greatest = greatest_height(depth);
        let made = read_dots(alloc, tokens, at, inner, greatest)?;
        Ok(made)
    } else {
        Err(unexpected(alloc, tokens, at))
    }
}

/// An atom.
#[cycle(exp)]
fn base(
    alloc: Global,
    tokens: &Tokens,
    at: usize,
    depth: usize,
    levels: usize,
    first: bool,
) -> Result<Parsed<Boxed<Exp>>, Stop>
    ensures moves { IfOk result (λ p. Moves tokens.now at p.end) }
    ensures found { IfOk result (λ p. Reads language depth tokens.now at p.end (of_exp (e.base first)) p.tree) }
    ensures refused { IfRefused result (λ r. Refuses language depth tokens.now at (of_exp (e.base first)) r) }
{
    if sees(tokens, at, TokenKind::Symbol(Symbol::LParen)) {
        let made = parenthesized(alloc, tokens, at, depth, levels)?;
        Ok(made)
    } else if sees(tokens, at, TokenKind::Symbol(Symbol::LBrace)) {
        let list = fields(alloc, tokens, at + 1, depth, levels)?;
        let covered = span(tokens, at, list.end);
        let made = record_of(alloc, covered, list)?;
        Ok(made)
    } else if sees(tokens, at, TokenKind::Keyword(Keyword::Let)) {
        let made = let_in(alloc, tokens, at, depth, levels)?;
        Ok(made)
    } else if sees(tokens, at, TokenKind::Symbol(Symbol::XmlOpen)) {
        let made = markup(alloc, tokens, at, depth, levels)?;
        Ok(made)
    } else if sees(tokens, at, TokenKind::Symbol(Symbol::XmlEmpty)) {
        let made = markup(alloc, tokens, at, depth, levels)?;
        Ok(made)
    } else {
        let made = read_simple(alloc, tokens, at, first)?;
        Ok(made)
    }
}

/// `()`, or an expression in parentheses, whose `(` stands at a place.
#[cycle(exp)]
fn parenthesized(
    alloc: Global,
    tokens: &Tokens,
    at: usize,
    depth: usize,
    levels: usize,
) -> Result<Parsed<Boxed<Exp>>, Stop>
    requires { IsAt tokens.now at (at + 1) (OfKind (token.Symbol symbol.LParen)) }
    ensures moves { IfOk result (λ p. Moves tokens.now at p.end) }
    ensures found { IfOk result (λ p. (first : Bool) → Reads language depth tokens.now at p.end (of_exp (e.base first)) p.tree) }
    ensures refused { IfRefused result (λ r. (first : Bool) → Refuses language depth tokens.now at (of_exp (e.base first)) r) }
{
    let begin = at + 1;
    if sees(tokens, begin, TokenKind::Symbol(Symbol::RParen)) {
        let covered = span(tokens, at, begin + 1);
        let made = unit_of(alloc, covered, begin + 1)?;
        return Ok(made);
    }
    let line = exp(alloc, tokens, begin, depth, levels)?;
    let end = expect(alloc, tokens, line.end, TokenKind::Symbol(Symbol::RParen))?;
    Ok(inner(line, end))
}
