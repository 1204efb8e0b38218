//! Forms that a word begins.
ghost use Rattle.std.specs.Prelude.{◌≡◌, IfOk};
ghost use Rattle.ur_parse_rules.specs.Places.{Moves, Reads, Refuses, IfRefused};
ghost use Rattle.ur_parse_rules.specs.ExpParts as e;
ghost use Rattle.ur_parse_rules.specs.Parts.{of_exp};
ghost use Rattle.ur_parse_rules.specs.Language.{language};
ghost use Rattle.ur_parse_exp_parts.specs.declared.word.FormWord.TheVariants as form_word;
ghost use Rattle.ur_parse_exp_parts.specs.Words.{Stands};
ghost use Rattle.ur_parse_exp_parts.specs.Shapes.{query_word};

use crate::atom::{fold, post, worded};
use crate::line::lambda;
use crate::tables::{change, query};
use std::alloc::Global;
use ur_base::{Boxed, Stop};
use ur_lex::{Symbol, TokenKind, Tokens};
use ur_parse_embed_code::absent;
use ur_parse_exp_parts::{
    FormWord, Shape, decl_name, dml_of, query_of, query_x_of, read_get_cookie, read_nextval,
    set_cookie_of, shape_of,
};
use ur_parse_rules::{Parsed, expect, span};
use ur_syntax::{Exp, QueryWord};

/// A form, whose word stands at a place.
#[cycle(exp)]
pub fn formed(
    alloc: Global,
    tokens: &Tokens,
    at: usize,
    depth: usize,
    levels: usize,
    word: FormWord,
) -> Result<Parsed<Boxed<Exp>>, Stop>
    requires { Stands tokens.now at word }
    ensures moves { IfOk result (λ p. Moves tokens.now at p.end) }
    ensures found { IfOk result (λ p. Reads language depth tokens.now at p.end (of_exp e.head) p.tree) }
    ensures refused { IfRefused result (λ r. Refuses language depth tokens.now at (of_exp e.head) r) }
{
    match shape_of(word) {
        Shape::One(of) => {
            let made = worded(alloc, tokens, at, depth, levels, word, of)?;
            Ok(made)
        }
        Shape::Query(of) => {
            let made = one_query(alloc, tokens, at, depth, levels, of)?;
            Ok(made)
        }
        Shape::Fold => {
            let made = fold(alloc, tokens, at, depth, levels)?;
            Ok(made)
        }
        Shape::Nextval => {
            let made = read_nextval(alloc, tokens, at)?;
            Ok(made)
        }
        Shape::GetCookie => {
            let made = read_get_cookie(alloc, tokens, at)?;
            Ok(made)
        }
        Shape::SetCookie => {
            let made = cookie(alloc, tokens, at, depth, levels)?;
            Ok(made)
        }
        Shape::Dml => {
            let made = dml(alloc, tokens, at, depth, levels)?;
            Ok(made)
        }
        Shape::QueryX => {
            let made = query_x(alloc, tokens, at, depth, levels)?;
            Ok(made)
        }
    }
}

/// `setCookie name value`, whose `setCookie` stands at a place.
#[cycle(exp)]
fn cookie(
    alloc: Global,
    tokens: &Tokens,
    at: usize,
    depth: usize,
    levels: usize,
) -> Result<Parsed<Boxed<Exp>>, Stop>
    requires { Stands tokens.now at form_word.SetCookie }
    ensures moves { IfOk result (λ p. Moves tokens.now at p.end) }
    ensures found { IfOk result (λ p. Reads language depth tokens.now at p.end (of_exp e.head) p.tree) }
    ensures refused { IfRefused result (λ r. Refuses language depth tokens.now at (of_exp e.head) r) }
{
    let (name, end) = decl_name(alloc, tokens, at + 1)?;
    let value = post(alloc, tokens, end, depth, levels, false)?;
    let covered = span(tokens, at, value.end);
    let made = set_cookie_of(alloc, covered, name, value)?;
    Ok(made)
}

/// `dml (change)`, whose `dml` stands at a place.
#[cycle(exp)]
fn dml(
    alloc: Global,
    tokens: &Tokens,
    at: usize,
    depth: usize,
    levels: usize,
) -> Result<Parsed<Boxed<Exp>>, Stop>
    requires { Stands tokens.now at form_word.Dml }
    ensures moves { IfOk result (λ p. Moves tokens.now at p.end) }
    ensures found { IfOk result (λ p. Reads language depth tokens.now at p.end (of_exp e.head) p.tree) }
    ensures refused { IfRefused result (λ r. Refuses language depth tokens.now at (of_exp e.head) r) }
{
    let begin = expect(alloc, tokens, at + 1, TokenKind::Symbol(Symbol::LParen))?;
    let (tree, code) = change(alloc, tokens, begin, depth, levels)?;
    let end = expect(alloc, tokens, code.end, TokenKind::Symbol(Symbol::RParen))?;
    absent(alloc, tokens, end, TokenKind::Symbol(Symbol::Dot))?;
    let covered = span(tokens, at, end);
    let made = dml_of(alloc, covered, tree, code, end)?;
    Ok(made)
}

/// `queryL (query)`, `oneRow (query)` or `oneOrNoRows (query)`, whose word stands at a place.
#[cycle(exp)]
fn one_query(
    alloc: Global,
    tokens: &Tokens,
    at: usize,
    depth: usize,
    levels: usize,
    of: QueryWord,
) -> Result<Parsed<Boxed<Exp>>, Stop>
    requires { Stands tokens.now at (query_word of) }
    ensures moves { IfOk result (λ p. Moves tokens.now at p.end) }
    ensures found { IfOk result (λ p. Reads language depth tokens.now at p.end (of_exp e.head) p.tree) }
    ensures refused { IfRefused result (λ r. Refuses language depth tokens.now at (of_exp e.head) r) }
{
    let begin = expect(alloc, tokens, at + 1, TokenKind::Symbol(Symbol::LParen))?;
    let (tree, code) = query(alloc, tokens, begin, depth, levels)?;
    let end = expect(alloc, tokens, code.end, TokenKind::Symbol(Symbol::RParen))?;
    absent(alloc, tokens, end, TokenKind::Symbol(Symbol::Dot))?;
    let covered = span(tokens, at, end);
    let made = query_of(alloc, covered, of, tree, code, end)?;
    Ok(made)
}

/// `queryX (query) (row)`, whose `queryX` stands at a place; `row` is a lambda.
#[cycle(exp)]
fn query_x(
    alloc: Global,
    tokens: &Tokens,
    at: usize,
    depth: usize,
    levels: usize,
) -> Result<Parsed<Boxed<Exp>>, Stop>
    requires { Stands tokens.now at form_word.QueryX }
    ensures moves { IfOk result (λ p. Moves tokens.now at p.end) }
    ensures found { IfOk result (λ p. Reads language depth tokens.now at p.end (of_exp e.head) p.tree) }
    ensures refused { IfRefused result (λ r. Refuses language depth tokens.now at (of_exp e.head) r) }
{
    let begin = expect(alloc, tokens, at + 1, TokenKind::Symbol(Symbol::LParen))?;
    let (tree, code) = query(alloc, tokens, begin, depth, levels)?;
    let closed = expect(alloc, tokens, code.end, TokenKind::Symbol(Symbol::RParen))?;
    let opened = expect(alloc, tokens, closed, TokenKind::Symbol(Symbol::LParen))?;
    let row = lambda(alloc, tokens, opened, depth, levels)?;
    let end = expect(alloc, tokens, row.end, TokenKind::Symbol(Symbol::RParen))?;
    absent(alloc, tokens, end, TokenKind::Symbol(Symbol::Dot))?;
    let covered = span(tokens, at, end);
    let made = query_x_of(alloc, covered, tree, code, row, end)?;
    Ok(made)
}
