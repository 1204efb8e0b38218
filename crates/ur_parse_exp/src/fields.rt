//! The fields of records, and the values of `let`.
ghost use Rattle.std.specs.Prelude.{◌≡◌, ◌+◌, IfOk, Bool};
ghost use Rattle.ur_lex.specs.declared.token.Keyword.TheVariants as keyword;
ghost use Rattle.ur_lex.specs.declared.token.TokenKind.TheVariants as token;
ghost use Rattle.ur_parse_rules.specs.Places.{Moves, Reads, Refuses, IfRefused, IsAt, OfKind};
ghost use Rattle.ur_parse_rules.specs.ExpParts as e;
ghost use Rattle.ur_parse_rules.specs.Parts.{of_exp};
ghost use Rattle.ur_parse_rules.specs.Language.{language};
ghost use Rattle.ur_parse_exp.specs.Lists.{FieldRead, ValRead, ValsRead, ValsRefused};

use crate::line::exp;
use std::alloc::Global;
use ur_base::{Boxed, List, Stop};
use ur_lex::{Keyword, Symbol, TokenKind, Tokens};
use ur_parse_con::{expect_field_name, read_con};
use ur_parse_embed_code::absent;
use ur_parse_exp_parts::{let_of, with_field, with_let_val};
use ur_parse_rules::{ConPlace, Parsed, expect, expect_name, sees, span};
use ur_syntax::{Exp, Field, LetVal};

/// The fields of a record with commas between, and `}`.
#[cycle(exp)]
pub fn fields(
    alloc: Global,
    tokens: &Tokens,
    at: usize,
    depth: usize,
    levels: usize,
) -> Result<Parsed<List<Field>>, Stop>
    ensures moves { IfOk result (λ p. Moves tokens.now at p.end) }
    ensures found { IfOk result (λ p. Reads language depth tokens.now at p.end (of_exp e.fields) p.tree) }
    ensures refused { IfRefused result (λ r. Refuses language depth tokens.now at (of_exp e.fields) r) }
{
    let none = Parsed {
        tree: List::new(alloc),
        end: at,
        height: 0,
    };
    if sees(tokens, at, TokenKind::Symbol(Symbol::RBrace)) {
        return Ok(ending(none, at + 1));
    }
    let mut list = field(alloc, tokens, at, depth, levels, none)?;
    'commas: while sees(tokens, list.end, TokenKind::Symbol(Symbol::Comma)) {
        let begin = list.end + 1;
        list = field(alloc, tokens, begin, depth, levels, list)?;
    }
    let close = expect(alloc, tokens, list.end, TokenKind::Symbol(Symbol::RBrace))?;
    Ok(ending(list, close))
}

/// The same fields with another end.
fn ending(fields: Parsed<List<Field>>, end: usize) -> Parsed<List<Field>>
    ensures tree { result.tree ≡ fields.tree }
    ensures end { result.end ≡ end }
{
    let Parsed {
        tree,
        end: _,
        height,
    } = fields;
    Parsed { tree, end, height }
}

/// `name = exp`, behind other fields.
#[cycle(exp)]
fn field(
    alloc: Global,
    tokens: &Tokens,
    at: usize,
    depth: usize,
    levels: usize,
    before: Parsed<List<Field>>,
) -> Result<Parsed<List<Field>>, Stop>
    ensures moves { IfOk result (λ p. Moves tokens.now at p.end) }
    ensures found { IfOk result (λ p. FieldRead depth tokens.now at p.end before.tree p.tree) }
    ensures refused { IfRefused result (λ r. Refuses language depth tokens.now at (of_exp e.field) r) }
{
    let (name, equals) = expect_field_name(alloc, tokens, at)?;
    let begin = expect(alloc, tokens, equals, TokenKind::Symbol(Symbol::Eq))?;
    let value = exp(alloc, tokens, begin, depth, levels)?;
    absent(alloc, tokens, value.end, TokenKind::Symbol(Symbol::Bar))?;
    let made = with_field(before, name, value)?;
    Ok(made)
}

/// The values of a `let`, of which there is one at least.
#[cycle(exp)]
fn let_vals(
    alloc: Global,
    tokens: &Tokens,
    at: usize,
    depth: usize,
    levels: usize,
) -> Result<Parsed<List<LetVal>>, Stop>
    ensures moves { IfOk result (λ p. Moves tokens.now at p.end) }
    ensures found { IfOk result (λ p. ValsRead depth tokens.now at p.end p.tree) }
    ensures refused { IfRefused result (ValsRefused depth tokens.now at) }
{
    let none = Parsed {
        tree: List::new(alloc),
        end: at,
        height: 0,
    };
    let mut list = let_val(alloc, tokens, at, depth, levels, none)?;
    'vals: while sees(tokens, list.end, TokenKind::Keyword(Keyword::Val)) {
        let begin = list.end;
        list = let_val(alloc, tokens, begin, depth, levels, list)?;
    }
    Ok(list)
}

/// `val name : con = exp`, behind other values.
#[cycle(exp)]
fn let_val(
    alloc: Global,
    tokens: &Tokens,
    at: usize,
    depth: usize,
    levels: usize,
    before: Parsed<List<LetVal>>,
) -> Result<Parsed<List<LetVal>>, Stop>
    ensures moves { IfOk result (λ p. Moves tokens.now at p.end) }
    ensures found { IfOk result (λ p. ValRead depth tokens.now at p.end before.tree p.tree) }
    ensures refused { IfRefused result (λ r. Refuses language depth tokens.now at (of_exp e.let_val) r) }
{
    let keyword = expect(alloc, tokens, at, TokenKind::Keyword(Keyword::Val))?;
    let (name, colon) = expect_name(alloc, tokens, keyword, TokenKind::Lower)?;
    let from = expect(alloc, tokens, colon, TokenKind::Symbol(Symbol::Colon))?;
    let con = read_con(alloc, tokens, from, depth, levels, ConPlace::Plain)?;
    let begin = expect(alloc, tokens, con.end, TokenKind::Symbol(Symbol::Eq))?;
    let value = exp(alloc, tokens, begin, depth, levels)?;
    absent(alloc, tokens, value.end, TokenKind::Symbol(Symbol::Bar))?;
    let covered = span(tokens, at, value.end);
    let made = with_let_val(before, covered, name, con, value)?;
    Ok(made)
}

/// `let vals in body end`, whose `let` stands at a place.
#[cycle(exp)]
pub fn let_in(
    alloc: Global,
    tokens: &Tokens,
    at: usize,
    depth: usize,
    levels: usize,
) -> Result<Parsed<Boxed<Exp>>, Stop>
    requires { IsAt tokens.now at (at + 1) (OfKind (token.Keyword keyword.Let)) }
    ensures moves { IfOk result (λ p. Moves tokens.now at p.end) }
    ensures found { IfOk result (λ p. (first : Bool) → Reads language depth tokens.now at p.end (of_exp (e.base first)) p.tree) }
    ensures refused { IfRefused result (λ r. (first : Bool) → Refuses language depth tokens.now at (of_exp (e.base first)) r) }
{
    let vals = let_vals(alloc, tokens, at + 1, depth, levels)?;
    let begin = expect(alloc, tokens, vals.end, TokenKind::Keyword(Keyword::In))?;
    let body = exp(alloc, tokens, begin, depth, levels)?;
    let end = expect(alloc, tokens, body.end, TokenKind::Keyword(Keyword::End))?;
    let covered = span(tokens, at, end);
    let made = let_of(alloc, covered, vals, body, end)?;
    Ok(made)
}
