//! Constructors.
ghost use Rattle.std.specs.Prelude.{◌≡◌, IfOk};
ghost use Rattle.ur_parse_rules.specs.Places.{Moves, Reads, Refuses, IfRefused};
ghost use Rattle.ur_parse_rules.specs.ConParts.{con, arrow, concat, app, atom, row, row_field, fields, record_field};
ghost use Rattle.ur_parse_rules.specs.Parts.{of_con};
ghost use Rattle.ur_parse_rules.specs.Language.{language};

use crate::fields::{bare, given, in_record};
use crate::joins::{Join, Piece, chained, joined};
use crate::kind::{kind, taller};
use crate::names::{expect_field_name, named, sees_argument};
use crate::nodes::{ending, lambda, record_of, record_of_fields, row_of};
use crate::whole::{fitting, is_beside, keys_of, within};
use std::alloc::Global;
use ur_base::{List, Stop};
use ur_lex::{Keyword, Symbol, TokenKind, Tokens};
use ur_parse_rules::{ConPlace, Parsed, below, expect, expect_name, pushed, sees, span, too_deep};
use ur_syntax::{CField, Con, RecordField};

/// A constructor with at most `depth` nested, itself among them, and at most `levels` parentheses around a kind and `$`
/// before a constructor.
#[cycle(con)]
pub fn con(
    alloc: Global,
    tokens: &Tokens,
    at: usize,
    depth: usize,
    levels: usize,
    place: ConPlace,
) -> Result<Parsed<Con>, Stop>
    ensures moves { IfOk result (λ p. Moves tokens.now at p.end) }
    ensures found { IfOk result (λ p. Reads language depth tokens.now at p.end (of_con (con place)) p.tree) }
    ensures refused { IfRefused result (λ r. Refuses language depth tokens.now at (of_con (con place)) r) }
{
    if depth == 0 {
        return Err(too_deep(alloc, tokens, at));
    }
    if sees(tokens, at, TokenKind::Keyword(Keyword::Fn)) {
        let (name, colons) = expect_name(alloc, tokens, at + 1, TokenKind::Lower)?;
        let begin = expect(
            alloc,
            tokens,
            colons,
            TokenKind::Symbol(Symbol::DoubleColon),
        )?;
        let of = kind(alloc, tokens, begin, levels)?;
        let begin = expect(alloc, tokens, of.end, TokenKind::Symbol(Symbol::FatArrow))?;
        let body = con(alloc, tokens, begin, depth - 1, levels, within(place))?;
        let covered = span(tokens, at, body.end);
        let made = lambda(alloc, covered, name, of, body)?;
        Ok(made)
    } else {
        let tree = arrow(alloc, tokens, at, depth - 1, levels, keys_of(place))?;
        fitting(alloc, tokens, at, is_beside(place), &tree.tree)?;
        Ok(tree)
    }
}

/// Constructors with `->` between, which groups to the right.
#[cycle(con)]
fn arrow(
    alloc: Global,
    tokens: &Tokens,
    at: usize,
    depth: usize,
    levels: usize,
    keys: bool,
) -> Result<Parsed<Con>, Stop>
    ensures moves { IfOk result (λ p. Moves tokens.now at p.end) }
    ensures found { IfOk result (λ p. Reads language depth tokens.now at p.end (of_con (arrow keys)) p.tree) }
    ensures refused { IfRefused result (λ r. Refuses language depth tokens.now at (of_con (arrow keys)) r) }
{
    let mut left: List<Piece> = List::new(alloc);
    let mut tallest = 0;
    let mut begin = at;
    let mut last = concat(alloc, tokens, at, depth, levels, keys)?;
    'links: while sees(tokens, last.end, TokenKind::Symbol(Symbol::Arrow)) {
        fitting(alloc, tokens, begin, false, &last.tree)?;
        let next = concat(alloc, tokens, last.end + 1, depth, levels, keys)?;
        let covered = span(tokens, begin, last.end);
        let Parsed { tree, end, height } = last;
        tallest = taller(tallest, height);
        begin = end + 1;
        pushed(
            &mut left,
            Piece {
                span: covered,
                con: tree,
            },
        )?;
        last = next;
    }
    fitting(alloc, tokens, begin, left.is_empty(), &last.tree)?;
    let covered = span(tokens, begin, last.end);
    let made = chained(alloc, Join::Arrow, left, covered, last, tallest)?;
    Ok(made)
}

/// Constructors with `++` between, which groups to the right.
#[cycle(con)]
fn concat(
    alloc: Global,
    tokens: &Tokens,
    at: usize,
    depth: usize,
    levels: usize,
    keys: bool,
) -> Result<Parsed<Con>, Stop>
    ensures moves { IfOk result (λ p. Moves tokens.now at p.end) }
    ensures found { IfOk result (λ p. Reads language depth tokens.now at p.end (of_con (concat keys)) p.tree) }
    ensures refused { IfRefused result (λ r. Refuses language depth tokens.now at (of_con (concat keys)) r) }
{
    let mut left: List<Piece> = List::new(alloc);
    let mut tallest = 0;
    let mut begin = at;
    let mut last = app(alloc, tokens, at, depth, levels, keys)?;
    'links: while sees(tokens, last.end, TokenKind::Symbol(Symbol::DoublePlus)) {
        fitting(alloc, tokens, begin, false, &last.tree)?;
        let next = app(alloc, tokens, last.end + 1, depth, levels, keys)?;
        let covered = span(tokens, begin, last.end);
        let Parsed { tree, end, height } = last;
        tallest = taller(tallest, height);
        begin = end + 1;
        pushed(
            &mut left,
            Piece {
                span: covered,
                con: tree,
            },
        )?;
        last = next;
    }
    fitting(alloc, tokens, begin, left.is_empty(), &last.tree)?;
    let covered = span(tokens, begin, last.end);
    let made = chained(alloc, Join::Concat, left, covered, last, tallest)?;
    Ok(made)
}

/// Applications, which group to the left.
#[cycle(con)]
fn app(
    alloc: Global,
    tokens: &Tokens,
    at: usize,
    depth: usize,
    levels: usize,
    keys: bool,
) -> Result<Parsed<Con>, Stop>
    ensures moves { IfOk result (λ p. Moves tokens.now at p.end) }
    ensures found { IfOk result (λ p. Reads language depth tokens.now at p.end (of_con (app keys)) p.tree) }
    ensures refused { IfRefused result (λ r. Refuses language depth tokens.now at (of_con (app keys)) r) }
{
    let head = atom(alloc, tokens, at, depth, levels, false)?;
    if !sees_argument(tokens, head.end, keys) {
        return Ok(head);
    }
    fitting(alloc, tokens, at, false, &head.tree)?;
    let mut function = head;
    'arguments: while sees_argument(tokens, function.end, keys) {
        let argument = atom(alloc, tokens, function.end, depth, levels, keys)?;
        fitting(alloc, tokens, function.end, false, &argument.tree)?;
        let covered = span(tokens, at, argument.end);
        function = joined(alloc, covered, Join::App, function, argument)?;
    }
    Ok(function)
}

/// A constructor that needs no parentheses, or any in parentheses.
#[cycle(con)]
fn atom(
    alloc: Global,
    tokens: &Tokens,
    at: usize,
    depth: usize,
    levels: usize,
    keys: bool,
) -> Result<Parsed<Con>, Stop>
    ensures moves { IfOk result (λ p. Moves tokens.now at p.end) }
    ensures found { IfOk result (λ p. Reads language depth tokens.now at p.end (of_con (atom keys)) p.tree) }
    ensures refused { IfRefused result (λ r. Refuses language depth tokens.now at (of_con (atom keys)) r) }
{
    if sees(tokens, at, TokenKind::Symbol(Symbol::LBracket)) {
        let fields = row(alloc, tokens, at + 1, depth, levels)?;
        let covered = span(tokens, at, fields.end);
        let made = row_of(covered, fields)?;
        Ok(made)
    } else if sees(tokens, at, TokenKind::Symbol(Symbol::LBrace)) {
        let fields = fields(alloc, tokens, at + 1, depth, levels)?;
        let covered = span(tokens, at, fields.end);
        let made = record_of_fields(covered, fields)?;
        Ok(made)
    } else if sees(tokens, at, TokenKind::Symbol(Symbol::Dollar)) {
        let less = below(levels)?;
        let row = atom(alloc, tokens, at + 1, depth, less, false)?;
        fitting(alloc, tokens, at, false, &row.tree)?;
        let covered = span(tokens, at, row.end);
        let made = record_of(alloc, covered, row)?;
        Ok(made)
    } else if sees(tokens, at, TokenKind::Symbol(Symbol::LParen)) {
        let inner = con(alloc, tokens, at + 1, depth, levels, ConPlace::Plain)?;
        let end = expect(alloc, tokens, inner.end, TokenKind::Symbol(Symbol::RParen))?;
        Ok(ending(inner, end))
    } else {
        let made = named(alloc, tokens, at, keys)?;
        Ok(made)
    }
}

/// The fields of a row with commas between, and `]`.
#[cycle(con)]
fn row(
    alloc: Global,
    tokens: &Tokens,
    at: usize,
    depth: usize,
    levels: usize,
) -> Result<Parsed<List<CField>>, Stop>
    ensures moves { IfOk result (λ p. Moves tokens.now at p.end) }
    ensures found { IfOk result (λ p. Reads language depth tokens.now at p.end (of_con row) p.tree) }
    ensures refused { IfRefused result (λ r. Refuses language depth tokens.now at (of_con row) r) }
{
    let mut list: List<CField> = List::new(alloc);
    if sees(tokens, at, TokenKind::Symbol(Symbol::RBracket)) {
        return Ok(Parsed {
            tree: list,
            end: at + 1,
            height: 0,
        });
    }
    let first = row_field(alloc, tokens, at, depth, levels)?;
    let Parsed {
        tree,
        mut end,
        mut height,
    } = first;
    pushed(&mut list, tree)?;
    'commas: while sees(tokens, end, TokenKind::Symbol(Symbol::Comma)) {
        let next = row_field(alloc, tokens, end + 1, depth, levels)?;
        height = taller(height, next.height);
        end = next.end;
        pushed(&mut list, next.tree)?;
    }
    let close = expect(alloc, tokens, end, TokenKind::Symbol(Symbol::RBracket))?;
    Ok(Parsed {
        tree: list,
        end: close,
        height,
    })
}

/// A field of a row, with its constructor if it has one.
#[cycle(con)]
fn row_field(
    alloc: Global,
    tokens: &Tokens,
    at: usize,
    depth: usize,
    levels: usize,
) -> Result<Parsed<CField>, Stop>
    ensures moves { IfOk result (λ p. Moves tokens.now at p.end) }
    ensures found { IfOk result (λ p. Reads language depth tokens.now at p.end (of_con row_field) p.tree) }
    ensures refused { IfRefused result (λ r. Refuses language depth tokens.now at (of_con row_field) r) }
{
    let (name, end) = expect_field_name(alloc, tokens, at)?;
    if sees(tokens, end, TokenKind::Symbol(Symbol::Eq)) {
        let value = con(alloc, tokens, end + 1, depth, levels, ConPlace::Plain)?;
        let made = given(alloc, tokens, name, value)?;
        Ok(made)
    } else {
        let made = bare(alloc, tokens, name, end)?;
        Ok(made)
    }
}

/// The fields of a record with commas between, and `}`.
#[cycle(con)]
fn fields(
    alloc: Global,
    tokens: &Tokens,
    at: usize,
    depth: usize,
    levels: usize,
) -> Result<Parsed<List<RecordField>>, Stop>
    ensures moves { IfOk result (λ p. Moves tokens.now at p.end) }
    ensures found { IfOk result (λ p. Reads language depth tokens.now at p.end (of_con fields) p.tree) }
    ensures refused { IfRefused result (λ r. Refuses language depth tokens.now at (of_con fields) r) }
{
    let mut list: List<RecordField> = List::new(alloc);
    if sees(tokens, at, TokenKind::Symbol(Symbol::RBrace)) {
        return Ok(Parsed {
            tree: list,
            end: at + 1,
            height: 0,
        });
    }
    let first = record_field(alloc, tokens, at, depth, levels)?;
    let Parsed {
        tree,
        mut end,
        mut height,
    } = first;
    pushed(&mut list, tree)?;
    'commas: while sees(tokens, end, TokenKind::Symbol(Symbol::Comma)) {
        let next = record_field(alloc, tokens, end + 1, depth, levels)?;
        height = taller(height, next.height);
        end = next.end;
        pushed(&mut list, next.tree)?;
    }
    let close = expect(alloc, tokens, end, TokenKind::Symbol(Symbol::RBrace))?;
    Ok(Parsed {
        tree: list,
        end: close,
        height,
    })
}

/// A field of a record with its constructor.
#[cycle(con)]
fn record_field(
    alloc: Global,
    tokens: &Tokens,
    at: usize,
    depth: usize,
    levels: usize,
) -> Result<Parsed<RecordField>, Stop>
    ensures moves { IfOk result (λ p. Moves tokens.now at p.end) }
    ensures found { IfOk result (λ p. Reads language depth tokens.now at p.end (of_con record_field) p.tree) }
    ensures refused { IfRefused result (λ r. Refuses language depth tokens.now at (of_con record_field) r) }
{
    let (name, colon) = expect_field_name(alloc, tokens, at)?;
    let begin = expect(alloc, tokens, colon, TokenKind::Symbol(Symbol::Colon))?;
    let value = con(alloc, tokens, begin, depth, levels, ConPlace::Plain)?;
    Ok(in_record(name, value))
}
