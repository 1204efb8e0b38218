//! Expressions of SQL.
ghost use Rattle.std.specs.Prelude.{◌≡◌, ◌+◌, IfOk, Some, None, true, false, drop};
ghost use Rattle.ur_parse_rules.specs.Places.{Moves, Reads, Refuses, IfRefused};
ghost use Rattle.ur_parse_rules.specs.Quoted.{raw};
ghost use Rattle.ur_parse_rules.specs.SqlParts.{sexp, left, operand, negation, comparison, negative, atom};
ghost use Rattle.ur_parse_rules.specs.Parts.{of_sql};
ghost use Rattle.ur_parse_rules.specs.Language.{language};
ghost use Rattle.ur_parse_embed_code.specs.Quotes.{Makes};
ghost use Rattle.ur_parse_embed.specs.Levels.{level_of};
ghost use Rattle.ur_parse_embed.specs.Leaves.{NoLeaf};

use crate::atoms::leaf_at;
use crate::columns::{column, field_column, undotted};
use crate::made::{Level, binary, ending, leaf, negative as negative_of, not, some, tested};
use crate::signs::{compared, ended, is_rest, operator};
use std::alloc::Global;
use ur_base::Stop;
use ur_lex::{Symbol, TokenKind, Tokens};
use ur_parse_embed_code::{Quotes, shown};
use ur_parse_rules::{Parsed, below, expect, expect_field, sees, sees_word, span, too_deep};
use ur_syntax::{SqlExp, SqlForm};

/// An expression with at most `depth` nested, itself among them, and at most `levels` signs before an expression. Where it
/// may be bare, a column may stand without its table.
#[cycle(sexp)]
pub fn sexp(
    alloc: Global,
    tokens: &Tokens,
    at: usize,
    depth: usize,
    levels: usize,
    bare: bool,
    quotes: &mut Quotes,
) -> Result<Parsed<SqlExp>, Stop>
    ensures moves { IfOk result (λ p. Moves tokens.now at p.end) }
    ensures found { IfOk result (λ p. Makes (Reads language depth tokens.now at p.end (of_sql raw (sexp bare))) tokens.now depth quotes.old quotes.new p.tree) }
    ensures refused { IfRefused result (Refuses language depth tokens.now at (of_sql raw (sexp bare))) }
{
    if depth == 0 {
        return Err(too_deep(alloc, tokens, at));
    }
    let inner = left(
        alloc,
        tokens,
        at,
        depth - 1,
        levels,
        bare,
        Level::Disjunction,
        quotes,
    )?;
    Ok(inner)
}

/// Operands of a level with its operators between, which group to the left.
#[cycle(sexp)]
fn left(
    alloc: Global,
    tokens: &Tokens,
    at: usize,
    depth: usize,
    levels: usize,
    bare: bool,
    level: Level,
    quotes: &mut Quotes,
) -> Result<Parsed<SqlExp>, Stop>
    ensures moves { IfOk result (λ p. Moves tokens.now at p.end) }
    ensures found { IfOk result (λ p. Makes (Reads language depth tokens.now at p.end (of_sql raw (left bare (level_of level)))) tokens.now depth quotes.old quotes.new p.tree) }
    ensures refused { IfRefused result (Refuses language depth tokens.now at (of_sql raw (left bare (level_of level)))) }
{
    let mut tree = operand(alloc, tokens, at, depth, levels, bare, level, quotes)?;
    'steps: while let Some(sign) = operator(tokens, tree.end, level) {
        let right = operand(
            alloc,
            tokens,
            tree.end + 1,
            depth,
            levels,
            bare,
            level,
            quotes,
        )?;
        let covered = span(tokens, at, right.end);
        tree = binary(alloc, covered, sign, tree, right)?;
    }
    Ok(tree)
}

/// What the operators of a level stand between.
#[cycle(sexp)]
fn operand(
    alloc: Global,
    tokens: &Tokens,
    at: usize,
    depth: usize,
    levels: usize,
    bare: bool,
    level: Level,
    quotes: &mut Quotes,
) -> Result<Parsed<SqlExp>, Stop>
    ensures moves { IfOk result (λ p. Moves tokens.now at p.end) }
    ensures found { IfOk result (λ p. Makes (Reads language depth tokens.now at p.end (of_sql raw (operand bare (level_of level)))) tokens.now depth quotes.old quotes.new p.tree) }
    ensures refused { IfRefused result (Refuses language depth tokens.now at (of_sql raw (operand bare (level_of level)))) }
{
    match level {
        Level::Disjunction => {
            let tree = left(
                alloc,
                tokens,
                at,
                depth,
                levels,
                bare,
                Level::Conjunction,
                quotes,
            )?;
            Ok(tree)
        }
        Level::Conjunction => {
            let tree = negation(alloc, tokens, at, depth, levels, bare, quotes)?;
            Ok(tree)
        }
        Level::Sum => {
            let tree = left(
                alloc,
                tokens,
                at,
                depth,
                levels,
                bare,
                Level::Product,
                quotes,
            )?;
            Ok(tree)
        }
        Level::Product => {
            let tree = negative(alloc, tokens, at, depth, levels, bare, quotes)?;
            Ok(tree)
        }
    }
}

/// `NOT` before an expression, as often as it stands there.
#[cycle(sexp)]
fn negation(
    alloc: Global,
    tokens: &Tokens,
    at: usize,
    depth: usize,
    levels: usize,
    bare: bool,
    quotes: &mut Quotes,
) -> Result<Parsed<SqlExp>, Stop>
    ensures moves { IfOk result (λ p. Moves tokens.now at p.end) }
    ensures found { IfOk result (λ p. Makes (Reads language depth tokens.now at p.end (of_sql raw (negation bare))) tokens.now depth quotes.old quotes.new p.tree) }
    ensures refused { IfRefused result (Refuses language depth tokens.now at (of_sql raw (negation bare))) }
{
    if sees_word(tokens, at, TokenKind::Upper, b"NOT") {
        let less = below(levels)?;
        let inner = negation(alloc, tokens, at + 1, depth, less, bare, quotes)?;
        let covered = span(tokens, at, inner.end);
        let made = not(alloc, covered, inner)?;
        Ok(made)
    } else {
        let tree = comparison(alloc, tokens, at, depth, levels, bare, quotes)?;
        Ok(tree)
    }
}

/// One comparison at most, or `IS NULL` or `IS NOT NULL`.
#[cycle(sexp)]
fn comparison(
    alloc: Global,
    tokens: &Tokens,
    at: usize,
    depth: usize,
    levels: usize,
    bare: bool,
    quotes: &mut Quotes,
) -> Result<Parsed<SqlExp>, Stop>
    ensures moves { IfOk result (λ p. Moves tokens.now at p.end) }
    ensures found { IfOk result (λ p. Makes (Reads language depth tokens.now at p.end (of_sql raw (comparison bare))) tokens.now depth quotes.old quotes.new p.tree) }
    ensures refused { IfRefused result (Refuses language depth tokens.now at (of_sql raw (comparison bare))) }
{
    let tree = left(alloc, tokens, at, depth, levels, bare, Level::Sum, quotes)?;
    if let Some(sign) = compared(tokens, tree.end) {
        let right = left(
            alloc,
            tokens,
            tree.end + 1,
            depth,
            levels,
            bare,
            Level::Sum,
            quotes,
        )?;
        ended(alloc, tokens, right.end, bare)?;
        let covered = span(tokens, at, right.end);
        let made = binary(alloc, covered, sign, tree, right)?;
        Ok(made)
    } else if sees_word(tokens, tree.end, TokenKind::Upper, b"IS") {
        let (null, end) = is_rest(alloc, tokens, tree.end + 1)?;
        ended(alloc, tokens, end, bare)?;
        let covered = span(tokens, at, end);
        let made = tested(alloc, covered, null, tree, end)?;
        Ok(made)
    } else {
        Ok(tree)
    }
}

/// `-` before an expression, as often as it stands there.
#[cycle(sexp)]
fn negative(
    alloc: Global,
    tokens: &Tokens,
    at: usize,
    depth: usize,
    levels: usize,
    bare: bool,
    quotes: &mut Quotes,
) -> Result<Parsed<SqlExp>, Stop>
    ensures moves { IfOk result (λ p. Moves tokens.now at p.end) }
    ensures found { IfOk result (λ p. Makes (Reads language depth tokens.now at p.end (of_sql raw (negative bare))) tokens.now depth quotes.old quotes.new p.tree) }
    ensures refused { IfRefused result (Refuses language depth tokens.now at (of_sql raw (negative bare))) }
{
    if sees(tokens, at, TokenKind::Symbol(Symbol::Minus)) {
        let less = below(levels)?;
        let inner = negative(alloc, tokens, at + 1, depth, less, bare, quotes)?;
        let covered = span(tokens, at, inner.end);
        let made = negative_of(alloc, covered, inner)?;
        Ok(made)
    } else {
        let tree = atom(alloc, tokens, at, depth, levels, bare, quotes)?;
        Ok(tree)
    }
}

/// A value, a column, `{[e]}`, `SOME(e)`, or an expression in parentheses.
#[cycle(sexp)]
fn atom(
    alloc: Global,
    tokens: &Tokens,
    at: usize,
    depth: usize,
    levels: usize,
    bare: bool,
    quotes: &mut Quotes,
) -> Result<Parsed<SqlExp>, Stop>
    ensures moves { IfOk result (λ p. Moves tokens.now at p.end) }
    ensures found { IfOk result (λ p. Makes (Reads language depth tokens.now at p.end (of_sql raw (atom bare))) tokens.now depth quotes.old quotes.new p.tree) }
    ensures refused { IfRefused result (Refuses language depth tokens.now at (of_sql raw (atom bare))) }
{
    let leaf = leaf_at(alloc, tokens, at, bare)?;
    match leaf {
        Some(found) => Ok(found),
        None => compound(alloc, tokens, at, depth, levels, bare, quotes),
    }
}

/// A column, `{[e]}`, `SOME(e)`, or an expression in parentheses, where no value stands.
#[cycle(sexp)]
fn compound(
    alloc: Global,
    tokens: &Tokens,
    at: usize,
    depth: usize,
    levels: usize,
    bare: bool,
    quotes: &mut Quotes,
) -> Result<Parsed<SqlExp>, Stop>
    ensures moves { IfOk result (λ p. Moves tokens.now at p.end) }
    ensures found { IfOk result (λ p. Makes (Reads language depth tokens.now at p.end (of_sql raw (atom bare))) tokens.now depth quotes.old quotes.new p.tree) }
    ensures refused { NoLeaf tokens.now at → IfRefused result (Refuses language depth tokens.now at (of_sql raw (atom bare))) }
{
    if sees_word(tokens, at, TokenKind::Upper, b"SOME") {
        let begin = expect(alloc, tokens, at + 1, TokenKind::Symbol(Symbol::LParen))?;
        let inner = sexp(alloc, tokens, begin, depth, levels, bare, quotes)?;
        let end = expect(alloc, tokens, inner.end, TokenKind::Symbol(Symbol::RParen))?;
        undotted(alloc, tokens, end, bare)?;
        let covered = span(tokens, at, end);
        let made = some(alloc, covered, inner, end)?;
        Ok(made)
    } else if sees(tokens, at, TokenKind::Symbol(Symbol::LBrace)) {
        let (number, end) = shown(alloc, tokens, at, depth, quotes)?;
        undotted(alloc, tokens, end, bare)?;
        let covered = span(tokens, at, end);
        Ok(leaf(covered, SqlForm::Anti(number), end))
    } else if sees(tokens, at, TokenKind::Symbol(Symbol::LParen)) {
        let inner = sexp(alloc, tokens, at + 1, depth, levels, bare, quotes)?;
        let end = expect(alloc, tokens, inner.end, TokenKind::Symbol(Symbol::RParen))?;
        undotted(alloc, tokens, end, bare)?;
        Ok(ending(inner, end))
    } else if sees(tokens, at, TokenKind::Lower) {
        let (tree, end) = column(alloc, tokens, at, bare)?;
        Ok(Parsed {
            tree,
            end,
            height: 1,
        })
    } else {
        let (first, behind) = expect_field(alloc, tokens, at)?;
        let (tree, end) = field_column(alloc, tokens, at, first, behind, bare)?;
        Ok(Parsed {
            tree,
            end,
            height: 1,
        })
    }
}
