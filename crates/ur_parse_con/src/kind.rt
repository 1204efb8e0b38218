//! Kinds.
ghost use Rattle.std.specs.Prelude.{◌≡◌, ℕ, IfOk};
ghost use Rattle.ur_syntax.specs.declared.kind.Kind.TheVariants as kinds;
ghost use Rattle.ur_parse_rules.specs.Places.{Moves, Reads, Refuses, IfRefused};
ghost use Rattle.ur_parse_rules.specs.ConParts.{kind, kind_atom};
ghost use Rattle.ur_parse_rules.specs.Parts.{of_con};
ghost use Rattle.ur_parse_rules.specs.Language.{language};
ghost use Rattle.ur_parse_con.specs.Chains.{arrows};

use std::alloc::Global;
use ur_base::{List, Stop};
use ur_lex::{Symbol, TokenKind, Tokens};
use ur_parse_rules::{
    Parsed, above, below, boxed, expect, expect_word, pushed, sees, sees_word, unexpected,
};
use ur_syntax::Kind;

/// Kinds with `->` between, which groups to the right, in at most `levels` parentheses.
#[cycle(kinds)]
pub fn kind(alloc: Global, tokens: &Tokens, at: usize, levels: usize) -> Result<Parsed<Kind>, Stop>
    ensures moves { IfOk result (λ p. Moves tokens.now at p.end) }
    ensures found { IfOk result (λ p. (n : ℕ) → Reads language n tokens.now at p.end (of_con kind) p.tree) }
    ensures refused { IfRefused result (λ r. (n : ℕ) → Refuses language n tokens.now at (of_con kind) r) }
{
    let mut left: List<Kind> = List::new(alloc);
    let mut tallest = 0;
    let mut begin = at;
    let mut last = kind_atom(alloc, tokens, at, levels)?;
    'arrows: while sees(tokens, last.end, TokenKind::Symbol(Symbol::Arrow)) {
        let next = kind_atom(alloc, tokens, last.end + 1, levels)?;
        let Parsed { tree, end, height } = last;
        tallest = taller(tallest, height);
        begin = end + 1;
        pushed(&mut left, tree)?;
        last = next;
    }
    let whole = joined(alloc, left, last, tallest)?;
    Ok(whole)
}

/// The greater of two heights.
pub fn taller(left: usize, right: usize) -> usize {
    if left < right { right } else { left }
}

/// Kinds with an arrow before each that stands behind them.
fn joined(
    alloc: Global,
    mut left: List<Kind>,
    last: Parsed<Kind>,
    tallest: usize,
) -> Result<Parsed<Kind>, Stop>
    ensures found { IfOk result (λ p. (p.tree ≡ arrows left last.tree) × (p.end ≡ last.end)) }
    ensures refused { IfRefused result (λ r. ⊥) }
{
    let Parsed {
        tree: mut right,
        end,
        mut height,
    } = last;
    'kinds: while let Some(kind) = left.pop() {
        height = above(tallest, height)?;
        right = arrow(alloc, kind, right)?;
    }
    Ok(Parsed {
        tree: right,
        end,
        height,
    })
}

/// The kind of what takes one kind to another.
fn arrow(alloc: Global, from: Kind, to: Kind) -> Result<Kind, Stop>
    ensures found { IfOk result (λ k. k ≡ kinds.Arrow from to) }
    ensures refused { IfRefused result (λ r. ⊥) }
{
    let from = boxed(alloc, from)?;
    let to = boxed(alloc, to)?;
    Ok(Kind::Arrow(from, to))
}

/// `Type`, `Name`, `{Type}`, or a kind in parentheses.
#[cycle(kinds)]
fn kind_atom(alloc: Global, tokens: &Tokens, at: usize, levels: usize) -> Result<Parsed<Kind>, Stop>
    ensures moves { IfOk result (λ p. Moves tokens.now at p.end) }
    ensures found { IfOk result (λ p. (n : ℕ) → Reads language n tokens.now at p.end (of_con kind_atom) p.tree) }
    ensures refused { IfRefused result (λ r. (n : ℕ) → Refuses language n tokens.now at (of_con kind_atom) r) }
{
    if sees_word(tokens, at, TokenKind::Upper, b"Type") {
        Ok(leaf(Kind::Star, at + 1))
    } else if sees_word(tokens, at, TokenKind::Upper, b"Name") {
        Ok(leaf(Kind::Name, at + 1))
    } else if sees(tokens, at, TokenKind::Symbol(Symbol::LBrace)) {
        let word = expect_word(alloc, tokens, at + 1, TokenKind::Upper, b"Type")?;
        let close = expect(alloc, tokens, word, TokenKind::Symbol(Symbol::RBrace))?;
        Ok(leaf(Kind::Row, close))
    } else if sees(tokens, at, TokenKind::Symbol(Symbol::LParen)) {
        let levels = below(levels)?;
        let inner = kind(alloc, tokens, at + 1, levels)?;
        let close = expect(alloc, tokens, inner.end, TokenKind::Symbol(Symbol::RParen))?;
        Ok(ending(inner, close))
    } else {
        Err(unexpected(alloc, tokens, at))
    }
}

/// A tree without parts.
fn leaf(tree: Kind, end: usize) -> Parsed<Kind>
    ensures tree { result.tree ≡ tree }
    ensures end { result.end ≡ end }
{
    Parsed {
        tree,
        end,
        height: 1,
    }
}

/// The same tree with another end.
fn ending(inner: Parsed<Kind>, end: usize) -> Parsed<Kind>
    ensures tree { result.tree ≡ inner.tree }
    ensures end { result.end ≡ end }
{
    let Parsed {
        tree,
        end: _,
        height,
    } = inner;
    Parsed { tree, end, height }
}
