//! Parameters of functions that are constructors.
ghost use Rattle.std.specs.Prelude.{◌≡◌, ◌+◌, ◌⊎◌, IfOk, IsTrue, false};
ghost use Rattle.ur_lex.specs.declared.token.Symbol.TheVariants as symbol;
ghost use Rattle.ur_lex.specs.declared.token.TokenKind.TheVariants as token;
ghost use Rattle.ur_syntax.specs.declared.con.ConParam.TheVariants as params;
ghost use Rattle.ur_parse_rules.specs.Places.{Moves, Reads, Refuses, IfRefused, IsAt, Other, OfKind};
ghost use Rattle.ur_parse_rules.specs.ConParts.{con_param};
ghost use Rattle.ur_parse_rules.specs.Parts.{of_con};
ghost use Rattle.ur_parse_rules.specs.Language.{language};

use crate::con::con;
use crate::kind::{kind, taller};
use std::alloc::Global;
use ur_base::{Stop, Text};
use ur_lex::{Symbol, TokenKind, Tokens};
use ur_parse_rules::{ConPlace, Parsed, expect, expect_name, sees};
use ur_syntax::{Con, ConParam, Kind};

/// Whether `x ::` stands at a place.
fn sees_kinded(tokens: &Tokens, at: usize) -> bool
    ensures yes { IsTrue result → IsAt tokens.now at (at + 1) (OfKind token.Lower) × IsAt tokens.now (at + 1) (at + 1 + 1) (OfKind (token.Symbol symbol.DoubleColon)) }
    ensures no { result ≡ false → Other tokens.now at (OfKind token.Lower) ⊎ Other tokens.now (at + 1) (OfKind (token.Symbol symbol.DoubleColon)) }
{
    if sees(tokens, at, TokenKind::Lower) {
        sees(tokens, at + 1, TokenKind::Symbol(Symbol::DoubleColon))
    } else {
        false
    }
}

/// `[x :: kind]` or `[con ~ con]`, with at most `depth` constructors nested, and at most `levels` parentheses around a
/// kind and `$` before a constructor.
pub fn con_param(
    alloc: Global,
    tokens: &Tokens,
    at: usize,
    depth: usize,
    levels: usize,
) -> Result<Parsed<ConParam>, Stop>
    ensures moves { IfOk result (λ p. Moves tokens.now at p.end) }
    ensures found { IfOk result (λ p. Reads language depth tokens.now at p.end (of_con con_param) p.tree) }
    ensures refused { IfRefused result (λ r. Refuses language depth tokens.now at (of_con con_param) r) }
{
    let inner = expect(alloc, tokens, at, TokenKind::Symbol(Symbol::LBracket))?;
    if sees_kinded(tokens, inner) {
        let (name, colons) = expect_name(alloc, tokens, inner, TokenKind::Lower)?;
        let begin = expect(
            alloc,
            tokens,
            colons,
            TokenKind::Symbol(Symbol::DoubleColon),
        )?;
        let of = kind(alloc, tokens, begin, levels)?;
        let end = expect(alloc, tokens, of.end, TokenKind::Symbol(Symbol::RBracket))?;
        Ok(kinded(name, of, end))
    } else {
        let left = con(alloc, tokens, inner, depth, levels, ConPlace::Beside)?;
        let begin = expect(alloc, tokens, left.end, TokenKind::Symbol(Symbol::Tilde))?;
        let right = con(alloc, tokens, begin, depth, levels, ConPlace::Beside)?;
        let end = expect(
            alloc,
            tokens,
            right.end,
            TokenKind::Symbol(Symbol::RBracket),
        )?;
        Ok(disjoint(left, right, end))
    }
}

/// `[x :: kind]`, made of its parts.
fn kinded(name: Text, of: Parsed<Kind>, end: usize) -> Parsed<ConParam>
    ensures tree { result.tree ≡ params.Kinded name of.tree }
    ensures end { result.end ≡ end }
{
    let Parsed {
        tree,
        end: _,
        height,
    } = of;
    Parsed {
        tree: ConParam::Kinded(name, tree),
        end,
        height,
    }
}

/// `[con ~ con]`, made of its parts.
fn disjoint(left: Parsed<Con>, right: Parsed<Con>, end: usize) -> Parsed<ConParam>
    ensures tree { result.tree ≡ params.Disjoint left.tree right.tree }
    ensures end { result.end ≡ end }
{
    let Parsed {
        tree: first,
        end: _,
        height: low,
    } = left;
    let Parsed {
        tree: second,
        end: _,
        height: high,
    } = right;
    Parsed {
        tree: ConParam::Disjoint(first, second),
        end,
        height: taller(low, high),
    }
}
