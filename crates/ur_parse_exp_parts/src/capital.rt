//! Words in capitals, and `[]`, with the names of fields behind them.
ghost use Rattle.std.specs.Prelude.{◌≡◌, ℕ, IfOk, ◌+◌};
ghost use Rattle.ur_parse_rules.specs.Places.{Moves, Refuses, IfRefused};
ghost use Rattle.ur_parse_rules.specs.ExpParts.{capital_rest, dots};
ghost use Rattle.ur_parse_rules.specs.Parts.{of_exp};
ghost use Rattle.ur_parse_rules.specs.Language.{language};
ghost use Rattle.ur_parse_exp_parts.specs.Behind.{CapitalRead, NilRead};

use crate::dots::read_dots;
use crate::form::{constructor_of, member_constructor_of, member_of, nil_of};
use std::alloc::Global;
use ur_base::{Boxed, Stop, Text};
use ur_lex::{Symbol, TokenKind, Tokens};
use ur_parse_rules::{Parsed, expect_name, sees, span};
use ur_syntax::Exp;

/// The expression that a word in capitals begins, which stands at a place: a constructor of a datatype, or what a dot
/// behind the name of a module takes, up to a height.
pub fn read_capital(
    alloc: Global,
    tokens: &Tokens,
    from: usize,
    name: Text,
    greatest: usize,
) -> Result<Parsed<Boxed<Exp>>, Stop>
    requires { Moves tokens.now from (from + 1) }
    ensures moves { IfOk result (λ p. Moves tokens.now from p.end) }
    ensures found { IfOk result (λ p. CapitalRead tokens.now from p.end name p.tree) }
    ensures refused { IfRefused result (λ r. (n : ℕ) → Refuses language n tokens.now (from + 1) (of_exp capital_rest) r) }
{
    let count = tokens.len();
    prove!(from < count);
    let at = from + 1;
    if sees(tokens, at, TokenKind::Symbol(Symbol::Dot)) {
        if sees(tokens, at + 1, TokenKind::Lower) {
            let (inner, end) = expect_name(alloc, tokens, at + 1, TokenKind::Lower)?;
            let covered = span(tokens, from, end);
            let member = member_of(alloc, covered, name, inner, end)?;
            let made = read_dots(alloc, tokens, from, member, greatest)?;
            Ok(made)
        } else {
            let (inner, end) = expect_name(alloc, tokens, at + 1, TokenKind::Upper)?;
            let covered = span(tokens, from, end);
            let member = member_constructor_of(alloc, covered, name, inner, end)?;
            let made = read_dots(alloc, tokens, from, member, greatest)?;
            Ok(made)
        }
    } else {
        let covered = span(tokens, from, at);
        let made = constructor_of(alloc, covered, name, at)?;
        Ok(made)
    }
}

/// `[]` from a place on, whose `]` ends at another, with the names of fields behind it, up to a height.
pub fn read_nil(
    alloc: Global,
    tokens: &Tokens,
    from: usize,
    end: usize,
    greatest: usize,
) -> Result<Parsed<Boxed<Exp>>, Stop>
    requires { Moves tokens.now from end }
    ensures moves { IfOk result (λ p. Moves tokens.now from p.end) }
    ensures found { IfOk result (λ p. NilRead tokens.now from end p.end p.tree) }
    ensures refused { IfRefused result (λ r. (n : ℕ) → Refuses language n tokens.now end (of_exp dots) r) }
{
    let covered = span(tokens, from, end);
    let nil = nil_of(alloc, covered, end)?;
    let made = read_dots(alloc, tokens, from, nil, greatest)?;
    Ok(made)
}
