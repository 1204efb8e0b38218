//! Ints, strings and variables.
ghost use Rattle.std.specs.Prelude.{◌≡◌, ℕ, IfOk};
ghost use Rattle.ur_parse_rules.specs.Places.{Moves, Reads, Refuses, IfRefused};
ghost use Rattle.ur_parse_rules.specs.ExpParts.{base};
ghost use Rattle.ur_parse_rules.specs.Parts.{of_exp};
ghost use Rattle.ur_parse_rules.specs.Language.{language};
ghost use Rattle.ur_parse_exp_parts.specs.Begins.{NoneOpens};

use crate::form::{int_of, string_of, variable_of};
use crate::word::expect_word_of;
use std::alloc::Global;
use ur_base::{Boxed, Stop};
use ur_lex::{TokenKind, Tokens};
use ur_parse_rules::{Parsed, expect_name, number_at, sees, span};
use ur_syntax::Exp;

/// An int, a string or a variable, where no other atom begins.
pub fn read_simple(
    alloc: Global,
    tokens: &Tokens,
    at: usize,
    first: bool,
) -> Result<Parsed<Boxed<Exp>>, Stop>
    ensures moves { IfOk result (λ p. Moves tokens.now at p.end) }
    ensures found { IfOk result (λ p. (n : ℕ) → Reads language n tokens.now at p.end (of_exp (base first)) p.tree) }
    ensures refused { NoneOpens tokens.now at → IfRefused result (λ r. (n : ℕ) → Refuses language n tokens.now at (of_exp (base first)) r) }
{
    if sees(tokens, at, TokenKind::Str) {
        let (text, end) = expect_name(alloc, tokens, at, TokenKind::Str)?;
        let covered = span(tokens, at, end);
        let made = string_of(alloc, covered, text, end)?;
        Ok(made)
    } else {
        match number_at(tokens, at) {
            Some(number) => {
                let covered = span(tokens, at, at + 1);
                let made = int_of(alloc, covered, number, at + 1)?;
                Ok(made)
            }
            None => {
                let (name, end) = expect_word_of(alloc, tokens, at, TokenKind::Lower, first)?;
                let covered = span(tokens, at, end);
                let made = variable_of(alloc, covered, name, end)?;
                Ok(made)
            }
        }
    }
}
