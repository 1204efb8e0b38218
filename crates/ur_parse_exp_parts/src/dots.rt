//! Names of fields behind an expression.
ghost use Rattle.std.specs.Prelude.{◌≡◌, ℕ, IfOk};
ghost use Rattle.ur_parse_rules.specs.Places.{Moves, Refuses, IfRefused};
ghost use Rattle.ur_parse_rules.specs.ExpParts.{dots};
ghost use Rattle.ur_parse_rules.specs.Parts.{of_exp};
ghost use Rattle.ur_parse_rules.specs.Language.{language};
ghost use Rattle.ur_parse_exp_parts.specs.Behind.{DotsRead};

use crate::form::project;
use crate::height::may_grow;
use std::alloc::Global;
use ur_base::{Boxed, Stop};
use ur_lex::{Symbol, TokenKind, Tokens};
use ur_parse_con::expect_field_name;
use ur_parse_rules::{Parsed, sees, span};
use ur_syntax::Exp;

/// An expression that begins at a place, with the names of fields behind it, up to a height.
pub fn read_dots(
    alloc: Global,
    tokens: &Tokens,
    from: usize,
    base: Parsed<Boxed<Exp>>,
    greatest: usize,
) -> Result<Parsed<Boxed<Exp>>, Stop>
    requires { Moves tokens.now from base.end }
    ensures moves { IfOk result (λ p. Moves tokens.now from p.end) }
    ensures found { IfOk result (λ p. DotsRead tokens.now from base.end p.end base.tree p.tree) }
    ensures refused { IfRefused result (λ r. (n : ℕ) → Refuses language n tokens.now base.end (of_exp dots) r) }
{
    let mut whole = base;
    'dots: while sees(tokens, whole.end, TokenKind::Symbol(Symbol::Dot)) {
        may_grow(whole.height, greatest)?;
        let (name, end) = expect_field_name(alloc, tokens, whole.end + 1)?;
        let covered = span(tokens, from, end);
        whole = project(alloc, covered, whole, name, end)?;
    }
    Ok(whole)
}
