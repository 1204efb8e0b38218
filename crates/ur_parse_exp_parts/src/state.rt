//! `nextval` and `getCookie`.
ghost use Rattle.std.specs.Prelude.{◌≡◌, ℕ, IfOk};
ghost use Rattle.ur_parse_rules.specs.Places.{Moves, Reads, Refuses, IfRefused};
ghost use Rattle.ur_parse_rules.specs.ExpParts as e;
ghost use Rattle.ur_parse_rules.specs.Parts.{of_exp};
ghost use Rattle.ur_parse_rules.specs.Language.{language};
ghost use Rattle.ur_parse_exp_parts.specs.declared.word.FormWord.TheVariants as form_word;
ghost use Rattle.ur_parse_exp_parts.specs.Words.{Stands};

use crate::name::decl_name;
use crate::{get_cookie_of, nextval_of};
use std::alloc::Global;
use ur_base::{Boxed, Stop};
use ur_lex::{Symbol, TokenKind, Tokens};
use ur_parse_embed_code::absent;
use ur_parse_rules::{Parsed, span};
use ur_syntax::Exp;

/// `nextval name`, whose `nextval` stands at a place.
pub fn read_nextval(alloc: Global, tokens: &Tokens, at: usize) -> Result<Parsed<Boxed<Exp>>, Stop>
    requires { Stands tokens.now at form_word.Nextval }
    ensures moves { IfOk result (λ p. Moves tokens.now at p.end) }
    ensures found { IfOk result (λ p. (n : ℕ) → Reads language n tokens.now at p.end (of_exp e.head) p.tree) }
    ensures refused { IfRefused result (λ r. (n : ℕ) → Refuses language n tokens.now at (of_exp e.head) r) }
{
    let (name, end) = decl_name(alloc, tokens, at + 1)?;
    absent(alloc, tokens, end, TokenKind::Symbol(Symbol::Dot))?;
    let covered = span(tokens, at, end);
    let made = nextval_of(alloc, covered, name, end)?;
    Ok(made)
}

/// `getCookie name`, whose `getCookie` stands at a place.
pub fn read_get_cookie(
    alloc: Global,
    tokens: &Tokens,
    at: usize,
) -> Result<Parsed<Boxed<Exp>>, Stop>
    requires { Stands tokens.now at form_word.GetCookie }
    ensures moves { IfOk result (λ p. Moves tokens.now at p.end) }
    ensures found { IfOk result (λ p. (n : ℕ) → Reads language n tokens.now at p.end (of_exp e.head) p.tree) }
    ensures refused { IfRefused result (λ r. (n : ℕ) → Refuses language n tokens.now at (of_exp e.head) r) }
{
    let (name, end) = decl_name(alloc, tokens, at + 1)?;
    absent(alloc, tokens, end, TokenKind::Symbol(Symbol::Dot))?;
    let covered = span(tokens, at, end);
    let made = get_cookie_of(alloc, covered, name, end)?;
    Ok(made)
}
