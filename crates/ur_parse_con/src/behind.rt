//! What stands behind the begin of a pattern.
ghost use Rattle.std.specs.Prelude.{◌≡◌, ℕ, IfOk};
ghost use Rattle.ur_parse_rules.specs.Places.{Reads, Refuses, IfRefused};
ghost use Rattle.ur_parse_rules.specs.ExpParts.{pat_cons, pat_argument, pat_rest};
ghost use Rattle.ur_parse_rules.specs.Parts.{of_exp};
ghost use Rattle.ur_parse_rules.specs.Language.{language};
ghost use Rattle.ur_parse_con.specs.Forms.{Stays, RestReads};

use crate::binder::{read_binder, sees_binder};
use std::alloc::Global;
use ur_base::{Stop, Text};
use ur_lex::{Symbol, TokenKind, Tokens};
use ur_parse_rules::{expect_name, sees, unexpected};
use ur_syntax::{Argument, Binder, PatForm};

/// `:: binder` behind a binder, if it stands there.
pub fn tail(alloc: Global, tokens: &Tokens, at: usize) -> Result<(Option<Binder>, usize), Stop>
    ensures stays { IfOk result (λ p. Stays tokens.now at p.1) }
    ensures found { IfOk result (λ p. (n : ℕ) → Reads language n tokens.now at p.1 (of_exp pat_cons) p.0) }
    ensures refused { IfRefused result (λ r. (n : ℕ) → Refuses language n tokens.now at (of_exp pat_cons) r) }
{
    if sees(tokens, at, TokenKind::Symbol(Symbol::DoubleColon)) {
        let (binder, end) = read_binder(alloc, tokens, at + 1)?;
        if sees(tokens, end, TokenKind::Symbol(Symbol::DoubleColon)) {
            return Err(unexpected(alloc, tokens, end));
        }
        Ok((Some(binder), end))
    } else {
        Ok((None, at))
    }
}

/// A binder behind a constructor of a datatype, if it stands there.
pub fn argument(alloc: Global, tokens: &Tokens, at: usize) -> Result<(Argument, usize), Stop>
    ensures stays { IfOk result (λ p. Stays tokens.now at p.1) }
    ensures found { IfOk result (λ p. (n : ℕ) → Reads language n tokens.now at p.1 (of_exp pat_argument) p.0) }
    ensures refused { IfRefused result (λ r. (n : ℕ) → Refuses language n tokens.now at (of_exp pat_argument) r) }
{
    if sees_binder(tokens, at) {
        let (binder, end) = read_binder(alloc, tokens, at)?;
        if sees_binder(tokens, end) {
            return Err(unexpected(alloc, tokens, end));
        }
        Ok((Argument::Bound(binder), end))
    } else {
        Ok((Argument::Absent, at))
    }
}

/// The form that a word in capitals begins: a constructor of a datatype, or one of a module.
pub fn rest(alloc: Global, tokens: &Tokens, name: Text, at: usize) -> Result<(PatForm, usize), Stop>
    ensures stays { IfOk result (λ p. Stays tokens.now at p.1) }
    ensures found { IfOk result (λ p. RestReads tokens.now at p.1 name p.0) }
    ensures refused { IfRefused result (λ r. (n : ℕ) → Refuses language n tokens.now at (of_exp pat_rest) r) }
{
    if sees(tokens, at, TokenKind::Symbol(Symbol::Dot)) {
        let (inner, begin) = expect_name(alloc, tokens, at + 1, TokenKind::Upper)?;
        let (bound, end) = argument(alloc, tokens, begin)?;
        if sees(tokens, end, TokenKind::Symbol(Symbol::Dot)) {
            return Err(unexpected(alloc, tokens, end));
        }
        Ok((PatForm::Member(name, inner, bound), end))
    } else {
        let (bound, end) = argument(alloc, tokens, at)?;
        if sees(tokens, end, TokenKind::Symbol(Symbol::Dot)) {
            return Err(unexpected(alloc, tokens, end));
        }
        Ok((PatForm::Constructor(name, bound), end))
    }
}
