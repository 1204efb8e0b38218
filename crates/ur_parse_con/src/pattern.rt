//! Patterns.
ghost use Rattle.std.specs.Prelude.{◌≡◌, ℕ, IfOk, drop};
ghost use Rattle.ur_syntax.specs.declared.exp.Binder.TheVariants as binders;
ghost use Rattle.ur_syntax.specs.declared.exp.PatForm.TheVariants as forms;
ghost use Rattle.ur_parse_rules.specs.Places.{Moves, Reads, Refuses, IfRefused, starts};
ghost use Rattle.ur_parse_rules.specs.Classes.{member};
ghost use Rattle.ur_parse_rules.specs.Patterns.{cons_of};
ghost use Rattle.ur_parse_rules.specs.ExpParts.{pat};
ghost use Rattle.ur_parse_rules.specs.Parts.{of_exp};
ghost use Rattle.ur_parse_rules.specs.Language.{language};
ghost use Rattle.ur_parse_con.specs.Forms.{IsForm, NoneOpens, NoLiteral, pat_more};

use crate::behind::{rest, tail};
use crate::binder::{read_binder, sees_binder};
use crate::capital::expect_constructor;
use std::alloc::Global;
use ur_base::{Stop, Text};
use ur_lex::{Symbol, TokenKind, Tokens};
use ur_parse_rules::{Parsed, expect, expect_name, number_at, sees, sees_word, span, unexpected};
use ur_syntax::{Binder, Pat, PatForm};

/// Whether a pattern goes on at a place.
fn goes_on(tokens: &Tokens, at: usize) -> bool
    ensures { result ≡ starts (member pat_more) (drop at tokens.now) }
{
    if sees(tokens, at, TokenKind::Symbol(Symbol::DoubleColon)) {
        true
    } else if sees(tokens, at, TokenKind::Symbol(Symbol::Dot)) {
        true
    } else {
        sees_binder(tokens, at)
    }
}

/// A pattern. E05 where none stands at the place.
pub fn read_pat(alloc: Global, tokens: &Tokens, at: usize) -> Result<Parsed<Pat>, Stop>
    ensures moves { IfOk result (λ p. Moves tokens.now at p.end) }
    ensures found { IfOk result (λ p. (n : ℕ) → Reads language n tokens.now at p.end (of_exp pat) p.tree) }
    ensures refused { IfRefused result (λ r. (n : ℕ) → Refuses language n tokens.now at (of_exp pat) r) }
{
    let (form, end) = form(alloc, tokens, at)?;
    if goes_on(tokens, end) {
        return Err(unexpected(alloc, tokens, end));
    }
    let covered = span(tokens, at, end);
    Ok(Parsed {
        tree: Pat {
            span: covered,
            form,
        },
        end,
        height: 1,
    })
}

/// The form of a pattern, and the place behind its tokens.
fn form(alloc: Global, tokens: &Tokens, at: usize) -> Result<(PatForm, usize), Stop>
    ensures moves { IfOk result (λ p. Moves tokens.now at p.1) }
    ensures found { IfOk result (λ p. IsForm tokens.now at p.1 p.0) }
    ensures refused { IfRefused result (λ r. (n : ℕ) → Refuses language n tokens.now at (of_exp pat) r) }
{
    if sees(tokens, at, TokenKind::Symbol(Symbol::Underscore)) {
        let (second, end) = tail(alloc, tokens, at + 1)?;
        Ok((wild(second), end))
    } else if sees(tokens, at, TokenKind::Lower) {
        let (name, begin) = expect_name(alloc, tokens, at, TokenKind::Lower)?;
        let (second, end) = tail(alloc, tokens, begin)?;
        Ok((variable(name, second), end))
    } else if sees(tokens, at, TokenKind::Symbol(Symbol::LBracket)) {
        let end = expect(alloc, tokens, at + 1, TokenKind::Symbol(Symbol::RBracket))?;
        Ok((PatForm::Nil, end))
    } else if sees(tokens, at, TokenKind::Symbol(Symbol::Minus)) {
        let begin = at + 1;
        match number_at(tokens, begin) {
            Some(number) => Ok((PatForm::Negative(number), begin + 1)),
            None => Err(unexpected(alloc, tokens, begin)),
        }
    } else {
        literal(alloc, tokens, at)
    }
}

/// `_`, alone or before `::`.
fn wild(second: Option<Binder>) -> PatForm
    ensures { result ≡ cons_of forms.Wild binders.Ignored second }
{
    match second {
        None => PatForm::Wild,
        Some(binder) => PatForm::Cons(Binder::Ignored, binder),
    }
}

/// A variable, alone or before `::`.
fn variable(name: Text, second: Option<Binder>) -> PatForm
    ensures { result ≡ cons_of (forms.Var name) (binders.Named name) second }
{
    match second {
        None => PatForm::Var(name),
        Some(binder) => PatForm::Cons(Binder::Named(name), binder),
    }
}

/// An int, a string or what a word in capitals begins, where nothing else begins.
fn literal(alloc: Global, tokens: &Tokens, at: usize) -> Result<(PatForm, usize), Stop>
    ensures moves { IfOk result (λ p. Moves tokens.now at p.1) }
    ensures found { IfOk result (λ p. IsForm tokens.now at p.1 p.0) }
    ensures refused { NoneOpens tokens.now at → IfRefused result (λ r. (n : ℕ) → Refuses language n tokens.now at (of_exp pat) r) }
{
    if sees(tokens, at, TokenKind::Str) {
        let (text, end) = expect_name(alloc, tokens, at, TokenKind::Str)?;
        Ok((PatForm::Str(text), end))
    } else {
        match number_at(tokens, at) {
            Some(number) => Ok((PatForm::Int(number), at + 1)),
            None => word(alloc, tokens, at),
        }
    }
}

/// What a word in capitals begins, where nothing else begins.
fn word(alloc: Global, tokens: &Tokens, at: usize) -> Result<(PatForm, usize), Stop>
    ensures moves { IfOk result (λ p. Moves tokens.now at p.1) }
    ensures found { IfOk result (λ p. IsForm tokens.now at p.1 p.0) }
    ensures refused { NoneOpens tokens.now at → NoLiteral tokens.now at → IfRefused result (λ r. (n : ℕ) → Refuses language n tokens.now at (of_exp pat) r) }
{
    if sees_word(tokens, at, TokenKind::Upper, b"True") {
        Ok((PatForm::True, at + 1))
    } else if sees_word(tokens, at, TokenKind::Upper, b"False") {
        Ok((PatForm::False, at + 1))
    } else if sees_word(tokens, at, TokenKind::Upper, b"None") {
        Ok((PatForm::None, at + 1))
    } else if sees_word(tokens, at, TokenKind::Upper, b"Some") {
        let (binder, end) = read_binder(alloc, tokens, at + 1)?;
        Ok((PatForm::Some(binder), end))
    } else {
        let (name, begin) = expect_constructor(alloc, tokens, at)?;
        let (form, end) = rest(alloc, tokens, name, begin)?;
        Ok((form, end))
    }
}
