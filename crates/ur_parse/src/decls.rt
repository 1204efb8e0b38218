//! Declarations of constructors, types, sequences and cookies.
ghost use Rattle.std.specs.Prelude.{◌≡◌, ◌+◌, ℕ, IfOk};
ghost use Rattle.ur_lex.specs.declared.token.Keyword.TheVariants as keyword;
ghost use Rattle.ur_lex.specs.declared.token.TokenKind.TheVariants as token;
ghost use Rattle.ur_syntax.specs.declared.decl.DeclForm.TheVariants as form;
ghost use Rattle.ur_parse_rules.specs.Places.{Moves, Refuses, IfRefused, IsAt, OfKind};
ghost use Rattle.ur_parse_rules.specs.DeclParts.{decl};
ghost use Rattle.ur_parse_rules.specs.Parts.{of_decl};
ghost use Rattle.ur_parse_rules.specs.Language.{language};
ghost use Rattle.ur_parse.specs.Declares.{Declares};

use std::alloc::Global;
use ur_base::{Span, Stop};
use ur_lex::{Symbol, TokenKind, Tokens};
use ur_parse_con::{read_con, read_kind};
use ur_parse_rules::{ConPlace, Parsed, expect, expect_name, span};
use ur_syntax::{Decl, DeclForm};

/// A declaration with its span.
fn declared(span: Span, form: DeclForm, end: usize, height: usize) -> Parsed<Decl>
    ensures tree { result.tree ≡ record { span = span; form = form } }
    ensures end { result.end ≡ end }
{
    Parsed {
        tree: Decl { span, form },
        end,
        height,
    }
}

/// `con x :: kind = con` at its first word.
pub fn read_con_decl(
    alloc: Global,
    tokens: &Tokens,
    at: usize,
    depth: usize,
    levels: usize,
) -> Result<Parsed<Decl>, Stop>
    requires { IsAt tokens.now at (at + 1) (OfKind (token.Keyword keyword.Con)) }
    ensures moves { IfOk result (λ p. Moves tokens.now at p.end) }
    ensures found { IfOk result (λ p. Declares depth tokens.now at p.end p.tree) }
    ensures refused { IfRefused result (λ r. Refuses language depth tokens.now at (of_decl decl) r) }
{
    let (name, colons) = expect_name(alloc, tokens, at + 1, TokenKind::Lower)?;
    let begin = expect(
        alloc,
        tokens,
        colons,
        TokenKind::Symbol(Symbol::DoubleColon),
    )?;
    let of = read_kind(alloc, tokens, begin, levels)?;
    let value = expect(alloc, tokens, of.end, TokenKind::Symbol(Symbol::Eq))?;
    let con = read_con(alloc, tokens, value, depth, levels, ConPlace::Plain)?;
    let covered = span(tokens, at, con.end);
    let Parsed { tree, end, height } = con;
    Ok(declared(covered, DeclForm::Con(name, of.tree, tree), end, height))
}

/// `type x = con` at its first word.
pub fn read_type_decl(
    alloc: Global,
    tokens: &Tokens,
    at: usize,
    depth: usize,
    levels: usize,
) -> Result<Parsed<Decl>, Stop>
    requires { IsAt tokens.now at (at + 1) (OfKind (token.Keyword keyword.Type)) }
    ensures moves { IfOk result (λ p. Moves tokens.now at p.end) }
    ensures found { IfOk result (λ p. Declares depth tokens.now at p.end p.tree) }
    ensures refused { IfRefused result (λ r. Refuses language depth tokens.now at (of_decl decl) r) }
{
    let (name, equals) = expect_name(alloc, tokens, at + 1, TokenKind::Lower)?;
    let begin = expect(alloc, tokens, equals, TokenKind::Symbol(Symbol::Eq))?;
    let con = read_con(alloc, tokens, begin, depth, levels, ConPlace::Plain)?;
    let covered = span(tokens, at, con.end);
    let Parsed { tree, end, height } = con;
    Ok(declared(covered, DeclForm::Type(name, tree), end, height))
}

/// `cookie x : con` at its first word.
pub fn read_cookie(
    alloc: Global,
    tokens: &Tokens,
    at: usize,
    depth: usize,
    levels: usize,
) -> Result<Parsed<Decl>, Stop>
    requires { IsAt tokens.now at (at + 1) (OfKind (token.Keyword keyword.Cookie)) }
    ensures moves { IfOk result (λ p. Moves tokens.now at p.end) }
    ensures found { IfOk result (λ p. Declares depth tokens.now at p.end p.tree) }
    ensures refused { IfRefused result (λ r. Refuses language depth tokens.now at (of_decl decl) r) }
{
    let (name, colon) = expect_name(alloc, tokens, at + 1, TokenKind::Lower)?;
    let begin = expect(alloc, tokens, colon, TokenKind::Symbol(Symbol::Colon))?;
    let con = read_con(alloc, tokens, begin, depth, levels, ConPlace::Plain)?;
    let covered = span(tokens, at, con.end);
    let Parsed { tree, end, height } = con;
    Ok(declared(covered, DeclForm::Cookie(name, tree), end, height))
}

/// `sequence x` at its first word.
pub fn read_sequence(alloc: Global, tokens: &Tokens, at: usize) -> Result<Parsed<Decl>, Stop>
    requires { IsAt tokens.now at (at + 1) (OfKind (token.Keyword keyword.Sequence)) }
    ensures moves { IfOk result (λ p. Moves tokens.now at p.end) }
    ensures found { IfOk result (λ p. (n : ℕ) → Declares n tokens.now at p.end p.tree) }
    ensures refused { IfRefused result (λ r. (n : ℕ) → Refuses language n tokens.now at (of_decl decl) r) }
{
    let (name, end) = expect_name(alloc, tokens, at + 1, TokenKind::Lower)?;
    let covered = span(tokens, at, end);
    Ok(declared(covered, DeclForm::Sequence(name), end, 1))
}
