//! Declarations.
ghost use Rattle.std.specs.Prelude.{◌≡◌, IfOk, drop};
ghost use Rattle.ur_parse_rules.specs.Places.{Moves, Refuses, IfRefused, starts};
ghost use Rattle.ur_parse_rules.specs.Classes.{member};
ghost use Rattle.ur_parse_rules.specs.Ends.{decl_starts};
ghost use Rattle.ur_parse_rules.specs.DeclParts.{decl};
ghost use Rattle.ur_parse_rules.specs.Parts.{of_decl};
ghost use Rattle.ur_parse_rules.specs.Language.{language};
ghost use Rattle.ur_parse.specs.Declares.{Declares};
ghost use Rattle.ur_parse.specs.Words.{declares, NoLongDecl};

use crate::function::read_fun;
use crate::value::read_val;
use crate::{read_con_decl, read_cookie, read_datatype, read_sequence, read_table, read_type_decl};
use std::alloc::Global;
use ur_base::Stop;
use ur_lex::{Keyword, TokenKind, Tokens};
use ur_parse_rules::{Parsed, peek, sees, unexpected};
use ur_syntax::Decl;

/// Whether a declaration begins with a token of this kind.
fn declares(kind: TokenKind) -> bool
    ensures { result ≡ declares kind }
{
    matches!(
        kind,
        TokenKind::Keyword(
            Keyword::Con
                | Keyword::Type
                | Keyword::Datatype
                | Keyword::Table
                | Keyword::Sequence
                | Keyword::Cookie
                | Keyword::Val
                | Keyword::Fun
        )
    )
}

/// Whether a declaration begins at a place.
pub fn sees_decl(tokens: &Tokens, at: usize) -> bool
    ensures { result ≡ starts (member decl_starts) (drop at tokens.now) }
{
    match peek(tokens, at) {
        Some(kind) => declares(kind),
        None => false,
    }
}

/// A declaration.
pub fn read_decl(
    alloc: Global,
    tokens: &Tokens,
    at: usize,
    depth: usize,
    levels: usize,
) -> Result<Parsed<Decl>, Stop>
    ensures moves { IfOk result (λ p. Moves tokens.now at p.end) }
    ensures found { IfOk result (λ p. Declares depth tokens.now at p.end p.tree) }
    ensures refused { IfRefused result (λ r. Refuses language depth tokens.now at (of_decl decl) r) }
{
    if sees(tokens, at, TokenKind::Keyword(Keyword::Val)) {
        read_val(alloc, tokens, at, depth, levels)
    } else if sees(tokens, at, TokenKind::Keyword(Keyword::Fun)) {
        read_fun(alloc, tokens, at, depth, levels)
    } else if sees(tokens, at, TokenKind::Keyword(Keyword::Datatype)) {
        read_datatype(alloc, tokens, at, depth, levels)
    } else if sees(tokens, at, TokenKind::Keyword(Keyword::Table)) {
        read_table(alloc, tokens, at, depth, levels)
    } else {
        read_short(alloc, tokens, at, depth, levels)
    }
}

/// A declaration of a constructor, a type, a cookie or a sequence, where no other begins.
fn read_short(
    alloc: Global,
    tokens: &Tokens,
    at: usize,
    depth: usize,
    levels: usize,
) -> Result<Parsed<Decl>, Stop>
    ensures moves { IfOk result (λ p. Moves tokens.now at p.end) }
    ensures found { IfOk result (λ p. Declares depth tokens.now at p.end p.tree) }
    ensures refused { NoLongDecl tokens.now at → IfRefused result (λ r. Refuses language depth tokens.now at (of_decl decl) r) }
{
    if sees(tokens, at, TokenKind::Keyword(Keyword::Con)) {
        read_con_decl(alloc, tokens, at, depth, levels)
    } else if sees(tokens, at, TokenKind::Keyword(Keyword::Type)) {
        read_type_decl(alloc, tokens, at, depth, levels)
    } else if sees(tokens, at, TokenKind::Keyword(Keyword::Cookie)) {
        read_cookie(alloc, tokens, at, depth, levels)
    } else if sees(tokens, at, TokenKind::Keyword(Keyword::Sequence)) {
        let made = read_sequence(alloc, tokens, at)?;
        Ok(made)
    } else {
        Err(unexpected(alloc, tokens, at))
    }
}
