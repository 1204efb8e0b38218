//! Signatures.
ghost use Rattle.std.specs.Prelude.{IfOk};
ghost use Rattle.ur_parse_rules.specs.Places.{IfRefused};
ghost use Rattle.ur_parse_rules.specs.DeclParts.{signature};
ghost use Rattle.ur_parse_rules.specs.Parts.{of_decl};
ghost use Rattle.ur_parse_rules.specs.Language.{IsSignature, max_nesting};
ghost use Rattle.ur_parse.specs.Wholes.{RefusesWhole};

use crate::vals::read_val_decl;
use std::alloc::Global;
use ur_base::{List, Stop};
use ur_lex::{Keyword, TokenKind, Tokens};
use ur_parse_con::{MAX_NESTING, MAX_PARENTHESES};
use ur_parse_rules::{pushed, sees, unexpected};
use ur_syntax::{Signature, ValDecl};

/// The signature that the tokens spell.
pub fn parse_signature(alloc: Global, tokens: &Tokens) -> Result<Signature, Stop>
    ensures found { IfOk result (IsSignature max_nesting tokens.now) }
    ensures refused { IfRefused result (RefusesWhole max_nesting (of_decl signature) tokens.now) }
{
    let mut vals: List<ValDecl> = List::new(alloc);
    let mut at = 0;
    'vals: while sees(tokens, at, TokenKind::Keyword(Keyword::Val)) {
        let next = read_val_decl(alloc, tokens, at, MAX_NESTING, MAX_PARENTHESES)?;
        at = next.end;
        pushed(&mut vals, next.tree)?;
    }
    if at < tokens.len() {
        return Err(unexpected(alloc, tokens, at));
    }
    Ok(Signature { vals })
}
