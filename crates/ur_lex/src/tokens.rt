//! The tokens of a file.
ghost use Rattle.std.specs.Prelude.{◌≡◌, ◌<◌, length, slice_get, IfSome};

use crate::token::{Lexeme, Token};
use std::marker::Model;
use ur_base::List;

/// The tokens of one file.
#[derive(Drop)]
pub struct Tokens {
    lexemes: List<Lexeme>,
}

impl Model for Tokens {
    ghost use Rattle.std.specs.Prelude.{List};
    ghost use Rattle.ur_lex.specs.declared.token.Lexeme.{Lexeme};

    ghost Value = { List Lexeme };

    ghost view = { λ t. t.lexemes };
}

impl Tokens {
    pub(crate) fn new(lexemes: List<Lexeme>) -> Tokens
        ensures { result ≡ lexemes }
    {
        Tokens { lexemes }
    }

    pub fn len(&self) -> usize
        ensures { result ≡ length self.now }
    {
        self.lexemes.len()
    }

    pub fn get(&self, i: usize) -> Token
        requires { i < length self.now }
        ensures { IfSome (slice_get self.now i) (λ t. (result.kind ≡ t.kind) × (result.span ≡ t.span)) }
    {
        let t = &self.lexemes.as_slice()[i];
        Token {
            kind: t.kind,
            span: t.span,
        }
    }

    /// What the token stands for: a name's spelling, a string's bytes without escapes.
    pub fn content(&self, i: usize) -> &[u8]
        requires { i < length self.now }
        ensures { IfSome (slice_get self.now i) (λ t. result.now ≡ t.content) }
    {
        self.lexemes.as_slice()[i].content.as_slice()
    }
}
