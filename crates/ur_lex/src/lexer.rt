//! A file cut into its tokens.
ghost use Rattle.std.specs.Prelude.{◌≡◌, ◌≤◌, ◌<◌, ◌+◌, ◌^◌, ℕ, List, [], ◌∷◌, ◌++◌, length, IfOk, IsTrue, OnOk};
ghost use Rattle.ur_base.specs.Codes.{is_refusal_code};
ghost use Rattle.ur_base.specs.Stopping.{IfRefused, Says};
ghost use Rattle.ur_lex.specs.Lexing.{Lexes, lexeme, IsTokens, AreSlices, ExplainsNoTokens};
ghost use Rattle.ur_lex.specs.Modes.{turn, turned, innermost};
ghost use Rattle.ur_lex.specs.declared.mode.Mode.TheVariants as place;
ghost use Rattle.ur_lex.specs.declared.token.Lexeme.{Lexeme};

use crate::front::{Found, Front, begin};
use crate::mode::{Modes, turn_of};
use crate::token::Lexeme;
use crate::tokens::Tokens;
use std::alloc::Global;
use ur_base::{List, Memory, Refusal, Span, Stop};

/// The tokens that were found, what is open behind them, and how many bytes they and the separators take.
#[derive(Drop)]
struct Lexer {
    tokens: List<Lexeme>,
    modes: Modes,
    at: usize,
}

impl Lexer {
    fn new(alloc: Global) -> Lexer
        ensures tokens { result.tokens ≡ [] }
        ensures modes { result.modes ≡ place.Code ∷ [] }
        ensures at { result.at ≡ 0 }
    {
        Lexer {
            tokens: List::new(alloc),
            modes: Modes::new(alloc),
            at: 0,
        }
    }

    /// Goes over a token.
    fn take(&mut self, file: u32, found: Found) -> Result<(), Memory>
        requires { self.old.at + found.len < 2 ^ 32 }
        ensures tokens { OnOk result (self.new.tokens ≡ self.old.tokens ++ lexeme file self.old.at found.kind found.content found.len ∷ []) }
        ensures modes { OnOk result (self.new.modes ≡ turned (turn found.kind (innermost self.old.modes)) self.old.modes) }
        ensures at { OnOk result (self.new.at ≡ self.old.at + found.len) }
    {
        let Found { kind, content, len } = found;
        let to = self.at + len;
        self.modes.go(turn_of(kind, self.modes.inner()))?;
        let span = Span {
            file,
            from: self.at as u32,
            to: to as u32,
        };
        self.tokens.push(Lexeme {
            kind,
            content,
            span,
        })?;
        self.at = to;
        Ok(())
    }
}

fn refused(alloc: Global, code: u8, file: u32, at: usize) -> Refusal
    requires near { at < 2 ^ 32 }
    requires named { IsTrue (is_refusal_code code) }
    ensures { Says result code [] [] }
{
    let place = at as u32;
    Refusal {
        code,
        span: Span {
            file,
            from: place,
            to: place,
        },
        left: List::new(alloc),
        right: List::new(alloc),
    }
}

/// The tokens of a file that is UTF-8.
fn cut(alloc: Global, file: u32, text: &[u8]) -> Result<List<Lexeme>, Stop>
    requires { length text.now ≤ 1048576 }
    ensures tokens { IfOk result (Lexes file (place.Code ∷ []) 0 text.now) }
    ensures refused { IfRefused result (λ r. Says r 4 [] [] × ((tokens : List Lexeme) → Lexes file (place.Code ∷ []) 0 text.now tokens → ⊥)) }
{
    let mut lexer = Lexer::new(alloc);
    while lexer.at < text.len() {
        match begin(alloc, lexer.modes.inner(), &text[lexer.at..])? {
            Front::Gap(len) => lexer.at += len,
            Front::Token(found) => lexer.take(file, found)?,
            Front::Nothing => return Err(Stop::Refused(refused(alloc, 4, file, lexer.at))),
        }
    }
    if lexer.modes.is_code() {
        let Lexer { tokens, .. } = lexer;
        Ok(tokens)
    } else {
        Err(Stop::Refused(refused(alloc, 4, file, text.len())))
    }
}

/// The tokens of a file.
pub fn lex(alloc: Global, file: u32, text: &[u8]) -> Result<Tokens, Stop>
    requires { length text.now ≤ 1048576 }
    ensures tokens { IfOk result (IsTokens file text.now) }
    ensures slices { IfOk result (AreSlices text.now) }
    ensures refused { IfRefused result (ExplainsNoTokens file text.now) }
{
    if std::str::from_utf8(text).is_err() {
        return Err(Stop::Refused(refused(alloc, 3, file, 0)));
    }
    Ok(Tokens::new(cut(alloc, file, text)?))
}

/// A file has one list of tokens.
pub fn one_list_of_tokens()
    ensures { (file : ℕ) (bytes : List ℕ) (a b : List Lexeme) → IsTokens file bytes a → IsTokens file bytes b → a ≡ b }
{}
