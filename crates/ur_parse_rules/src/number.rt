//! Ints at a place of a list of tokens.
ghost use Rattle.std.specs.Prelude.{◌≡◌};
ghost use Rattle.ur_parse_rules.specs.Numbers.{SeesInt, int_of};

use crate::place::peek;
use ur_lex::{TokenKind, Tokens};

fn int_of(kind: TokenKind) -> Option<u64>
    ensures { result ≡ int_of kind }
{
    match kind {
        TokenKind::Int(number) => Some(number),
        _ => None,
    }
}

/// The int at a place, if one stands there.
pub fn number_at(tokens: &Tokens, at: usize) -> Option<u64>
    ensures { SeesInt tokens.now at result }
{
    match peek(tokens, at) {
        Some(kind) => int_of(kind),
        None => None,
    }
}
