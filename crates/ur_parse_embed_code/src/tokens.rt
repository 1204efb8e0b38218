//! Single tokens.
ghost use Rattle.std.specs.Prelude.{OnOk};
ghost use Rattle.ur_parse_rules.specs.Places.{IfRefused, Other, OfKind};
ghost use Rattle.ur_parse_embed_code.specs.Absent.{Present};

use std::alloc::Global;
use ur_base::Stop;
use ur_lex::{TokenKind, Tokens};
use ur_parse_rules::{sees, unexpected};

/// Passes where no token of this kind stands at a place.
pub fn absent(alloc: Global, tokens: &Tokens, at: usize, kind: TokenKind) -> Result<(), Stop>
    ensures found { OnOk result (Other tokens.now at (OfKind kind)) }
    ensures refused { IfRefused result (Present tokens.now at kind) }
{
    if sees(tokens, at, kind) {
        Err(unexpected(alloc, tokens, at))
    } else {
        Ok(())
    }
}
