//! What `--` removes.
ghost use Rattle.std.specs.Prelude.{◌≡◌, ℕ, IfOk};
ghost use Rattle.ur_parse_rules.specs.Places.{Moves, Reads, Refuses, IfRefused};
ghost use Rattle.ur_parse_rules.specs.ExpParts.{removed};
ghost use Rattle.ur_parse_rules.specs.Parts.{of_exp};
ghost use Rattle.ur_parse_rules.specs.Language.{language};

use std::alloc::Global;
use ur_base::Stop;
use ur_lex::{Symbol, TokenKind, Tokens};
use ur_parse_rules::{expect_field, expect_name, sees, span};
use ur_syntax::{FieldName, Removed};

/// `#A`, `A` or a variable, and the place behind it.
pub fn read_removed(alloc: Global, tokens: &Tokens, at: usize) -> Result<(Removed, usize), Stop>
    ensures moves { IfOk result (λ p. Moves tokens.now at p.1) }
    ensures found { IfOk result (λ p. (n : ℕ) → Reads language n tokens.now at p.1 (of_exp removed) p.0) }
    ensures refused { IfRefused result (λ r. (n : ℕ) → Refuses language n tokens.now at (of_exp removed) r) }
{
    if sees(tokens, at, TokenKind::Symbol(Symbol::Hash)) {
        let (name, end) = expect_field(alloc, tokens, at + 1)?;
        let covered = span(tokens, at, end);
        Ok((
            Removed {
                span: covered,
                name: FieldName::Literal(name),
            },
            end,
        ))
    } else if sees(tokens, at, TokenKind::Lower) {
        let (name, end) = expect_name(alloc, tokens, at, TokenKind::Lower)?;
        let covered = span(tokens, at, end);
        Ok((
            Removed {
                span: covered,
                name: FieldName::Variable(name),
            },
            end,
        ))
    } else {
        let (name, end) = expect_field(alloc, tokens, at)?;
        let covered = span(tokens, at, end);
        Ok((
            Removed {
                span: covered,
                name: FieldName::Literal(name),
            },
            end,
        ))
    }
}
