//! Names of declarations: `x`, or `M.x`.
ghost use Rattle.std.specs.Prelude.{◌≡◌, ℕ, IfOk};
ghost use Rattle.ur_parse_rules.specs.Places.{Moves, Reads, Refuses, IfRefused};
ghost use Rattle.ur_parse_rules.specs.Quoted.{expressions};
ghost use Rattle.ur_parse_rules.specs.SqlParts.{name};
ghost use Rattle.ur_parse_rules.specs.Parts.{of_sql};
ghost use Rattle.ur_parse_rules.specs.Language.{language};

use std::alloc::Global;
use ur_base::Stop;
use ur_lex::{Symbol, TokenKind, Tokens};
use ur_parse_rules::{expect, expect_name, sees, span};
use ur_syntax::DeclName;

/// The name of a declaration, and the place behind it.
pub fn decl_name(alloc: Global, tokens: &Tokens, at: usize) -> Result<(DeclName, usize), Stop>
    ensures moves { IfOk result (λ p. Moves tokens.now at p.1) }
    ensures found { IfOk result (λ p. (n : ℕ) → Reads language n tokens.now at p.1 (of_sql expressions name) p.0) }
    ensures refused { IfRefused result (λ r. (n : ℕ) → Refuses language n tokens.now at (of_sql expressions name) r) }
{
    if sees(tokens, at, TokenKind::Lower) {
        let (text, end) = expect_name(alloc, tokens, at, TokenKind::Lower)?;
        let covered = span(tokens, at, end);
        let name = DeclName {
            span: covered,
            module: None,
            name: text,
        };
        Ok((name, end))
    } else {
        let (module, dot) = expect_name(alloc, tokens, at, TokenKind::Upper)?;
        let begin = expect(alloc, tokens, dot, TokenKind::Symbol(Symbol::Dot))?;
        let (text, end) = expect_name(alloc, tokens, begin, TokenKind::Lower)?;
        let covered = span(tokens, at, end);
        let name = DeclName {
            span: covered,
            module: Some(module),
            name: text,
        };
        Ok((name, end))
    }
}
