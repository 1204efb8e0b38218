//! The items of a signature.
ghost use Rattle.std.specs.Prelude.{◌≡◌, IfOk};
ghost use Rattle.ur_parse_rules.specs.Places.{Moves, Reads, Refuses, IfRefused};
ghost use Rattle.ur_parse_rules.specs.DeclParts.{val_decl};
ghost use Rattle.ur_parse_rules.specs.Parts.{of_decl};
ghost use Rattle.ur_parse_rules.specs.Language.{language};

use std::alloc::Global;
use ur_base::{Span, Stop, Text};
use ur_lex::{Keyword, Symbol, TokenKind, Tokens};
use ur_parse_con::read_con;
use ur_parse_rules::{ConPlace, Parsed, expect, expect_name, span};
use ur_syntax::{Con, ValDecl};

/// `val x : con`, with at most `depth` constructors nested, and at most `levels` parentheses around a kind and `$` before
/// a constructor.
pub fn read_val_decl(
    alloc: Global,
    tokens: &Tokens,
    at: usize,
    depth: usize,
    levels: usize,
) -> Result<Parsed<ValDecl>, Stop>
    ensures moves { IfOk result (λ p. Moves tokens.now at p.end) }
    ensures found { IfOk result (λ p. Reads language depth tokens.now at p.end (of_decl val_decl) p.tree) }
    ensures refused { IfRefused result (λ r. Refuses language depth tokens.now at (of_decl val_decl) r) }
{
    let name_at = expect(alloc, tokens, at, TokenKind::Keyword(Keyword::Val))?;
    let (name, colon) = expect_name(alloc, tokens, name_at, TokenKind::Lower)?;
    let begin = expect(alloc, tokens, colon, TokenKind::Symbol(Symbol::Colon))?;
    let con = read_con(alloc, tokens, begin, depth, levels, ConPlace::Plain)?;
    let covered = span(tokens, at, con.end);
    Ok(val_of(covered, name, con))
}

/// An item of a signature, made of its parts.
fn val_of(span: Span, name: Text, con: Parsed<Con>) -> Parsed<ValDecl>
    ensures tree { result.tree ≡ record { span = span; name = name; con = con.tree } }
    ensures end { result.end ≡ con.end }
{
    let Parsed { tree, end, height } = con;
    Parsed {
        tree: ValDecl {
            span,
            name,
            con: tree,
        },
        end,
        height,
    }
}
