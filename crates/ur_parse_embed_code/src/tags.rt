//! The words of tags with their fields.
ghost use Rattle.std.specs.Prelude.{◌≤◌, ℕ, IfOk, length};
ghost use Rattle.ur_parse_rules.specs.Places.{Moves, Reads, Refuses, IfRefused};
ghost use Rattle.ur_parse_rules.specs.Quoted.{raw};
ghost use Rattle.ur_parse_rules.specs.XmlParts.{tag, tag_field, tag_name};
ghost use Rattle.ur_parse_rules.specs.Parts.{of_xml};
ghost use Rattle.ur_parse_rules.specs.Language.{language};

use crate::absent;
use std::alloc::Global;
use ur_base::Stop;
use ur_lex::{Symbol, TokenKind, Tokens};
use ur_parse_rules::{expect, expect_field, expect_name, sees};
use ur_syntax::{Tag, TagField};

/// `#A`, or a variable.
fn tag_name(alloc: Global, tokens: &Tokens, at: usize) -> Result<(TagField, usize), Stop>
    ensures moves { IfOk result (λ p. Moves tokens.now at p.1) }
    ensures found { IfOk result (λ p. (n : ℕ) → Reads language n tokens.now at p.1 (of_xml raw tag_name) p.0) }
    ensures refused { IfRefused result (λ r. (n : ℕ) → Refuses language n tokens.now at (of_xml raw tag_name) r) }
{
    if sees(tokens, at, TokenKind::Symbol(Symbol::Hash)) {
        let (name, end) = expect_field(alloc, tokens, at + 1)?;
        Ok((TagField::Literal(name), end))
    } else {
        let (name, end) = expect_name(alloc, tokens, at, TokenKind::Lower)?;
        Ok((TagField::Variable(name), end))
    }
}

/// `{#A}` or `{x}`, or nothing.
fn tag_field(alloc: Global, tokens: &Tokens, at: usize) -> Result<(TagField, usize), Stop>
    ensures moves { IfOk result (λ p. at ≤ p.1) }
    ensures within { at ≤ length tokens.now → IfOk result (λ p. p.1 ≤ length tokens.now) }
    ensures found { IfOk result (λ p. (n : ℕ) → Reads language n tokens.now at p.1 (of_xml raw tag_field) p.0) }
    ensures refused { IfRefused result (λ r. (n : ℕ) → Refuses language n tokens.now at (of_xml raw tag_field) r) }
{
    if sees(tokens, at, TokenKind::Symbol(Symbol::LBrace)) {
        let (field, brace) = tag_name(alloc, tokens, at + 1)?;
        let end = expect(alloc, tokens, brace, TokenKind::Symbol(Symbol::RBrace))?;
        absent(alloc, tokens, end, TokenKind::Symbol(Symbol::LBrace))?;
        Ok((field, end))
    } else {
        Ok((TagField::None, at))
    }
}

/// The word of a tag with its field.
pub fn tag(alloc: Global, tokens: &Tokens, at: usize) -> Result<(Tag, usize), Stop>
    ensures moves { IfOk result (λ p. Moves tokens.now at p.1) }
    ensures found { IfOk result (λ p. (n : ℕ) → Reads language n tokens.now at p.1 (of_xml raw tag) p.0) }
    ensures refused { IfRefused result (λ r. (n : ℕ) → Refuses language n tokens.now at (of_xml raw tag) r) }
{
    let (word, behind) = expect_name(alloc, tokens, at, TokenKind::Word)?;
    let (field, end) = tag_field(alloc, tokens, behind)?;
    Ok((Tag { word, field }, end))
}
