//! The attributes of a tag.
ghost use Rattle.std.specs.Prelude.{◌≡◌, ◌≤◌, IfOk, length};
ghost use Rattle.ur_parse_rules.specs.Places.{Moves, Reads, Refuses, IfRefused};
ghost use Rattle.ur_parse_rules.specs.Quoted.{raw};
ghost use Rattle.ur_parse_rules.specs.XmlParts.{attrs, attr, attr_value};
ghost use Rattle.ur_parse_rules.specs.Parts.{of_xml};
ghost use Rattle.ur_parse_rules.specs.Language.{language};
ghost use Rattle.ur_parse_embed_code.specs.Quotes.{Makes};

use crate::{Quotes, attribute};
use std::alloc::Global;
use ur_base::{List, Stop};
use ur_lex::{Symbol, TokenKind, Tokens};
use ur_parse_rules::{expect, expect_name, pushed, sees};
use ur_syntax::{Attr, AttrValue};

/// A string, or `{e}`.
fn attr_value(
    alloc: Global,
    tokens: &Tokens,
    at: usize,
    depth: usize,
    quotes: &mut Quotes,
) -> Result<(AttrValue, usize), Stop>
    ensures moves { IfOk result (λ p. Moves tokens.now at p.1) }
    ensures found { IfOk result (λ p. Makes (Reads language depth tokens.now at p.1 (of_xml raw attr_value)) tokens.now depth quotes.old quotes.new p.0) }
    ensures refused { IfRefused result (Refuses language depth tokens.now at (of_xml raw attr_value)) }
{
    if sees(tokens, at, TokenKind::Str) {
        let (text, end) = expect_name(alloc, tokens, at, TokenKind::Str)?;
        Ok((AttrValue::Text(text), end))
    } else {
        let begin = expect(alloc, tokens, at, TokenKind::Symbol(Symbol::LBrace))?;
        let (number, brace) = attribute(alloc, tokens, begin, depth, quotes)?;
        let end = expect(alloc, tokens, brace, TokenKind::Symbol(Symbol::RBrace))?;
        Ok((AttrValue::Exp(number), end))
    }
}

/// A name and a value.
fn attr(
    alloc: Global,
    tokens: &Tokens,
    at: usize,
    depth: usize,
    quotes: &mut Quotes,
) -> Result<(Attr, usize), Stop>
    ensures moves { IfOk result (λ p. Moves tokens.now at p.1) }
    ensures found { IfOk result (λ p. Makes (Reads language depth tokens.now at p.1 (of_xml raw attr)) tokens.now depth quotes.old quotes.new p.0) }
    ensures refused { IfRefused result (Refuses language depth tokens.now at (of_xml raw attr)) }
{
    let (name, equals) = expect_name(alloc, tokens, at, TokenKind::Word)?;
    let begin = expect(alloc, tokens, equals, TokenKind::Symbol(Symbol::Eq))?;
    let (value, end) = attr_value(alloc, tokens, begin, depth, quotes)?;
    Ok((Attr { name, value }, end))
}

/// Attributes, as many as stand there.
pub fn attrs(
    alloc: Global,
    tokens: &Tokens,
    at: usize,
    depth: usize,
    quotes: &mut Quotes,
) -> Result<(List<Attr>, usize), Stop>
    ensures on { IfOk result (λ p. at ≤ p.1) }
    ensures within { at ≤ length tokens.now → IfOk result (λ p. p.1 ≤ length tokens.now) }
    ensures found { IfOk result (λ p. Makes (Reads language depth tokens.now at p.1 (of_xml raw attrs)) tokens.now depth quotes.old quotes.new p.0) }
    ensures refused { IfRefused result (Refuses language depth tokens.now at (of_xml raw attrs)) }
{
    let mut list: List<Attr> = List::new(alloc);
    let mut end = at;
    'attrs: while sees(tokens, end, TokenKind::Word) {
        let (item, next) = attr(alloc, tokens, end, depth, quotes)?;
        pushed(&mut list, item)?;
        end = next;
    }
    Ok((list, end))
}
