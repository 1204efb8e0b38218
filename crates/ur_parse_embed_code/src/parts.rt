//! The parts of a literal: texts, splices and elements.
ghost use Rattle.std.specs.Prelude.{◌≡◌, ◌≤◌, ◌+◌, ◌++◌, ◌∷◌, [], false, true, not, IfOk, OnOk, length, drop, Some, None};
ghost use Rattle.ur_base.specs.Stopping.{Says};
ghost use Rattle.ur_parse_rules.specs.Places.{Moves, Reads, Refuses, IfRefused, starts};
ghost use Rattle.ur_parse_rules.specs.Classes.{member};
ghost use Rattle.ur_parse_rules.specs.Quoted.{raw};
ghost use Rattle.ur_parse_rules.specs.XmlParts.{literal, parts, one_part, element, element_end};
ghost use Rattle.ur_parse_rules.specs.Parts.{of_xml};
ghost use Rattle.ur_parse_rules.specs.Ends.{xml_starts};
ghost use Rattle.ur_parse_rules.specs.Codes.{begins_well};
ghost use Rattle.ur_parse_rules.specs.Language.{language};
ghost use Rattle.ur_parse_embed_code.specs.Quotes.{Makes};
ghost use Rattle.ur_parse_embed_code.specs.Insides.{MakesEnclosed, agree};

use crate::attrs::attrs;
use crate::tags::tag;
use crate::{Quotes, antiquote, shown};
use std::alloc::Global;
use ur_base::{List, Stop};
use ur_lex::{Symbol, TokenKind, Tokens};
use ur_parse_rules::{bytes_equal, expect, expect_name, pushed, sees, span, too_deep, unexpected};
use ur_syntax::{Tag, Xml, XmlForm, XmlPart};

/// The parts of an element, and its closing tag if it has one.
#[derive(Drop)]
pub struct Enclosed {
    pub parts: List<XmlPart>,
    pub closing: Option<Tag>,
}

/// Whether a part begins at a place.
fn sees_part(tokens: &Tokens, at: usize) -> bool
    ensures { result ≡ starts (member xml_starts) (drop at tokens.now) }
{
    if sees(tokens, at, TokenKind::XmlText) {
        true
    } else if sees(tokens, at, TokenKind::Symbol(Symbol::LBrace)) {
        true
    } else if sees(tokens, at, TokenKind::Symbol(Symbol::Lt)) {
        true
    } else {
        false
    }
}

/// Whether `[` stands at a place, and `]` not behind it.
fn sees_shown(tokens: &Tokens, at: usize) -> bool
    ensures { result ≡ not (begins_well (drop at tokens.now)) }
{
    if sees(tokens, at, TokenKind::Symbol(Symbol::LBracket)) {
        if sees(tokens, at + 1, TokenKind::Symbol(Symbol::RBracket)) {
            false
        } else {
            true
        }
    } else {
        false
    }
}

/// Whether a tag and the closing one have the same word.
fn agree(tag: &Tag, closing: &Option<Tag>) -> bool
    ensures { result ≡ agree tag.now closing.now }
{
    match closing {
        Some(closing) => bytes_equal(tag.word.as_slice(), closing.word.as_slice()),
        None => true,
    }
}

/// Passes where they have.
fn closed(
    alloc: Global,
    tokens: &Tokens,
    at: usize,
    tag: &Tag,
    closing: &Option<Tag>,
) -> Result<(), Stop>
    ensures found { OnOk result (agree tag.now closing.now ≡ true) }
    ensures refused { IfRefused result (λ r. Says r 5 [] [] × (agree tag.now closing.now ≡ false)) }
{
    if agree(tag, closing) {
        Ok(())
    } else {
        Err(unexpected(alloc, tokens, at))
    }
}

/// Parts, as many as stand there, with at most `depth` nested elements.
#[cycle(xml)]
fn parts(
    alloc: Global,
    tokens: &Tokens,
    at: usize,
    depth: usize,
    quotes: &mut Quotes,
) -> Result<(List<XmlPart>, usize), Stop>
    ensures on { IfOk result (λ p. at ≤ p.1) }
    ensures within { at ≤ length tokens.now → IfOk result (λ p. p.1 ≤ length tokens.now) }
    ensures found { IfOk result (λ p. Makes (Reads language depth tokens.now at p.1 (of_xml raw parts)) tokens.now depth quotes.old quotes.new p.0) }
    ensures refused { IfRefused result (Refuses language depth tokens.now at (of_xml raw parts)) }
{
    let mut list: List<XmlPart> = List::new(alloc);
    let mut end = at;
    'parts: while sees_part(tokens, end) {
        let (item, next) = part(alloc, tokens, end, depth, quotes)?;
        pushed(&mut list, item)?;
        end = next;
    }
    Ok((list, end))
}

/// A text, an element, `{[e]}` or `{e}`.
#[cycle(xml)]
fn part(
    alloc: Global,
    tokens: &Tokens,
    at: usize,
    depth: usize,
    quotes: &mut Quotes,
) -> Result<(XmlPart, usize), Stop>
    ensures moves { IfOk result (λ p. Moves tokens.now at p.1) }
    ensures found { IfOk result (λ p. Makes (Reads language depth tokens.now at p.1 (of_xml raw one_part)) tokens.now depth quotes.old quotes.new p.0) }
    ensures refused { IfRefused result (Refuses language depth tokens.now at (of_xml raw one_part)) }
{
    if sees(tokens, at, TokenKind::XmlText) {
        let (text, end) = expect_name(alloc, tokens, at, TokenKind::XmlText)?;
        let covered = span(tokens, at, end);
        Ok((
            XmlPart {
                span: covered,
                form: XmlForm::Text(text),
            },
            end,
        ))
    } else if sees(tokens, at, TokenKind::Symbol(Symbol::Lt)) {
        let (part, end) = element(alloc, tokens, at, depth, quotes)?;
        Ok((part, end))
    } else {
        let begin = expect(alloc, tokens, at, TokenKind::Symbol(Symbol::LBrace))?;
        if sees_shown(tokens, begin) {
            let (number, end) = shown(alloc, tokens, at, depth, quotes)?;
            let covered = span(tokens, at, end);
            Ok((
                XmlPart {
                    span: covered,
                    form: XmlForm::Show(number),
                },
                end,
            ))
        } else {
            let (number, brace) = antiquote(alloc, tokens, begin, depth, quotes)?;
            let end = expect(alloc, tokens, brace, TokenKind::Symbol(Symbol::RBrace))?;
            let covered = span(tokens, at, end);
            Ok((
                XmlPart {
                    span: covered,
                    form: XmlForm::Splice(number),
                },
                end,
            ))
        }
    }
}

/// An element with at most `depth` nested, itself among them.
#[cycle(xml)]
fn element(
    alloc: Global,
    tokens: &Tokens,
    at: usize,
    depth: usize,
    quotes: &mut Quotes,
) -> Result<(XmlPart, usize), Stop>
    ensures moves { IfOk result (λ p. Moves tokens.now at p.1) }
    ensures found { IfOk result (λ p. Makes (Reads language depth tokens.now at p.1 (of_xml raw element)) tokens.now depth quotes.old quotes.new p.0) }
    ensures refused { IfRefused result (Refuses language depth tokens.now at (of_xml raw element)) }
{
    if depth == 0 {
        return Err(too_deep(alloc, tokens, at));
    }
    let word = expect(alloc, tokens, at, TokenKind::Symbol(Symbol::Lt))?;
    let (opening, behind) = tag(alloc, tokens, word)?;
    let (list, mark) = attrs(alloc, tokens, behind, depth - 1, quotes)?;
    let (between, end) = between(alloc, tokens, mark, depth - 1, quotes)?;
    closed(alloc, tokens, at, &opening, &between.closing)?;
    let covered = span(tokens, at, end);
    Ok((
        XmlPart {
            span: covered,
            form: XmlForm::Element(opening, list, between.parts),
        },
        end,
    ))
}

/// `/>`, or `>`, parts and a closing tag.
#[cycle(xml)]
fn between(
    alloc: Global,
    tokens: &Tokens,
    at: usize,
    depth: usize,
    quotes: &mut Quotes,
) -> Result<(Enclosed, usize), Stop>
    ensures moves { IfOk result (λ p. Moves tokens.now at p.1) }
    ensures found { IfOk result (λ p. MakesEnclosed tokens.now depth at p.1 quotes.old quotes.new p.0) }
    ensures refused { IfRefused result (Refuses language depth tokens.now at (of_xml raw element_end)) }
{
    if sees(tokens, at, TokenKind::Symbol(Symbol::TagEmpty)) {
        Ok((
            Enclosed {
                parts: List::new(alloc),
                closing: None,
            },
            at + 1,
        ))
    } else {
        let begin = expect(alloc, tokens, at, TokenKind::Symbol(Symbol::Gt))?;
        let (list, tail) = parts(alloc, tokens, begin, depth, quotes)?;
        let word = expect(alloc, tokens, tail, TokenKind::Symbol(Symbol::TagClose))?;
        let (closing, mark) = tag(alloc, tokens, word)?;
        let end = expect(alloc, tokens, mark, TokenKind::Symbol(Symbol::Gt))?;
        Ok((
            Enclosed {
                parts: list,
                closing: Some(closing),
            },
            end,
        ))
    }
}

/// An XML literal with at most `depth` nested elements, its code put behind the others, and the place behind it.
pub fn literal(
    alloc: Global,
    tokens: &Tokens,
    at: usize,
    depth: usize,
    quotes: &mut Quotes,
) -> Result<(Xml, usize), Stop>
    ensures moves { IfOk result (λ p. Moves tokens.now at p.1) }
    ensures found { IfOk result (λ p. Makes (Reads language depth tokens.now at p.1 (of_xml raw literal)) tokens.now depth quotes.old quotes.new p.0) }
    ensures refused { IfRefused result (Refuses language depth tokens.now at (of_xml raw literal)) }
{
    if sees(tokens, at, TokenKind::Symbol(Symbol::XmlEmpty)) {
        Ok((
            Xml {
                parts: List::new(alloc),
            },
            at + 1,
        ))
    } else {
        let begin = expect(alloc, tokens, at, TokenKind::Symbol(Symbol::XmlOpen))?;
        let (list, close) = parts(alloc, tokens, begin, depth, quotes)?;
        let end = expect(alloc, tokens, close, TokenKind::Symbol(Symbol::XmlClose))?;
        Ok((Xml { parts: list }, end))
    }
}
