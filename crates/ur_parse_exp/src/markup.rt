//! XML in expressions. Its skeleton is read first, with code as the tokens that it is, and then the code.
ghost use Rattle.std.specs.Prelude.{◌≡◌, ◌||◌, IfOk, OnOk};
ghost use Rattle.ur_parse_rules.specs.Places.{Moves, Refuses, IfRefused, OfRefusal};
ghost use Rattle.ur_parse_rules.specs.Quoted.{expressions, raw};
ghost use Rattle.ur_parse_rules.specs.Expressions.{at};
ghost use Rattle.ur_syntax.specs.declared.exp.ExpForm.TheVariants as form;
ghost use Rattle.ur_parse_rules.specs.XmlParts.{literal};
ghost use Rattle.ur_parse_rules.specs.Parts.{of_xml};
ghost use Rattle.ur_parse_rules.specs.Language.{language};
ghost use Rattle.ur_parse_exp.specs.Codes.{Told};
ghost use Rattle.ur_parse_exp.specs.Markups.{IsMarkup};

use crate::code::{Codes, read_codes};
use std::alloc::Global;
use ur_base::{Boxed, Span, Stop};
use ur_lex::Tokens;
use ur_parse_con::taller;
use ur_parse_embed_code::{Quotes, read_literal};
use ur_parse_exp_parts::xml_of;
use ur_parse_rules::{Parsed, span, too_deep};
use ur_syntax::{Exp, Xml};

/// The greatest nesting of a literal that nests too deep and whose code is looked at still: the stack is memory, and more
/// is want of memory.
const MAX_ELEMENTS: usize = 1024;

/// Whether one of two is so.
pub fn either(a: bool, b: bool) -> bool
    ensures { result ≡ (a || b) }
{
    a || b
}

/// A literal of XML, as an expression.
#[cycle(exp)]
pub fn markup(
    alloc: Global,
    tokens: &Tokens,
    at: usize,
    depth: usize,
    levels: usize,
) -> Result<Parsed<Boxed<Exp>>, Stop>
    ensures moves { IfOk result (λ p. Moves tokens.now at p.end) }
    ensures found { IfOk result (λ p. IsMarkup depth tokens.now at p.end p.tree) }
    ensures refused { IfRefused result (λ r. Refuses language depth tokens.now at (of_xml expressions literal) r) }
{
    let mut quotes = Quotes::new(alloc);
    match read_literal(alloc, tokens, at, depth, &mut quotes) {
        Ok((xml, end)) => {
            let exps = read_codes(alloc, tokens, at, quotes.exps.as_slice(), 0, levels)?;
            let attributes = read_codes(
                alloc,
                tokens,
                at,
                quotes.attributes.as_slice(),
                0,
                levels,
            )?;
            if either(exps.deep, attributes.deep) {
                return Err(too_deep(alloc, tokens, at));
            }
            let covered = span(tokens, at, end);
            let made = filled(alloc, covered, xml, exps, attributes, end, depth)?;
            Ok(made)
        }
        Err(refused) => {
            let made = again(alloc, tokens, at, depth, levels, refused)?;
            Ok(made)
        }
    }
}

/// A literal with its code, whose elements have a height.
fn filled(
    alloc: Global,
    span: Span,
    xml: Xml,
    exps: Codes,
    attributes: Codes,
    end: usize,
    height: usize,
) -> Result<Parsed<Boxed<Exp>>, Stop>
    ensures found { IfOk result (λ p. (p.tree ≡ at span (form.Xml xml exps.exps.tree attributes.exps.tree)) × (p.end ≡ end)) }
    ensures refused { IfRefused result (λ r. ⊥) }
{
    let Codes {
        exps: first,
        deep: _,
    } = exps;
    let Codes {
        exps: second,
        deep: _,
    } = attributes;
    let Parsed {
        tree: list,
        end: _,
        height: low,
    } = first;
    let Parsed {
        tree: others,
        end: _,
        height: high,
    } = second;
    xml_of(
        alloc,
        span,
        xml,
        list,
        others,
        end,
        taller(height, taller(low, high)),
    )
}

/// Passes where a refusal is not E05, which is passed on.
pub fn deeper(refused: Stop) -> Result<(), Stop>
    ensures found { OnOk result (Told refused (λ r. r.code ≡ 5 → ⊥)) }
    ensures refused { IfRefused result (λ q. Told refused (λ r. (q ≡ r) × (r.code ≡ 5))) }
{
    match refused {
        Stop::Memory => Err(Stop::Memory),
        Stop::Refused(refusal) => {
            if refusal.code == 5 {
                Err(Stop::Refused(refusal))
            } else {
                Ok(())
            }
        }
    }
}

/// The same refusal where it is E05, and else want of memory.
pub fn plain(refused: Stop) -> Stop
    ensures { OfRefusal result (λ q. Told refused (λ r. (q ≡ r) × (r.code ≡ 5))) }
{
    match refused {
        Stop::Memory => Stop::Memory,
        Stop::Refused(refusal) => {
            if refusal.code == 5 {
                Stop::Refused(refusal)
            } else {
                Stop::Memory
            }
        }
    }
}

/// Why there is no literal within the nesting, where its skeleton is refused: where that nests too deep it is read once
/// more with a nesting of its own, since code in it may be no expression.
#[cycle(exp)]
fn again(
    alloc: Global,
    tokens: &Tokens,
    at: usize,
    depth: usize,
    levels: usize,
    first: Stop,
) -> Result<Parsed<Boxed<Exp>>, Stop>
    ensures found { IfOk result (λ p. ⊥) }
    ensures refused { OfRefusal first (λ r. Refuses language depth tokens.now at (of_xml raw literal) r) → IfRefused result (λ r. Refuses language depth tokens.now at (of_xml expressions literal) r) }
{
    deeper(first)?;
    if MAX_ELEMENTS < depth {
        return Err(Stop::Memory);
    }
    let mut quotes = Quotes::new(alloc);
    match read_literal(alloc, tokens, at, MAX_ELEMENTS, &mut quotes) {
        Ok((_xml, _end)) => {
            let less = MAX_ELEMENTS - depth;
            let exps = read_codes(alloc, tokens, at, quotes.exps.as_slice(), less, levels)?;
            let attributes = read_codes(
                alloc,
                tokens,
                at,
                quotes.attributes.as_slice(),
                less,
                levels,
            )?;
            Err(too_deep(alloc, tokens, at))
        }
        Err(refused) => Err(plain(refused)),
    }
}
