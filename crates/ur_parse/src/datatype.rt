//! Datatypes.
ghost use Rattle.std.specs.Prelude.{◌≡◌, ◌+◌, IfOk, Some, None};
ghost use Rattle.ur_lex.specs.declared.token.Keyword.TheVariants as keyword;
ghost use Rattle.ur_lex.specs.declared.token.TokenKind.TheVariants as token;
ghost use Rattle.ur_syntax.specs.declared.decl.DeclForm.TheVariants as form;
ghost use Rattle.ur_parse_rules.specs.Places.{Moves, Refuses, IfRefused, IsAt, OfKind};
ghost use Rattle.ur_parse_rules.specs.DeclParts.{decl, variant};
ghost use Rattle.ur_parse_rules.specs.Parts.{of_decl};
ghost use Rattle.ur_parse_rules.specs.Language.{language};
ghost use Rattle.ur_parse.specs.Declares.{Declares};
ghost use Rattle.ur_parse.specs.Variants.{VariantRead};

use std::alloc::Global;
use ur_base::{List, Span, Stop, Text};
use ur_lex::{Keyword, Symbol, TokenKind, Tokens};
use ur_parse_con::{read_con, taller};
use ur_parse_rules::{ConPlace, Parsed, expect, expect_name, pushed, sees, span};
use ur_syntax::{Con, Decl, DeclForm, Variant};

/// `datatype x = A | B of con` at its first word.
pub fn read_datatype(
    alloc: Global,
    tokens: &Tokens,
    at: usize,
    depth: usize,
    levels: usize,
) -> Result<Parsed<Decl>, Stop>
    requires { IsAt tokens.now at (at + 1) (OfKind (token.Keyword keyword.Datatype)) }
    ensures moves { IfOk result (λ p. Moves tokens.now at p.end) }
    ensures found { IfOk result (λ p. Declares depth tokens.now at p.end p.tree) }
    ensures refused { IfRefused result (λ r. Refuses language depth tokens.now at (of_decl decl) r) }
{
    let (name, equals) = expect_name(alloc, tokens, at + 1, TokenKind::Lower)?;
    let begin = expect(alloc, tokens, equals, TokenKind::Symbol(Symbol::Eq))?;
    let first = read_variant(alloc, tokens, begin, depth, levels)?;
    let Parsed {
        tree,
        mut end,
        mut height,
    } = first;
    let mut variants: List<Variant> = List::new(alloc);
    pushed(&mut variants, tree)?;
    'bars: while sees(tokens, end, TokenKind::Symbol(Symbol::Bar)) {
        let next = read_variant(alloc, tokens, end + 1, depth, levels)?;
        end = next.end;
        height = taller(height, next.height);
        pushed(&mut variants, next.tree)?;
    }
    let covered = span(tokens, at, end);
    Ok(datatype_of(covered, name, variants, end, height))
}

/// A datatype, made of its parts.
fn datatype_of(
    span: Span,
    name: Text,
    variants: List<Variant>,
    end: usize,
    height: usize,
) -> Parsed<Decl>
    ensures tree { result.tree ≡ record { span = span; form = form.Datatype name variants } }
    ensures end { result.end ≡ end }
{
    Parsed {
        tree: Decl {
            span,
            form: DeclForm::Datatype(name, variants),
        },
        end,
        height,
    }
}

/// A constructor of a datatype, with the type of its argument where it has one.
fn read_variant(
    alloc: Global,
    tokens: &Tokens,
    at: usize,
    depth: usize,
    levels: usize,
) -> Result<Parsed<Variant>, Stop>
    ensures moves { IfOk result (λ p. Moves tokens.now at p.end) }
    ensures found { IfOk result (λ p. VariantRead depth tokens.now at p.end p.tree) }
    ensures refused { IfRefused result (λ r. Refuses language depth tokens.now at (of_decl variant) r) }
{
    let (name, end) = expect_name(alloc, tokens, at, TokenKind::Upper)?;
    if sees(tokens, end, TokenKind::Keyword(Keyword::Of)) {
        let con = read_con(alloc, tokens, end + 1, depth, levels, ConPlace::Plain)?;
        let covered = span(tokens, at, con.end);
        Ok(variant_of(covered, name, con))
    } else {
        let covered = span(tokens, at, end);
        Ok(plain(covered, name, end))
    }
}

/// A constructor without an argument.
fn plain(span: Span, name: Text, end: usize) -> Parsed<Variant>
    ensures tree { result.tree ≡ record { span = span; name = name; con = None } }
    ensures end { result.end ≡ end }
{
    Parsed {
        tree: Variant {
            span,
            name,
            con: None,
        },
        end,
        height: 1,
    }
}

/// A constructor with the type of its argument.
fn variant_of(span: Span, name: Text, con: Parsed<Con>) -> Parsed<Variant>
    ensures tree { result.tree ≡ record { span = span; name = name; con = Some con.tree } }
    ensures end { result.end ≡ con.end }
{
    let Parsed { tree, end, height } = con;
    Parsed {
        tree: Variant {
            span,
            name,
            con: Some(tree),
        },
        end,
        height,
    }
}
