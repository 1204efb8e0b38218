//! Functions that call each other.
ghost use Rattle.std.specs.Prelude.{◌≡◌, ◌+◌, IfOk};
ghost use Rattle.ur_lex.specs.declared.token.Keyword.TheVariants as keyword;
ghost use Rattle.ur_lex.specs.declared.token.TokenKind.TheVariants as token;
ghost use Rattle.ur_syntax.specs.declared.decl.DeclForm.TheVariants as form;
ghost use Rattle.ur_parse_rules.specs.Places.{Moves, Refuses, IfRefused, IsAt, OfKind};
ghost use Rattle.ur_parse_rules.specs.DeclParts.{decl};
ghost use Rattle.ur_parse_rules.specs.Parts.{of_decl};
ghost use Rattle.ur_parse_rules.specs.Language.{language};
ghost use Rattle.ur_parse.specs.Declares.{Declares};

use crate::definition::read_definition;
use std::alloc::Global;
use ur_base::{List, Span, Stop};
use ur_lex::{Keyword, TokenKind, Tokens};
use ur_parse_con::taller;
use ur_parse_rules::{Parsed, pushed, sees, span};
use ur_syntax::{Decl, DeclForm, FunDef};

/// `fun` and definitions with `and` between, at its first word.
pub fn read_fun(
    alloc: Global,
    tokens: &Tokens,
    at: usize,
    depth: usize,
    levels: usize,
) -> Result<Parsed<Decl>, Stop>
    requires { IsAt tokens.now at (at + 1) (OfKind (token.Keyword keyword.Fun)) }
    ensures moves { IfOk result (λ p. Moves tokens.now at p.end) }
    ensures found { IfOk result (λ p. Declares depth tokens.now at p.end p.tree) }
    ensures refused { IfRefused result (λ r. Refuses language depth tokens.now at (of_decl decl) r) }
{
    let first = read_definition(alloc, tokens, at + 1, depth, levels)?;
    let Parsed {
        tree,
        mut end,
        mut height,
    } = first;
    let mut list: List<FunDef> = List::new(alloc);
    pushed(&mut list, tree)?;
    'ands: while sees(tokens, end, TokenKind::Keyword(Keyword::And)) {
        let next = read_definition(alloc, tokens, end + 1, depth, levels)?;
        end = next.end;
        height = taller(height, next.height);
        pushed(&mut list, next.tree)?;
    }
    let covered = span(tokens, at, end);
    Ok(functions_of(covered, list, end, height))
}

/// Functions, made of their definitions.
fn functions_of(span: Span, list: List<FunDef>, end: usize, height: usize) -> Parsed<Decl>
    ensures tree { result.tree ≡ record { span = span; form = form.Fun list } }
    ensures end { result.end ≡ end }
{
    Parsed {
        tree: Decl {
            span,
            form: DeclForm::Fun(list),
        },
        end,
        height,
    }
}
