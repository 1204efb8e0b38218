//! Values.
ghost use Rattle.std.specs.Prelude.{◌≡◌, ◌+◌, IfOk};
ghost use Rattle.ur_lex.specs.declared.token.Keyword.TheVariants as keyword;
ghost use Rattle.ur_lex.specs.declared.token.TokenKind.TheVariants as token;
ghost use Rattle.ur_syntax.specs.declared.decl.DeclForm.TheVariants as form;
ghost use Rattle.ur_parse_rules.specs.Places.{Moves, Refuses, IfRefused, IsAt, OfKind};
ghost use Rattle.ur_parse_rules.specs.DeclParts.{decl};
ghost use Rattle.ur_parse_rules.specs.Parts.{of_decl};
ghost use Rattle.ur_parse_rules.specs.Language.{language};
ghost use Rattle.ur_parse.specs.Declares.{Declares};

use std::alloc::Global;
use ur_base::{Span, Stop, Text};
use ur_lex::{Symbol, TokenKind, Tokens};
use ur_parse_con::{read_con, taller};
use ur_parse_exp::read_exp;
use ur_parse_exp_parts::Line;
use ur_parse_rules::{ConPlace, Parsed, expect, expect_name, span};
use ur_syntax::{Con, Decl, DeclForm};

/// `val x : con = exp` at its first word.
pub fn read_val(
    alloc: Global,
    tokens: &Tokens,
    at: usize,
    depth: usize,
    levels: usize,
) -> Result<Parsed<Decl>, Stop>
    requires { IsAt tokens.now at (at + 1) (OfKind (token.Keyword keyword.Val)) }
    ensures moves { IfOk result (λ p. Moves tokens.now at p.end) }
    ensures found { IfOk result (λ p. Declares depth tokens.now at p.end p.tree) }
    ensures refused { IfRefused result (λ r. Refuses language depth tokens.now at (of_decl decl) r) }
{
    let (name, colon) = expect_name(alloc, tokens, at + 1, TokenKind::Lower)?;
    let begin = expect(alloc, tokens, colon, TokenKind::Symbol(Symbol::Colon))?;
    let con = read_con(alloc, tokens, begin, depth, levels, ConPlace::Plain)?;
    let value = expect(alloc, tokens, con.end, TokenKind::Symbol(Symbol::Eq))?;
    let exp = read_exp(alloc, tokens, value, depth, levels)?;
    let covered = span(tokens, at, exp.end);
    Ok(val_of(covered, name, con, exp))
}

/// A value, made of its parts.
fn val_of(span: Span, name: Text, con: Parsed<Con>, exp: Parsed<Line>) -> Parsed<Decl>
    ensures tree { result.tree ≡ record { span = span; form = form.Val name con.tree exp.tree.exp } }
    ensures end { result.end ≡ exp.end }
{
    let Parsed {
        tree,
        end: _,
        height: low,
    } = con;
    let Parsed {
        tree: Line {
            exp: value,
            takes_semicolon: _,
            takes_bar: _,
        },
        end,
        height: high,
    } = exp;
    Parsed {
        tree: Decl {
            span,
            form: DeclForm::Val(name, tree, value.into_inner()),
        },
        end,
        height: taller(low, high),
    }
}
