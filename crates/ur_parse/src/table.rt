//! Tables.
ghost use Rattle.std.specs.Prelude.{◌≡◌, ◌+◌, IfOk};
ghost use Rattle.ur_lex.specs.declared.token.Keyword.TheVariants as keyword;
ghost use Rattle.ur_lex.specs.declared.token.TokenKind.TheVariants as token;
ghost use Rattle.ur_syntax.specs.declared.decl.DeclForm.TheVariants as form;
ghost use Rattle.ur_parse_rules.specs.Places.{Moves, Refuses, IfRefused, IsAt, OfKind};
ghost use Rattle.ur_parse_rules.specs.DeclParts.{decl};
ghost use Rattle.ur_parse_rules.specs.Parts.{of_decl};
ghost use Rattle.ur_parse_rules.specs.Language.{language};
ghost use Rattle.ur_parse.specs.Declares.{Declares};

use crate::keys::{Keys, read_keys};
use std::alloc::Global;
use ur_base::{Span, Stop, Text};
use ur_lex::{Symbol, TokenKind, Tokens};
use ur_parse_con::read_con;
use ur_parse_rules::{ConPlace, Parsed, expect, expect_name, span};
use ur_syntax::{Con, Decl, DeclForm};

/// `table x : con` with its keys, at its first word.
pub fn read_table(
    alloc: Global,
    tokens: &Tokens,
    at: usize,
    depth: usize,
    levels: usize,
) -> Result<Parsed<Decl>, Stop>
    requires { IsAt tokens.now at (at + 1) (OfKind (token.Keyword keyword.Table)) }
    ensures moves { IfOk result (λ p. Moves tokens.now at p.end) }
    ensures found { IfOk result (λ p. Declares depth tokens.now at p.end p.tree) }
    ensures refused { IfRefused result (λ r. Refuses language depth tokens.now at (of_decl decl) r) }
{
    let (name, colon) = expect_name(alloc, tokens, at + 1, TokenKind::Lower)?;
    let begin = expect(alloc, tokens, colon, TokenKind::Symbol(Symbol::Colon))?;
    let con = read_con(alloc, tokens, begin, depth, levels, ConPlace::BeforeKeys)?;
    let keys = read_keys(alloc, tokens, con.end)?;
    let covered = span(tokens, at, keys.end);
    Ok(table_of(covered, name, con, keys))
}

/// A table, made of its parts.
fn table_of(span: Span, name: Text, con: Parsed<Con>, keys: Keys) -> Parsed<Decl>
    ensures tree { result.tree ≡ record { span = span; form = form.Table name con.tree keys.primary keys.constraints } }
    ensures end { result.end ≡ keys.end }
{
    let Parsed {
        tree,
        end: _,
        height,
    } = con;
    let Keys {
        primary,
        constraints,
        end,
    } = keys;
    Parsed {
        tree: Decl {
            span,
            form: DeclForm::Table(name, tree, primary, constraints),
        },
        end,
        height,
    }
}
