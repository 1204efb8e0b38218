//! Definitions of functions.
ghost use Rattle.std.specs.Prelude.{◌≡◌, IfOk};
ghost use Rattle.ur_parse_rules.specs.Places.{Reads, Refuses, IfRefused, Moves};
ghost use Rattle.ur_parse_rules.specs.DeclParts.{con_params, params, definition};
ghost use Rattle.ur_parse_rules.specs.Parts.{of_decl};
ghost use Rattle.ur_parse_rules.specs.Language.{language};
ghost use Rattle.ur_parse_con.specs.Forms.{Stays};
ghost use Rattle.ur_parse.specs.Definitions.{DefinitionRead};

use std::alloc::Global;
use ur_base::{List, Span, Stop, Text};
use ur_lex::{Symbol, TokenKind, Tokens};
use ur_parse_con::{read_con, read_con_param, read_param, taller};
use ur_parse_exp::read_exp;
use ur_parse_exp_parts::Line;
use ur_parse_rules::{ConPlace, Parsed, expect, expect_name, pushed, sees, span};
use ur_syntax::{Con, ConParam, FunDef, Param};

/// The parameters that are constructors.
fn read_con_params(
    alloc: Global,
    tokens: &Tokens,
    at: usize,
    depth: usize,
    levels: usize,
) -> Result<Parsed<List<ConParam>>, Stop>
    ensures stays { IfOk result (λ p. Stays tokens.now at p.end) }
    ensures found { IfOk result (λ p. Reads language depth tokens.now at p.end (of_decl con_params) p.tree) }
    ensures refused { IfRefused result (λ r. Refuses language depth tokens.now at (of_decl con_params) r) }
{
    let mut list: List<ConParam> = List::new(alloc);
    let mut end = at;
    let mut height = 0;
    'params: while sees(tokens, end, TokenKind::Symbol(Symbol::LBracket)) {
        let next = read_con_param(alloc, tokens, end, depth, levels)?;
        end = next.end;
        height = taller(height, next.height);
        pushed(&mut list, next.tree)?;
    }
    Ok(Parsed {
        tree: list,
        end,
        height,
    })
}

/// The parameters behind them.
fn read_params(
    alloc: Global,
    tokens: &Tokens,
    at: usize,
    depth: usize,
    levels: usize,
) -> Result<Parsed<List<Param>>, Stop>
    ensures stays { IfOk result (λ p. Stays tokens.now at p.end) }
    ensures found { IfOk result (λ p. Reads language depth tokens.now at p.end (of_decl params) p.tree) }
    ensures refused { IfRefused result (λ r. Refuses language depth tokens.now at (of_decl params) r) }
{
    let mut list: List<Param> = List::new(alloc);
    let mut end = at;
    let mut height = 0;
    'params: while sees(tokens, end, TokenKind::Symbol(Symbol::LParen)) {
        let next = read_param(alloc, tokens, end, depth, levels)?;
        end = next.end;
        height = taller(height, next.height);
        pushed(&mut list, next.tree)?;
    }
    Ok(Parsed {
        tree: list,
        end,
        height,
    })
}

/// A function's name with its parameters, its type and its body.
pub fn read_definition(
    alloc: Global,
    tokens: &Tokens,
    at: usize,
    depth: usize,
    levels: usize,
) -> Result<Parsed<FunDef>, Stop>
    ensures moves { IfOk result (λ p. Moves tokens.now at p.end) }
    ensures found { IfOk result (λ p. DefinitionRead depth tokens.now at p.end p.tree) }
    ensures refused { IfRefused result (λ r. Refuses language depth tokens.now at (of_decl definition) r) }
{
    let (name, begin) = expect_name(alloc, tokens, at, TokenKind::Lower)?;
    let con_params = read_con_params(alloc, tokens, begin, depth, levels)?;
    let params = read_params(alloc, tokens, con_params.end, depth, levels)?;
    let colon = expect(alloc, tokens, params.end, TokenKind::Symbol(Symbol::Colon))?;
    let con = read_con(alloc, tokens, colon, depth, levels, ConPlace::Plain)?;
    let value = expect(alloc, tokens, con.end, TokenKind::Symbol(Symbol::Eq))?;
    let body = read_exp(alloc, tokens, value, depth, levels)?;
    let covered = span(tokens, at, body.end);
    Ok(definition_of(covered, name, con_params, params, con, body))
}

/// A definition, made of its parts.
fn definition_of(
    span: Span,
    name: Text,
    con_params: Parsed<List<ConParam>>,
    params: Parsed<List<Param>>,
    con: Parsed<Con>,
    body: Parsed<Line>,
) -> Parsed<FunDef>
    ensures tree { result.tree ≡ record { span = span; name = name; con_params = con_params.tree; params = params.tree; result = con.tree; body = body.tree.exp } }
    ensures end { result.end ≡ body.end }
{
    let Parsed {
        tree: con_params,
        end: _,
        height: first,
    } = con_params;
    let Parsed {
        tree: params,
        end: _,
        height: second,
    } = params;
    let Parsed {
        tree: of,
        end: _,
        height: third,
    } = con;
    let Parsed {
        tree: Line {
            exp,
            takes_semicolon: _,
            takes_bar: _,
        },
        end,
        height: fourth,
    } = body;
    Parsed {
        tree: FunDef {
            span,
            name,
            con_params,
            params,
            result: of,
            body: exp.into_inner(),
        },
        end,
        height: taller(taller(first, second), taller(third, fourth)),
    }
}
