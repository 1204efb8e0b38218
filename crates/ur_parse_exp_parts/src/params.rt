//! `fn` and the parameters of a lambda, up to `=>`.
ghost use Rattle.std.specs.Prelude.{◌≡◌, IfOk, ◌∷◌, [], drop};
ghost use Rattle.ur_parse_rules.specs.Places.{Moves, Reads, Refuses, IfRefused, starts};
ghost use Rattle.ur_parse_rules.specs.Classes.{member};
ghost use Rattle.ur_parse_rules.specs.ExpParts.{lambda, lambda_param};
ghost use Rattle.ur_parse_rules.specs.Parts.{of_exp};
ghost use Rattle.ur_parse_rules.specs.Language.{language};
ghost use Rattle.ur_parse_exp_parts.specs.Heads.{HeadRead, ParamsRead, ParamsRefused, param_starts};

use std::alloc::Global;
use ur_base::{List, Stop};
use ur_lex::{Keyword, Symbol, TokenKind, Tokens};
use ur_parse_con::{read_binder, read_con_param, read_param, sees_binder, taller};
use ur_parse_rules::{Parsed, expect, pushed, sees};
use ur_syntax::LambdaParam;

/// A parameter of a lambda.
fn read_lambda_param(
    alloc: Global,
    tokens: &Tokens,
    at: usize,
    depth: usize,
    levels: usize,
) -> Result<Parsed<LambdaParam>, Stop>
    ensures moves { IfOk result (λ p. Moves tokens.now at p.end) }
    ensures found { IfOk result (λ p. Reads language depth tokens.now at p.end (of_exp lambda_param) p.tree) }
    ensures refused { IfRefused result (λ r. Refuses language depth tokens.now at (of_exp lambda_param) r) }
{
    if sees(tokens, at, TokenKind::Symbol(Symbol::LParen)) {
        let param = read_param(alloc, tokens, at, depth, levels)?;
        let Parsed { tree, end, height } = param;
        Ok(Parsed {
            tree: LambdaParam::Typed(tree),
            end,
            height,
        })
    } else if sees(tokens, at, TokenKind::Symbol(Symbol::LBracket)) {
        let param = read_con_param(alloc, tokens, at, depth, levels)?;
        let Parsed { tree, end, height } = param;
        Ok(Parsed {
            tree: LambdaParam::Con(tree),
            end,
            height,
        })
    } else {
        let (binder, end) = read_binder(alloc, tokens, at)?;
        Ok(Parsed {
            tree: LambdaParam::Bare(binder),
            end,
            height: 1,
        })
    }
}

/// Whether a parameter begins at a place.
fn sees_param(tokens: &Tokens, at: usize) -> bool
    ensures { result ≡ starts (member param_starts) (drop at tokens.now) }
{
    if sees(tokens, at, TokenKind::Symbol(Symbol::LParen)) {
        true
    } else if sees(tokens, at, TokenKind::Symbol(Symbol::LBracket)) {
        true
    } else {
        sees_binder(tokens, at)
    }
}

/// The parameters of a lambda, of which there is one at least.
fn read_params(
    alloc: Global,
    tokens: &Tokens,
    at: usize,
    depth: usize,
    levels: usize,
) -> Result<Parsed<List<LambdaParam>>, Stop>
    ensures moves { IfOk result (λ p. Moves tokens.now at p.end) }
    ensures found { IfOk result (λ p. ParamsRead depth tokens.now at p.end p.tree) }
    ensures refused { IfRefused result (ParamsRefused depth tokens.now at) }
{
    let mut list: List<LambdaParam> = List::new(alloc);
    let first = read_lambda_param(alloc, tokens, at, depth, levels)?;
    let Parsed {
        tree,
        mut end,
        mut height,
    } = first;
    pushed(&mut list, tree)?;
    'params: while sees_param(tokens, end) {
        let next = read_lambda_param(alloc, tokens, end, depth, levels)?;
        height = taller(height, next.height);
        end = next.end;
        pushed(&mut list, next.tree)?;
    }
    Ok(Parsed {
        tree: list,
        end,
        height,
    })
}

/// `fn`, the parameters of a lambda and `=>`.
pub fn read_lambda_head(
    alloc: Global,
    tokens: &Tokens,
    at: usize,
    depth: usize,
    levels: usize,
) -> Result<Parsed<List<LambdaParam>>, Stop>
    ensures moves { IfOk result (λ p. Moves tokens.now at p.end) }
    ensures found { IfOk result (λ p. HeadRead depth tokens.now at p.end p.tree) }
    ensures refused { IfRefused result (λ r. Refuses language depth tokens.now at (of_exp lambda) r) }
{
    let begin = expect(alloc, tokens, at, TokenKind::Keyword(Keyword::Fn))?;
    let params = read_params(alloc, tokens, begin, depth, levels)?;
    let Parsed { tree, end, height } = params;
    let behind = expect(alloc, tokens, end, TokenKind::Symbol(Symbol::FatArrow))?;
    Ok(Parsed {
        tree,
        end: behind,
        height,
    })
}
