//! Parameters with their types.
ghost use Rattle.std.specs.Prelude.{◌≡◌, IfOk};
ghost use Rattle.ur_parse_rules.specs.Places.{Moves, Reads, Refuses, IfRefused};
ghost use Rattle.ur_parse_rules.specs.ExpParts.{param};
ghost use Rattle.ur_parse_rules.specs.Parts.{of_exp};
ghost use Rattle.ur_parse_rules.specs.Language.{language};
ghost use Rattle.ur_syntax.specs.declared.exp.Param.TheVariants as params;

use crate::{read_binder, read_con};
use std::alloc::Global;
use ur_base::Stop;
use ur_lex::{Symbol, TokenKind, Tokens};
use ur_parse_rules::{ConPlace, Parsed, expect, sees};
use ur_syntax::{Binder, Con, Param};

/// A binder with its type, which ends at a place.
fn typed(binder: Binder, con: Parsed<Con>, end: usize) -> Parsed<Param>
    ensures tree { result.tree ≡ params.Value binder con.tree }
    ensures end { result.end ≡ end }
{
    let Parsed {
        tree,
        end: _,
        height,
    } = con;
    Parsed {
        tree: Param::Value(binder, tree),
        end,
        height,
    }
}

/// `(x : con)` or `()`, with at most `depth` constructors nested in it, and at most `levels` parentheses around a kind
/// and `$` before a constructor.
pub fn read_param(
    alloc: Global,
    tokens: &Tokens,
    at: usize,
    depth: usize,
    levels: usize,
) -> Result<Parsed<Param>, Stop>
    ensures moves { IfOk result (λ p. Moves tokens.now at p.end) }
    ensures found { IfOk result (λ p. Reads language depth tokens.now at p.end (of_exp param) p.tree) }
    ensures refused { IfRefused result (λ r. Refuses language depth tokens.now at (of_exp param) r) }
{
    let begin = expect(alloc, tokens, at, TokenKind::Symbol(Symbol::LParen))?;
    if sees(tokens, begin, TokenKind::Symbol(Symbol::RParen)) {
        return Ok(Parsed {
            tree: Param::Unit,
            end: begin + 1,
            height: 1,
        });
    }
    let (binder, colon) = read_binder(alloc, tokens, begin)?;
    let from = expect(alloc, tokens, colon, TokenKind::Symbol(Symbol::Colon))?;
    let con = read_con(alloc, tokens, from, depth, levels, ConPlace::Plain)?;
    let end = expect(alloc, tokens, con.end, TokenKind::Symbol(Symbol::RParen))?;
    Ok(typed(binder, con, end))
}
