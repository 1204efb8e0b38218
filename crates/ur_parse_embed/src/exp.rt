//! Expressions, with the place behind them.
ghost use Rattle.std.specs.Prelude.{IfOk};
ghost use Rattle.ur_parse_rules.specs.Places.{Moves, Reads, Refuses, IfRefused};
ghost use Rattle.ur_parse_rules.specs.Quoted.{raw};
ghost use Rattle.ur_parse_rules.specs.SqlParts as part;
ghost use Rattle.ur_parse_rules.specs.Parts.{of_sql};
ghost use Rattle.ur_parse_rules.specs.Language.{language};
ghost use Rattle.ur_parse_embed_code.specs.Quotes.{Makes};

use crate::read_sexp;
use std::alloc::Global;
use ur_base::Stop;
use ur_lex::Tokens;
use ur_parse_embed_code::Quotes;
use ur_parse_rules::Parsed;
use ur_syntax::SqlExp;

/// An expression, and the place behind it.
pub fn exp(
    alloc: Global,
    tokens: &Tokens,
    at: usize,
    depth: usize,
    levels: usize,
    bare: bool,
    quotes: &mut Quotes,
) -> Result<(SqlExp, usize), Stop>
    ensures moves { IfOk result (λ p. Moves tokens.now at p.1) }
    ensures found { IfOk result (λ p. Makes (Reads language depth tokens.now at p.1 (of_sql raw (part.sexp bare))) tokens.now depth quotes.old quotes.new p.0) }
    ensures refused { IfRefused result (Refuses language depth tokens.now at (of_sql raw (part.sexp bare))) }
{
    let inner = read_sexp(alloc, tokens, at, depth, levels, bare, quotes)?;
    let Parsed {
        tree,
        end,
        height: _,
    } = inner;
    Ok((tree, end))
}
