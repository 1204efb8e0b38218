//! Columns with their new values.
ghost use Rattle.std.specs.Prelude.{◌≡◌, ◌≤◌, IfOk, drop, length};
ghost use Rattle.ur_parse_rules.specs.Places.{Moves, Reads, Refuses, IfRefused, starts};
ghost use Rattle.ur_parse_rules.specs.Classes.{member};
ghost use Rattle.ur_parse_rules.specs.Quoted.{raw};
ghost use Rattle.ur_parse_rules.specs.SqlParts as part;
ghost use Rattle.ur_parse_rules.specs.Parts.{of_sql};
ghost use Rattle.ur_parse_rules.specs.Ends.{sql_last};
ghost use Rattle.ur_parse_rules.specs.Language.{language};
ghost use Rattle.ur_parse_embed_code.specs.Quotes.{Makes};
ghost use Rattle.ur_parse_embed.specs.Pieces.{Extends};

use crate::{comma_or, finished, read_exp, sees_operator};
use std::alloc::Global;
use ur_base::{List, Stop};
use ur_lex::{Symbol, TokenKind, Tokens};
use ur_parse_embed_code::Quotes;
use ur_parse_rules::{expect, expect_field, pushed, sees};
use ur_syntax::Assignment;

/// `A = e`
pub fn assignment(
    alloc: Global,
    tokens: &Tokens,
    at: usize,
    depth: usize,
    levels: usize,
    quotes: &mut Quotes,
) -> Result<(Assignment, usize), Stop>
    ensures moves { IfOk result (λ p. Moves tokens.now at p.1) }
    ensures found { IfOk result (λ p. Makes (Reads language depth tokens.now at p.1 (of_sql raw part.assignment)) tokens.now depth quotes.old quotes.new p.0) }
    ensures refused { IfRefused result (Refuses language depth tokens.now at (of_sql raw part.assignment)) }
{
    let (column, sign) = expect_field(alloc, tokens, at)?;
    let begin = expect(alloc, tokens, sign, TokenKind::Symbol(Symbol::Eq))?;
    let (value, end) = read_exp(alloc, tokens, begin, depth, levels, true, quotes)?;
    Ok((Assignment { column, value }, end))
}

/// Whether assignments go on at a place.
fn assignments_go_on(tokens: &Tokens, at: usize) -> bool
    ensures { result ≡ starts (member (sql_last part.more_assignments)) (drop at tokens.now) }
{
    let operates = sees_operator(tokens, at, true);
    comma_or(tokens, at, operates)
}

/// Assignments with commas before them, as many as stand there. The answer is the place behind them.
pub fn more_assignments(
    alloc: Global,
    tokens: &Tokens,
    at: usize,
    depth: usize,
    levels: usize,
    list: &mut List<Assignment>,
    quotes: &mut Quotes,
) -> Result<usize, Stop>
    ensures on { IfOk result (λ j. at ≤ j) }
    ensures within { at ≤ length tokens.now → IfOk result (λ j. j ≤ length tokens.now) }
    ensures found { IfOk result (λ j. Extends (Reads language depth tokens.now at j (of_sql raw part.more_assignments)) tokens.now depth quotes.old quotes.new list.old list.new) }
    ensures refused { IfRefused result (Refuses language depth tokens.now at (of_sql raw part.more_assignments)) }
{
    let mut end = at;
    'assignments: while sees(tokens, end, TokenKind::Symbol(Symbol::Comma)) {
        let (item, next) = assignment(alloc, tokens, end + 1, depth, levels, quotes)?;
        pushed(list, item)?;
        end = next;
    }
    finished(alloc, tokens, end, assignments_go_on(tokens, end))?;
    Ok(end)
}
