//! Forms that hold SQL, made of their parts.
ghost use Rattle.std.specs.Prelude.{◌≡◌, IfOk};
ghost use Rattle.ur_parse_rules.specs.Places.{IfRefused};
ghost use Rattle.ur_parse_rules.specs.Expressions.{at};
ghost use Rattle.ur_syntax.specs.declared.exp.ExpForm.TheVariants as form;

use crate::{Line, inner};
use std::alloc::Global;
use ur_base::{Boxed, List, Span, Stop};
use ur_parse_con::taller;
use ur_parse_rules::{Parsed, above, boxed};
use ur_syntax::{Exp, ExpForm, QueryWord, SqlChange, SqlQuery};

/// An expression with its span, which ends at a place, above parts of a height. A tree of SQL is no part: its own height
/// is bounded where it is read.
fn made(
    alloc: Global,
    span: Span,
    form: ExpForm,
    end: usize,
    parts: usize,
) -> Result<Parsed<Boxed<Exp>>, Stop>
    ensures found { IfOk result (λ p. (p.tree ≡ at span form) × (p.end ≡ end)) }
    ensures refused { IfRefused result (λ r. ⊥) }
{
    let tree = boxed(alloc, Exp { span, form })?;
    let height = above(parts, 0)?;
    Ok(Parsed { tree, end, height })
}

/// `dml (change)`, which ends at a place
pub fn dml_of(
    alloc: Global,
    span: Span,
    change: Boxed<SqlChange>,
    code: Parsed<List<Exp>>,
    end: usize,
) -> Result<Parsed<Boxed<Exp>>, Stop>
    ensures found { IfOk result (λ p. (p.tree ≡ at span (form.Dml change code.tree)) × (p.end ≡ end)) }
    ensures refused { IfRefused result (λ r. ⊥) }
{
    let Parsed {
        tree,
        end: _,
        height,
    } = code;
    made(
        alloc,
        span,
        ExpForm::Dml(change.into_inner(), tree),
        end,
        height,
    )
}

/// `queryL (query)` or another of these words, which ends at a place
pub fn query_of(
    alloc: Global,
    span: Span,
    word: QueryWord,
    query: Boxed<SqlQuery>,
    code: Parsed<List<Exp>>,
    end: usize,
) -> Result<Parsed<Boxed<Exp>>, Stop>
    ensures found { IfOk result (λ p. (p.tree ≡ at span (form.Query word query code.tree)) × (p.end ≡ end)) }
    ensures refused { IfRefused result (λ r. ⊥) }
{
    let Parsed {
        tree,
        end: _,
        height,
    } = code;
    made(
        alloc,
        span,
        ExpForm::Query(word, query.into_inner(), tree),
        end,
        height,
    )
}

/// `queryX (query) (row)`, which ends at a place
pub fn query_x_of(
    alloc: Global,
    span: Span,
    query: Boxed<SqlQuery>,
    code: Parsed<List<Exp>>,
    row: Parsed<Line>,
    end: usize,
) -> Result<Parsed<Boxed<Exp>>, Stop>
    ensures found { IfOk result (λ p. (p.tree ≡ at span (form.QueryX query code.tree row.tree.exp)) × (p.end ≡ end)) }
    ensures refused { IfRefused result (λ r. ⊥) }
{
    let Parsed {
        tree,
        end: _,
        height: low,
    } = code;
    let Parsed {
        tree: function,
        end: _,
        height: high,
    } = inner(row, end);
    made(
        alloc,
        span,
        ExpForm::QueryX(query.into_inner(), tree, function),
        end,
        taller(low, high),
    )
}
