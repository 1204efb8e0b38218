//! Expressions of SQL made of their parts, with bounds on their height.
ghost use Rattle.std.specs.Prelude.{◌≡◌, IfOk};
ghost use Rattle.ur_parse_rules.specs.Places.{IfRefused};
ghost use Rattle.ur_parse_rules.specs.SqlExpressions.{sided, negated, minus, some_of, null_test};

use std::alloc::Global;
use ur_base::{Span, Stop};
use ur_parse_rules::{Parsed, above, boxed};
use ur_syntax::{SqlBinary, SqlExp, SqlForm};

/// The operators that group to the left, from loose to tight.
#[derive(Clone, Copy)]
pub enum Level {
    Disjunction,
    Conjunction,
    Sum,
    Product,
}

/// An expression without parts that are expressions.
pub fn leaf(span: Span, form: SqlForm, end: usize) -> Parsed<SqlExp>
    ensures tree { result.tree ≡ record { span = span; form = form } }
    ensures end { result.end ≡ end }
{
    Parsed {
        tree: SqlExp { span, form },
        end,
        height: 1,
    }
}

/// The same tree with another end.
pub fn ending(inner: Parsed<SqlExp>, end: usize) -> Parsed<SqlExp>
    ensures tree { result.tree ≡ inner.tree }
    ensures end { result.end ≡ end }
{
    let Parsed {
        tree,
        end: _,
        height,
    } = inner;
    Parsed { tree, end, height }
}

/// Two expressions with an operator between.
pub fn binary(
    alloc: Global,
    span: Span,
    operator: SqlBinary,
    left: Parsed<SqlExp>,
    right: Parsed<SqlExp>,
) -> Result<Parsed<SqlExp>, Stop>
    ensures found { IfOk result (λ p. (p.tree ≡ sided span operator left.tree right.tree) × (p.end ≡ right.end)) }
    ensures refused { IfRefused result (λ r. ⊥) }
{
    let Parsed {
        tree: left,
        end: _,
        height: low,
    } = left;
    let Parsed {
        tree: right,
        end,
        height: high,
    } = right;
    let height = above(low, high)?;
    let left = boxed(alloc, left)?;
    let right = boxed(alloc, right)?;
    Ok(Parsed {
        tree: SqlExp {
            span,
            form: SqlForm::Binary(operator, left, right),
        },
        end,
        height,
    })
}

/// `NOT e`
pub fn not(alloc: Global, span: Span, inner: Parsed<SqlExp>) -> Result<Parsed<SqlExp>, Stop>
    ensures found { IfOk result (λ p. (p.tree ≡ negated span inner.tree) × (p.end ≡ inner.end)) }
    ensures refused { IfRefused result (λ r. ⊥) }
{
    let Parsed { tree, end, height } = inner;
    let height = above(height, 0)?;
    let tree = boxed(alloc, tree)?;
    Ok(Parsed {
        tree: SqlExp {
            span,
            form: SqlForm::Not(tree),
        },
        end,
        height,
    })
}

/// `-e`
pub fn negative(alloc: Global, span: Span, inner: Parsed<SqlExp>) -> Result<Parsed<SqlExp>, Stop>
    ensures found { IfOk result (λ p. (p.tree ≡ minus span inner.tree) × (p.end ≡ inner.end)) }
    ensures refused { IfRefused result (λ r. ⊥) }
{
    let Parsed { tree, end, height } = inner;
    let height = above(height, 0)?;
    let tree = boxed(alloc, tree)?;
    Ok(Parsed {
        tree: SqlExp {
            span,
            form: SqlForm::Negative(tree),
        },
        end,
        height,
    })
}

/// `SOME(e)`, up to the place behind its parenthesis.
pub fn some(
    alloc: Global,
    span: Span,
    inner: Parsed<SqlExp>,
    end: usize,
) -> Result<Parsed<SqlExp>, Stop>
    ensures found { IfOk result (λ p. (p.tree ≡ some_of span inner.tree) × (p.end ≡ end)) }
    ensures refused { IfRefused result (λ r. ⊥) }
{
    let Parsed {
        tree,
        end: _,
        height,
    } = inner;
    let height = above(height, 0)?;
    let tree = boxed(alloc, tree)?;
    Ok(Parsed {
        tree: SqlExp {
            span,
            form: SqlForm::Some(tree),
        },
        end,
        height,
    })
}

/// `e IS NULL` or `e IS NOT NULL`, up to a place.
pub fn tested(
    alloc: Global,
    span: Span,
    null: bool,
    inner: Parsed<SqlExp>,
    end: usize,
) -> Result<Parsed<SqlExp>, Stop>
    ensures found { IfOk result (λ p. (p.tree ≡ null_test span null inner.tree) × (p.end ≡ end)) }
    ensures refused { IfRefused result (λ r. ⊥) }
{
    let Parsed {
        tree,
        end: _,
        height,
    } = inner;
    let height = above(height, 0)?;
    let tree = boxed(alloc, tree)?;
    let form = if null {
        SqlForm::IsNull(tree)
    } else {
        SqlForm::IsNotNull(tree)
    };
    Ok(Parsed {
        tree: SqlExp { span, form },
        end,
        height,
    })
}
