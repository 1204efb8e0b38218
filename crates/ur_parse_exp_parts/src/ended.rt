//! Expressions with what they take behind them, and what is made of these.
ghost use Rattle.std.specs.Prelude.{◌≡◌, IfOk, true};
ghost use Rattle.ur_parse_rules.specs.Places.{IfRefused};
ghost use Rattle.ur_parse_rules.specs.Expressions.{at, closed, ends_as, takes_as};
ghost use Rattle.ur_syntax.specs.declared.exp.ExpForm.TheVariants as form;
ghost use Rattle.ur_parse_exp_parts.specs.Lines.{ended};

use crate::form::made;
use std::alloc::Global;
use ur_base::{Boxed, List, Span, Stop};
use ur_parse_con::taller;
use ur_parse_rules::Parsed;
use ur_syntax::{Binder, Branch, Con, Exp, ExpForm, Field, LambdaParam, LetVal};

/// An expression, with whether it takes each `;` behind it, and each `|`: one that ends with a lambda or a `case` takes
/// the former, one that ends with a `case` the latter.
#[derive(Drop)]
pub struct Line {
    pub exp: Boxed<Exp>,
    pub takes_semicolon: bool,
    pub takes_bar: bool,
}

/// An expression with what it takes.
fn taking(exp: Parsed<Boxed<Exp>>, takes_semicolon: bool, takes_bar: bool) -> Parsed<Line>
    ensures exp { result.tree.exp ≡ exp.tree }
    ensures semicolon { result.tree.takes_semicolon ≡ takes_semicolon }
    ensures bar { result.tree.takes_bar ≡ takes_bar }
    ensures end { result.end ≡ exp.end }
{
    let Parsed { tree, end, height } = exp;
    Parsed {
        tree: Line {
            exp: tree,
            takes_semicolon,
            takes_bar,
        },
        end,
        height,
    }
}

/// An expression that takes neither.
pub fn closed(exp: Parsed<Boxed<Exp>>) -> Parsed<Line>
    ensures tree { ended result.tree ≡ closed exp.tree }
    ensures end { result.end ≡ exp.end }
{
    let Parsed { tree, end, height } = exp;
    Parsed {
        tree: Line {
            exp: tree,
            takes_semicolon: false,
            takes_bar: false,
        },
        end,
        height,
    }
}

/// What stands in parentheses, the latter of which ends at a place.
pub fn inner(line: Parsed<Line>, end: usize) -> Parsed<Boxed<Exp>>
    ensures tree { result.tree ≡ line.tree.exp }
    ensures end { result.end ≡ end }
{
    let Parsed {
        tree,
        end: _,
        height,
    } = line;
    let Line {
        exp,
        takes_semicolon: _,
        takes_bar: _,
    } = tree;
    Parsed {
        tree: exp,
        end,
        height,
    }
}

/// `binder <- first; second`
pub fn bind_of(
    alloc: Global,
    span: Span,
    binder: Binder,
    first: Parsed<Line>,
    second: Parsed<Line>,
) -> Result<Parsed<Line>, Stop>
    ensures found { IfOk result (λ p. (ended p.tree ≡ ends_as (ended second.tree) (at span (form.Bind binder first.tree.exp second.tree.exp))) × (p.end ≡ second.end)) }
    ensures refused { IfRefused result (λ r. ⊥) }
{
    let Parsed {
        tree: left,
        end: _,
        height: low,
    } = inner(first, 0);
    let Parsed {
        tree: behind,
        end,
        height: high,
    } = second;
    let Line {
        exp: right,
        takes_semicolon,
        takes_bar,
    } = behind;
    let exp = made(
        alloc,
        span,
        ExpForm::Bind(binder, left, right),
        end,
        taller(low, high),
    )?;
    Ok(taking(exp, takes_semicolon, takes_bar))
}

/// `first; second`
pub fn sequence_of(
    alloc: Global,
    span: Span,
    first: Parsed<Line>,
    second: Parsed<Line>,
) -> Result<Parsed<Line>, Stop>
    ensures found { IfOk result (λ p. (ended p.tree ≡ ends_as (ended second.tree) (at span (form.Seq first.tree.exp second.tree.exp))) × (p.end ≡ second.end)) }
    ensures refused { IfRefused result (λ r. ⊥) }
{
    let Parsed {
        tree: left,
        end: _,
        height: low,
    } = inner(first, 0);
    let Parsed {
        tree: behind,
        end,
        height: high,
    } = second;
    let Line {
        exp: right,
        takes_semicolon,
        takes_bar,
    } = behind;
    let exp = made(
        alloc,
        span,
        ExpForm::Seq(left, right),
        end,
        taller(low, high),
    )?;
    Ok(taking(exp, takes_semicolon, takes_bar))
}

/// `if test then first else second`
pub fn conditional_of(
    alloc: Global,
    span: Span,
    test: Parsed<Line>,
    first: Parsed<Line>,
    second: Parsed<Line>,
) -> Result<Parsed<Line>, Stop>
    ensures found { IfOk result (λ p. (ended p.tree ≡ ends_as (ended second.tree) (at span (form.If test.tree.exp first.tree.exp second.tree.exp))) × (p.end ≡ second.end)) }
    ensures refused { IfRefused result (λ r. ⊥) }
{
    let Parsed {
        tree: asked,
        end: _,
        height: lowest,
    } = inner(test, 0);
    let Parsed {
        tree: left,
        end: _,
        height: low,
    } = inner(first, 0);
    let Parsed {
        tree: behind,
        end,
        height: high,
    } = second;
    let Line {
        exp: right,
        takes_semicolon,
        takes_bar,
    } = behind;
    let exp = made(
        alloc,
        span,
        ExpForm::If(asked, left, right),
        end,
        taller(lowest, taller(low, high)),
    )?;
    Ok(taking(exp, takes_semicolon, takes_bar))
}

/// `fn params => body`
pub fn lambda_of(
    alloc: Global,
    span: Span,
    params: Parsed<List<LambdaParam>>,
    body: Parsed<Line>,
) -> Result<Parsed<Line>, Stop>
    ensures found { IfOk result (λ p. (ended p.tree ≡ takes_as (ended body.tree) (at span (form.Lambda params.tree body.tree.exp))) × (p.end ≡ body.end)) }
    ensures refused { IfRefused result (λ r. ⊥) }
{
    let Parsed {
        tree: list,
        end: _,
        height: low,
    } = params;
    let Parsed {
        tree: behind,
        end,
        height: high,
    } = body;
    let Line {
        exp: right,
        takes_semicolon: _,
        takes_bar,
    } = behind;
    let exp = made(
        alloc,
        span,
        ExpForm::Lambda(list, right),
        end,
        taller(low, high),
    )?;
    Ok(taking(exp, true, takes_bar))
}

/// `case scrutinee of branches`
pub fn case_of(
    alloc: Global,
    span: Span,
    scrutinee: Parsed<Line>,
    branches: Parsed<List<Branch>>,
) -> Result<Parsed<Line>, Stop>
    ensures exp { IfOk result (λ p. p.tree.exp ≡ at span (form.Case scrutinee.tree.exp branches.tree)) }
    ensures takes { IfOk result (λ p. (p.tree.takes_semicolon ≡ true) × (p.tree.takes_bar ≡ true)) }
    ensures end { IfOk result (λ p. p.end ≡ branches.end) }
    ensures refused { IfRefused result (λ r. ⊥) }
{
    let Parsed {
        tree: asked,
        end: _,
        height: low,
    } = inner(scrutinee, 0);
    let Parsed {
        tree: list,
        end,
        height: high,
    } = branches;
    let exp = made(
        alloc,
        span,
        ExpForm::Case(asked, list),
        end,
        taller(low, high),
    )?;
    Ok(taking(exp, true, true))
}

/// `{fields}`
pub fn record_of(
    alloc: Global,
    span: Span,
    fields: Parsed<List<Field>>,
) -> Result<Parsed<Boxed<Exp>>, Stop>
    ensures found { IfOk result (λ p. (p.tree ≡ at span (form.Record fields.tree)) × (p.end ≡ fields.end)) }
    ensures refused { IfRefused result (λ r. ⊥) }
{
    let Parsed { tree, end, height } = fields;
    made(alloc, span, ExpForm::Record(tree), end, height)
}

/// `let vals in body end`, which ends at a place
pub fn let_of(
    alloc: Global,
    span: Span,
    vals: Parsed<List<LetVal>>,
    body: Parsed<Line>,
    end: usize,
) -> Result<Parsed<Boxed<Exp>>, Stop>
    ensures found { IfOk result (λ p. (p.tree ≡ at span (form.Let vals.tree body.tree.exp)) × (p.end ≡ end)) }
    ensures refused { IfRefused result (λ r. ⊥) }
{
    let Parsed {
        tree: list,
        end: _,
        height: low,
    } = vals;
    let Parsed {
        tree: right,
        end: _,
        height: high,
    } = inner(body, 0);
    made(
        alloc,
        span,
        ExpForm::Let(list, right),
        end,
        taller(low, high),
    )
}

/// `fold [step] first second [row]`, which ends at a place
pub fn fold_of(
    alloc: Global,
    span: Span,
    step: Parsed<Con>,
    first: Parsed<Boxed<Exp>>,
    second: Parsed<Boxed<Exp>>,
    row: Parsed<Con>,
    end: usize,
) -> Result<Parsed<Boxed<Exp>>, Stop>
    ensures found { IfOk result (λ p. (p.tree ≡ at span (form.Fold step.tree first.tree second.tree row.tree)) × (p.end ≡ end)) }
    ensures refused { IfRefused result (λ r. ⊥) }
{
    let Parsed {
        tree: of,
        end: _,
        height: lowest,
    } = step;
    let Parsed {
        tree: left,
        end: _,
        height: low,
    } = first;
    let Parsed {
        tree: right,
        end: _,
        height: high,
    } = second;
    let Parsed {
        tree: over,
        end: _,
        height: highest,
    } = row;
    made(
        alloc,
        span,
        ExpForm::Fold(of, left, right, over),
        end,
        taller(taller(lowest, low), taller(high, highest)),
    )
}
