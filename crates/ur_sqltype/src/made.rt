//! Expressions made of their parts.
ghost use Rattle.std.specs.Prelude.{◌≡◌, IfOk};
ghost use Rattle.ur_sql.specs.declared.scalar.Scalar.TheVariants as scalar;
ghost use Rattle.ur_sqltype.specs.Expression.{join_of, with_null};

use crate::operators::Join;
use std::alloc::Global;
use ur_base::{Boxed, Memory};
use ur_sql::{Comparison, Scalar};
use ur_values::ColumnKind;

fn joining(join: Join, a: Boxed<Scalar>, b: Boxed<Scalar>) -> Scalar
    ensures { result ≡ join_of join a b }
{
    match join {
        Join::Or => Scalar::Or(a, b),
        Join::And => Scalar::And(a, b),
        Join::Add => Scalar::Add(a, b),
        Join::Sub => Scalar::Sub(a, b),
        Join::Mul => Scalar::Mul(a, b),
    }
}

pub fn joined(
    alloc: Global,
    join: Join,
    a: Boxed<Scalar>,
    b: Boxed<Scalar>,
) -> Result<Boxed<Scalar>, Memory>
    ensures { IfOk result (λ x. x ≡ join_of join a b) }
{
    Boxed::new(alloc, joining(join, a, b))
}

pub fn compared(
    alloc: Global,
    c: Comparison,
    a: Boxed<Scalar>,
    b: Boxed<Scalar>,
) -> Result<Boxed<Scalar>, Memory>
    ensures { IfOk result (λ x. x ≡ scalar.Compare c a b) }
{
    Boxed::new(alloc, Scalar::Compare(c, a, b))
}

pub fn negated(alloc: Global, a: Boxed<Scalar>) -> Result<Boxed<Scalar>, Memory>
    ensures { IfOk result (λ x. x ≡ scalar.Not a) }
{
    Boxed::new(alloc, Scalar::Not(a))
}

pub fn negative(alloc: Global, a: Boxed<Scalar>) -> Result<Boxed<Scalar>, Memory>
    ensures { IfOk result (λ x. x ≡ scalar.Neg a) }
{
    Boxed::new(alloc, Scalar::Neg(a))
}

/// An expression compared with the NULL of its kind.
pub fn with_null(
    alloc: Global,
    c: Comparison,
    first: bool,
    a: Boxed<Scalar>,
    kind: ColumnKind,
) -> Result<Boxed<Scalar>, Memory>
    ensures { IfOk result (λ x. x ≡ with_null c first a kind) }
{
    let null = Boxed::new(alloc, Scalar::Null(kind))?;
    if first {
        return compared(alloc, c, null, a);
    }
    compared(alloc, c, a, null)
}

pub fn present(alloc: Global, a: Boxed<Scalar>) -> Result<Boxed<Scalar>, Memory>
    ensures { IfOk result (λ x. x ≡ scalar.Present a) }
{
    Boxed::new(alloc, Scalar::Present(a))
}
