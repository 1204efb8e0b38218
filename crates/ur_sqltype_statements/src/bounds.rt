//! The numbers of LIMIT and OFFSET.
ghost use Rattle.std.specs.Prelude.{◌≡◌, ℕ, Some, None, codes, IfOk};
ghost use Rattle.ur_base.specs.Stopping.{IfRefused};
ghost use Rattle.ur_syntax.specs.declared.sql.Limit.{Limit as Written};
ghost use Rattle.ur_syntax.specs.declared.sql.Limit.TheVariants as limit;
ghost use Rattle.ur_sqltype.specs.Lists.{maybe};
ghost use Rattle.ur_sqltype.specs.Query.{limited};
ghost use Rattle.ur_sqltype.specs.SqltypeFaults.{BoundBreaks};

use std::alloc::Global;
use ur_base::{Span, Stop};
use ur_sql::Bound;
use ur_sqltype::{Within, kind_text, misfit, number_text};
use ur_syntax::Limit;
use ur_values::ColumnKind;

/// A written number, which is at most the greatest int.
fn written(alloc: Global, within: &Within, span: Span, n: u64) -> Result<Bound, Stop>
    ensures typed { IfOk result (λ b. limited within.now (limit.Int n) ≡ Some b) }
    ensures refused { IfRefused result (λ r. BoundBreaks within.now r (limit.Int n)) }
{
    let _within = within;
    if n < 9223372036854775808 {
        return Ok(Bound::Is(n as i64));
    }
    let left = number_text(alloc, n)?;
    Err(Stop::Refused(misfit(alloc, span, left.as_slice(), b"int")?))
}

/// An antiquote, which is an int.
fn param(alloc: Global, within: &Within, span: Span, n: u32) -> Result<Bound, Stop>
    ensures typed { IfOk result (λ b. limited within.now (limit.Anti n) ≡ Some b) }
    ensures refused { IfRefused result (λ r. BoundBreaks within.now r (limit.Anti n)) }
{
    match within.antiquotes.get(n as usize) {
        None => Err(Stop::Refused(misfit(alloc, span, b"no antiquote", b"int")?)),
        Some(kind) => match *kind {
            ColumnKind::Int => Ok(Bound::Param(n)),
            _ => Err(Stop::Refused(misfit(alloc, span, kind_text(*kind), b"int")?)),
        },
    }
}

fn limited(alloc: Global, within: &Within, span: Span, of: &Limit) -> Result<Bound, Stop>
    ensures typed { IfOk result (λ b. limited within.now of.now ≡ Some b) }
    ensures refused { IfRefused result (λ r. BoundBreaks within.now r of.now) }
{
    match of {
        Limit::Int(n) => written(alloc, within, span, *n),
        Limit::Anti(n) => param(alloc, within, span, *n),
    }
}

/// A number that may be left out.
pub fn bound_of(
    alloc: Global,
    within: &Within,
    span: Span,
    of: &Option<Limit>,
) -> Result<Option<Bound>, Stop>
    ensures typed { IfOk result (λ b. maybe (limited within.now) of.now ≡ Some b) }
    ensures refused { IfRefused result (λ r. (l : Written) × (of.now ≡ Some l) × BoundBreaks within.now r l) }
{
    match of {
        None => Ok(None),
        Some(l) => {
            let bound = limited(alloc, within, span, l)?;
            Ok(Some(bound))
        }
    }
}
