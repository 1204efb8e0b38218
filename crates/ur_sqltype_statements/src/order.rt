//! GROUP BY and ORDER BY.
ghost use Rattle.std.specs.Prelude.{◌≡◌, [], ◌∷◌, ◌++◌, Some, IfOk, Contains};
ghost use Rattle.ur_base.specs.Stopping.{IfRefused};
ghost use Rattle.ur_syntax.specs.declared.sql.SqlExp.{SqlExp as WrittenExp};
ghost use Rattle.ur_syntax.specs.declared.sql.OrderKey.{OrderKey as WrittenOrder};
ghost use Rattle.ur_sqltype.specs.Faults.{HasFault};
ghost use Rattle.ur_sqltype.specs.Lists.{all_of};
ghost use Rattle.ur_sqltype.specs.Query.{column_in, ordered, is_descending};
ghost use Rattle.ur_sqltype.specs.SqltypeFaults.{ColumnBreaks};

use std::alloc::Global;
use ur_base::{Boxed, List, Memory, Stop};
use ur_sql::{ColumnAt, OrderKey, Scalar};
use ur_sqltype::{Within, any_scalar, column_in};
use ur_syntax::{Direction, OrderKey as WrittenKey, SqlExp};

/// The columns of GROUP BY.
pub fn group_of(alloc: Global, within: &Within, columns: &[SqlExp]) -> Result<List<ColumnAt>, Stop>
    ensures typed { IfOk result (λ ats. all_of (column_in within.now) columns.now ≡ Some ats) }
    ensures refused { IfRefused result (λ r. (e : WrittenExp) × Contains columns.now e × ColumnBreaks within.now e r) }
{
    let mut group = List::new(alloc);
    for i in 0..columns.len() {
        let column = column_in(alloc, within, &columns[i])?;
        group.push(column)?;
    }
    Ok(group)
}

fn is_descending(direction: Direction) -> bool
    ensures { result ≡ is_descending direction }
{
    match direction {
        Direction::Ascending => false,
        Direction::Descending => true,
    }
}

fn key(by: Boxed<Scalar>, descending: bool) -> OrderKey
    ensures { result ≡ record { by = by; descending = descending } }
{
    OrderKey {
        by: by.into_inner(),
        descending,
    }
}

fn ordered(alloc: Global, within: &Within, of: &WrittenKey) -> Result<OrderKey, Stop>
    ensures typed { IfOk result (λ k. ordered within.now of.now ≡ Some k) }
    ensures refused { IfRefused result (HasFault within.now of.now.key.form) }
{
    let by = any_scalar(alloc, within, &of.key)?;
    Ok(key(by, is_descending(of.direction)))
}

fn with_key(keys: List<OrderKey>, key: OrderKey) -> Result<List<OrderKey>, Memory>
    ensures { IfOk result (λ more. more ≡ keys ++ key ∷ []) }
{
    let mut keys = keys;
    keys.push(key)?;
    Ok(keys)
}

/// The keys of ORDER BY.
pub fn order_of(
    alloc: Global,
    within: &Within,
    written: &[WrittenKey],
) -> Result<List<OrderKey>, Stop>
    ensures typed { IfOk result (λ ks. all_of (ordered within.now) written.now ≡ Some ks) }
    ensures refused { IfRefused result (λ r. (k : WrittenOrder) × Contains written.now k × HasFault within.now k.key.form r) }
{
    let mut keys = List::new(alloc);
    for i in 0..written.len() {
        let key = ordered(alloc, within, &written[i])?;
        keys = with_key(keys, key)?;
    }
    Ok(keys)
}
