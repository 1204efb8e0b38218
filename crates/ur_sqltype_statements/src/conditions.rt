//! The conditions of joins.
ghost use Rattle.std.specs.Prelude.{◌≡◌, Some, IfOk, Contains};
ghost use Rattle.ur_base.specs.Stopping.{IfRefused};
ghost use Rattle.ur_values.specs.declared.schema.ColumnKind.TheVariants as kind;
ghost use Rattle.ur_syntax.specs.declared.sql.SqlExp.{SqlExp as Written};
ghost use Rattle.ur_syntax.specs.declared.sql.FromItem.{FromItem as WrittenItem};
ghost use Rattle.ur_sqltype.specs.Faults.{Misfits};
ghost use Rattle.ur_sqltype.specs.Lists.{all_of, behind};
ghost use Rattle.ur_sqltype.specs.Query.{of_kind, on_of, ons_of};

use std::alloc::Global;
use ur_base::{List, Stop};
use ur_sql::Scalar;
use ur_sqltype::{Within, scalar_of, with_scalar};
use ur_syntax::FromItem;
use ur_values::ColumnKind;

/// The condition behind an item's ON, where there is one, at the end.
fn with_on_of(
    alloc: Global,
    within: &Within,
    item: &FromItem,
    ons: List<Scalar>,
) -> Result<List<Scalar>, Stop>
    ensures typed { IfOk result (λ more. behind ons (all_of (of_kind kind.Bool within.now) (on_of item.now)) ≡ Some more) }
    ensures refused { IfRefused result (λ r. (e : Written) × (item.now.on ≡ Some e) × Misfits within.now e.form kind.Bool r) }
{
    match &item.on {
        None => Ok(ons),
        Some(e) => {
            let scalar = scalar_of(alloc, within, e, ColumnKind::Bool)?;
            let more = with_scalar(ons, scalar)?;
            Ok(more)
        }
    }
}

/// The conditions behind ON, in order.
pub fn ons_of(alloc: Global, within: &Within, items: &[FromItem]) -> Result<List<Scalar>, Stop>
    ensures typed { IfOk result (λ ons. all_of (of_kind kind.Bool within.now) (ons_of items.now) ≡ Some ons) }
    ensures refused { IfRefused result (λ r. (i : WrittenItem) × Contains items.now i × ((e : Written) × (i.on ≡ Some e) × Misfits within.now e.form kind.Bool r)) }
{
    let mut ons = List::new(alloc);
    for i in 0..items.len() {
        ons = with_on_of(alloc, within, &items[i], ons)?;
    }
    Ok(ons)
}
