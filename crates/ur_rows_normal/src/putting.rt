//! Instances of normal forms.
ghost use Rattle.std.specs.Prelude.{◌≡◌, ◌≤◌, ◌<◌, true, IfOk, Err};
ghost use Rattle.ur_rows.specs.IsNormal.{is_normal_type, is_normal_row, is_normal};
ghost use Rattle.ur_rows.specs.Nodes.{type_nodes, row_nodes, nodes, most_nodes};
ghost use Rattle.ur_rows.specs.Put.{instance_type, instance_row, instance};
ghost use Rattle.ur_rows_reduce.specs.Height.{type_height, row_height, height, most_levels};
ghost use Rattle.ur_rows_reduce.specs.declared.count.Halt.TheVariants as halt;
ghost use Rattle.ur_rows_normal.specs.Arguments.{are_normal};

use crate::arguments::Arguments;
use crate::levels::heights_of;
use std::alloc::Global;
use ur_base::List;
use ur_rows::{Normal, NormalType, Part};
use ur_rows_reduce::{
    Halt, normal_after, put_normal_within, put_row_within, put_type_within, row_after, type_after,
};

/// A type with constructors in place of its free variables, in order of binding. There is no memory for one that is too
/// high.
pub fn instance_type(alloc: Global, args: &[Normal], t: &NormalType) -> Result<NormalType, Halt>
    requires ordered { are_normal args.now ≡ true }
    ensures form { IfOk result (λ x. x ≡ instance_type args.now t.now) }
    ensures small { IfOk result (λ x. type_nodes x ≤ most_nodes) }
    ensures low { IfOk result (λ x. type_height x ≤ most_levels) }
    ensures in_order { IfOk result (λ x. is_normal_type x ≡ true) }
    ensures over { result ≡ Err halt.TooLarge → most_nodes < type_nodes (instance_type args.now t.now) }
{
    let how = Arguments { of: args };
    let heights = heights_of(alloc, args)?;
    type_after(&heights, 0, t, 4096)?;
    let made = put_type_within(alloc, &how, 0, t, 65536)?;
    Ok(made.0)
}

/// The same for a row, which may have one node and one level less than a constructor.
pub fn instance_row(alloc: Global, args: &[Normal], r: &List<Part>) -> Result<List<Part>, Halt>
    requires ordered { are_normal args.now ≡ true }
    ensures form { IfOk result (λ x. x ≡ instance_row args.now r.now) }
    ensures small { IfOk result (λ x. row_nodes x < most_nodes) }
    ensures low { IfOk result (λ x. row_height x < most_levels) }
    ensures in_order { IfOk result (λ x. is_normal_row x ≡ true) }
    ensures over { result ≡ Err halt.TooLarge → most_nodes ≤ row_nodes (instance_row args.now r.now) }
{
    let how = Arguments { of: args };
    let heights = heights_of(alloc, args)?;
    row_after(&heights, 0, r, 4095)?;
    let made = put_row_within(alloc, &how, 0, r, 65535)?;
    Ok(made.0)
}

/// The same for a constructor.
pub fn instance(alloc: Global, args: &[Normal], n: &Normal) -> Result<Normal, Halt>
    requires ordered { are_normal args.now ≡ true }
    ensures form { IfOk result (λ x. x ≡ instance args.now n.now) }
    ensures small { IfOk result (λ x. nodes x ≤ most_nodes) }
    ensures low { IfOk result (λ x. height x ≤ most_levels) }
    ensures in_order { IfOk result (λ x. is_normal x ≡ true) }
    ensures over { result ≡ Err halt.TooLarge → most_nodes < nodes (instance args.now n.now) }
{
    let how = Arguments { of: args };
    let heights = heights_of(alloc, args)?;
    normal_after(&heights, 0, n, 4096)?;
    let made = put_normal_within(alloc, &how, 0, n, 65536)?;
    Ok(made.0)
}
