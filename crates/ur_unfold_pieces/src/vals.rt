//! What the modules' `val`s are.
ghost use Rattle.std.specs.Prelude.{◌≡◌, [], unwrap_or, IfOk};
ghost use Rattle.ur_source.specs.Static.{static_of, static_record, vals_after};
ghost use Rattle.ur_unfold_static.specs.Held.{Grows};
ghost use Rattle.ur_unfold_static.specs.Scopes.{AreAt, IsAt, Statics};

use crate::static_of;
use std::alloc::Global;
use ur_base::{List, Memory, Text};
use ur_tree::{ModuleVal, Typed};
use ur_unfold_static::{Closing, Scope};

fn no_scope(alloc: Global) -> Scope
    ensures cons { result.cons ≡ [] }
    ensures fixed { result.fixed ≡ [] }
{
    Scope {
        cons: List::new(alloc),
        fixed: List::new(alloc),
    }
}

/// What the modules' `val`s are, each under those before it. The empty record holds the place of one that is not static.
pub fn closed_vals<'a>(
    alloc: Global,
    typed: &'a Typed,
    closing: &mut Closing<'a>,
) -> Result<List<u32>, Memory>
    ensures vals { IfOk result (λ js. AreAt closing.new.statics js (vals_after typed.now.names [] typed.now.vals)) }
    ensures grows { Grows closing.old closing.new }
{
    let all = typed.vals.as_slice();
    let mut vals = List::new(alloc);
    for i in 0..all.len() {
        let number = closed_val(alloc, &all[i], &typed.names, &vals, closing)?;
        vals.push(number)?;
    }
    Ok(vals)
}

/// The number of what a `val` is, or of the empty record.
fn closed_val<'a>(
    alloc: Global,
    val: &'a ModuleVal,
    names: &List<Text>,
    vals: &List<u32>,
    closing: &mut Closing<'a>,
) -> Result<u32, Memory>
    ensures number { IfOk result (λ j. (vs : Statics) → AreAt closing.old.statics vals.now vs → IsAt closing.new.statics j (unwrap_or (static_of names.now vs [] [] val.now.body) (static_record []))) }
    ensures grows { Grows closing.old closing.new }
{
    let scope = no_scope(alloc);
    match static_of(alloc, &val.body, names, vals, closing, &scope)? {
        Some(number) => Ok(number),
        None => Ok(closing.empty_number()),
    }
}
