//! The masks of patterns on arguments.
ghost use Rattle.std.specs.Prelude.{◌≡◌, All, IfOk, map, length, option_map};
ghost use Rattle.std.specs.List.{list_all};
ghost use Rattle.ur_values.specs.Atom.{IsAtomic, atom_value};
ghost use Rattle.ur_values.specs.Order.{value_eq};
ghost use Rattle.ur_cacheindex.specs.Matching.{read_mask};
ghost use Rattle.ur_conditions.specs.Masks.{guard_holds, fixed_at, mask_of, masks_of, update_masks, KeyReads, GuardReads, PatternReads};

use std::alloc::Global;
use ur_base::{List, Memory};
use ur_cacheindex::Mask;
use ur_sql::{Guard, KeyAt, Pattern};
use ur_values::{Atom, Value, compare_values};

/// The masks of all sites, in order.
pub fn update_masks(
    alloc: Global,
    args: &[Value],
    sites: &List<List<Pattern>>,
) -> Result<List<Mask>, Memory>
    requires kinds { All IsAtomic args.now }
    requires reads { All (All (PatternReads (length args.now))) sites.now }
    ensures { IfOk result (λ masks. map read_mask masks ≡ update_masks args.now sites.now) }
{
    let mut all = List::new(alloc);
    for patterns in sites.as_slice() {
        all.append(site_masks(alloc, args, patterns)?)?;
    }
    Ok(all)
}

/// The masks of the patterns whose guards hold.
fn site_masks(alloc: Global, args: &[Value], patterns: &List<Pattern>) -> Result<List<Mask>, Memory>
    requires kinds { All IsAtomic args.now }
    requires reads { All (PatternReads (length args.now)) patterns.now }
    ensures { IfOk result (λ masks. map read_mask masks ≡ masks_of args.now patterns.now) }
{
    let mut all = List::new(alloc);
    for pattern in patterns.as_slice() {
        if guards_hold(args, &pattern.guards) {
            all.push(mask_of(alloc, args, pattern)?)?;
        }
    }
    Ok(all)
}

fn mask_of(alloc: Global, args: &[Value], pattern: &Pattern) -> Result<Mask, Memory>
    requires kinds { All IsAtomic args.now }
    requires reads { PatternReads (length args.now) pattern.now }
    ensures { IfOk result (λ mask. read_mask mask ≡ mask_of args.now pattern.now) }
{
    let mut keys = List::new(alloc);
    for key in pattern.keys.as_slice() {
        keys.push(fixed_at(alloc, args, key)?)?;
    }
    let site = pattern.site;
    Ok(Mask { site, keys })
}

/// What a key position has to be, if it is fixed.
fn fixed_at(alloc: Global, args: &[Value], key: &KeyAt) -> Result<Option<Atom>, Memory>
    requires kinds { All IsAtomic args.now }
    requires reads { KeyReads (length args.now) key.now }
    ensures { IfOk result (λ fixed. option_map atom_value fixed ≡ fixed_at args.now key.now) }
{
    match key {
        KeyAt::Arg(number) => Ok(Some(args[*number as usize].atom(alloc)?)),
        KeyAt::Is(value) => Ok(Some(value.atom(alloc)?)),
        KeyAt::Any => Ok(None),
    }
}

fn guards_hold(args: &[Value], guards: &List<Guard>) -> bool
    requires { All (GuardReads (length args.now)) guards.now }
    ensures { result ≡ list_all (guard_holds args.now) guards.now }
{
    for guard in guards.as_slice() {
        if !guard_holds(args, guard) {
            return false;
        }
    }
    true
}

fn guard_holds(args: &[Value], guard: &Guard) -> bool
    requires { GuardReads (length args.now) guard.now }
    ensures { result ≡ guard_holds args.now guard.now }
{
    match guard {
        Guard::Args(first, second) => {
            same_values(&args[*first as usize], &args[*second as usize])
        }
        Guard::Is(number, value) => same_values(&args[*number as usize], value),
    }
}

/// Whether two ints, bools, texts or options of these are the same. Takes no memory.
pub fn same_values(a: &Value, b: &Value) -> bool
    ensures { result ≡ value_eq a.now b.now }
{
    compare_values(a, b).is_eq()
}
