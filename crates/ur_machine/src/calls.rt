//! Calls of the cache.
ghost use Rattle.std.specs.Prelude.{◌≡◌, All, IfOk, OnOk, OnErr, None, option_map, slice_index_or, [], length, ◌<◌};
ghost use Rattle.ur_values.specs.Atom.{IsAtomic, atom_values};
ghost use Rattle.ur_cache.specs.Entries.{hit, kept, looked_up, masked};
ghost use Rattle.ur_conditions.specs.Masks.{PatternReads, update_masks};

use std::alloc::Global;
use ur_base::{List, Memory, Shared};
use ur_cache::{Cache, fits};
use ur_conditions::Patterns;
use ur_values::{Atom, Value};

/// The atoms that stand for the values of a key.
pub fn atoms_of(alloc: Global, key: &[Value]) -> Result<List<Atom>, Memory>
    requires { All IsAtomic key.now }
    ensures { IfOk result (λ atoms. atom_values atoms ≡ key.now) }
{
    let mut atoms = List::new(alloc);
    for value in key {
        atoms.push(value.atom(alloc)?)?;
    }
    Ok(atoms)
}

/// The rows of an entry, which goes to the front and shares them; none where a mask matches.
pub fn held_rows(
    cache: &mut Cache,
    site: u32,
    key: &[Atom],
) -> Result<Option<Shared<List<Value>>>, Memory>
    ensures front { cache.new ≡ looked_up cache.old site (atom_values key.now) }
    ensures rows { IfOk result (λ rows. rows ≡ option_map (λ e. e.rows) (hit cache.old site (atom_values key.now))) }
{
    match cache.lookup(site, key) {
        None => Ok(None),
        Some(rows) => {
            let shared = rows.share()?;
            Ok(Some(shared))
        }
    }
}

/// Keeps rows that were read, where no mask matches and they are not too large. The entry shares them.
pub fn keep_rows(
    cache: &mut Cache,
    site: u32,
    key: List<Atom>,
    rows: &Shared<List<Value>>,
) -> Result<(), Memory>
    requires { hit cache.old site (atom_values key) ≡ None }
    ensures ok { OnOk result (cache.new ≡ kept cache.old (record { site = site; key = atom_values key; rows = rows.now })) }
    ensures err { OnErr result (cache.new ≡ cache.old) }
{
    if cache.masked(site, key.as_slice()) {
        return Ok(());
    }
    if !fits(key.as_slice(), rows.get().as_slice()) {
        return Ok(());
    }
    let shared = rows.share()?;
    cache.put(site, key, shared)
}

/// Adds the masks of an update that is run.
pub fn add_masks(
    alloc: Global,
    patterns: &Patterns,
    cache: &mut Cache,
    update: u32,
    args: &[Value],
) -> Result<(), Memory>
    requires update { update < length patterns.now.updates }
    requires kinds { All IsAtomic args.now }
    requires reads { All (All (PatternReads (length args.now))) (slice_index_or patterns.now.updates update []) }
    ensures ok { OnOk result (cache.new ≡ masked cache.old (update_masks args.now (slice_index_or patterns.now.updates update []))) }
    ensures err { OnErr result (cache.new ≡ cache.old) }
{
    let masks = patterns.masks(alloc, update, args)?;
    cache.mask(masks)
}
