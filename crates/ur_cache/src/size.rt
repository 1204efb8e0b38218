//! Which answers are small enough to be kept.
ghost use Rattle.std.specs.Prelude.{◌≡◌, ◌+◌, ◌-◌, ◌^◌, min, nat_le};
ghost use Rattle.ur_values.specs.Atom.{atom_values};
ghost use Rattle.ur_values.specs.Size.{sizes};
ghost use Rattle.ur_cache.specs.Entries.{most_size};

use ur_values::{Atom, Value};

/// The greatest size of an entry: of its key and the rows of its answer together.
const MOST_SIZE: u64 = 65_536;

/// Whether a key and the rows of its answer are together of the size that a cache keeps, at most 65,536. Takes no memory.
pub fn fits(key: &[Atom], rows: &[Value]) -> bool
    ensures { result ≡ nat_le (sizes (atom_values key.now) + sizes rows.now) most_size }
{
    key_size(key).saturating_add(rows_size(rows)) <= MOST_SIZE
}

fn key_size(key: &[Atom]) -> u64
    ensures { result ≡ min (sizes (atom_values key.now)) (2 ^ 64 - 1) }
{
    let mut total: u64 = 0;
    for atom in key {
        total = total.saturating_add(atom.size());
    }
    total
}

fn rows_size(rows: &[Value]) -> u64
    ensures { result ≡ min (sizes rows.now) (2 ^ 64 - 1) }
{
    let mut total: u64 = 0;
    for row in rows {
        total = total.saturating_add(row.size());
    }
    total
}
