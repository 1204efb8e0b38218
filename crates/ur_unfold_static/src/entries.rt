//! Lists whose entries have numbers.
ghost use Rattle.std.specs.Prelude.{◌≡◌, ◌≤◌, ◌∷◌, [], ◌++◌, length, IfOk, OnOk, OnErr};
ghost use Rattle.ur_unfold_static.specs.Lists.{most_entries};

use ur_base::{List, Memory};

/// How many entries each list has at most.
pub const ENTRIES: usize = 4_194_304;

/// Puts an entry at the end, and gives its number. There is no memory for more than there may be.
pub fn push<T: Drop>(entries: &mut List<T>, entry: T) -> Result<u32, Memory>
    ensures number { IfOk result (λ j. j ≡ length entries.old) }
    ensures few { length entries.old ≤ most_entries → length entries.new ≤ most_entries }
    ensures ok { OnOk result (entries.new ≡ entries.old ++ entry ∷ []) }
    ensures err { OnErr result (entries.new ≡ entries.old) }
{
    let count = entries.len();
    if count >= ENTRIES {
        return Err(Memory);
    }
    entries.push(entry)?;
    Ok(count as u32)
}
