//! Names in byte order, each once.
ghost use Rattle.std.specs.Prelude.{◌≡◌, ◌≢◌, ◌↔◌, ℕ, List as GhostList, IsTrue, IfOk, Contains, AllPairs};
ghost use Rattle.ur_rows.specs.Order.{is_not_after};
ghost use Rattle.ur_tree.specs.FieldNames.{of_modules};

use crate::decls::modules;
use std::alloc::Global;
use ur_base::{List, Memory, Text};
use ur_syntax::Module;

/// The same names in byte order, each once.
fn in_order(names: List<Text>) -> Result<List<Text>, Memory>
    ensures same { IfOk result (λ list. (x : GhostList ℕ) → Contains list x ↔ Contains names x) }
    ensures rise { IfOk result (AllPairs (λ a b. IsTrue (is_not_after a b) × (a ≢ b))) }
{
    let mut sorted = names.into_vec();
    sorted.sort()?;
    sorted.dedup();
    Ok(List::from_vec(sorted))
}

/// The names of fields that occur in modules, in byte order, each once.
pub fn field_names(alloc: Global, all: &[Module]) -> Result<List<Text>, Memory>
    ensures occur { IfOk result (λ names. (x : GhostList ℕ) → Contains names x ↔ Contains (of_modules all.now) x) }
    ensures rise { IfOk result (AllPairs (λ a b. IsTrue (is_not_after a b) × (a ≢ b))) }
{
    let mut names = List::new(alloc);
    modules(alloc, &mut names, all)?;
    let ordered = in_order(names)?;
    Ok(ordered)
}
