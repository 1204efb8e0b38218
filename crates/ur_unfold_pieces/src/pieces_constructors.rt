//! Constructors under the scope with a number.
ghost use Rattle.std.specs.Prelude.{◌≡◌, map};
ghost use Rattle.ur_rows.specs.Put.{instance};
ghost use Rattle.ur_source.specs.Items.{Scope};
ghost use Rattle.ur_unfold_pieces.specs.Constructors.{AreNumbered, halt_of};
ghost use Rattle.ur_unfold_pieces.specs.Moving.{Stays};
ghost use Rattle.ur_unfold_pieces.specs.Standing.{ScopeIs};

use crate::instances_under;
use crate::opening::Opening;
use std::alloc::Global;
use ur_base::List;
use ur_meaning::Halt;
use ur_rows::Normal;
use ur_rows_reduce::Halt as Reduced;

fn halt_of(halt: Reduced) -> Halt
    ensures { result ≡ halt_of halt }
{
    match halt {
        Reduced::Memory => Halt::Memory,
        Reduced::TooLarge => Halt::Large,
    }
}

/// The numbers of constructors, or that one of them is too large.
pub fn cons_in(
    alloc: Global,
    table: &mut Opening<'_>,
    scope: u32,
    cons: &List<Normal>,
) -> Result<List<u32>, Halt>
    ensures made { (around : Scope) → ScopeIs table.old scope around → AreNumbered table.new.closing (map (instance around.cons) cons.now) result }
    ensures stays { Stays table.old table.new }
{
    match table.scopes.get(scope as usize) {
        None => Err(Halt::Memory),
        Some(within) => match instances_under(alloc, &mut table.closing, within, cons) {
            Ok(numbers) => Ok(numbers),
            Err(halt) => Err(halt_of(halt)),
        },
    }
}
