//! The bodies of instances.
ghost use Rattle.std.specs.Prelude.{◌≡◌, Some, slice_get, IfOk};
ghost use Rattle.ur_tree.specs.declared.closed.Instance.{Instance};
ghost use Rattle.ur_meaning.specs.Opening.{Embodies};
ghost use Rattle.ur_unfold_pieces.specs.Moving.{Stays};
ghost use Rattle.ur_unfold_pieces.specs.Standing.{IsWhole, StandsFor, instances_in, language};

use crate::opening::{Key, Opening};
use crate::piece::Piece;
use crate::scopes::add_scope;
use std::alloc::Global;
use ur_base::{List, Memory};
use ur_meaning::Halt;
use ur_unfold_static::Scope;

/// The scope of an instance's body: its constructors and static arguments.
fn scope_of(alloc: Global, key: &Key) -> Result<Scope, Memory>
    ensures cons { IfOk result (λ made. made.cons ≡ key.now.cons) }
    ensures fixed { IfOk result (λ made. made.fixed ≡ key.now.fixed) }
{
    let cons = List::from_slice(alloc, key.cons.as_slice())?;
    let fixed = List::from_slice(alloc, key.fixed.as_slice())?;
    Ok(Scope { cons, fixed })
}

/// The body of the instance with this number. There is no memory where there is none.
pub fn body_of<'a>(alloc: Global, table: &mut Opening<'a>, number: u32) -> Result<Piece<'a>, Halt>
    ensures body { (k : Instance) → slice_get (instances_in table.old) number ≡ Some k → IsWhole table.old → Embodies (language table.old.typed.now) (StandsFor table.new) k result }
    ensures stays { Stays table.old table.new }
    ensures closing { table.new.closing ≡ table.old.closing }
{
    let typed = table.typed;
    match table.instances.get_index(number as usize) {
        None => Err(Halt::Memory),
        Some(key) => match typed.functions.get(key.function as usize) {
            None => Err(Halt::Memory),
            Some(function) => {
                let within = scope_of(alloc, key)?;
                let scope = add_scope(&mut table.scopes, within)?;
                Ok(Piece::Exp(scope, &function.body))
            }
        },
    }
}
