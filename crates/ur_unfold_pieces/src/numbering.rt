//! Instances by number.
ghost use Rattle.std.specs.Prelude.{◌≡◌, ◌∷◌, [], ◌++◌, OnOk, OnErr};
ghost use Rattle.ur_unfold_static.specs.Lists.{IsAbsent};
ghost use Rattle.ur_unfold_pieces.specs.Keys.{IsKeyOf, IsOf, Numbers, instance_of};
ghost use Rattle.ur_unfold_pieces.specs.Moving.{Moves};
ghost use Rattle.ur_unfold_pieces.specs.Standing.{IsWhole, instances_in};

use crate::fitting::{key_fits, number_of};
use crate::opening::{Key, Opening};
use indexmap::IndexSet;
use ur_base::Memory;
use ur_meaning::Halt;

/// How many instances there may be.
const INSTANCES: usize = 4096;

/// Puts a key that is new at the end.
pub fn add_key(instances: &mut IndexSet<Key>, key: Key) -> Result<(), Memory>
    requires { IsAbsent instances.old.keys key }
    ensures ok { OnOk result (instances.new.keys ≡ instances.old.keys ++ key ∷ []) }
    ensures err { OnErr result (instances.new.keys ≡ instances.old.keys) }
{
    instances.insert(key)?;
    Ok(())
}

/// The number of a key, which is the last one where it is new.
fn number(instances: &mut IndexSet<Key>, key: Key) -> Result<u32, Halt>
    ensures { Numbers IsKeyOf instances.old.keys instances.new.keys key result }
{
    match instances.get_index_of(&key) {
        Some(place) => {
            let number = number_of(place)?;
            Ok(number)
        }
        None => last_number(instances, key),
    }
}

fn last_number(instances: &mut IndexSet<Key>, key: Key) -> Result<u32, Halt>
    requires { IsAbsent instances.old.keys key }
    ensures { Numbers IsKeyOf instances.old.keys instances.new.keys key result }
{
    let count = instances.len();
    if count >= INSTANCES {
        return Err(Halt::Instances(key.function));
    }
    add_key(instances, key)?;
    Ok(count as u32)
}

impl<'a> Opening<'a> {
    /// The number of an instance, which is the last one where it is new. Where 4,096 are numbered a new one has none: it is
    /// one too many, and its function is told. There is no memory for one whose numbers stand for nothing.
    pub fn number(&mut self, key: Key) -> Result<u32, Halt>
        ensures number { IsWhole self.old → Numbers IsOf (instances_in self.old) (instances_in self.new) (instance_of self.old.closing key) result }
        ensures moves { Moves self.old self.new }
        ensures closing { self.new.closing ≡ self.old.closing }
        ensures scopes { self.new.scopes ≡ self.old.scopes }
    {
        if !key_fits(&self.closing, &key) {
            return Err(Halt::Memory);
        }
        self.closing.each_once();
        number(&mut self.instances, key)
    }
}
