ghost use Rattle.std.specs.Prelude.{◌≡◌, ◌≤◌, ℕ, Option, IfOk};
ghost use Rattle.ur_base.specs.Counts.{HasCause};
ghost use Rattle.ur_io.specs.Files.{Files, fetched, IsWithin};
ghost use Rattle.ur_base.specs.Told.{WhereTold};

use ur_base::{Bytes, Memory};

#[derive(Debug, Drop)]
pub enum FetchEnd {
    Failed,
    Memory,
}

impl From<Memory> for FetchEnd {
    ghost use Rattle.ur_io.specs.declared.shelf.FetchEnd.TheVariants as end;

    ghost from_gives = { λ _ given. given ≡ end.Memory };

    fn from(_want: Memory) -> FetchEnd {
        FetchEnd::Memory
    }
}

#[derive(Debug, Drop)]
pub enum Fetched {
    Whole(Bytes),
    Longer,
    Missing,
}

/// A map from names to bytes.
pub trait Shelf {
    /// The map, where it is told.
    ghost told: { Self → Option Files };

    /// How many calls have failed.
    ghost faults: { Self → ℕ };

    fn fetch(&mut self, name: &str, most: usize) -> Result<Fetched, FetchEnd>
        ensures contents { IfOk result (λ r. WhereTold (told self.old) (λ files. r ≡ fetched most (files name.now))) }
        ensures within { IfOk result (IsWithin most) }
        ensures kept { told self.new ≡ told self.old }
        ensures cause { HasCause FetchEnd.Failed (faults self.old) (faults self.new) result };
}
