//! Variables of code that is written.
use ur_base::Bytes;
use ur_values::Value;

/// XML that is written already: its bytes, at least its size, and at least its nesting.
#[derive(Drop)]
pub struct Chunk {
    pub bytes: Bytes,
    pub size: u64,
    pub nesting: u32,
}

/// A variable: a value where it stands, a list of values where they stand, or XML that is written already.
#[derive(Drop)]
pub enum Slot<'v> {
    Value(&'v Value),
    Rows(&'v [Value]),
    Chunk(Chunk),
}

/// Why nothing is written: the machine has to run the code, or memory is wanting.
#[derive(Drop)]
pub enum Halt {
    Other,
    Memory,
}

impl From<ur_base::Memory> for Halt {
    ghost use Rattle.std.specs.Prelude.{◌≡◌};
    ghost use Rattle.ur_emit.specs.declared.slots.Halt.TheVariants as halt;

    ghost from_gives = { λ _ given. given ≡ halt.Memory };

    fn from(_: ur_base::Memory) -> Halt {
        Halt::Memory
    }
}
