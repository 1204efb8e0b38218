//! Why an operation on tables gives no value.
use ur_base::Memory;
use ur_values::Value;

/// A program error with the body that is shown, a spent budget, a fault of the keeper, want of memory after which the
/// keeper has given the transaction up (`Undone`), or other want of memory.
#[derive(Drop)]
pub enum TurnStop {
    Failed(Value),
    Spent,
    Keeper,
    Undone,
    Memory,
}

impl From<Memory> for TurnStop {
    ghost use Rattle.std.specs.Prelude.{◌≡◌};
    ghost use Rattle.ur_machine.specs.declared.stop.TurnStop.TheVariants as stop;

    ghost from_gives = { λ _ given. given ≡ stop.Memory };

    fn from(_: Memory) -> TurnStop {
        TurnStop::Memory
    }
}
