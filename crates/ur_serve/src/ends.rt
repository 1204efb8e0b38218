//! How the server's calls end.
use ur_base::Memory;
use ur_values::{Call, Schema};

/// Why no server was made: the store has another schema, the keeper failed, or memory is wanting.
#[derive(Drop)]
pub enum NewEnd {
    Differs(Schema),
    Keeper,
    Memory,
}

impl From<Memory> for NewEnd {
    ghost use Rattle.std.specs.Prelude.{◌≡◌};
    ghost use Rattle.ur_serve.specs.declared.ends.NewEnd.TheVariants as ends;

    ghost from_gives = { λ _ end. end ≡ ends.Memory };

    fn from(_: Memory) -> NewEnd {
        NewEnd::Memory
    }
}

/// What is done with a request: its call is handled, or it is turned away with a status and, for 405, the methods that its
/// route answers.
#[derive(Drop)]
pub enum Routed {
    Handled(Call),
    Away(u16, &'static str),
}
