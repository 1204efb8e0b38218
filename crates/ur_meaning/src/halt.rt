//! Why unfolding ends, and the room that a node takes.
ghost use Rattle.std.specs.Prelude.{◌≡◌};
ghost use Rattle.ur_meaning.specs.Entering.{Enters, EntersStuck};

use ur_base::Memory;

/// Why nothing is unfolded: too many nodes, too deep a nesting, an instance that is one too many, by the number that names
/// it, an instance that is too large by itself, or want of memory.
#[derive(Drop)]
pub enum Halt {
    Nodes,
    Nesting,
    Instances(u32),
    Large,
    Memory,
}

impl From<Memory> for Halt {
    ghost use Rattle.ur_meaning.specs.declared.halt.Halt.TheVariants as halt;

    ghost from_gives = { λ _ given. given ≡ halt.Memory };

    fn from(_want: Memory) -> Halt {
        Halt::Memory
    }
}

/// A node is made: there is one less to make, and one level less is left within it.
pub fn enter(room: &mut u32, levels: u32) -> Result<u32, Halt>
    ensures { Enters room.old levels room.new result }
{
    if levels == 0 {
        return Err(Halt::Nesting);
    }
    if *room == 0 {
        return Err(Halt::Nodes);
    }
    *room -= 1;
    Ok(levels - 1)
}

/// The term of what has no form is made, which has four nodes on two levels.
pub fn enter_stuck(room: &mut u32, levels: u32) -> Result<(), Halt>
    ensures { EntersStuck room.old levels room.new result }
{
    if levels < 2 {
        return Err(Halt::Nesting);
    }
    if *room < 4 {
        return Err(Halt::Nodes);
    }
    *room -= 4;
    Ok(())
}
