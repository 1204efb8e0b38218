//! Bytes given into reserved room.
ghost use Rattle.std.specs.Prelude.{◌≡◌, ◌≤◌, ◌-◌, ◌++◌, ◌↔◌, [], take, length, min, IfOk, IsTrue};
ghost use Rattle.ur_io.specs.Memory.{IsFull};

use std::alloc::Global;
use std::marker::Model;
use ur_base::{Memory, Room};

/// The bytes given, and how many more are taken.
#[derive(Debug, Drop)]
pub(crate) struct Space {
    given: Room<u8>,
    left: usize,
}

impl Model for Space {
    ghost use Rattle.std.specs.Prelude.{◌≤◌};
    ghost use Rattle.ur_io.specs.Memory.{SpaceState};

    ghost Value = { SpaceState };

    ghost view = { λ s. record { given = s.given.items; room = s.left } };

    ghost invariant = { λ s. s.left ≤ s.given.spare };
}

impl Space {
    /// Nothing given, and room for this many bytes.
    pub(crate) fn new(alloc: Global, room: usize) -> Result<Space, Memory>
        ensures { IfOk result (λ made. made ≡ record { given = []; room = room }) }
    {
        Ok(Space {
            given: Room::new(alloc, room)?,
            left: room,
        })
    }

    pub(crate) fn given(&self) -> &[u8]
        ensures { result.now ≡ self.now.given }
    {
        self.given.items()
    }

    /// Whether no byte of the piece is taken, which is not empty.
    pub(crate) fn is_full(&self, piece: &[u8]) -> bool
        ensures { IsTrue result ↔ IsFull self.now.room piece.now }
    {
        self.left == 0 && !piece.is_empty()
    }

    /// Takes as many bytes of the piece's front as the room holds, and answers how many.
    pub(crate) fn put(&mut self, piece: &[u8]) -> usize
        ensures count { result ≡ min (length piece.now) self.old.room }
        ensures given { self.new ≡ record { given = self.old.given ++ take result piece.now; room = self.old.room - result } }
    {
        let count = piece.len().min(self.left);
        push_all(&mut self.given, &piece[..count]);
        self.left -= count;
        count
    }
}

fn push_all(room: &mut Room<u8>, bytes: &[u8])
    requires { length bytes.now ≤ room.old.spare }
    ensures { room.new ≡ record { items = room.old.items ++ bytes.now; spare = room.old.spare - length bytes.now } }
{
    for byte in bytes {
        room.push(*byte);
    }
}
