//! Lists with reserved room.
ghost use Rattle.std.specs.Prelude.{◌≡◌, ◌≤◌, ◌<◌, ◌+◌, ◌-◌, [], ◌∷◌, ◌++◌, length, IfOk};
ghost use Rattle.ur_base.specs.Rooms.{RoomOf};

use crate::{List, Memory};
use std::alloc::Global;
use std::marker::Model;

/// A list with reserved room. Contracts see its items and its spare, the number of items that it still takes without
/// memory.
#[derive(Debug, Drop)]
pub struct Room<T> {
    items: Vec<T>,
    spare: usize,
}

impl<T> Model for Room<T> {
    ghost use Rattle.std.specs.Prelude.{List, ℕ, ◌+◌, ◌≤◌, vec_len, vec_capacity};
    ghost use Rattle.ur_base.specs.Rooms.{RoomOf, room_code};

    ghost Value = { RoomOf T };

    ghost coded = { room_code T.code };

    ghost view = { λ room. record { items = room.items.items; spare = room.spare } };

    ghost invariant = { λ room. vec_len room.items + room.spare ≤ vec_capacity room.items };
}

impl<T> Room<T> {
    /// No items, and room for this many at least.
    pub fn new(alloc: Global, room: usize) -> Result<Room<T>, Memory>
        ensures empty { IfOk result (λ made. made.items ≡ []) }
        ensures room { IfOk result (λ made. room ≤ made.spare) }
    {
        Ok(Room {
            items: Vec::with_capacity(alloc, room)?,
            spare: room,
        })
    }

    /// Adds an item last. Takes no memory.
    pub fn push(&mut self, item: T)
        requires { 0 < self.old.spare }
        ensures { self.new ≡ record { items = self.old.items ++ item ∷ []; spare = self.old.spare - 1 } }
    {
        self.items.push_reserved(item);
        self.spare -= 1;
    }

    /// Takes no memory.
    pub fn items(&self) -> &[T]
        ensures { result.now ≡ self.now.items }
    {
        self.items.as_slice()
    }

    /// How many items it still takes.
    pub fn spare(&self) -> usize
        ensures { result ≡ self.now.spare }
    {
        self.spare
    }

    /// The items as a list. Takes no memory.
    pub fn list(self) -> List<T>
        ensures { result ≡ self.items }
    {
        let Room { items, spare: _ } = self;
        List::from_vec(items)
    }
}

impl<T: Drop> Room<T> {
    /// Drops the items, whose room is spare again. Takes no memory.
    pub fn clear(&mut self)
        ensures { self.new ≡ record { items = []; spare = self.old.spare + length self.old.items } }
    {
        let freed = self.items.len();
        self.items.clear();
        self.spare += freed;
    }
}
