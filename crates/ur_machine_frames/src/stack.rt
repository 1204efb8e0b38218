//! A stack, which contracts see as the list of its items, the nearest first.
ghost use Rattle.std.specs.Prelude.{◌≡◌, ◌≤◌, List, [], ◌∷◌, ◌++◌, length, drop, reverse, slice_get, slice_set, Some, ◌<◌, MatchOption, OnOk, OnErr};
ghost use Rattle.std.specs.Option.{option_copied};

use std::alloc::Global;
use std::marker::Model;
use std::mem;
use ur_base::{List, Memory};

/// A stack on a vector, its nearest item last there.
#[derive(Drop)]
pub struct Stack<T> {
    items: Vec<T>,
}

impl<T> Model for Stack<T> {
    ghost use Rattle.std.specs.Prelude.{List, reverse};
    ghost use Rattle.std.specs.Coded.{coded_list};

    ghost Value = { List T };

    ghost coded = { coded_list T.code };

    ghost view = { λ it. reverse it.items.items };
}

impl<T> Stack<T> {
    pub fn new(alloc: Global) -> Stack<T>
        ensures { result ≡ [] }
    {
        Stack {
            items: Vec::new(alloc),
        }
    }

    /// The items as they lie, the nearest last.
    pub fn as_slice(&self) -> &[T]
        ensures { reverse result.now ≡ self.now }
    {
        self.items.as_slice()
    }

    /// The item at a place, counted from the nearest.
    pub fn get(&self, place: usize) -> Option<&T>
        ensures { option_copied result ≡ slice_get self.now place }
    {
        let items = self.items.as_slice();
        if place < items.len() {
            items.get(items.len() - 1 - place)
        } else {
            None
        }
    }

    pub fn pop(&mut self) -> Option<T>
        ensures { MatchOption result ((self.old ≡ []) × (self.new ≡ [])) (λ x. self.old ≡ x ∷ self.new) }
    {
        self.items.pop()
    }
}

impl<T> Stack<T> {
    /// Puts another item at a place, counted from the nearest, and gives the one that stood there.
    pub fn replace(&mut self, place: usize, item: T) -> T
        requires { place < length self.old }
        ensures item { slice_get self.old place ≡ Some result }
        ensures others { self.new ≡ slice_set self.old place item }
    {
        let index = self.items.len() - 1 - place;
        mem::replace(&mut self.items[index], item)
    }
}

impl<T: Drop> Stack<T> {
    pub fn push(&mut self, item: T) -> Result<(), Memory>
        ensures ok { OnOk result (self.new ≡ item ∷ self.old) }
        ensures err { OnErr result (self.new ≡ self.old) }
    {
        self.items.push(item)?;
        Ok(())
    }

    /// Puts the items on top, the first of them nearest. Without memory some are left out, the first of them among these.
    pub fn push_all(&mut self, items: List<T>) -> Result<(), Memory>
        ensures ok { OnOk result (self.new ≡ items ++ self.old) }
        ensures err { OnErr result ((left : List T) × (left ++ self.new ≡ items ++ self.old)) }
    {
        let mut items = items;
        while let Some(item) = items.pop() {
            self.push(item)?;
        }
        Ok(())
    }

    /// Lets all items go.
    pub fn clear(&mut self)
        ensures { self.new ≡ [] }
    {
        self.items.clear();
    }

    /// Lets the nearest `count` items go.
    pub fn drop_nearest(&mut self, count: usize)
        ensures { self.new ≡ drop count self.old }
    {
        for _ in 0..count {
            let _ = self.pop();
        }
    }
}
