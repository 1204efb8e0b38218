//! Items by number.
ghost use Rattle.std.specs.Prelude.{◌≡◌, ◌↔◌, ◌≤◌, IsTrue, IsSome, Some, None, MatchResult};
ghost use Rattle.std.specs.Borrow.{sem};
ghost use Rattle.std.specs.FinMap.{empty, get, insert, remove, len as items_len};
ghost use Rattle.ur_base.specs.Counts.{next_count};
ghost use Rattle.ur_cacheindex.specs.Lends.{lends_item};

use slab::Slab;
use std::alloc::Global;
use std::marker::Model;
use ur_base::Steps;

/// Items by number. Contracts see a finite map from numbers to items. None of its calls but `insert` takes memory.
#[derive(Drop)]
pub struct Counted<T> {
    items: Slab<T>,
}

impl<T> Model for Counted<T> {
    ghost use Rattle.ur_cacheindex.specs.Items.{Items};
    ghost use Rattle.std.specs.Coded.{coded_ℕ};
    ghost use Rattle.std.specs.FinMap.{code};
    ghost use Rattle.ur_cacheindex.specs.Items.{items_of};

    ghost Value = { Items T };

    ghost coded = { code coded_ℕ T.code };

    ghost view = { λ counted. items_of counted.items };
}

impl<T> Counted<T> {
    /// No items. Takes no memory.
    pub fn new(alloc: Global) -> Counted<T>
        ensures { result ≡ empty }
    {
        Counted {
            items: Slab::new(alloc),
        }
    }

    /// How many items there are.
    pub fn len(&self) -> usize
        ensures { result ≡ items_len self.now }
    {
        self.items.len()
    }

    /// Whether an item has this number; no step.
    pub fn has(&self, number: usize) -> bool
        ensures { IsTrue result ↔ IsSome (get self.now number) }
    {
        self.items.contains(number)
    }

    /// A number that each item's number is below; no step.
    pub fn bound(&self) -> usize
        ensures { (n : _) → result ≤ n → get self.now n ≡ None }
    {
        self.items.capacity()
    }

    /// Puts an item in under a number that no item has, or hands it back for want of memory.
    pub fn insert(&mut self, item: T) -> Result<usize, T>
        ensures { MatchResult result (λ n. (get self.old n ≡ None) × (self.new ≡ insert self.old n item)) (λ back. (back ≡ item) × (self.new ≡ self.old)) }
    {
        if self.items.reserve(1).is_err() {
            return Err(item);
        }
        Ok(self.items.insert_reserved(item))
    }

    /// The item with this number; a step.
    pub fn at(&self, number: usize, steps: &mut Steps) -> &T
        requires { IsSome (get self.now number) }
        ensures item { get self.now number ≡ Some result.now }
        ensures step { steps.new ≡ next_count steps.old }
    {
        steps.tick();
        &self.items[number]
    }

    /// The item with this number, which may be changed and keeps the number; a step.
    pub fn at_mut(&mut self, number: usize, steps: &mut Steps) -> &mut T
        requires { IsSome (get self.old number) }
        ensures* left { sem 𝓛 (lends_item T.row self.entry number result) }
        ensures item { get self.old number ≡ Some result.now }
        ensures step { steps.new ≡ next_count steps.old }
    {
        steps.tick();
        &mut self.items[number]
    }

    /// Takes the item with this number out; a step.
    pub fn take(&mut self, number: usize, steps: &mut Steps) -> T
        requires { IsSome (get self.old number) }
        ensures item { get self.old number ≡ Some result }
        ensures left { self.new ≡ remove self.old number }
        ensures step { steps.new ≡ next_count steps.old }
    {
        steps.tick();
        self.items.remove(number)
    }
}
