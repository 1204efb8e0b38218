//! Entries by recency, and the masks of the transaction under way.
use crate::held::{Held, any_matches, drop_last, drop_masked, get_to_front, is_beyond, put_in};
use lru::LruCache;
use std::alloc::Global;
use std::marker::Model;
use ur_base::{List, Memory, Room, Shared};
use ur_cacheindex::{Index, Mask, Node, NodeId};
use ur_values::{Atom, Value};

/// How a transaction ends.
#[derive(Clone, Copy, Debug, PartialEq, Eq)]
pub enum Settle {
    Commit,
    Rollback,
}

/// Entries, the most recent first, at most as many as the capacity, and the masks so far. Contracts see the list of
/// entries and the list of masks.
#[derive(Drop)]
pub struct Cache {
    alloc: Global,
    capacity: u32,
    held: Held,
    index: Index,
    masks: List<Mask>,
    dropped: Room<(NodeId, Node)>,
}

impl Model for Cache {
    ghost use Rattle.std.specs.Prelude.{◌+◌, ◌<◌, map};
    ghost use Rattle.std.specs.Coded.{codes};
    ghost use Rattle.ur_values.specs.contracts.value.Value as value;
    ghost use Rattle.ur_cacheindex.specs.Matching.{read_mask};
    ghost use Rattle.ur_cache.specs.Entries.{Cached};
    ghost use Rattle.ur_cache.specs.Held.{entries_of, IsKept};

    ghost Value = { Cached };

    ghost coded = { Prim.hlevel (codes, value.the_row.coded) };

    ghost view = { λ c. record { capacity = c.capacity; entries = entries_of c.index c.held.entries; masks = map read_mask c.masks } };

    ghost invariant = { λ c. IsKept c.capacity c.index c.held.entries c.dropped × (c.capacity + 1 < c.held.cap) };
}

impl Cache {
    ghost use Rattle.std.specs.Prelude.{◌≡◌, ◌≤◌, [], false, is_some, IsNone, IfOk, OnOk, OnErr, map, option_map};
    ghost use Rattle.std.specs.Option.{option_copied};
    ghost use Rattle.std.specs.Borrow.{sem};
    ghost use Rattle.ur_values.specs.Atom.{atom_values};
    ghost use Rattle.ur_cacheindex.specs.Matching.{read_mask};
    ghost use Rattle.ur_cache.specs.Entries.{entry_at, entry_size, hit, is_masked, looked_up, masked as with_masks, most_size, put as put_in_front, settled};
    ghost use Rattle.ur_cache.specs.declared.cache.Settle.TheVariants as settle;
    ghost use Rattle.ur_cache.specs.Lends.{ends_as};

    /// No entries, at most this many from now on. Takes room for the entries that are dropped.
    pub fn new(alloc: Global, capacity: u32) -> Result<Cache, Memory>
        ensures { IfOk result (λ c. (c.capacity ≡ capacity) × (c.entries ≡ []) × (c.masks ≡ [])) }
    {
        let held = LruCache::unbounded(alloc)?;
        let dropped = Room::new(alloc, capacity as usize)?;
        Ok(Cache {
            alloc,
            capacity,
            held,
            index: Index::new(alloc),
            masks: List::new(alloc),
            dropped,
        })
    }

    /// The rows of an entry, which goes to the front and may share them; none where a mask matches. Takes no memory.
    pub fn lookup(&mut self, site: u32, key: &[Atom]) -> Option<&Shared<List<Value>>>
        ensures* front { sem 𝓛 (ends_as self.entry (looked_up self.old site (atom_values key.now))) }
        ensures rows { option_copied result ≡ option_map (λ e. e.rows) (hit self.old site (atom_values key.now)) }
    {
        if self.masked(site, key) {
            return None;
        }
        match self.index.find_key(site, key) {
            None => None,
            Some(id) => get_to_front(&mut self.held, &id.number),
        }
    }

    /// Whether there is an entry at this site and key, also where a mask matches. Takes no memory.
    pub fn has(&self, site: u32, key: &[Atom]) -> bool
        ensures { result ≡ is_some (entry_at site (atom_values key.now) self.now.entries) }
    {
        match self.index.find_key(site, key) {
            None => false,
            Some(_) => true,
        }
    }

    /// Keeps an answer at the front, and drops the last entry where there are more than the capacity.
    pub fn put(
        &mut self,
        site: u32,
        key: List<Atom>,
        rows: Shared<List<Value>>,
    ) -> Result<(), Memory>
        requires unmasked { is_masked self.old.masks site (atom_values key) ≡ false }
        requires absent { IsNone (entry_at site (atom_values key) self.old.entries) }
        requires size { entry_size (record { site = site; key = atom_values key; rows = rows }) ≤ most_size }
        ensures ok { OnOk result (self.new ≡ put_in_front self.old (record { site = site; key = atom_values key; rows = rows })) }
        ensures err { OnErr result (self.new ≡ self.old) }
    {
        if self.capacity == 0 {
            return Ok(());
        }
        put_in(&mut self.held, &mut self.index, Node { site, key }, rows)?;
        if is_beyond(&self.held, self.capacity) {
            drop_last(&mut self.held, &mut self.index);
        }
        Ok(())
    }

    /// Whether a mask matches this site and key. Takes no memory.
    pub fn masked(&self, site: u32, key: &[Atom]) -> bool
        ensures { result ≡ is_masked self.now.masks site (atom_values key.now) }
    {
        any_matches(self.masks.as_slice(), site, key)
    }

    /// Adds masks; without memory they are dropped.
    pub fn mask(&mut self, masks: List<Mask>) -> Result<(), Memory>
        ensures ok { OnOk result (self.new ≡ with_masks self.old (map read_mask masks)) }
        ensures err { OnErr result (self.new ≡ self.old) }
    {
        self.masks.append(masks)
    }

    /// Ends a transaction: a commit drops exactly the entries that a mask matches, and both ends drop the masks. Takes
    /// no memory.
    pub fn settle(&mut self, how: Settle)
        ensures { self.new ≡ settled self.old how }
    {
        match how {
            Settle::Commit => self.commit(),
            Settle::Rollback => self.drop_masks(),
        }
    }

    fn commit(&mut self)
        ensures { self.new ≡ settled self.old settle.Commit }
    {
        drop_masked(
            &mut self.held,
            &mut self.index,
            &mut self.dropped,
            self.masks.as_slice(),
        );
        self.drop_masks();
    }

    fn drop_masks(&mut self)
        ensures { self.new ≡ settled self.old settle.Rollback }
    {
        self.masks = List::new(self.alloc);
    }
}
