//! Bodies in an ordered map.
ghost use Rattle.std.specs.Prelude.{◌≡◌, ℕ, IfOk, OnOk, OnErr};
ghost use Rattle.std.specs.FinMap.{empty, insert, remove};
ghost use Rattle.ur_keeper_bodies.specs.Bodies.{body_at, bodies_of};

use std::alloc::Global;
use std::collections::BTreeMap;
use std::marker::Model;
use ur_base::{Bytes, List, Memory};

/// Bodies by the table's number and the row's.
#[derive(Drop)]
pub(crate) struct Held {
    map: BTreeMap<(i64, i64), Bytes>,
}

impl Model for Held {
    ghost use Rattle.std.specs.Prelude.{T};
    ghost use Rattle.std.specs.FinMap.{from_sorted, is_sorted};
    ghost use Rattle.ur_keeper_bodies.specs.Bodies.{BodyMap, place_cmp};
    ghost use Rattle.ur_keeper_bodies.specs.Memory.{map_coded};

    ghost Value = { BodyMap };

    ghost coded = { map_coded };

    ghost view = { λ h. from_sorted h.map.entries };

    ghost invariant = { λ h. T (is_sorted place_cmp h.map.entries) };
}

impl Held {
    /// No bodies. Takes no memory.
    pub(crate) fn new(alloc: Global) -> Held
        ensures { result ≡ empty }
    {
        Held {
            map: BTreeMap::new(alloc),
        }
    }

    /// The bodies of one table, by rising number.
    pub(crate) fn read(&self, alloc: Global, tab: i64) -> Result<List<(i64, Bytes)>, Memory>
        ensures { IfOk result (λ found. found ≡ bodies_of self.now tab) }
    {
        let mut found = List::new(alloc);
        for (place, body) in &self.map {
            if place.0 == tab {
                found.push((place.1, List::from_slice(alloc, body.as_slice())?))?;
            }
        }
        Ok(found)
    }

    /// One body, or None where there is none.
    pub(crate) fn one(&self, alloc: Global, tab: i64, num: i64) -> Result<Option<Bytes>, Memory>
        ensures { IfOk result (λ found. found ≡ body_at self.now tab num) }
    {
        match self.map.get(&(tab, num)) {
            Some(body) => Ok(Some(List::from_slice(alloc, body.as_slice())?)),
            None => Ok(None),
        }
    }

    /// The bodies once more.
    pub(crate) fn copy(&self, alloc: Global) -> Result<Held, Memory>
        ensures { IfOk result (λ copy. copy ≡ self.now) }
    {
        let mut copy = BTreeMap::new(alloc);
        for (place, body) in &self.map {
            copy.insert(*place, List::from_slice(alloc, body.as_slice())?)?;
        }
        Ok(Held { map: copy })
    }

    /// Puts a body at its place, over the one that is there.
    pub(crate) fn put(&mut self, tab: i64, num: i64, body: Bytes) -> Result<(), Memory>
        ensures ok { OnOk result (self.new ≡ insert self.old (tab, num) body) }
        ensures err { OnErr result (self.new ≡ self.old) }
    {
        self.map.insert((tab, num), body)?;
        Ok(())
    }

    /// Takes a body away. Takes no memory.
    pub(crate) fn take(&mut self, tab: i64, num: i64)
        ensures { self.new ≡ remove self.old (tab, num) }
    {
        self.map.remove(&(tab, num));
    }
}
