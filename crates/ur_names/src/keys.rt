//! Keys one behind the other, and where each stands last.
ghost use Rattle.std.specs.Prelude.{◌≡◌, ◌-◌, [], ◌∷◌, ◌++◌, length, take, drop, OnOk, unwrap_or, Some, IsSome};
ghost use Rattle.std.specs.List.{list_any};
ghost use Rattle.std.specs.BTreeMap.{get, Updates};
ghost use Rattle.ur_names.specs.Indexed.{spot_cmp, same_spot, keys_of, IsIndexed};

use crate::Sort;
use crate::spots::{Spot, into_spot, spot_of};
use std::alloc::Global;
use std::collections::BTreeMap;
use std::marker::Model;
use ur_base::{List, Memory, Text};

/// A name of a sort, with its module where it is declared.
#[derive(Drop)]
pub struct Key {
    pub sort: Sort,
    pub home: Option<Text>,
    pub name: Text,
}

/// A key, with the number of keys up to the last one before it that is the same, or 0 where none is.
#[derive(Drop)]
pub(crate) struct Entry {
    pub key: Key,
    pub before: usize,
}

/// Keys in the order in which they came. `ends` has for each how many stand up to the last that is the same, so that
/// a look-up needs no walk. Contracts see the list of the keys.
#[derive(Drop)]
pub struct Keys {
    alloc: Global,
    entries: List<Entry>,
    ends: BTreeMap<Spot, usize>,
}

impl Model for Keys {
    ghost use Rattle.std.specs.Prelude.{List};
    ghost use Rattle.ur_names.specs.declared.keys.Key.{Key};
    ghost use Rattle.ur_names.specs.Indexed.{keys_of, IsIndexed};

    ghost Value = { List Key };

    ghost view = { λ keys. keys_of keys.entries };

    ghost invariant = { λ keys. IsIndexed keys.entries keys.ends };
}

impl Keys {
    /// No keys. Takes no memory.
    pub fn new(alloc: Global) -> Keys
        ensures { result ≡ [] }
    {
        Keys {
            alloc,
            entries: List::new(alloc),
            ends: BTreeMap::new(alloc),
        }
    }

    pub fn len(&self) -> usize
        ensures { result ≡ length self.now }
    {
        self.entries.len()
    }

    /// Whether the key stands among the keys. Takes no memory.
    pub(crate) fn holds(&self, spot: &Spot) -> bool
        ensures { result ≡ list_any (same_spot spot.now) self.now }
    {
        0 < end(&self.ends, spot)
    }

    /// Whether the key stands behind the first ones. Takes no memory.
    pub(crate) fn holds_behind(&self, spot: &Spot, from: usize) -> bool
        ensures { result ≡ list_any (same_spot spot.now) (drop from self.now) }
    {
        from < end(&self.ends, spot)
    }

    /// Puts a key behind the others.
    pub fn push(&mut self, key: Key) -> Result<(), Memory>
        ensures ok { OnOk result (self.new ≡ self.old ++ key ∷ []) }
    {
        add(self.alloc, &mut self.entries, &mut self.ends, key)
    }

    /// Takes the last key away, where there is one. Takes no memory.
    fn pop(&mut self)
        ensures { self.new ≡ take (length self.old - 1) self.old }
    {
        take_last(&mut self.entries, &mut self.ends);
    }
}

/// How many keys stand up to the last that is the same as this one.
fn end(ends: &BTreeMap<Spot, usize>, spot: &Spot) -> usize
    ensures { result ≡ unwrap_or (get spot_cmp ends.now spot.now) 0 }
{
    match ends.get(spot) {
        Some(end) => *end,
        None => 0,
    }
}

fn add(
    alloc: Global,
    entries: &mut List<Entry>,
    ends: &mut BTreeMap<Spot, usize>,
    key: Key,
) -> Result<(), Memory>
    requires { IsIndexed entries.old ends.old }
    ensures ok { OnOk result (keys_of entries.new ≡ keys_of entries.old ++ key ∷ []) }
    ensures indexed { IsIndexed entries.new ends.new }
{
    let spot = spot_of(alloc, &key)?;
    let before = end(ends, &spot);
    entries.push(Entry { key, before })?;
    let count = entries.len();
    match ends.insert(spot, count) {
        Ok(_old) => Ok(()),
        Err(_refused) => Err(taken_back(entries)),
    }
}

/// Takes the last entry away for want of memory.
fn taken_back(entries: &mut List<Entry>) -> Memory
    ensures { entries.new ≡ take (length entries.old - 1) entries.old }
{
    match entries.pop() {
        Some(_entry) => Memory,
        None => Memory,
    }
}

fn take_last(entries: &mut List<Entry>, ends: &mut BTreeMap<Spot, usize>)
    requires { IsIndexed entries.old ends.old }
    ensures taken { keys_of entries.new ≡ take (length (keys_of entries.old) - 1) (keys_of entries.old) }
    ensures indexed { IsIndexed entries.new ends.new }
{
    match entries.pop() {
        None => {}
        Some(entry) => {
            let Entry { key, before } = entry;
            set(ends, into_spot(key), before);
        }
    }
}

/// Writes the number of a spot that is there.
fn set(ends: &mut BTreeMap<Spot, usize>, spot: Spot, count: usize)
    requires { IsSome (get spot_cmp ends.old spot) }
    ensures { Updates spot_cmp ends.old ends.new spot (Some count) }
{
    match ends.insert(spot, count) {
        Ok(_) => {}
        Err(_) => {}
    }
}

/// Takes away what stands from a number on. Takes no memory.
#[tactic(auto, using(crate::proofs::Indexing::cut_step))]
pub fn cut(keys: &mut Keys, count: usize)
    ensures { keys.new ≡ take count keys.old }
{
    while keys.len() > count {
        keys.pop();
    }
}
