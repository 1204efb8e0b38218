//! Rows by the numbers of the nodes that they belong to, and the nodes.
ghost use Rattle.std.specs.Prelude.{◌≡◌, ◌≤◌, ◌<◌, ◌+◌, ◌-◌, not, nat_le, map, [], OnOk, OnErr, length, take, option_copied};
ghost use Rattle.std.specs.Borrow.{sem};
ghost use Rattle.std.specs.FinMap.{remove};
ghost use Rattle.std.specs.Map.{lookup};
ghost use Rattle.lru.specs.LruCache.{last_entry, promoted};
ghost use Rattle.lru.specs.CacheLends.{ends_as};
ghost use Rattle.ur_values.specs.Atom.{atom_values};
ghost use Rattle.ur_cacheindex.specs.Matching.{matches, read_mask};
ghost use Rattle.ur_cache.specs.Entries.{is_masked};
ghost use Rattle.ur_cache.specs.Held.{IsHeld, PutsIn, DropsLast, without_all, Keeps, DropsSoFar};

use lru::LruCache;
use std::alloc::Allocator;
use std::hash::{BuildHasher, Hash};
use ur_base::{List, Memory, Room, Shared, Steps};
use ur_cacheindex::{Index, Mask, Node, NodeId};
use ur_values::{Atom, Value};

/// Rows by the number of a node, the most recent first.
pub(crate) type Held = LruCache<usize, Shared<List<Value>>>;

/// Puts a node in with its rows.
pub(crate) fn put_in(
    held: &mut Held,
    index: &mut Index,
    node: Node,
    rows: Shared<List<Value>>,
) -> Result<(), Memory>
    requires { length held.old.entries + 1 < held.old.cap }
    ensures ok { OnOk result (PutsIn node rows index.old held.old.entries index.new held.new.entries) }
    ensures err { OnErr result ((index.new ≡ index.old) × (held.new.entries ≡ held.old.entries)) }
    ensures cap { held.new.cap ≡ held.old.cap }
{
    let id = match index.insert(node) {
        Ok(id) => id,
        Err(_) => return Err(Memory),
    };
    match held.put(id.number, rows) {
        Ok(_) => Ok(()),
        Err(_) => {
            unlink(index, id.number);
            Err(Memory)
        }
    }
}

/// Takes a node out, where there is one. Takes no memory.
fn unlink(index: &mut Index, number: usize)
    ensures { index.new ≡ remove index.old number }
{
    let id = NodeId { number };
    if index.has(id) {
        index.unlink(id);
    }
}

/// Drops the last rows and their node, where there are any. Takes no memory.
pub(crate) fn drop_last(held: &mut Held, index: &mut Index)
    requires { 0 < length held.old.entries }
    ensures drops { DropsLast index.old held.old.entries index.new held.new.entries }
    ensures cap { held.new.cap ≡ held.old.cap }
{
    match pop_last(held) {
        None => {}
        Some((number, _rows)) => unlink(index, number),
    }
}

/// The value of a key, which goes to the front. Takes no memory.
pub(crate) fn get_to_front<'a, K: Eq + Hash, V, S: BuildHasher, A: Allocator>(
    held: &'a mut LruCache<K, V, S, A>,
    key: &K,
) -> Option<&'a V>
    ensures* front { sem 𝓛 (ends_as K.row V.row S.row A.row S.Hasher.row K.Hash S.BuildHasher S.Hasher.Hasher A.Allocator held.entry (promoted (K.eq key.now) held.old.entries)) }
    ensures value { option_copied result ≡ lookup (K.eq key.now) held.old.entries }
{
    held.get(key)
}

/// Takes the last rows out, where there are any. Takes no memory.
fn pop_last(held: &mut Held) -> Option<(usize, Shared<List<Value>>)>
    ensures rows { result ≡ last_entry held.old.entries }
    ensures left { held.new.entries ≡ take (length held.old.entries - 1) held.old.entries }
    ensures cap { held.new.cap ≡ held.old.cap }
{
    held.pop_lru()
}

/// Whether there are more entries than this. Takes no memory.
pub(crate) fn is_beyond(held: &Held, capacity: u32) -> bool
    ensures { result ≡ not (nat_le (length held.now.entries) capacity) }
{
    held.len() > capacity as usize
}

/// Drops exactly the entries that a mask matches. Takes no memory.
pub(crate) fn drop_masked(
    held: &mut Held,
    index: &mut Index,
    dropped: &mut Room<(NodeId, Node)>,
    masks: &[Mask],
)
    requires held { IsHeld index.old held.old.entries }
    requires room { length held.old.entries ≤ dropped.old.spare }
    requires empty { length dropped.old.items ≡ 0 }
    ensures drops { DropsSoFar masks.now [] index.old held.old.entries dropped.old index.new held.new.entries dropped.new }
    ensures cap { held.new.cap ≡ held.old.cap }
{
    for mask in masks {
        drop_matching(held, index, dropped, mask);
    }
}

/// Drops exactly the entries that the mask matches.
fn drop_matching(
    held: &mut Held,
    index: &mut Index,
    dropped: &mut Room<(NodeId, Node)>,
    mask: &Mask,
)
    requires held { IsHeld index.old held.old.entries }
    requires room { length held.old.entries ≤ dropped.old.spare }
    requires empty { length dropped.old.items ≡ 0 }
    ensures keeps { Keeps (λ e. not (matches (read_mask mask.now) e.site e.key)) index.old held.old.entries dropped.old index.new held.new.entries dropped.new }
    ensures cap { held.new.cap ≡ held.old.cap }
{
    let mut steps = Steps::new();
    index.drop_matching(mask, dropped, &mut steps);
    pop_all(held, dropped.items());
    dropped.clear();
}

fn pop_all(held: &mut Held, dropped: &[(NodeId, Node)])
    ensures left { held.new.entries ≡ without_all dropped.now held.old.entries }
    ensures cap { held.new.cap ≡ held.old.cap }
{
    for entry in dropped {
        held.pop(&entry.0.number);
    }
}

/// Whether one of the masks matches this site and key. Takes no memory.
pub(crate) fn any_matches(masks: &[Mask], site: u32, key: &[Atom]) -> bool
    ensures { result ≡ is_masked (map read_mask masks.now) site (atom_values key.now) }
{
    for mask in masks {
        if mask.matches(site, key) {
            return true;
        }
    }
    false
}
