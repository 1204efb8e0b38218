use std::alloc::Global;
use ur_base::{List, Memory, Shared};
use ur_cache::{Cache, Settle, fits};
use ur_cacheindex::Mask;
use ur_values::{Atom, Value};

fn key_of(alloc: Global, first: i64, second: i64) -> Result<List<Atom>, Memory> {
    let mut atoms = List::new(alloc);
    atoms.push(Atom::Int(first))?;
    atoms.push(Atom::Int(second))?;
    Ok(atoms)
}

fn rows_of(alloc: Global, row: i64) -> Result<List<Value>, Memory> {
    let mut rows = List::new(alloc);
    rows.push(Value::Int(row))?;
    Ok(rows)
}

fn masks_of(
    alloc: Global,
    site: u32,
    first: Option<i64>,
    second: Option<i64>,
) -> Result<List<Mask>, Memory> {
    let mut keys = List::new(alloc);
    keys.push(first.map(|n| Atom::Int(n)))?;
    keys.push(second.map(|n| Atom::Int(n)))?;
    let mut masks = List::new(alloc);
    masks.push(Mask { site, keys })?;
    Ok(masks)
}

/// Keeps an answer where it may be kept: whether it was.
fn keep(
    alloc: Global,
    cache: &mut Cache,
    site: u32,
    key: List<Atom>,
    rows: List<Value>,
) -> Result<bool, Memory> {
    if cache.masked(site, key.as_slice()) {
        return Ok(false);
    }
    if cache.has(site, key.as_slice()) {
        return Ok(false);
    }
    if !fits(key.as_slice(), rows.as_slice()) {
        return Ok(false);
    }
    let rows = Shared::new(alloc, rows)?;
    cache.put(site, key, rows)?;
    Ok(true)
}

/// Asks for the key (n, n) of site 1 and keeps the answer: whether it was there.
fn ask(alloc: Global, cache: &mut Cache, n: i64) -> Result<bool, Memory> {
    let key = key_of(alloc, n, n)?;
    if cache.lookup(1, key.as_slice()).is_some() {
        return Ok(true);
    }
    keep(alloc, cache, 1, key, rows_of(alloc, n)?)?;
    Ok(false)
}

/// How many of these questions, one after another, are answered from the cache.
fn hits(alloc: Global, capacity: u32, questions: &[i64]) -> Result<u32, Memory> {
    let mut cache = Cache::new(alloc, capacity)?;
    let mut hits: u32 = 0;
    for n in questions {
        if ask(alloc, &mut cache, *n)? {
            hits = hits.wrapping_add(1);
        }
    }
    Ok(hits)
}

#[test]
fn the_last_asked_stay(rt: HostRuntime) -> Result<(), Memory> {
    let alloc = rt.alloc();
    let questions = [1, 2, 1, 3, 1, 2, 3].as_slice();
    assert!(rt; hits(alloc, 0, questions)? == 0);
    assert!(rt; hits(alloc, 1, questions)? == 0);
    assert!(rt; hits(alloc, 2, questions)? == 2);
    assert!(rt; hits(alloc, 3, questions)? == 4);
    Ok(())
}

/// Whether (2, 2) and (3, 3) are there after a mask of all keys (2, any) that ends this way, the question for (2, 2)
/// under the mask being asked before the end.
fn masked(alloc: Global, how: Settle) -> Result<(bool, bool), Memory> {
    let mut cache = Cache::new(alloc, 8)?;
    ask(alloc, &mut cache, 2)?;
    ask(alloc, &mut cache, 3)?;
    cache.mask(masks_of(alloc, 1, Some(2), None)?)?;
    let under = ask(alloc, &mut cache, 2)?;
    cache.settle(how);
    let second = ask(alloc, &mut cache, 2)?;
    let third = ask(alloc, &mut cache, 3)?;
    Ok((second && !under, third))
}

#[test]
fn a_commit_drops_and_a_rollback_keeps(rt: HostRuntime) -> Result<(), Memory> {
    let alloc = rt.alloc();
    assert!(rt; masked(alloc, Settle::Commit)? == (false, true));
    assert!(rt; masked(alloc, Settle::Rollback)? == (true, true));
    Ok(())
}
