use std::alloc::Global;
use ur_base::{List, Memory, Room, Steps};
use ur_cacheindex::{Index, Mask, Node};
use ur_values::Atom;

fn key_of(alloc: Global, first: i64, second: i64) -> Result<List<Atom>, Memory> {
    let mut atoms = List::new(alloc);
    atoms.push(Atom::Int(first))?;
    atoms.push(Atom::Int(second))?;
    Ok(atoms)
}

fn mask_of(alloc: Global, first: Option<i64>, second: Option<i64>) -> Result<Mask, Memory> {
    let mut keys = List::new(alloc);
    keys.push(first.map(|n| Atom::Int(n)))?;
    keys.push(second.map(|n| Atom::Int(n)))?;
    Ok(Mask { site: 1, keys })
}

/// 1,000 nodes of site 1 with the keys (i mod 10, i).
fn thousand(alloc: Global) -> Result<Index, Memory> {
    let mut index = Index::new(alloc);
    for i in 0..1000i64 {
        let key = key_of(alloc, i % 10, i)?;
        match index.insert(Node { site: 1, key }) {
            Ok(_) => {}
            Err(_) => return Err(Memory),
        }
    }
    Ok(index)
}

/// Whether a mask drops so many nodes of the thousand, in at most so many steps.
fn drops(
    alloc: Global,
    first: Option<i64>,
    second: Option<i64>,
    nodes: usize,
    most: u64,
) -> Result<bool, Memory> {
    let mut index = thousand(alloc)?;
    let mask = mask_of(alloc, first, second)?;
    let mut room = Room::new(alloc, index.len())?;
    let mut steps = Steps::new();
    index.drop_matching(&mask, &mut room, &mut steps);
    Ok(room.items().len() == nodes && steps.count() <= most)
}

#[test]
fn a_mask_walks_the_shortest_list(rt: HostRuntime) -> Result<(), Memory> {
    let alloc = rt.alloc();
    assert!(rt; drops(alloc, None, Some(7), 1, 8)?);
    assert!(rt; drops(alloc, Some(7), None, 100, 800)?);
    assert!(rt; drops(alloc, Some(11), None, 0, 0)?);
    Ok(())
}
