//! Lists, boxes, names and rooms.
use std::alloc::Global;
use ur_base::{Boxed, List, Memory, Names, Room};

fn list_of(alloc: Global, numbers: &[u32]) -> Result<List<u32>, Memory> {
    List::from_slice(alloc, numbers)
}

/// Whether a list that grows in each way holds what was put in.
fn grows(alloc: Global) -> Result<bool, Memory> {
    let mut list = list_of(alloc, &[1])?;
    list.push(2)?;
    list.extend_from_slice(&[3])?;
    let more = list_of(alloc, &[4, 5])?;
    list.append(more)?;
    let whole = list_of(alloc, &[1, 2, 3, 4, 5])?;
    Ok(list == whole)
}

fn holds(alloc: Global, number: u32) -> Result<bool, Memory> {
    let boxed = Boxed::new(alloc, number)?;
    Ok(boxed.into_inner() == number)
}

/// Whether a text has one number however often it is asked for, and another text another one.
fn are_numbered(alloc: Global, text: &str, other: &str) -> Result<bool, Memory> {
    let mut names = Names::new(alloc);
    let first = names.number(text)?;
    let second = names.number(other)?;
    let again = names.number(text)?;
    Ok(first == again && first != second)
}

/// Whether a room of this size is taken.
fn has_room(alloc: Global, size: usize) -> Result<bool, Memory> {
    let room: Room<u8> = Room::new(alloc, size)?;
    Ok(room.spare() >= size)
}

#[test]
fn memory_is_taken(rt: HostRuntime) -> Result<(), Memory> {
    assert!(rt; grows(rt.alloc())?);
    assert!(rt; holds(rt.alloc(), 7)?);
    assert!(rt; are_numbered(rt.alloc(), "note", "Id")?);
    assert!(rt; has_room(rt.alloc(), 2)?);
    Ok(())
}
