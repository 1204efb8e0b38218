//! Where keys stand in the order of the index.
ghost use Rattle.std.specs.Prelude.{◌≡◌, Some, None, IfOk};
ghost use Rattle.ur_names.specs.Sorts.{sort_number};
ghost use Rattle.ur_names.specs.Indexed.{spot_of, spot};

use crate::Sort;
use crate::keys::Key;
use std::alloc::Global;
use ur_base::{List, Memory, Text};

/// A key with its sort as a number. Spots are in the order of the sorts, then of the modules, then of the names.
#[derive(Drop, PartialEq, Eq, PartialOrd, Ord)]
pub(crate) struct Spot {
    pub sort: u8,
    pub home: Option<Text>,
    pub name: Text,
}

fn sort_number(sort: Sort) -> u8
    ensures { result ≡ sort_number sort }
{
    match sort {
        Sort::Con => 0,
        Sort::Value => 1,
        Sort::Constructor => 2,
        Sort::Table => 3,
        Sort::Sequence => 4,
        Sort::Cookie => 5,
    }
}

/// Where a local name stands.
pub(crate) fn local_spot(alloc: Global, sort: Sort, x: &[u8]) -> Result<Spot, Memory>
    ensures { IfOk result (λ s. s ≡ spot sort None x.now) }
{
    let name = List::from_slice(alloc, x)?;
    Ok(Spot {
        sort: sort_number(sort),
        home: None,
        name,
    })
}

/// Where a name that a module declared stands.
pub(crate) fn member_spot(alloc: Global, sort: Sort, m: &[u8], x: &[u8]) -> Result<Spot, Memory>
    ensures { IfOk result (λ s. s ≡ spot sort (Some m.now) x.now) }
{
    let home = List::from_slice(alloc, m)?;
    let name = List::from_slice(alloc, x)?;
    Ok(Spot {
        sort: sort_number(sort),
        home: Some(home),
        name,
    })
}

/// Where a key stands, beside the key.
pub(crate) fn spot_of(alloc: Global, key: &Key) -> Result<Spot, Memory>
    ensures { IfOk result (λ s. s ≡ spot_of key.now) }
{
    match &key.home {
        None => local_spot(alloc, key.sort, key.name.as_slice()),
        Some(m) => member_spot(alloc, key.sort, m.as_slice(), key.name.as_slice()),
    }
}

/// Where a key stands, in place of the key. Takes no memory.
pub(crate) fn into_spot(key: Key) -> Spot
    ensures { result ≡ spot_of key }
{
    let Key { sort, home, name } = key;
    Spot {
        sort: sort_number(sort),
        home,
        name,
    }
}
