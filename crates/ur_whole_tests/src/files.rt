//! Files in memory.
use std::alloc::Global;
use ur_base::{Bytes, List, Memory};
use ur_io::MemoryShelf;

/// These files, each with its name.
pub(crate) fn shelf(alloc: Global, named: &[(&str, &[u8])]) -> Result<MemoryShelf, Memory> {
    let mut files: List<(Bytes, Bytes)> = List::new(alloc);
    for (name, text) in named {
        let text = List::from_slice(alloc, text)?;
        let name = List::from_slice(alloc, name.as_bytes())?;
        files.push((name, text))?;
    }
    Ok(MemoryShelf::new(alloc, files, List::new(alloc)))
}
