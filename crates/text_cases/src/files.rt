//! Files of projects.
use case_files::{Printer, plain};
use std::alloc::Global;
use ur_base::{Bytes, Stop};
use ur_load::{FILE_LIMIT, read_project};

fn put_modules(alloc: Global, bytes: &Bytes, p: &mut Printer) -> Result<(), Stop> {
    if bytes.len() > FILE_LIMIT {
        return Err(Stop::Memory);
    }
    let modules = read_project(alloc, "a.urp", bytes.as_slice())?;
    p.put(b"=");
    for module in modules.as_slice() {
        p.word(module.as_slice());
    }
    Ok(())
}

/// The modules that a file names.
pub fn project(alloc: Global, text: &str, p: &mut Printer) -> Result<(), Stop> {
    let bytes = plain(alloc, text)?;
    put_modules(alloc, &bytes, p)
}
