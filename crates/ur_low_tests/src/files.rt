//! Files by their paths.
use crate::devices::is_fetched;
use std::fs;
use std::test::Fail;
use ur_io::{FileShelf, Shelf};

#[test]
fn files_by_path(rt: HostRuntime) -> Result<(), Fail> {
    let text = "0123456789".repeat(rt.alloc(), 1000)?;
    fs::write(&rt, "ur_io_short", "12345")?;
    fs::write(&rt, "ur_io_empty", "")?;
    fs::write(&rt, "ur_io_long", text.as_str())?;
    let mut shelf = FileShelf::new(rt);
    let rows = [
        ("ur_io_short", 5, "12345"),
        ("ur_io_short", 4, "is longer"),
        ("ur_io_short", usize::MAX, "12345"),
        ("ur_io_empty", 0, ""),
        ("ur_io_long", 10_000, text.as_str()),
        ("ur_io_long", 9_999, "is longer"),
        ("ur_io_none", 5, "is missing"),
        ("ur_io_none/below", 5, "is missing"),
        (".", 5, "failed"),
        ("ur_io_short/below", 5, "failed"),
        ("ur_io\0short", 5, "failed"),
    ];
    for (name, most, want) in rows {
        let fetched = shelf.fetch(name, most);
        assert!(rt; is_fetched(&fetched, want), "{name:?} up to {most}: {want}");
    }
    for name in ["ur_io_short", "ur_io_empty", "ur_io_long"] {
        fs::remove_file(&rt, name)?;
    }
    Ok(())
}
