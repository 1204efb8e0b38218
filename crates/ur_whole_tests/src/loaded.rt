//! What is loaded of a project of two modules.
use crate::files::shelf;
use std::alloc::Global;
use std::test::Fail;
use ur_base::Memory;
use ur_io::MemoryShelf;
use ur_load::{LoadEnd, Loaded, file_at, load_project};

/// A project of two modules, the second of which has this signature.
fn two(alloc: Global, signature: &[u8]) -> Result<MemoryShelf, Memory> {
    shelf(
        alloc,
        &[
            ("app/p.urp", b"a\nmain\n"),
            ("app/a.ur", b"val x : int = 1"),
            ("app/main.ur", b"val y : int = 2 val z : int = 3"),
            ("app/main.urs", signature),
        ],
    )
}

/// Whether the file of this number has this name.
fn is_at(loaded: &Loaded, number: u32, name: &str) -> bool {
    file_at(loaded, number).as_slice() == name.as_bytes()
}

/// Whether the files are those of the project by their numbers, and the names and trees those of its modules.
fn is_right(loaded: &Loaded) -> bool {
    is_at(loaded, 0, "app/p.urp")
        && is_at(loaded, 1, "app/a.ur")
        && is_at(loaded, 2, "app/main.ur")
        && is_at(loaded, 3, "app/main.urs")
        && is_at(loaded, 4, "app/p.urp")
        && is_named(loaded)
}

/// Whether the modules are `A` of one declaration and `Main` of two, and the signature has one value.
fn is_named(loaded: &Loaded) -> bool {
    match (
        loaded.names.as_slice(),
        loaded.modules.as_slice(),
        &loaded.signature,
    ) {
        ([a, b], [first, second], Some(signature)) => {
            a.as_slice() == b"A".as_slice()
                && b.as_slice() == b"Main".as_slice()
                && first.decls.len() == 1
                && second.decls.len() == 2
                && signature.vals.len() == 1
        }
        _ => false,
    }
}

#[test]
fn a_project_of_two_modules(rt: HostRuntime) -> Result<(), Fail> {
    let mut shelf = two(rt.alloc(), b"val z : int")?;
    match load_project(rt.alloc(), &mut shelf, "app/p") {
        Ok(loaded) => assert!(rt; is_right(&loaded)),
        Err(_) => assert!(rt; false),
    }
    Ok(())
}

/// Whether it is E05 in the signature, at the seventh byte.
fn is_refused(answer: &Result<Loaded, LoadEnd>) -> bool {
    match answer {
        Err(LoadEnd::Refused { file, refusal }) => {
            file.as_slice() == b"app/main.urs".as_slice()
                && refusal.code == 5
                && refusal.span.file == 3
                && refusal.span.from == 6
        }
        _ => false,
    }
}

#[test]
fn a_signature_without_a_tree(rt: HostRuntime) -> Result<(), Fail> {
    let mut shelf = two(rt.alloc(), b"val z int")?;
    let answer = load_project(rt.alloc(), &mut shelf, "app/p");
    assert!(rt; is_refused(&answer));
    Ok(())
}
