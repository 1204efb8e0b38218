//! Projects whose instances never end, or whose code nests as deep as it may.
use crate::files::shelf;
use std::alloc::Global;
use std::test::Fail;
use ur_base::{List, Memory, Text};
use ur_compile::{CompileEnd, Compiled, compile};

/// What the compiler is to say.
#[derive(Drop)]
enum Wanted {
    Code,
    Refused(u8, &'static str, &'static str),
}

fn comes(answer: &Result<Compiled, CompileEnd>, wanted: &Wanted) -> bool {
    match (answer, wanted) {
        (Ok(_), Wanted::Code) => true,
        (Err(CompileEnd::Refused { file: _, refusal }), Wanted::Refused(code, left, right)) => {
            refusal.code == *code
                && refusal.left.as_slice() == left.as_bytes()
                && refusal.right.as_slice() == right.as_bytes()
        }
        _ => false,
    }
}

/// Whether this comes of the project of one module with this text and the entry `main`.
fn compiles(alloc: Global, module: &[u8], wanted: &Wanted) -> Result<bool, Memory> {
    let mut shelf = shelf(
        alloc,
        &[
            ("p.urp", b"m\n"),
            ("m.urs", b"val main : unit -> transaction page\n"),
            ("m.ur", module),
        ],
    )?;
    Ok(comes(&compile(alloc, &mut shelf, "p"), wanted))
}

/// A function that calls itself at ever larger types: the last instance that may be has a type of 4,096 levels.
#[test]
fn instances_without_end(rt: HostRuntime) -> Result<(), Fail> {
    let grow =
        b"fun grow [t :: Type] (n : int) : int = if n = 0 then 0 else grow [list t] (n - 1)\n\
        fun main (u : unit) : transaction page = return <xml><body>{[grow [int] 3]}</body></xml>";
    let wanted = Wanted::Refused(17, "M.grow", "4096");
    assert!(rt; compiles(rt.alloc(), grow.as_slice(), &wanted)?);
    Ok(())
}

/// A fold over so many fields whose step gives a function round the one before: so many functions stand in one another.
fn nested(alloc: Global, fields: u32) -> Result<Text, Memory> {
    let mut text = List::new(alloc);
    text.extend_from_slice(
        b"fun deep (n : int) : int =\n\
        fold [fn r :: {Type} => int -> int]\n\
        (fn [nm :: Name] [t :: Type] [rest :: {Type}] [[nm] ~ rest] (acc : int -> int) =>\n\
        fn (x : int) => acc (x + 1)) (fn (x : int) => x) [[F = int",
    )?;
    for number in 1..fields {
        let field = format!(in alloc; ", F{number} = int")?;
        text.extend_from_slice(field.as_bytes())?;
    }
    text.extend_from_slice(
        b"]] n\n\
        fun main (u : unit) : transaction page = return <xml><body>{[deep 3]}</body></xml>\n",
    )?;
    Ok(text)
}

fn of_nested(alloc: Global, fields: u32, wanted: &Wanted) -> Result<bool, Memory> {
    let module = nested(alloc, fields)?;
    compiles(alloc, module.as_slice(), wanted)
}

#[test]
fn functions_in_one_another(rt: HostRuntime) -> Result<(), Fail> {
    let deep = Wanted::Refused(18, "nesting", "1024");
    assert!(rt; of_nested(rt.alloc(), 1021, &Wanted::Code)?);
    assert!(rt; of_nested(rt.alloc(), 1022, &deep)?);
    Ok(())
}

/// A text that stands so many times before a middle, and another one as often behind it.
#[derive(Clone, Copy)]
struct Around {
    front: &'static [u8],
    before: &'static [u8],
    middle: &'static [u8],
    behind: &'static [u8],
}

const MAIN: &[u8] = b"\nfun main (u : unit) : transaction page = return <xml><body></body></xml>\n";

fn surrounded(alloc: Global, text: Around, count: u32) -> Result<Text, Memory> {
    let mut module = List::new(alloc);
    module.extend_from_slice(text.front)?;
    for _ in 0..count {
        module.extend_from_slice(text.before)?;
    }
    module.extend_from_slice(text.middle)?;
    for _ in 0..count {
        module.extend_from_slice(text.behind)?;
    }
    module.extend_from_slice(MAIN)?;
    Ok(module)
}

fn of_around(alloc: Global, text: Around, count: u32, wanted: &Wanted) -> Result<bool, Memory> {
    let module = surrounded(alloc, text, count)?;
    compiles(alloc, module.as_slice(), wanted)
}

/// As many expressions as may nest in the source, of the forms that take most of the stack.
#[test]
fn expressions_in_one_another(rt: HostRuntime) -> Result<(), Fail> {
    let literals = Around {
        front: b"fun f (x : int) : xbody = ",
        before: b"<xml>{",
        middle: b"<xml/>",
        behind: b"}</xml>",
    };
    assert!(rt; of_around(rt.alloc(), literals, 255, &Wanted::Code)?);
    let folds = Around {
        front: b"fun f (x : int) : int = ",
        before: b"fold [fn r :: {Type} => int] (fn [nm :: Name] [t :: Type] [rest :: {Type}] [[nm] ~ rest] (acc : int) => acc) (",
        middle: b"0",
        behind: b") [[A = int]]",
    };
    assert!(rt; of_around(rt.alloc(), folds, 254, &Wanted::Code)?);
    Ok(())
}

/// A chain as high as a tree may be: it is typed, and its instance nests too deep.
#[test]
fn terms_of_a_sum(rt: HostRuntime) -> Result<(), Fail> {
    let sums = Around {
        front: b"fun f (x : int) : int = x",
        before: b" + x",
        middle: b"",
        behind: b"",
    };
    let deep = Wanted::Refused(18, "nesting", "1024");
    assert!(rt; of_around(rt.alloc(), sums, 1023, &Wanted::Code)?);
    assert!(rt; of_around(rt.alloc(), sums, 1024, &deep)?);
    assert!(rt; of_around(rt.alloc(), sums, 4095, &deep)?);
    Ok(())
}

/// Signs and `else if` are as high.
#[test]
fn signs_and_choices(rt: HostRuntime) -> Result<(), Fail> {
    let deep = Wanted::Refused(18, "nesting", "1024");
    let signs = Around {
        front: b"fun f (x : int) : int = ",
        before: b"- ",
        middle: b"x",
        behind: b"",
    };
    assert!(rt; of_around(rt.alloc(), signs, 4095, &deep)?);
    let choices = Around {
        front: b"fun f (b : bool) : int = ",
        before: b"if b then 1 else ",
        middle: b"2",
        behind: b"",
    };
    assert!(rt; of_around(rt.alloc(), choices, 4095, &deep)?);
    Ok(())
}
