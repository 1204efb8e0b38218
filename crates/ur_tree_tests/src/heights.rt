//! The highest forms: each pass goes down all levels within the default stack.
use std::alloc::Global;
use ur_base::{List, Memory};
use ur_rows::{
    Label, Normal, NormalType, Part, Var, before, boxed, boxed_normal, copy_type, equal,
    equal_types, one, raised,
};
use ur_rows_normal::{instance_type, is_value_type, may_run, type_is_in};
use ur_rows_reduce::{Args, Halt, Held, Large, applied, type_height};
use ur_syntax::Kind;

/// What a level is.
#[derive(Clone, Copy)]
enum Level {
    Arrow,
    Record,
    /// a map over the first free variable
    Mapped,
    /// a map over the variable of this place
    Bound(u32),
}

fn label(alloc: Global) -> Result<Label, Memory> {
    let name = List::from_slice(alloc, b"A")?;
    Ok(Label::Literal(name))
}

fn arrow(alloc: Global, t: NormalType) -> Result<NormalType, Memory> {
    let to = boxed(alloc, t)?;
    let int = boxed(alloc, NormalType::Int)?;
    Ok(NormalType::Arrow(int, to))
}

fn field(alloc: Global, t: NormalType) -> Result<Part, Memory> {
    let of = boxed(alloc, t)?;
    let label = label(alloc)?;
    Ok(Part::Field(label, of))
}

fn record(alloc: Global, t: NormalType) -> Result<NormalType, Memory> {
    let part = field(alloc, t)?;
    let row = one(alloc, part)?;
    Ok(NormalType::Record(row))
}

fn mapped(alloc: Global, v: Var, t: NormalType) -> Result<NormalType, Memory> {
    let part = Part::Mapped(v, boxed(alloc, t)?);
    let row = one(alloc, part)?;
    Ok(NormalType::Form(row))
}

fn higher(alloc: Global, level: Level, t: NormalType) -> Result<NormalType, Memory> {
    match level {
        Level::Arrow => arrow(alloc, t),
        Level::Record => record(alloc, t),
        Level::Mapped => mapped(alloc, Var::Free(0), t),
        Level::Bound(place) => mapped(alloc, Var::Bound(place), t),
    }
}

/// So many times one within the other, round a variable.
fn tall(alloc: Global, level: Level, times: u32) -> Result<NormalType, Memory> {
    let mut t = NormalType::Variable(Var::Bound(0));
    for _ in 0..times {
        t = higher(alloc, level, t)?;
    }
    Ok(t)
}

/// Maps one within the other over the variable of the function that they stand in.
fn over_argument(alloc: Global, times: u32) -> Result<NormalType, Memory> {
    let mut t = NormalType::Int;
    for n in 0..times {
        t = higher(
            alloc,
            Level::Bound(times.saturating_sub(n).saturating_sub(1)),
            t,
        )?;
    }
    Ok(t)
}

// ---- passes

#[derive(Clone, Copy)]
enum Pass {
    Height,
    Copy,
    /// the kind, within one function of types where its variables are in scope
    Kind,
    Runs,
    Value,
    /// the instance without free variables, which is the type itself
    Instance,
}

fn is_high(t: &NormalType) -> Result<bool, Memory> {
    let height = type_height(t, 4096)?;
    Ok(height > 4094)
}

fn is_copied(alloc: Global, t: &NormalType) -> Result<bool, Memory> {
    let copy = copy_type(alloc, t)?;
    Ok(equal_types(&copy, t))
}

fn is_made(alloc: Global, t: &NormalType) -> Result<bool, Memory> {
    match instance_type(alloc, &[], t) {
        Ok(made) => Ok(equal_types(&made, t)),
        Err(Halt::Memory) => Err(Memory),
        Err(Halt::TooLarge) => Ok(false),
    }
}

fn goes(alloc: Global, pass: Pass, t: &NormalType) -> Result<bool, Memory> {
    match pass {
        Pass::Height => is_high(t),
        Pass::Copy => is_copied(alloc, t),
        Pass::Kind => type_is_in(t, &[Kind::Row], 1),
        Pass::Runs => Ok(may_run(t)),
        Pass::Value => Ok(is_value_type(t)),
        Pass::Instance => is_made(alloc, t),
    }
}

fn goes_down(alloc: Global, level: Level, pass: Pass) -> Result<bool, Memory> {
    let times = if let Level::Arrow = level { 4095 } else { 2047 };
    let t = tall(alloc, level, times)?;
    goes(alloc, pass, &t)
}

const WALKS: [(Level, Pass); 13] = [
    (Level::Arrow, Pass::Height),
    (Level::Record, Pass::Height),
    (Level::Mapped, Pass::Height),
    (Level::Arrow, Pass::Copy),
    (Level::Record, Pass::Copy),
    (Level::Mapped, Pass::Copy),
    (Level::Arrow, Pass::Kind),
    (Level::Mapped, Pass::Kind),
    (Level::Arrow, Pass::Runs),
    (Level::Mapped, Pass::Runs),
    (Level::Record, Pass::Value),
    (Level::Arrow, Pass::Instance),
    (Level::Record, Pass::Instance),
];

#[test]
fn the_highest_forms_are_walked(rt: HostRuntime) -> Result<(), Memory> {
    for (level, pass) in WALKS {
        assert!(rt; goes_down(rt.alloc(), level, pass)?);
    }
    Ok(())
}

// ---- orders, and variables

/// In order with itself.
fn is_ordered(alloc: Global, level: Level, times: u32) -> Result<bool, Memory> {
    let t = tall(alloc, level, times)?;
    let part = field(alloc, t)?;
    Ok(before(&part, &part))
}

/// Whether the variable is another one after it was raised.
fn is_raised(alloc: Global, level: Level, times: u32) -> Result<bool, Memory> {
    let t = Normal::Type(tall(alloc, level, times)?);
    let higher = raised(alloc, 1, &t)?;
    Ok(!equal(&higher, &t))
}

#[test]
fn the_highest_forms_are_compared_and_raised(rt: HostRuntime) -> Result<(), Memory> {
    let alloc = rt.alloc();
    assert!(rt; is_ordered(alloc, Level::Arrow, 4095)?);
    assert!(rt; is_ordered(alloc, Level::Record, 2047)?);
    assert!(rt; is_ordered(alloc, Level::Mapped, 2047)?);
    assert!(rt; is_raised(alloc, Level::Arrow, 4095)?);
    assert!(rt; is_raised(alloc, Level::Record, 2047)?);
    Ok(())
}

// ---- functions with the highest bodies

fn function(alloc: Global, body: NormalType) -> Result<Normal, Memory> {
    let body = boxed_normal(alloc, Normal::Type(body))?;
    Ok(Normal::Fn(Kind::Star, body))
}

/// Whether the function with this body has a form at an argument.
fn has_form_at(alloc: Global, a: &Held, body: NormalType) -> Result<bool, Memory> {
    let f = Held::Form(function(alloc, body)?);
    match applied(alloc, &Args::More(a, &Args::Empty), f)? {
        Held::Form(_) => Ok(true),
        Held::Large(_) => Ok(false),
    }
}

fn has_form(alloc: Global, level: Level, times: u32, a: Held) -> Result<bool, Memory> {
    let body = tall(alloc, level, times)?;
    has_form_at(alloc, &a, body)
}

fn at_int(alloc: Global, level: Level, times: u32) -> Result<bool, Memory> {
    has_form(
        alloc,
        level,
        times,
        Held::Form(Normal::Type(NormalType::Int)),
    )
}

fn at_large(alloc: Global, level: Level, times: u32) -> Result<bool, Memory> {
    has_form(alloc, level, times, Held::Large(Large::Type))
}

#[test]
fn the_highest_bodies(rt: HostRuntime) -> Result<(), Memory> {
    let alloc = rt.alloc();
    assert!(rt; at_int(alloc, Level::Arrow, 4095)?);
    assert!(rt; at_int(alloc, Level::Record, 2047)?);
    assert!(rt; at_int(alloc, Level::Mapped, 2047)?);
    assert!(rt; !at_large(alloc, Level::Arrow, 4095)?);
    assert!(rt; !at_large(alloc, Level::Record, 2047)?);
    Ok(())
}

fn row_of_int(alloc: Global) -> Result<Held, Memory> {
    let part = field(alloc, NormalType::Int)?;
    let row = one(alloc, part)?;
    Ok(Held::Form(Normal::Row(row)))
}

fn is_mapped(alloc: Global, times: u32) -> Result<bool, Memory> {
    let row = row_of_int(alloc)?;
    let body = over_argument(alloc, times)?;
    has_form_at(alloc, &row, body)
}

/// What takes the place of the maps is counted as it is made, each once.
#[test]
fn maps_over_an_argument(rt: HostRuntime) -> Result<(), Memory> {
    assert!(rt; is_mapped(rt.alloc(), 2047)?);
    Ok(())
}
