//! The constructors that are in scope, as cases write them.
use crate::reading::{con_of, kind_of};
use std::alloc::Global;
use ur_base::{List, Memory, Stop, Text};
use ur_syntax::{ConEntry, ConEnv, ConMeaning, ConName, Kind};

/// What is in scope of every constructor: `t`, `pair` and `b` of the module M that it stands in; `row` and `t` of L; the variables `r`, of
/// kind `Type`, `r`, of kind `{Type}`, `nm` and `b`.
const NAMES: &str = "\
con L.row {Type}
con L.t {Type}
con t Type
con pair Type -> Type -> Type
var r Type
var r {Type}
var nm Name
var b Name
con b Type";

/// `L.t`, or `t` of M.
fn declared(alloc: Global, written: &str) -> Result<ConName, Memory> {
    let (home, name) = written.split_once('.').unwrap_or(("M", written));
    let home = List::from_slice(alloc, home.as_bytes())?;
    let name = List::from_slice(alloc, name.as_bytes())?;
    Ok(ConName {
        home: Some(home),
        name,
    })
}

fn variable(alloc: Global, written: &str) -> Result<ConName, Memory> {
    let name = List::from_slice(alloc, written.as_bytes())?;
    Ok(ConName { home: None, name })
}

fn entry(name: ConName, kind: Kind, meaning: ConMeaning) -> ConEntry {
    ConEntry {
        name,
        kind,
        meaning,
    }
}

fn opaque(alloc: Global, name: ConName, kind: &str) -> Result<ConEntry, Stop> {
    let kind = kind_of(alloc, kind)?;
    Ok(entry(name, kind, ConMeaning::Variable))
}

fn defined(alloc: Global, name: ConName, con: &str) -> Result<ConEntry, Stop> {
    let con = con_of(alloc, con)?;
    Ok(entry(name, Kind::Star, ConMeaning::Defined(con)))
}

/// `con L.t {Type}` is a constructor of a module, `var r {Type}` a variable, and `type t {A : int}` a type of M.
fn entry_of(alloc: Global, line: &str) -> Result<Option<ConEntry>, Stop> {
    let Some((word, rest)) = line.split_once(' ') else {
        return Ok(None);
    };
    let Some((name, more)) = rest.split_once(' ') else {
        return Ok(None);
    };
    match word {
        "con" => Ok(Some(opaque(alloc, declared(alloc, name)?, more)?)),
        "var" => Ok(Some(opaque(alloc, variable(alloc, name)?, more)?)),
        "type" => Ok(Some(defined(alloc, declared(alloc, name)?, more)?)),
        _ => Ok(None),
    }
}

/// Adds what a line puts in scope.
fn add(alloc: Global, env: &mut ConEnv, line: &str) -> Result<(), Stop> {
    if let Some(entry) = entry_of(alloc, line)? {
        env.entries.push(entry)?;
    }
    Ok(())
}

/// Names of fields, a capital letter each.
pub fn letters(alloc: Global) -> Result<List<Text>, Memory> {
    let mut fields = List::new(alloc);
    for letter in b'A'..=b'Z' {
        let name = List::from_slice(alloc, &[letter])?;
        fields.push(name)?;
    }
    Ok(fields)
}

/// The module M without a constructor.
pub fn module(alloc: Global) -> Result<ConEnv, Memory> {
    let home = List::from_slice(alloc, b"M")?;
    let fields = letters(alloc)?;
    Ok(ConEnv {
        home,
        fields,
        entries: List::new(alloc),
    })
}

/// Puts in scope what stands there for every case, and what these lines do.
pub fn scope(alloc: Global, env: &mut ConEnv, lines: &str) -> Result<(), Stop> {
    for line in NAMES.lines() {
        add(alloc, env, line)?;
    }
    for line in lines.lines() {
        add(alloc, env, line)?;
    }
    Ok(())
}
