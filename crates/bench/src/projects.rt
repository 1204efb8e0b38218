//! Generated projects of one module.
use std::alloc::Global;
use ur_base::{List, Memory, Text};

/// How many fields a record has.
const FIELDS: u8 = 20;

/// How many definitions of types there are.
const DEFINITIONS: u32 = 500;

/// Functions that make records of 20 fields anew, or functions that use 500 definitions of types, four uses each.
#[derive(Clone, Copy)]
pub enum Project {
    Functions,
    Types,
}

/// The project that a word names.
pub fn project_of(word: &str) -> Option<Project> {
    match word {
        "functions" => Some(Project::Functions),
        "types" => Some(Project::Types),
        _ => None,
    }
}

/// A project of so many functions, or of so many uses.
pub fn text_of(alloc: Global, project: Project, size: u32) -> Result<Text, Memory> {
    let mut text = List::new(alloc);
    match project {
        Project::Functions => put_functions(alloc, &mut text, size)?,
        Project::Types => {
            put_definitions(alloc, &mut text)?;
            put_users(alloc, &mut text, size / 4)?;
        }
    }
    Ok(text)
}

fn put(text: &mut Text, bytes: &[u8]) -> Result<(), Memory> {
    text.extend_from_slice(bytes)
}

/// A number of five digits.
fn put_number(alloc: Global, text: &mut Text, number: u32) -> Result<(), Memory> {
    let digits = format!(in alloc; "{number:05}")?;
    put(text, digits.as_bytes())
}

fn put_functions(alloc: Global, text: &mut Text, count: u32) -> Result<(), Memory> {
    for number in 0..count {
        put_function(alloc, text, number)?;
    }
    Ok(())
}

/// A function that makes a record anew.
fn put_function(alloc: Global, text: &mut Text, number: u32) -> Result<(), Memory> {
    put(text, b"fun f")?;
    put_number(alloc, text, number)?;
    put(text, b" (r : {")?;
    put_fields(text)?;
    put(text, b"}) : {")?;
    put_fields(text)?;
    put(text, b"} = {")?;
    put_values(text)?;
    put(text, b"}\n")
}

/// `A:int,B:int, ..`
fn put_fields(text: &mut Text) -> Result<(), Memory> {
    for k in 0..FIELDS {
        put_comma(text, k)?;
        put(text, &[b'A' + k])?;
        put(text, b":int")?;
    }
    Ok(())
}

/// `A=r.A,B=r.B, ..`
fn put_values(text: &mut Text) -> Result<(), Memory> {
    for k in 0..FIELDS {
        put_comma(text, k)?;
        put(text, &[b'A' + k, b'=', b'r', b'.', b'A' + k])?;
    }
    Ok(())
}

/// What stands before the field with this number.
fn put_comma(text: &mut Text, number: u8) -> Result<(), Memory> {
    if number == 0 {
        return Ok(());
    }
    put(text, b",")
}

fn put_definitions(alloc: Global, text: &mut Text) -> Result<(), Memory> {
    for number in 0..DEFINITIONS {
        put_definition(alloc, text, number)?;
    }
    Ok(())
}

fn put_definition(alloc: Global, text: &mut Text, number: u32) -> Result<(), Memory> {
    put(text, b"type t")?;
    put_number(alloc, text, number)?;
    put(
        text,
        b" = {A : int, B : string, C : list {D : int, E : option string}}\n",
    )
}

fn put_users(alloc: Global, text: &mut Text, count: u32) -> Result<(), Memory> {
    for number in 0..count {
        put_user(alloc, text, number)?;
    }
    Ok(())
}

/// A function that uses four definitions.
fn put_user(alloc: Global, text: &mut Text, number: u32) -> Result<(), Memory> {
    put(text, b"fun g")?;
    put_number(alloc, text, number)?;
    put_use(alloc, text, b" (a : t", number)?;
    put_use(alloc, text, b") (b : t", number / 7)?;
    put_use(alloc, text, b") (c : t", number / 13)?;
    put_use(alloc, text, b") : t", number)?;
    put(text, b" = a\n")
}

fn put_use(alloc: Global, text: &mut Text, front: &[u8], number: u32) -> Result<(), Memory> {
    put(text, front)?;
    put_number(alloc, text, number % DEFINITIONS)
}
