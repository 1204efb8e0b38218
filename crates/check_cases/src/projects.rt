//! Projects as they are written in a case.
use std::alloc::Global;
use ur_base::{List, Memory, Stop, Text};
use ur_lex::{Tokens, lex};
use ur_parse::{parse, parse_signature};
use ur_syntax::{Module, Signature};

/// The greatest number of bytes in a file of source.
const LONGEST: usize = 1_048_576;

/// The modules of a project in order, their names, and its signature.
#[derive(Drop)]
pub struct Project {
    pub names: List<Text>,
    pub modules: List<Module>,
    pub signature: Option<Signature>,
}

/// Reads a project of which each part begins with `@`, its name and a blank. The part `@signature` is the signature.
pub fn read_project(alloc: Global, text: &str) -> Result<Project, Stop> {
    let mut project = Project {
        names: List::new(alloc),
        modules: List::new(alloc),
        signature: None,
    };
    let mut number = 0u32;
    for part in text.split('@').skip(1) {
        number = number.saturating_add(1);
        add(alloc, &mut project, number, part)?;
    }
    Ok(project)
}

/// The part with this number, from 1.
pub fn part(text: &str, number: u32) -> Option<&str> {
    match number.checked_sub(1) {
        Some(before) => text.split('@').skip(1).nth(before as usize),
        None => None,
    }
}

/// The name of a part and its source.
pub fn name_and_source(part: &str) -> (&str, &str) {
    part.split_once(' ').unwrap_or((part, ""))
}

/// Reads a part, a module or the signature, as the file with this number.
fn add(alloc: Global, project: &mut Project, number: u32, part: &str) -> Result<(), Stop> {
    let (name, source) = name_and_source(part);
    if name == "signature" {
        project.signature = Some(signature_in(alloc, number, source)?);
        return Ok(());
    }
    with_name(alloc, project, name)?;
    let module = module_in(alloc, number, source)?;
    project.modules.push(module)?;
    Ok(())
}

fn with_name(alloc: Global, project: &mut Project, name: &str) -> Result<(), Memory> {
    let name = List::from_slice(alloc, name.as_bytes())?;
    project.names.push(name)
}

/// The tokens of the file with this number.
fn tokens_of(alloc: Global, number: u32, source: &str) -> Result<Tokens, Stop> {
    let bytes = source.as_bytes();
    if bytes.len() > LONGEST {
        return Err(Stop::Memory);
    }
    lex(alloc, number, bytes)
}

fn signature_in(alloc: Global, number: u32, source: &str) -> Result<Signature, Stop> {
    let tokens = tokens_of(alloc, number, source)?;
    parse_signature(alloc, &tokens)
}

fn module_in(alloc: Global, number: u32, source: &str) -> Result<Module, Stop> {
    let tokens = tokens_of(alloc, number, source)?;
    parse(alloc, &tokens)
}
