//! Small projects, and what the steps of the compiler say of them.
use crate::reading::tokens_of;
use crate::subject::Step;
use case_files::Printer;
use std::alloc::Global;
use ur_base::{List, Refusal, Stop, Text};
use ur_kinds::check_kinds;
use ur_names::check_names;
use ur_parse::{parse, parse_signature};
use ur_syntax::{Module, Signature};

/// The modules of a project in order, their names, and its signature.
#[derive(Drop)]
struct Project {
    names: List<Text>,
    modules: List<Module>,
    signature: Option<Signature>,
}

/// What a step says of the project that a text is: `ok`, or the first fault.
pub fn step_outcome(alloc: Global, step: Step, text: &str, p: &mut Printer) -> Result<(), Stop> {
    p.put(b"= ok");
    let mut project = Project {
        names: List::new(alloc),
        modules: List::new(alloc),
        signature: None,
    };
    read_and_ask(alloc, step, text, &mut project)
}

fn read_and_ask(alloc: Global, step: Step, text: &str, project: &mut Project) -> Result<(), Stop> {
    read_project(alloc, text, project)?;
    asked(alloc, step, project)
}

/// Reads a project of which each part begins with `@`, its name and a blank.
fn read_project(alloc: Global, text: &str, project: &mut Project) -> Result<(), Stop> {
    let mut number = 0u32;
    for part in text.split('@').skip(1) {
        number = number.saturating_add(1);
        add(alloc, project, number, part)?;
    }
    Ok(())
}

/// The name of a part and its source.
fn name_and_source(part: &str) -> (&str, &str) {
    part.split_once(' ').unwrap_or((part, ""))
}

/// Reads a part, a module or the signature, as the file with this number.
fn add(alloc: Global, project: &mut Project, number: u32, part: &str) -> Result<(), Stop> {
    let (name, source) = name_and_source(part);
    if name == "signature" {
        project.signature = Some(signature_in(alloc, number, source)?);
        return Ok(());
    }
    let name = List::from_slice(alloc, name.as_bytes())?;
    project.names.push(name)?;
    let module = module_in(alloc, number, source)?;
    project.modules.push(module)?;
    Ok(())
}

fn signature_in(alloc: Global, number: u32, source: &str) -> Result<Signature, Stop> {
    let tokens = tokens_of(alloc, number, source)?;
    parse_signature(alloc, &tokens)
}

fn module_in(alloc: Global, number: u32, source: &str) -> Result<Module, Stop> {
    let tokens = tokens_of(alloc, number, source)?;
    parse(alloc, &tokens)
}

/// Asks a step of a project.
fn asked(alloc: Global, step: Step, project: &Project) -> Result<(), Stop> {
    let names = project.names.as_slice();
    let modules = project.modules.as_slice();
    if names.len() != modules.len() {
        return Err(Stop::Memory);
    }
    match step {
        Step::Names => check_names(alloc, names, modules, project.signature.as_ref()),
        Step::Kinds => check_kinds(alloc, names, modules, project.signature.as_ref()),
    }
}

/// Puts where a refusal stands, the name of its part and the text there, and what it says.
pub fn put_place(text: &str, refusal: &Refusal, p: &mut Printer) {
    match text.split('@').nth(refusal.span.file as usize) {
        Some(part) => {
            let (name, source) = name_and_source(part);
            p.word(name.as_bytes());
            let there = source.get(refusal.span.from as usize..refusal.span.to as usize);
            p.word(there.unwrap_or("nowhere").as_bytes());
        }
        None => p.word(b"nowhere"),
    }
    p.said(refusal.left.as_slice());
    p.said(refusal.right.as_slice());
}
