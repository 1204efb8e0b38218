//! What comes of a project.
use crate::projects::{name_and_source, part, read_project};
use crate::sources::put_source;
use case_files::Printer;
use std::alloc::Global;
use ur_base::{Memory, Refusal, Stop, Text};
use ur_check::check;
use ur_check_limits::exceeded;
use ur_tree::Typed;

/// What is asked of a project: its checked source, or whether that is within its limits too.
#[derive(Clone, Copy)]
pub enum Step {
    Check,
    Limits,
}

/// The step that a word names.
pub fn step_of(word: &str) -> Option<Step> {
    match word {
        "check" => Some(Step::Check),
        "limits" => Some(Step::Limits),
        _ => None,
    }
}

/// What a step says of the project that a text is, or the refusal.
pub fn outcome(alloc: Global, step: Step, text: &str) -> Result<Text, Memory> {
    let mut p = Printer::new(alloc);
    match came(alloc, step, text, &mut p) {
        Ok(()) => {}
        Err(Stop::Refused(refusal)) => put_refusal(text, &refusal, &mut p),
        Err(Stop::Memory) => p.put(b"! memory"),
    }
    p.finish()
}

fn came(alloc: Global, step: Step, text: &str, p: &mut Printer) -> Result<(), Stop> {
    let typed = checked(alloc, text)?;
    said(alloc, step, &typed, p)
}

fn checked(alloc: Global, text: &str) -> Result<Typed, Stop> {
    let project = read_project(alloc, text)?;
    let names = project.names.as_slice();
    let modules = project.modules.as_slice();
    if names.len() != modules.len() {
        return Err(Stop::Memory);
    }
    check(alloc, names, modules, project.signature.as_ref())
}

/// Puts what a step says of a checked source.
fn said(alloc: Global, step: Step, typed: &Typed, p: &mut Printer) -> Result<(), Stop> {
    match step {
        Step::Check => {
            put_source(typed, p);
            Ok(())
        }
        Step::Limits => {
            within_limits(alloc, typed)?;
            p.put(b"= ok");
            Ok(())
        }
    }
}

fn within_limits(alloc: Global, typed: &Typed) -> Result<(), Stop> {
    match exceeded(typed) {
        None => Ok(()),
        Some(limit) => Err(Stop::Refused(limit.refusal(alloc)?)),
    }
}

/// The code, the part in which it stands, the text there, and what it says.
fn put_refusal(text: &str, refusal: &Refusal, p: &mut Printer) {
    p.put(b"! ");
    p.code(refusal.code);
    match part(text, refusal.span.file) {
        Some(part) => put_place(part, refusal, p),
        None => p.word(b"nowhere"),
    }
    p.said(refusal.left.as_slice());
    p.said(refusal.right.as_slice());
}

/// The name of a part, and the text in it at which a refusal stands.
fn put_place(part: &str, refusal: &Refusal, p: &mut Printer) {
    let (name, source) = name_and_source(part);
    p.word(name.as_bytes());
    p.word(b"");
    match source.get(refusal.span.from as usize..refusal.span.to as usize) {
        Some(there) => p.plain(there.as_bytes()),
        None => p.put(b"nowhere"),
    }
}
