//! What comes of a text, in the lines that a case wants.
use crate::ends::{end, token};
use crate::files::project;
use crate::projects::{put_place, step_outcome};
use crate::reading::read;
use crate::subject::{Part, Subject};
use case_files::Printer;
use std::alloc::Global;
use ur_base::{Memory, Refusal, Stop, Text};

/// The tree and what stands behind it or `ok`; or the refusal with its place.
pub fn outcome(alloc: Global, subject: Subject, text: &str) -> Result<Text, Memory> {
    let mut p = Printer::new(alloc);
    match came(alloc, subject, text, &mut p) {
        Ok(()) => p.finish(),
        Err(stop) => stopped(alloc, subject, text, &stop),
    }
}

fn came(alloc: Global, subject: Subject, text: &str, p: &mut Printer) -> Result<(), Stop> {
    match subject {
        Subject::Part(part) => part_outcome(alloc, part, text, p),
        Subject::Step(step) => step_outcome(alloc, step, text, p),
        Subject::End(part) => end(alloc, part, text, p),
        Subject::Token => token(alloc, text, p),
        Subject::Project => project(alloc, text, p),
    }
}

/// Puts the tree of a text and what stands behind it.
fn part_outcome(alloc: Global, part: Part, text: &str, p: &mut Printer) -> Result<(), Stop> {
    p.put(b"=");
    let rest = read(alloc, part, text, p)?;
    if !rest.is_empty() {
        p.put(b"\n+ ");
        p.put(rest.as_bytes());
    }
    Ok(())
}

/// A refusal with its code and its place, or want of memory.
fn stopped(alloc: Global, subject: Subject, text: &str, stop: &Stop) -> Result<Text, Memory> {
    let mut p = Printer::new(alloc);
    p.put(b"! ");
    match stop {
        Stop::Memory => p.put(b"memory"),
        Stop::Refused(refusal) => {
            p.code(refusal.code);
            match subject {
                Subject::Part(_) => put_bytes(text, refusal, &mut p),
                Subject::Step(_) => put_place(text, refusal, &mut p),
                Subject::End(_) | Subject::Token | Subject::Project => put_line(refusal, &mut p),
            }
        }
    }
    p.finish()
}

/// Puts the place in bytes of a file from 0, and what it says.
fn put_line(refusal: &Refusal, p: &mut Printer) {
    p.number(u64::from(refusal.span.from));
    p.put(b"-");
    p.count(u64::from(refusal.span.to));
    if !refusal.left.is_empty() {
        p.put(b" | ");
        p.plain(refusal.left.as_slice());
    }
}

/// Puts the place in bytes from 0, and the text there. A refusal that stands in another file than the text's stands
/// nowhere.
fn put_bytes(text: &str, refusal: &Refusal, p: &mut Printer) {
    if refusal.span.file == 0 {
        p.put(b" nowhere");
        return;
    }
    p.put(b" ");
    p.count(u64::from(refusal.span.from));
    p.put(b"-");
    p.count(u64::from(refusal.span.to));
    if let Some(there) = text.get(refusal.span.from as usize..refusal.span.to as usize) {
        p.put(b" ");
        p.put(there.as_bytes());
    }
}
