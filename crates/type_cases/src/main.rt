//! Worked cases of types, of XML at its places, and of statements with what they answer, change and drop. docs/CASES.md has the form of a case.
#![tactic(auto)]

mod literals;
mod markup;
mod reading;
mod scope;
mod statements;
mod subject;
mod tables;
mod types;
mod values;

use case_files::{Printer, Subjects, run};
use std::alloc::Global;
use std::process::ExitCode;
use subject::{Part, Subject, subject_of};
use ur_base::{Memory, Refusal, Stop, Text};

/// Tokens, constructors, XML and statements.
struct Cases;

impl Subjects for Cases {
    fn has(&self, word: &str) -> bool {
        subject_of(word).is_some()
    }

    fn outcome(&self, alloc: Global, word: &str, text: &str) -> Result<Text, Memory> {
        match subject_of(word) {
            Some(subject) => outcome(alloc, subject, text),
            None => Err(Memory),
        }
    }
}

fn main(rt: HostRuntime) -> ExitCode {
    run(&rt, &Cases)
}

/// What comes of a text, or the refusal with its code and its texts.
fn outcome(alloc: Global, subject: Subject, text: &str) -> Result<Text, Memory> {
    let mut p = Printer::new(alloc);
    match came(alloc, subject, text, &mut p) {
        Ok(()) => p.finish(),
        Err(Stop::Memory) => memory(alloc),
        Err(Stop::Refused(refusal)) => refused(alloc, &refusal),
    }
}

fn came(alloc: Global, subject: Subject, text: &str, p: &mut Printer) -> Result<(), Stop> {
    match subject {
        Subject::Tokens => types::tokens(alloc, text, p),
        Subject::Kind => types::kind(alloc, text, p),
        Subject::Normal => types::form(alloc, text, p),
        Subject::Apart => types::apart(alloc, text, p),
        Subject::Statement(asked) => statements::statement(alloc, asked, text, p),
        Subject::Sql(bare) => literals::sql(alloc, text, bare, p),
        Subject::Xml(part) => xml(alloc, part, text, p),
    }
}

fn xml(alloc: Global, part: Part, text: &str, p: &mut Printer) -> Result<(), Stop> {
    match part {
        Part::Node => markup::node(alloc, text, p),
        Part::Text => markup::text(alloc, text, p),
        Part::Splice => markup::splice(alloc, text, p),
        Part::Shown => markup::shown(alloc, text, p),
        Part::Frame => markup::frame(alloc, text, p),
        Part::Fields => markup::fields(alloc, text, p),
    }
}

fn memory(alloc: Global) -> Result<Text, Memory> {
    let mut p = Printer::new(alloc);
    p.put(b"! memory");
    p.finish()
}

fn refused(alloc: Global, refusal: &Refusal) -> Result<Text, Memory> {
    let mut p = Printer::new(alloc);
    p.put(b"! ");
    p.code(refusal.code);
    p.said(refusal.left.as_slice());
    p.said(refusal.right.as_slice());
    p.finish()
}
