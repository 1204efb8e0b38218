//! Worked cases of code that is made by hand: its types, its routes and pages, requests to a server of it, and reports. docs/CASES.md has the
//! form of a case.
#![tactic(auto)]

mod asked;
mod calls;
mod codes;
mod pages;
mod reports;
mod scripts;
mod served;
mod serving;
mod sorts;
mod splits;
mod statements;
mod subject;
mod terms;
mod words;

use case_files::{Printer, Subjects, run};
use std::alloc::Global;
use std::process::ExitCode;
use subject::{Subject, subject_of};
use ur_base::{Memory, Refusal, Stop, Text};

/// Code, pages and requests.
struct Cases;

impl Subjects for Cases {
    fn has(&self, word: &str) -> bool {
        subject_of(word).is_some()
    }

    fn outcome(&self, alloc: Global, word: &str, text: &str) -> Result<Text, Memory> {
        match subject_of(word) {
            Some(subject) => outcome(alloc, subject, text),
            None => Err(Memory),
        }
    }
}

fn main(rt: HostRuntime) -> ExitCode {
    run(&rt, &Cases)
}

/// What comes of a text, or the refusal with its code and its texts.
fn outcome(alloc: Global, subject: Subject, text: &str) -> Result<Text, Memory> {
    let mut p = Printer::new(alloc);
    match came(alloc, subject, text, &mut p) {
        Ok(()) => p.finish(),
        Err(Stop::Memory) => memory(alloc),
        Err(Stop::Refused(refusal)) => refused(alloc, &refusal),
    }
}

fn came(alloc: Global, subject: Subject, text: &str, p: &mut Printer) -> Result<(), Stop> {
    match subject {
        Subject::Page => Ok(pages::page(alloc, text, p)?),
        Subject::ErrorPage => Ok(pages::error_page(alloc, text, p)?),
        Subject::TextPage => Ok(pages::text_page(alloc, text, p)?),
        Subject::Splits => Ok(splits::splits(alloc, text, p)?),
        Subject::Report => Ok(reports::report(alloc, text, p)?),
        Subject::Schemas => Ok(reports::schemas(alloc, text, p)?),
        Subject::Serves => Ok(served::served(alloc, text, p)?),
        Subject::Code(question) => asked::answer(alloc, question, text, p),
    }
}

fn memory(alloc: Global) -> Result<Text, Memory> {
    let mut p = Printer::new(alloc);
    p.put(b"! memory");
    p.finish()
}

fn refused(alloc: Global, refusal: &Refusal) -> Result<Text, Memory> {
    let mut p = Printer::new(alloc);
    p.put(b"! ");
    p.code(refusal.code);
    p.said(refusal.left.as_slice());
    p.said(refusal.right.as_slice());
    p.finish()
}
