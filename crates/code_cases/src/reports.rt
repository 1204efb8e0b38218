//! Texts that a run prints.
ghost use Rattle.std.specs.Prelude.{IsTrue};
ghost use Rattle.ur_base.specs.Codes.{is_refusal_code};

use crate::codes::{nothing, take_text};
use crate::words::{first, number, text};
use case_files::Printer;
use std::alloc::Global;
use ur_base::{Memory, Refusal, Span};
use ur_code::Code;
use ur_words::{LoadReport, check_report, load_report, refusal_line, schema_report, serving_line};

fn put(p: &mut Printer, report: &[u8]) {
    p.put(b"= ");
    p.plain(report);
}

fn put_refusal(
    alloc: Global,
    file: &str,
    refusal: &Refusal,
    p: &mut Printer,
) -> Result<(), Memory> {
    let line = refusal_line(alloc, file.as_bytes(), refusal)?;
    put(p, line.as_slice());
    Ok(())
}

/// A code of refusals: the number, or 1 where that is none.
fn code_of(number: u8) -> u8
    ensures { IsTrue (is_refusal_code result) }
{
    if number < 1 {
        return 1;
    }
    if number > 20 {
        return 1;
    }
    number
}

/// `main.ur 10 12 15 int string` is a file, a code, a place, and what is said.
fn refusal(alloc: Global, words: &str, p: &mut Printer) -> Result<(), Memory> {
    let (file, rest) = first(words);
    let (code, rest) = first(rest);
    let (from, rest) = first(rest);
    let (to, rest) = first(rest);
    let (left, right) = first(rest);
    let left = text(alloc, left)?;
    let right = text(alloc, right)?;
    let refusal = Refusal {
        code: code_of(code.parse::<u8>().unwrap_or(1)),
        span: Span {
            file: 1,
            from: number(from),
            to: number(to),
        },
        left,
        right,
    };
    put_refusal(alloc, file, &refusal, p)
}

/// The requests, and the scans without a cache and with one.
fn load(alloc: Global, words: &str, p: &mut Printer) -> Result<(), Memory> {
    let (requests, rest) = first(words);
    let (plain, cached) = first(rest);
    let report = LoadReport {
        requests: number(requests),
        plain: u64::from(number(plain)),
        cached: u64::from(number(cached)),
    };
    let said = load_report(alloc, &report)?;
    put(p, said.as_slice());
    Ok(())
}

fn check(alloc: Global, word: &str, p: &mut Printer) -> Result<(), Memory> {
    let line = check_report(alloc, number(word) as usize)?;
    put(p, line.as_slice());
    Ok(())
}

fn serving(alloc: Global, word: &str, p: &mut Printer) -> Result<(), Memory> {
    let line = serving_line(alloc, word.parse::<u16>().unwrap_or(0))?;
    put(p, line.as_slice());
    Ok(())
}

/// The text of a kind of report, by its first word.
pub fn report(alloc: Global, text: &str, p: &mut Printer) -> Result<(), Memory> {
    let (word, rest) = first(text);
    match word {
        "refusal" => refusal(alloc, rest, p),
        "load" => load(alloc, rest, p),
        "check" => check(alloc, rest, p),
        _ => serving(alloc, rest, p),
    }
}

fn put_schemas(
    alloc: Global,
    kept: &Code,
    application: &mut Code,
    lines: &str,
    p: &mut Printer,
) -> Result<(), Memory> {
    take_text(alloc, application, lines)?;
    let said = schema_report(alloc, &kept.schema, &application.schema)?;
    put(p, said.as_slice());
    Ok(())
}

fn put_against(
    alloc: Global,
    kept: &mut Code,
    before: &str,
    behind: &str,
    p: &mut Printer,
) -> Result<(), Memory> {
    take_text(alloc, kept, before)?;
    let mut application = nothing(alloc);
    put_schemas(alloc, kept, &mut application, behind, p)
}

/// The report of two schemas, those of the code before a line `--` and behind it.
pub fn schemas(alloc: Global, text: &str, p: &mut Printer) -> Result<(), Memory> {
    let (before, behind) = text.split_once("\n--\n").unwrap_or((text, ""));
    let mut kept = nothing(alloc);
    put_against(alloc, &mut kept, before, behind, p)
}
