//! Trees of 4,096 levels, and expressions in 255 parentheses, read and dropped under the default stack.
use crate::tall::Outcome::{End, Refused};
use std::alloc::Global;
use ur_base::{List, Stop};
use ur_lex::{Tokens, lex};
use ur_parse::parse;
use ur_parse_con::{read_con, read_kind};
use ur_parse_embed::read_sexp;
use ur_parse_embed_code::Quotes;
use ur_parse_exp::read_exp;
use ur_parse_rules::ConPlace;

const NESTING: usize = 256;

/// How many signs of SQL, or parentheses around kinds, may stand in each other.
const LEVELS: usize = 1024;

/// A hundred parentheses.
const OPEN: &[u8] =
    b"((((((((((((((((((((((((((((((((((((((((((((((((((((((((((((((((((((((((((((((((((((((((((((((((((((";

/// What is read.
#[derive(Clone, Copy)]
enum Part {
    Kind,
    Con,
    Sql,
    Exp,
    Module,
}

/// What a reader comes to.
#[derive(Clone, Copy, Debug, PartialEq, Eq)]
enum Outcome {
    /// the place behind what is read, or how many declarations there are
    End(usize),
    Refused(u8),
    Memory,
}

/// A text as its pieces: a front, what is repeated, what stands behind that, and what is repeated as often behind it.
#[derive(Clone, Copy)]
struct Text {
    front: &'static [u8],
    before: &'static [u8],
    middle: &'static [u8],
    behind: &'static [u8],
}

fn tokens(alloc: Global, text: Text, count: usize) -> Result<Tokens, Stop> {
    let mut source: List<u8> = List::new(alloc);
    source.extend_from_slice(text.front)?;
    for _ in 0..count {
        source.extend_from_slice(text.before)?;
    }
    source.extend_from_slice(text.middle)?;
    for _ in 0..count {
        source.extend_from_slice(text.behind)?;
    }
    if source.len() > 1048576 {
        return Err(Stop::Memory);
    }
    lex(alloc, 1, source.as_slice())
}

fn read(alloc: Global, part: Part, tokens: &Tokens) -> Result<usize, Stop> {
    match part {
        Part::Kind => Ok(read_kind(alloc, tokens, 0, LEVELS)?.end),
        Part::Con => Ok(read_con(alloc, tokens, 0, NESTING, LEVELS, ConPlace::Plain)?.end),
        Part::Sql => {
            let mut quotes = Quotes::new(alloc);
            Ok(read_sexp(alloc, tokens, 0, NESTING, LEVELS, false, &mut quotes)?.end)
        }
        Part::Exp => Ok(read_exp(alloc, tokens, 0, NESTING, LEVELS)?.end),
        Part::Module => Ok(parse(alloc, tokens)?.decls.len()),
    }
}

fn comes_to(alloc: Global, part: Part, text: Text, count: usize) -> Outcome {
    let found = match tokens(alloc, text, count) {
        Ok(found) => found,
        Err(stop) => return stopped(stop),
    };
    match read(alloc, part, &found) {
        Ok(end) => End(end),
        Err(stop) => stopped(stop),
    }
}

/// What a reader comes to that reads nothing.
fn stopped(stop: Stop) -> Outcome {
    match stop {
        Stop::Refused(refusal) => Refused(refusal.code),
        Stop::Memory => Outcome::Memory,
    }
}

/// A front, and a piece repeated behind it.
fn chain(front: &'static [u8], before: &'static [u8], middle: &'static [u8]) -> Text {
    Text {
        front,
        before,
        middle,
        behind: b"",
    }
}

/// A name in parentheses.
fn nest(front: &'static [u8], middle: &'static [u8]) -> Text {
    Text {
        front,
        before: b"(",
        middle,
        behind: b")",
    }
}

#[test]
fn kinds(rt: HostRuntime) {
    let text = chain(b"", b"Type -> ", b"Type");
    assert_eq!(rt; comes_to(rt.alloc(), Part::Kind, text, 4095), End(8191));
}

#[test]
fn constructors(rt: HostRuntime) {
    let arrows = chain(b"", b"t -> ", b"t");
    assert_eq!(rt; comes_to(rt.alloc(), Part::Con, arrows, 4095), End(8191));
    let unions = chain(b"", b"t ++ ", b"t");
    assert_eq!(rt; comes_to(rt.alloc(), Part::Con, unions, 4095), End(8191));
    let applications = chain(b"t", b" t", b"");
    assert_eq!(rt;
        comes_to(rt.alloc(), Part::Con, applications, 4095),
        End(4096)
    );
}

#[test]
fn expressions_of_sql(rt: HostRuntime) {
    let sums = chain(b"1", b"+1", b"");
    assert_eq!(rt; comes_to(rt.alloc(), Part::Sql, sums, 4095), End(8191));
}

#[test]
fn sums(rt: HostRuntime) {
    let sums = chain(b"1", b"+1", b"");
    assert_eq!(rt; comes_to(rt.alloc(), Part::Exp, sums, 4095), End(8191));
    assert_eq!(rt;
        comes_to(rt.alloc(), Part::Exp, sums, 4096),
        Outcome::Memory
    );
    let shown = chain(b"<xml>{[1", b"+1", b"]}</xml>");
    assert_eq!(rt;
        comes_to(rt.alloc(), Part::Exp, shown, 4095),
        Outcome::Memory
    );
}

/// Signs and `else if` are read in loops.
#[test]
fn signs_and_choices(rt: HostRuntime) {
    let signs = chain(b"", b"- ", b"x");
    assert_eq!(rt; comes_to(rt.alloc(), Part::Exp, signs, 4095), End(4096));
    assert_eq!(rt;
        comes_to(rt.alloc(), Part::Exp, signs, 4096),
        Outcome::Memory
    );
    let choices = chain(b"", b"if b then x else ", b"x");
    assert_eq!(rt; comes_to(rt.alloc(), Part::Exp, choices, 4095), End(20476));
    assert_eq!(rt;
        comes_to(rt.alloc(), Part::Exp, choices, 4096),
        Outcome::Memory
    );
}

#[test]
fn parentheses(rt: HostRuntime) {
    let name = nest(b"", b"x");
    assert_eq!(rt; comes_to(rt.alloc(), Part::Exp, name, 255), End(511));
    assert_eq!(rt; comes_to(rt.alloc(), Part::Exp, name, 256), Refused(6));
    let value = nest(b"val x : int = ", b"1");
    assert_eq!(rt; comes_to(rt.alloc(), Part::Module, value, 255), End(1));
    assert_eq!(rt; comes_to(rt.alloc(), Part::Module, value, 256), Refused(6));
}

/// What is read around a tree takes of its stack: twelve levels for each of a hundred parentheses.
#[test]
fn sums_within_parentheses(rt: HostRuntime) {
    let sums = chain(OPEN, b"x+", b"x");
    assert_eq!(rt; comes_to(rt.alloc(), Part::Exp, sums, 2895), Refused(5));
    assert_eq!(rt;
        comes_to(rt.alloc(), Part::Exp, sums, 2896),
        Outcome::Memory
    );
    let fault = chain(OPEN, b"x+", b"fn");
    assert_eq!(rt; comes_to(rt.alloc(), Part::Exp, fault, 2895), Refused(5));
    let fields = chain(b"f (f (f (f (f (f (f (f (f (f (x", b".A", b"");
    assert_eq!(rt;
        comes_to(rt.alloc(), Part::Exp, fields, 3976),
        Outcome::Memory
    );
    let items = chain(OPEN, b"x::", b"x");
    assert_eq!(rt;
        comes_to(rt.alloc(), Part::Exp, items, 2896),
        Outcome::Memory
    );
}
