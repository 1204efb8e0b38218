//! What comes of texts as tokens, kinds, normal forms and rows.
use crate::reading::{con_of, tokens_of};
use crate::scope::{module, scope};
use case_files::Printer;
use std::alloc::Global;
use ur_base::{List, Memory, Stop, Text};
use ur_disjoint::{Assumed, prove};
use ur_kinds::{kind_of, kind_text};
use ur_rows::{Label, Normal, Part};
use ur_rows_normal::normal;
use ur_syntax::{Con, ConEnv, Kind};
use ur_tree::{row_text, type_text};

/// How many tokens there are.
pub fn tokens(alloc: Global, text: &str, p: &mut Printer) -> Result<(), Stop> {
    let tokens = tokens_of(alloc, text)?;
    p.put(b"=");
    p.number(tokens.len() as u64);
    Ok(())
}

fn put_kind_text(alloc: Global, kind: &Kind, p: &mut Printer) -> Result<(), Stop> {
    let text = kind_text(alloc, kind)?;
    p.put(b"=");
    p.word(text.as_slice());
    Ok(())
}

fn put_kind_of(alloc: Global, env: &ConEnv, con: &Con, p: &mut Printer) -> Result<(), Stop> {
    let kind = kind_of(alloc, env, con)?;
    put_kind_text(alloc, &kind, p)
}

fn put_kind(alloc: Global, env: &ConEnv, text: &str, p: &mut Printer) -> Result<(), Stop> {
    let con = con_of(alloc, text)?;
    put_kind_of(alloc, env, &con, p)
}

/// The lines before the last one, and the last one.
fn parts(text: &str) -> (&str, &str) {
    text.rsplit_once('\n').unwrap_or(("", text))
}

/// The kind of a constructor.
pub fn kind(alloc: Global, text: &str, p: &mut Printer) -> Result<(), Stop> {
    let mut env = module(alloc)?;
    put_kind_in(alloc, &mut env, text, p)
}

fn put_kind_in(alloc: Global, env: &mut ConEnv, text: &str, p: &mut Printer) -> Result<(), Stop> {
    let (before, con) = parts(text);
    scope(alloc, env, before)?;
    put_kind(alloc, env, con, p)
}

/// The text of a type or of a row, `#A` for a name, and `fn` for a function.
fn form_text(alloc: Global, form: &Normal) -> Result<Text, Memory> {
    match form {
        Normal::Type(of) => type_text(alloc, &[], of),
        Normal::Row(row) => row_text(alloc, &[], row.as_slice()),
        Normal::Name(Label::Literal(name)) => {
            let mut text = List::from_slice(alloc, b"#")?;
            text.extend_from_slice(name.as_slice())?;
            Ok(text)
        }
        Normal::Name(Label::Variable(_)) => List::from_slice(alloc, b"name"),
        Normal::Fn(_, _) => List::from_slice(alloc, b"fn"),
    }
}

fn put_form_text(alloc: Global, form: &Normal, p: &mut Printer) -> Result<(), Stop> {
    let text = form_text(alloc, form)?;
    p.put(b"=");
    p.word(text.as_slice());
    Ok(())
}

fn put_form_of(alloc: Global, env: &ConEnv, con: &Con, p: &mut Printer) -> Result<(), Stop> {
    let form = normal(alloc, env, con)?;
    put_form_text(alloc, &form, p)
}

fn put_form(alloc: Global, env: &ConEnv, text: &str, p: &mut Printer) -> Result<(), Stop> {
    let con = con_of(alloc, text)?;
    put_form_of(alloc, env, &con, p)
}

/// The normal form of a constructor.
pub fn form(alloc: Global, text: &str, p: &mut Printer) -> Result<(), Stop> {
    let mut env = module(alloc)?;
    put_form_in(alloc, &mut env, text, p)
}

fn put_form_in(alloc: Global, env: &mut ConEnv, text: &str, p: &mut Printer) -> Result<(), Stop> {
    let (before, con) = parts(text);
    scope(alloc, env, before)?;
    put_form(alloc, env, con, p)
}

fn row_of(alloc: Global, env: &ConEnv, con: &Con) -> Result<List<Part>, Stop> {
    match normal(alloc, env, con)? {
        Normal::Row(row) => Ok(row),
        _ => Err(Stop::Memory),
    }
}

fn row(alloc: Global, env: &ConEnv, text: &str) -> Result<List<Part>, Stop> {
    let con = con_of(alloc, text)?;
    row_of(alloc, env, &con)
}

/// The rows on both sides of `~`.
fn pair(alloc: Global, env: &ConEnv, line: &str) -> Result<Assumed, Stop> {
    let (left, right) = line.split_once('~').unwrap_or((line, "[]"));
    let left = row(alloc, env, left)?;
    let right = row(alloc, env, right)?;
    Ok(Assumed { left, right })
}

/// Whether the rows of the last line are apart where those of each line before it are.
pub fn apart(alloc: Global, text: &str, p: &mut Printer) -> Result<(), Stop> {
    let mut env = module(alloc)?;
    scoped_apart(alloc, &mut env, text, p)
}

fn scoped_apart(alloc: Global, env: &mut ConEnv, text: &str, p: &mut Printer) -> Result<(), Stop> {
    scope(alloc, env, "")?;
    are_apart(alloc, env, text, p)
}

fn are_apart(alloc: Global, env: &ConEnv, text: &str, p: &mut Printer) -> Result<(), Stop> {
    let mut known = List::new(alloc);
    for line in text.lines() {
        let assumed = pair(alloc, env, line)?;
        known.push(assumed)?;
    }
    let asked = known.pop();
    put_apart(known.as_slice(), asked.as_ref(), p);
    Ok(())
}

fn put_apart(known: &[Assumed], asked: Option<&Assumed>, p: &mut Printer) {
    let are = match asked {
        Some(rows) => prove(known, rows.left.as_slice(), rows.right.as_slice()),
        None => false,
    };
    p.put(if are { b"= apart" } else { b"= not apart" });
}
