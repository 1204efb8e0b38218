//! Types of expressions of SQL that stand by themselves.
use crate::reading::sexp_of;
use case_files::Printer;
use std::alloc::Global;
use ur_base::{List, Memory, Stop, Text};
use ur_sqltype::{Source, Within, exp_kind, kind_text};
use ur_syntax::SqlExp;
use ur_values::ColumnKind;

const KINDS: [ColumnKind; 3] = [ColumnKind::Int, ColumnKind::Str, ColumnKind::Bool];

/// `A` is an int, `B` a string and `C` a bool.
fn columns(alloc: Global) -> Result<List<(Text, ColumnKind)>, Memory> {
    let mut columns = List::new(alloc);
    for (name, kind) in [
        (b'A', ColumnKind::Int),
        (b'B', ColumnKind::Str),
        (b'C', ColumnKind::Bool),
    ] {
        let name = List::from_slice(alloc, &[name])?;
        columns.push((name, kind))?;
    }
    Ok(columns)
}

fn sources(alloc: Global) -> Result<List<Source>, Memory> {
    let columns = columns(alloc)?;
    let alias = List::from_slice(alloc, b"T")?;
    let mut sources = List::new(alloc);
    sources.push(Source {
        alias,
        table: 0,
        columns,
    })?;
    Ok(sources)
}

/// The columns of an item `T`, the same bare, and three antiquotes: an int, a string and a bool.
fn within(alloc: Global) -> Result<Within, Memory> {
    let antiquotes = List::from_slice(alloc, &KINDS)?;
    let bare = columns(alloc)?;
    let sources = sources(alloc)?;
    Ok(Within {
        sources,
        bare,
        antiquotes,
    })
}

fn put_kind(alloc: Global, e: &SqlExp, p: &mut Printer) -> Result<(), Stop> {
    let within = within(alloc)?;
    let (_made, kind) = exp_kind(alloc, &within, e)?;
    p.put(b"=");
    p.word(kind_text(kind));
    Ok(())
}

/// The type of an expression, where columns may be bare or not.
pub fn sql(alloc: Global, text: &str, bare: bool, p: &mut Printer) -> Result<(), Stop> {
    let e = sexp_of(alloc, text, bare)?;
    put_kind(alloc, &e, p)
}
