//! Normal forms as text, as refusals carry them.
ghost use Rattle.std.specs.Prelude.{◌≡◌, ◌++◌, codes, slice_index_or, [], IfOk, OnOk};
ghost use Rattle.std.specs.Fmt.{decimal};
ghost use Rattle.ur_tree.specs.Text as texts;

use std::alloc::Global;
use ur_base::{List, Memory, Text};
use ur_rows::{Label, NormalType, Part, Var};

/// A type as text; the names of datatypes are these, by number.
pub fn type_text(alloc: Global, names: &[Text], of: &NormalType) -> Result<Text, Memory>
    ensures { IfOk result (λ text. text ≡ texts.type_text names.now of.now) }
{
    let mut text = List::new(alloc);
    write_type(alloc, &mut text, names, of)?;
    Ok(text)
}

/// A row as text, in brackets.
pub fn row_text(alloc: Global, names: &[Text], row: &[Part]) -> Result<Text, Memory>
    ensures { IfOk result (λ text. text ≡ texts.row_text names.now row.now) }
{
    let mut text = List::new(alloc);
    text.extend_from_slice(b"[")?;
    write_parts(alloc, &mut text, names, row)?;
    Ok(text)
}

/// The second of two texts of a refusal, with a mark where it is the first.
pub fn apart_from(alloc: Global, left: &[u8], right: &[u8]) -> Result<Text, Memory>
    ensures { IfOk result (λ text. text ≡ texts.apart_from left.now right.now) }
{
    let mut text = List::from_slice(alloc, right)?;
    if left == right {
        text.extend_from_slice(b"'")?;
    }
    Ok(text)
}

/// Writes a type at the end of a text.
#[cycle(writing)]
#[tactic(auto, using(crate::proofs::Equations::types))]
fn write_type(alloc: Global, out: &mut Text, names: &[Text], of: &NormalType) -> Result<(), Memory>
    ensures { OnOk result (out.new ≡ out.old ++ texts.type_text names.now of.now) }
{
    match of {
        NormalType::Int => out.extend_from_slice(b"int"),
        NormalType::Str => out.extend_from_slice(b"string"),
        NormalType::Bool => out.extend_from_slice(b"bool"),
        NormalType::Page => out.extend_from_slice(b"page"),
        NormalType::Xbody => out.extend_from_slice(b"xbody"),
        NormalType::Xtable => out.extend_from_slice(b"xtable"),
        NormalType::Xtr => out.extend_from_slice(b"xtr"),
        NormalType::Variable(v) => write_var(alloc, out, v),
        NormalType::Datatype(d) => write_name(out, names, *d),
        NormalType::Opt(t) => write_wrapped(alloc, out, names, b"option ", t.get()),
        NormalType::Many(t) => write_wrapped(alloc, out, names, b"list ", t.get()),
        NormalType::Transaction(t) => write_wrapped(alloc, out, names, b"transaction ", t.get()),
        NormalType::Arrow(a, b) => {
            write_wrapped(alloc, out, names, b"", a.get())?;
            write_wrapped(alloc, out, names, b" -> ", b.get())?;
            Ok(())
        }
        NormalType::Record(r) => write_row(alloc, out, names, b"$[", r),
        NormalType::Form(r) => write_row(alloc, out, names, b"xml form [] [", r),
    }
}

/// Writes a word, and then a type in parentheses.
#[cycle(writing)]
fn write_wrapped(
    alloc: Global,
    out: &mut Text,
    names: &[Text],
    word: &[u8],
    of: &NormalType,
) -> Result<(), Memory>
    ensures { OnOk result (out.new ≡ out.old ++ (word.now ++ texts.wrapped (texts.type_text names.now of.now))) }
{
    out.extend_from_slice(word)?;
    out.extend_from_slice(b"(")?;
    write_type(alloc, out, names, of)?;
    out.extend_from_slice(b")")?;
    Ok(())
}

/// Writes a word, and then a row that stands in a type.
#[cycle(writing)]
fn write_row(
    alloc: Global,
    out: &mut Text,
    names: &[Text],
    word: &[u8],
    row: &List<Part>,
) -> Result<(), Memory>
    ensures { OnOk result (out.new ≡ out.old ++ (word.now ++ texts.inner_text names.now row.now)) }
{
    out.extend_from_slice(word)?;
    write_parts(alloc, out, names, row.as_slice())?;
    Ok(())
}

/// Writes the parts of a row and a closing bracket.
#[cycle(writing)]
fn write_parts(alloc: Global, out: &mut Text, names: &[Text], parts: &[Part]) -> Result<(), Memory>
    ensures { OnOk result (out.new ≡ out.old ++ texts.inner_text names.now parts.now) }
{
    for i in 0..parts.len() {
        write_part(alloc, out, names, &parts[i])?;
        out.extend_from_slice(b"; ")?;
    }
    out.extend_from_slice(b"]")?;
    Ok(())
}

#[cycle(writing)]
#[tactic(auto, using(crate::proofs::Equations::parts))]
fn write_part(alloc: Global, out: &mut Text, names: &[Text], part: &Part) -> Result<(), Memory>
    ensures { OnOk result (out.new ≡ out.old ++ texts.part_text names.now part.now) }
{
    match part {
        Part::Field(l, t) => {
            write_label(alloc, out, l)?;
            write_wrapped(alloc, out, names, b" = ", t.get())?;
            Ok(())
        }
        Part::Piece(v) => write_var(alloc, out, v),
        Part::Mapped(v, f) => {
            write_wrapped(alloc, out, names, b"map ", f.get())?;
            out.extend_from_slice(b" ")?;
            write_var(alloc, out, v)?;
            Ok(())
        }
    }
}

fn write_label(alloc: Global, out: &mut Text, l: &Label) -> Result<(), Memory>
    ensures { OnOk result (out.new ≡ out.old ++ texts.label_text l.now) }
{
    match l {
        Label::Literal(name) => out.extend_from_slice(name.as_slice()),
        Label::Variable(v) => write_var(alloc, out, v),
    }
}

fn write_var(alloc: Global, out: &mut Text, v: &Var) -> Result<(), Memory>
    ensures { OnOk result (out.new ≡ out.old ++ texts.var_text v.now) }
{
    match v {
        Var::Free(n) => write_free(alloc, out, *n),
        Var::Bound(i) => write_bound(alloc, out, *i),
    }
}

fn write_free(alloc: Global, out: &mut Text, number: u32) -> Result<(), Memory>
    ensures { OnOk result (out.new ≡ out.old ++ (codes "x" ++ decimal number)) }
{
    let text = format!(in alloc; "x{number}")?;
    out.extend_from_slice(text.as_bytes())
}

fn write_bound(alloc: Global, out: &mut Text, number: u32) -> Result<(), Memory>
    ensures { OnOk result (out.new ≡ out.old ++ (codes "y" ++ decimal number)) }
{
    let text = format!(in alloc; "y{number}")?;
    out.extend_from_slice(text.as_bytes())
}

fn write_name(out: &mut Text, names: &[Text], number: u32) -> Result<(), Memory>
    ensures { OnOk result (out.new ≡ out.old ++ slice_index_or names.now number []) }
{
    match names.get(number as usize) {
        None => Ok(()),
        Some(text) => out.extend_from_slice(text.as_slice()),
    }
}
