//! Types as text.
ghost use Rattle.std.specs.Prelude.{◌≡◌, ◌++◌, codes, slice_index_or, IfOk, OnOk, []};
ghost use Rattle.std.specs.Fmt.{decimal};
ghost use Rattle.ur_values.specs.Texts as texts;

use crate::types::{TypeField, ValueType};
use std::alloc::Global;
use ur_base::{List, Memory, Name, Text};

/// A type as text; the names of its fields are these, by number.
pub fn type_text(alloc: Global, names: &[Text], of: &ValueType) -> Result<Text, Memory>
    ensures { IfOk result (λ text. text ≡ texts.type_text names.now of.now) }
{
    let mut text = List::new(alloc);
    write_type(alloc, &mut text, names, of)?;
    Ok(text)
}

/// Writes a type at the end of a text.
#[cycle(writing)]
#[tactic(auto, using(crate::proofs::TypesEquations::types))]
pub fn write_type(
    alloc: Global,
    out: &mut Text,
    names: &[Text],
    of: &ValueType,
) -> Result<(), Memory>
    ensures { OnOk result (out.new ≡ out.old ++ texts.type_text names.now of.now) }
{
    match of {
        ValueType::Int => out.extend_from_slice(b"int"),
        ValueType::Str => out.extend_from_slice(b"string"),
        ValueType::Bool => out.extend_from_slice(b"bool"),
        ValueType::Record(fields) => write_fields(alloc, out, names, b"{", fields),
        ValueType::Opt(of) => write_around(alloc, out, names, b"option ", of.get()),
        ValueType::Many(of) => write_around(alloc, out, names, b"list ", of.get()),
        ValueType::Datatype(number) => write_datatype(alloc, out, *number),
        ValueType::Page => out.extend_from_slice(b"page"),
        ValueType::Xbody => out.extend_from_slice(b"xbody"),
        ValueType::Xtable => out.extend_from_slice(b"xtable"),
        ValueType::Xtr => out.extend_from_slice(b"xtr"),
        ValueType::Form(fields) => write_fields(alloc, out, names, b"form {", fields),
    }
}

/// Writes a word and then a type, which stands in parentheses unless it is plain.
#[cycle(writing)]
pub fn write_around(
    alloc: Global,
    out: &mut Text,
    names: &[Text],
    word: &[u8],
    of: &ValueType,
) -> Result<(), Memory>
    ensures { OnOk result (out.new ≡ out.old ++ (word.now ++ texts.around of.now (texts.type_text names.now of.now))) }
{
    out.extend_from_slice(word)?;
    if is_plain(of) {
        write_type(alloc, out, names, of)?;
        return Ok(());
    }
    out.extend_from_slice(b"(")?;
    write_type(alloc, out, names, of)?;
    out.extend_from_slice(b")")?;
    Ok(())
}

/// Writes a word, the fields and a closing brace.
#[cycle(writing)]
fn write_fields(
    alloc: Global,
    out: &mut Text,
    names: &[Text],
    word: &[u8],
    fields: &List<TypeField>,
) -> Result<(), Memory>
    ensures { OnOk result (out.new ≡ out.old ++ (word.now ++ (texts.fields_text names.now fields.now ++ codes " }"))) }
{
    out.extend_from_slice(word)?;
    for field in fields.as_slice() {
        write_field(alloc, out, names, field)?;
    }
    out.extend_from_slice(b" }")?;
    Ok(())
}

#[cycle(writing)]
fn write_field(
    alloc: Global,
    out: &mut Text,
    names: &[Text],
    field: &TypeField,
) -> Result<(), Memory>
    ensures { OnOk result (out.new ≡ out.old ++ texts.field_text names.now field.now.name (texts.type_text names.now field.now.of)) }
{
    out.push(b' ')?;
    write_name(out, names, field.name)?;
    out.extend_from_slice(b" : ")?;
    write_type(alloc, out, names, &field.of)?;
    out.push(b';')?;
    Ok(())
}

fn write_name(out: &mut Text, names: &[Text], name: Name) -> Result<(), Memory>
    ensures { OnOk result (out.new ≡ out.old ++ slice_index_or names.now name.0 []) }
{
    match names.get(name.0 as usize) {
        None => Ok(()),
        Some(text) => out.extend_from_slice(text.as_slice()),
    }
}

fn write_datatype(alloc: Global, out: &mut Text, number: u32) -> Result<(), Memory>
    ensures { OnOk result (out.new ≡ out.old ++ (codes "datatype " ++ decimal number)) }
{
    let text = format!(in alloc; "datatype {number}")?;
    out.extend_from_slice(text.as_bytes())
}

fn is_plain(of: &ValueType) -> bool
    ensures { result ≡ texts.is_plain of.now }
{
    match of {
        ValueType::Int => true,
        ValueType::Str => true,
        ValueType::Bool => true,
        ValueType::Record(_) => true,
        ValueType::Opt(_) => false,
        ValueType::Many(_) => false,
        ValueType::Datatype(_) => false,
        ValueType::Page => true,
        ValueType::Xbody => true,
        ValueType::Xtable => true,
        ValueType::Xtr => true,
        ValueType::Form(_) => false,
    }
}
