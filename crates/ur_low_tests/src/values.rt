//! Sizes, nestings, copies and texts of values, rows and schemas.
use std::alloc::Global;
use ur_base::{Boxed, List, Memory, Name, Shared, Text};
use ur_values::{Call, ColumnKind, Node, Numbered, Schema, TableShape, Tag, Value};

fn only<T: Drop>(alloc: Global, element: T) -> Result<List<T>, Memory> {
    let mut list = List::new(alloc);
    list.push(element)?;
    Ok(list)
}

fn label(alloc: Global) -> Result<List<Node>, Memory> {
    let label = text(alloc, b"abc")?;
    only(alloc, Node::Text(label))
}

fn link(alloc: Global) -> Result<Node, Memory> {
    let args = only(alloc, Value::Int(7))?;
    let inner = label(alloc)?;
    Ok(Node::Link(Call { route: 1, args }, inner))
}

fn paragraph(alloc: Global) -> Result<Node, Memory> {
    let link = link(alloc)?;
    let links = only(alloc, link)?;
    Ok(Node::Element(Tag::P, links))
}

/// A page with a paragraph that holds a link.
fn page(alloc: Global) -> Result<Value, Memory> {
    let paragraph = paragraph(alloc)?;
    let nodes = only(alloc, paragraph)?;
    Ok(Value::Markup(nodes))
}

fn text(alloc: Global, bytes: &[u8]) -> Result<Text, Memory> {
    List::from_slice(alloc, bytes)
}

/// The value in a box, by itself in a list, or by itself in a record.
fn wrapped(alloc: Global, value: Value, kind: u32) -> Result<Value, Memory> {
    match kind {
        0 => present(alloc, value),
        1 => tagged(alloc, value),
        2 => listed(alloc, value),
        _ => record(alloc, value),
    }
}

fn present(alloc: Global, value: Value) -> Result<Value, Memory> {
    let held = Boxed::new(alloc, value)?;
    Ok(Value::Present(held))
}

fn tagged(alloc: Global, value: Value) -> Result<Value, Memory> {
    let held = Boxed::new(alloc, value)?;
    Ok(Value::Tagged(3, Some(held)))
}

fn listed(alloc: Global, value: Value) -> Result<Value, Memory> {
    Ok(Value::Many(only(alloc, value)?))
}

fn record(alloc: Global, value: Value) -> Result<Value, Memory> {
    Ok(Value::Row(only(alloc, (Name(0), value))?))
}

/// The value with so many others round it.
fn tall(alloc: Global, value: Value, levels: u32) -> Result<Value, Memory> {
    let mut value = value;
    for level in 0..levels {
        value = wrapped(alloc, value, level % 4)?;
    }
    Ok(value)
}

fn is_measured(alloc: Global, value: &Value, size: u64, nesting: u32) -> Result<bool, Memory> {
    let copy = value.copy(alloc)?;
    Ok(value.size() == size && value.nesting() == nesting && copy.same(value))
}

/// A page, which nests five deep, at the greatest nesting.
fn tall_is_measured(alloc: Global) -> Result<bool, Memory> {
    let page = page(alloc)?;
    let value = tall(alloc, page, 1019)?;
    is_measured(alloc, &value, 32 * 1019 + 163, 1024)
}

fn large_is_measured(alloc: Global, size: usize) -> Result<bool, Memory> {
    let letters = vec![in alloc; b'x'; size]?;
    let value = Value::Str(List::from_vec(letters));
    is_measured(alloc, &value, 16_777_216, 1)
}

#[test]
fn values_are_measured_and_copied(rt: HostRuntime) -> Result<(), Memory> {
    assert!(rt; tall_is_measured(rt.alloc())?);
    assert!(rt; large_is_measured(rt.alloc(), 16_777_184)?);
    Ok(())
}

fn has_atom(alloc: Global, bytes: &[u8]) -> Result<bool, Memory> {
    let value = Value::Str(text(alloc, bytes)?);
    if !value.is_atomic() {
        return Ok(false);
    }
    let atom = value.atom(alloc)?;
    Ok(atom.size() == value.size())
}

fn has_copy(alloc: Global, number: u64) -> Result<bool, Memory> {
    let mut row = List::new(alloc);
    row.push(Value::Int(5))?;
    let row = Shared::new(alloc, row)?;
    let row = Numbered { number, row };
    let copy = row.copy(alloc)?;
    Ok(copy.number == number && copy.row.get().len() == 1)
}

#[test]
fn atoms_and_rows_are_made(rt: HostRuntime) -> Result<(), Memory> {
    assert!(rt; has_atom(rt.alloc(), b"ab")?);
    assert!(rt; has_copy(rt.alloc(), 9)?);
    Ok(())
}

fn column(alloc: Global, name: &[u8], kind: ColumnKind) -> Result<(Text, ColumnKind), Memory> {
    let name = text(alloc, name)?;
    Ok((name, kind))
}

fn columns(alloc: Global) -> Result<List<(Text, ColumnKind)>, Memory> {
    let mut columns = List::new(alloc);
    for (name, kind) in [
        (b"Body".as_slice(), ColumnKind::Str),
        (b"Id", ColumnKind::Int),
    ] {
        let column = column(alloc, name, kind)?;
        columns.push(column)?;
    }
    Ok(columns)
}

fn keys(alloc: Global) -> Result<List<List<u32>>, Memory> {
    let mut keys = List::new(alloc);
    for columns in [[1].as_slice(), &[1, 0]] {
        let key = List::from_slice(alloc, columns)?;
        keys.push(key)?;
    }
    Ok(keys)
}

/// A table of a text and an int, with its primary key and another one.
fn notes(alloc: Global) -> Result<TableShape, Memory> {
    let columns = columns(alloc)?;
    let keys = keys(alloc)?;
    let name = text(alloc, b"Main.note")?;
    Ok(TableShape {
        name,
        columns,
        keys,
        primary: true,
    })
}

fn tables(alloc: Global) -> Result<List<TableShape>, Memory> {
    let table = notes(alloc)?;
    only(alloc, table)
}

fn schema(alloc: Global) -> Result<Schema, Memory> {
    let name = text(alloc, b"Main.ids")?;
    let sequences = only(alloc, name)?;
    let tables = tables(alloc)?;
    Ok(Schema { tables, sequences })
}

fn has_text(alloc: Global, schema: &Schema, want: &[u8]) -> Result<bool, Memory> {
    let line = schema.text(alloc)?;
    Ok(line.as_slice() == want)
}

fn has_same_text(alloc: Global, schema: &Schema, want: &[u8]) -> Result<bool, Memory> {
    let copy = schema.copy(alloc)?;
    if !copy.same(schema) {
        return Ok(false);
    }
    has_text(alloc, &copy, want)
}

/// Whether a schema has this text, and a copy of it too.
fn is_written(alloc: Global, want: &[u8]) -> Result<bool, Memory> {
    let schema = schema(alloc)?;
    has_same_text(alloc, &schema, want)
}

#[test]
fn a_schema_is_copied_and_written(rt: HostRuntime) -> Result<(), Memory> {
    let lines =
        b"table Main.note Body:string Id:int primary Id unique Id Body\nsequence Main.ids\n";
    assert!(rt; is_written(rt.alloc(), lines.as_slice())?);
    Ok(())
}
