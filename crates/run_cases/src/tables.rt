//! What a store keeps.
ghost use Rattle.std.specs.Prelude.{◌≡◌, false, true, Some};
ghost use Rattle.ur_keeper.specs.Tables.{Keeps};

use case_files::Printer;
use std::alloc::Global;
use ur_base::List;
use ur_keeper::{Attached, Keeper, MemoryKeeper};
use ur_values::{Numbered, Schema, TableShape, Value};

/// No tables: a store of another schema tells it when it is asked for this one, and stays as it is.
fn no_tables(alloc: Global) -> Schema {
    Schema {
        tables: List::new(alloc),
        sequences: List::new(alloc),
    }
}

/// A line for each table that has rows, with its name and the values of each row in parentheses.
pub fn put_held(alloc: Global, keeper: &mut MemoryKeeper, p: &mut Printer)
    requires { keeper.old.under_way ≡ false }
{
    let none = no_tables(alloc);
    let Ok(answer) = keeper.attach(&none) else {
        return;
    };
    match answer {
        Attached::Ready => {}
        Attached::Differs(kept) => put_kept(&kept, keeper, p),
    }
}

fn put_kept(kept: &Schema, keeper: &MemoryKeeper, p: &mut Printer)
    requires { keeper.now.kept ≡ Some kept.now }
{
    for i in 0..kept.tables.len() {
        let Ok(table) = u32::try_from(i) else {
            return;
        };
        put_table(
            &kept.tables.as_slice()[i],
            keeper.table(table).as_slice(),
            p,
        );
    }
}

/// The same of any keeper, which is attached to its own schema and asked for the rows of each table.
pub fn put_saved<K: Keeper>(alloc: Global, keeper: &mut K, p: &mut Printer)
    requires { K.under_way keeper.old ≡ false }
{
    let none = no_tables(alloc);
    let Ok(Attached::Differs(kept)) = keeper.attach(&none) else {
        return;
    };
    let Ok(Attached::Ready) = keeper.attach(&kept) else {
        return;
    };
    keeper.begin();
    put_scanned(&kept, keeper, p);
}

/// The rows of each table that is scanned.
fn put_scanned<K: Keeper>(kept: &Schema, keeper: &mut K, p: &mut Printer)
    requires under_way { K.under_way keeper.old ≡ true }
    requires kept { K.kept keeper.old ≡ Keeps kept.now }
{
    for i in 0..kept.tables.len() {
        let Ok(table) = u32::try_from(i) else {
            return;
        };
        let Ok(rows) = keeper.scan(table) else {
            return;
        };
        put_table(&kept.tables.as_slice()[i], rows.as_slice(), p);
    }
}

fn put_table(table: &TableShape, rows: &[Numbered], p: &mut Printer) {
    if rows.is_empty() {
        return;
    }
    p.put(b"\n+ ");
    p.put(table.name.as_slice());
    put_rows(rows, p);
}

fn put_rows(rows: &[Numbered], p: &mut Printer) {
    for row in rows {
        p.word(b"(");
        for value in row.row.get().as_slice() {
            put_value(value, p);
        }
        p.put(b")");
    }
}

/// A value of a column; `none` and `(some v)` where the column may be empty.
fn put_value(value: &Value, p: &mut Printer) {
    match value {
        Value::Absent => p.word(b"none"),
        Value::Present(held) => {
            p.word(b"(some");
            put_basic(held.get(), p);
            p.put(b")");
        }
        basic => put_basic(basic, p),
    }
}

fn put_basic(value: &Value, p: &mut Printer) {
    match value {
        Value::Int(int) => p.int(*int),
        Value::Str(text) => p.quoted(text.as_slice()),
        Value::Bool(true) => p.word(b"True"),
        Value::Bool(false) => p.word(b"False"),
        _ => p.word(b"?"),
    }
}
