//! Values, rows and changes of rows as text.
use case_files::Printer;
use ur_sql::{Planned, RowChange};
use ur_values::{Row, Value};

/// An int, a bool, a text, `none`, `(some v)`, or the values of a record in parentheses.
#[cycle(values)]
pub fn put_value(p: &mut Printer, value: &Value) {
    match value {
        Value::Int(n) => p.int(*n),
        Value::Bool(true) => p.word(b"true"),
        Value::Bool(false) => p.word(b"false"),
        Value::Str(text) => p.word(text.as_slice()),
        Value::Absent => p.word(b"none"),
        Value::Present(held) => {
            p.word(b"(some");
            put_value(p, held.get());
            p.put(b")");
        }
        Value::Row(fields) => {
            p.word(b"(");
            for field in fields.as_slice() {
                put_value(p, &field.1);
            }
            p.put(b")");
        }
        _ => p.word(b"?"),
    }
}

pub fn put_rows(p: &mut Printer, rows: &[Value]) {
    p.put(b"=");
    for row in rows {
        put_value(p, row);
    }
}

fn put_cells(p: &mut Printer, row: &Row) {
    for value in row.as_slice() {
        put_value(p, value);
    }
    p.put(b")");
}

/// `(+ v v)` for a new row, `(= n v v)` for what the row with this number becomes, `(- n)` for a row that goes.
fn put_change(p: &mut Printer, change: &RowChange) {
    match change {
        RowChange::Add(row) => {
            p.word(b"(+");
            put_cells(p, row);
        }
        RowChange::Put(number, row) => {
            p.word(b"(=");
            p.number(*number);
            put_cells(p, row);
        }
        RowChange::Drop(number) => {
            p.word(b"(-");
            p.number(*number);
            p.put(b")");
        }
    }
}

/// The changes of rows; or `key` and the first key that would repeat, or `full`.
pub fn put_planned(p: &mut Printer, planned: &Planned) {
    p.put(b"=");
    match planned {
        Planned::Changes(changes) => {
            for change in changes {
                put_change(p, change);
            }
        }
        Planned::DuplicateKey(key) => {
            p.word(b"key");
            p.number(u64::from(*key));
        }
        Planned::TableFull => p.word(b"full"),
    }
}
