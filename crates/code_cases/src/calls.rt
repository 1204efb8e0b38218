//! Calls of routes, as cases write them: the number of the route, and behind a comma each the arguments.
use crate::words::{number, text};
use case_files::Printer;
use std::alloc::Global;
use ur_base::{List, Memory};
use ur_values::{Call, Value};

/// A string behind `"`, `u` for a unit, a bool or an int.
pub fn value(alloc: Global, word: &str) -> Result<Value, Memory> {
    if let Some(string) = word.strip_prefix('"') {
        return Ok(Value::Str(text(alloc, string)?));
    }
    match word {
        "u" => Ok(Value::Row(List::new(alloc))),
        "true" => Ok(Value::Bool(true)),
        "false" => Ok(Value::Bool(false)),
        _ => Ok(Value::Int(word.parse::<i64>().unwrap_or(0))),
    }
}

fn values(alloc: Global, words: &str) -> Result<List<Value>, Memory> {
    let mut values = List::new(alloc);
    for word in words.split(',') {
        let value = value(alloc, word)?;
        values.push(value)?;
    }
    Ok(values)
}

/// `0,"ann,u` is a call of the route 0 with a string and a unit.
pub fn call(alloc: Global, words: &str) -> Result<Call, Memory> {
    let (route, words) = words.split_once(',').unwrap_or((words, ""));
    let args = values(alloc, words)?;
    let route = number(route);
    Ok(Call { route, args })
}

/// A value as cases write it.
pub fn put_value(p: &mut Printer, value: &Value) {
    match value {
        Value::Int(n) => p.int(*n),
        Value::Bool(true) => p.word(b"true"),
        Value::Bool(false) => p.word(b"false"),
        Value::Str(text) => {
            p.word(b"\"");
            p.put(text.as_slice());
        }
        Value::Row(_) => p.word(b"u"),
        _ => p.word(b"?"),
    }
}

/// The number of the route and the values.
pub fn put_call(p: &mut Printer, call: &Call) {
    p.number(u64::from(call.route));
    for value in call.args.as_slice() {
        put_value(p, value);
    }
}
