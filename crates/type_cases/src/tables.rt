//! Tables with their rows, and the values of antiquotes, as cases write them.
use std::alloc::Global;
use std::mem;
use ur_base::{Boxed, List, Memory, Shared, Text};
use ur_rows::{Normal, NormalType};
use ur_values::{ColumnKind, Numbered, Row, Schema, TableShape, Value};

/// The tables of a case that has none of its own: `s` and `t` are of the module M.
const TABLES: &str = "\
table s A:int B:string
table t A:int C:bool
table N.u A:int";

/// What a statement is read in.
#[derive(Drop)]
pub struct World {
    alloc: Global,
    pub schema: Schema,
    /// the rows of each table
    pub rows: List<List<Numbered>>,
    /// the rows of the last table
    last: List<Numbered>,
    /// the keys of the last table, by columns
    pub keys: List<List<u32>>,
    /// the values of antiquotes
    pub args: List<Value>,
    /// the types of the antiquotes of each statement
    pub found: List<List<Normal>>,
    /// those of the next statement
    next: List<Normal>,
}

/// The last word names the kind; with `?` it is one of options.
fn column_kind(word: &str) -> ColumnKind {
    match word {
        "int" => ColumnKind::Int,
        "bool" => ColumnKind::Bool,
        "int?" => ColumnKind::OptInt,
        "bool?" => ColumnKind::OptBool,
        "string?" => ColumnKind::OptStr,
        _ => ColumnKind::Str,
    }
}

/// `A:int` or `A:int?`
fn column(alloc: Global, word: &str) -> Result<(Text, ColumnKind), Memory> {
    let (name, of) = word.split_once(':').unwrap_or((word, ""));
    let name = List::from_slice(alloc, name.as_bytes())?;
    Ok((name, column_kind(of)))
}

fn columns(alloc: Global, words: &str) -> Result<List<(Text, ColumnKind)>, Memory> {
    let mut columns = List::new(alloc);
    for word in words.split_ascii_whitespace() {
        let column = column(alloc, word)?;
        columns.push(column)?;
    }
    Ok(columns)
}

/// `t` is of the module M, and `N.u` of N.
fn table_name(alloc: Global, written: &str) -> Result<Text, Memory> {
    let mut name = List::new(alloc);
    if !written.contains('.') {
        name.extend_from_slice(b"M.")?;
    }
    name.extend_from_slice(written.as_bytes())?;
    Ok(name)
}

/// `t A:int B:string`
fn table(alloc: Global, line: &str) -> Result<TableShape, Memory> {
    let (name, words) = line.split_once(' ').unwrap_or((line, ""));
    let name = table_name(alloc, name)?;
    let columns = columns(alloc, words)?;
    Ok(TableShape {
        name,
        columns,
        keys: List::new(alloc),
        primary: false,
    })
}

/// `true`, `false`, an int, or a text.
fn basic_value(alloc: Global, word: &str) -> Result<Value, Memory> {
    match word {
        "true" => return Ok(Value::Bool(true)),
        "false" => return Ok(Value::Bool(false)),
        _ => {}
    }
    match word.parse::<i64>() {
        Ok(n) => Ok(Value::Int(n)),
        Err(_) => Ok(Value::Str(List::from_slice(alloc, word.as_bytes())?)),
    }
}

/// What stands in `SOME(5)`, if the word is of this form.
fn inside(word: &str) -> Option<&str> {
    match word.split_once('(') {
        Some((_, rest)) => rest.strip_suffix(')'),
        None => None,
    }
}

/// `NULL`, `SOME(5)`, or a value that is no option.
fn value(alloc: Global, word: &str) -> Result<Value, Memory> {
    if let Some(held) = inside(word) {
        let held = basic_value(alloc, held)?;
        return Ok(Value::Present(Boxed::new(alloc, held)?));
    }
    match word {
        "NULL" => Ok(Value::Absent),
        _ => basic_value(alloc, word),
    }
}

fn row(alloc: Global, words: &str) -> Result<Row, Memory> {
    let mut row = List::new(alloc);
    for word in words.split_ascii_whitespace() {
        let value = value(alloc, word)?;
        row.push(value)?;
    }
    Ok(row)
}

fn numbers(alloc: Global, words: &str) -> Result<List<u32>, Memory> {
    let mut numbers = List::new(alloc);
    for word in words.split_ascii_whitespace() {
        numbers.push(word.parse::<u32>().unwrap_or(0))?;
    }
    Ok(numbers)
}

fn basic_type(value: &Value) -> NormalType {
    match value {
        Value::Int(_) => NormalType::Int,
        Value::Bool(_) => NormalType::Bool,
        _ => NormalType::Str,
    }
}

fn option_of(alloc: Global, of: NormalType) -> Result<NormalType, Memory> {
    Ok(NormalType::Opt(Boxed::new(alloc, of)?))
}

/// The type of a value; NULL is an option of an int.
fn type_of(alloc: Global, value: &Value) -> Result<NormalType, Memory> {
    match value {
        Value::Absent => option_of(alloc, NormalType::Int),
        Value::Present(held) => option_of(alloc, basic_type(held.get())),
        plain => Ok(basic_type(plain)),
    }
}

pub fn named_type(word: &str) -> NormalType {
    match word {
        "xtr" => NormalType::Xtr,
        "int" => NormalType::Int,
        "bool" => NormalType::Bool,
        "string" => NormalType::Str,
        _ => NormalType::Page,
    }
}

/// `int` or `int?`
fn antiquote_type(alloc: Global, word: &str) -> Result<NormalType, Memory> {
    match word.strip_suffix('?') {
        Some(inside) => option_of(alloc, named_type(inside)),
        None => Ok(named_type(word)),
    }
}

impl World {
    pub fn new(alloc: Global) -> World {
        World {
            alloc,
            schema: Schema {
                tables: List::new(alloc),
                sequences: List::new(alloc),
            },
            rows: List::new(alloc),
            last: List::new(alloc),
            keys: List::new(alloc),
            args: List::new(alloc),
            found: List::new(alloc),
            next: List::new(alloc),
        }
    }

    /// Takes what the lines of a text say of tables, rows and antiquotes, and gives the last two other lines: statements, each behind its antiquotes.
    /// Where the text begins with no table, there are those that stand for every case.
    pub fn read<'a>(&mut self, text: &'a str) -> Result<(&'a str, &'a str), Memory> {
        if !text.starts_with("table ") {
            self.take_lines(TABLES)?;
        }
        let left = self.take_lines(text)?;
        self.end_table()?;
        Ok(left)
    }

    fn take_lines<'a>(&mut self, text: &'a str) -> Result<(&'a str, &'a str), Memory> {
        let mut left = ("", "");
        for line in text.lines() {
            if !self.take(line)? {
                left = (left.1, line);
                self.end_antiquotes()?;
            }
        }
        Ok(left)
    }

    fn end_antiquotes(&mut self) -> Result<(), Memory> {
        let none = List::new(self.alloc);
        let found = mem::replace(&mut self.next, none);
        self.found.push(found)
    }

    fn take(&mut self, line: &str) -> Result<bool, Memory> {
        let (word, rest) = line.split_once(' ').unwrap_or((line, ""));
        match word {
            "table" => self.take_table(rest)?,
            "values" => self.take_row(rest)?,
            "key" => self.take_key(rest)?,
            "arg" => self.take_arg(rest)?,
            "type" => self.take_type(rest)?,
            _ => return Ok(false),
        }
        Ok(true)
    }

    fn take_table(&mut self, line: &str) -> Result<(), Memory> {
        if !self.schema.tables.is_empty() {
            self.end_table()?;
        }
        let table = table(self.alloc, line)?;
        self.schema.tables.push(table)
    }

    /// The rows of the last table stand behind those of the others.
    fn end_table(&mut self) -> Result<(), Memory> {
        let none = List::new(self.alloc);
        let rows = mem::replace(&mut self.last, none);
        self.rows.push(rows)
    }

    fn take_row(&mut self, words: &str) -> Result<(), Memory> {
        let row = Shared::new(self.alloc, row(self.alloc, words)?)?;
        let number = self.last.len() as u64;
        self.last.push(Numbered { number, row })
    }

    fn take_key(&mut self, words: &str) -> Result<(), Memory> {
        let key = numbers(self.alloc, words)?;
        self.keys.push(key)
    }

    fn take_type(&mut self, word: &str) -> Result<(), Memory> {
        let of = antiquote_type(self.alloc, word)?;
        self.next.push(Normal::Type(of))
    }

    /// The value of an antiquote, which is of its type.
    fn take_arg(&mut self, word: &str) -> Result<(), Memory> {
        let value = value(self.alloc, word)?;
        let of = type_of(self.alloc, &value)?;
        self.next.push(Normal::Type(of))?;
        self.args.push(value)
    }
}
