//! Code, as cases write it: a line for each thing that it declares.
use crate::sorts::{last_sort, sort, sorts};
use crate::statements::{delete, insert, query};
use crate::terms::term;
use crate::words::{first, kind, kinds, number, numbers, text};
use std::alloc::Global;
use ur_base::{List, Memory, Name, Text};
use ur_code::{Code, Cookie};
use ur_tags::{FormField, Handlers, Param, Route};
use ur_terms::Function;
use ur_values::{ColumnKind, Schema, TableShape};

/// A program of notes: `list` shows an owner's notes, `add` adds one and lists, `drop` removes one, `mark` sets the cookie, `seen` shows it,
/// and `oops` adds a note, sets the cookie and fails.
const NOTES: &str = "\
table Main.note 0 Id:i Owner:s Body:s
sequence Main.ids
cookie Main.seen i
name Body
name Id
query s 0 2,0 c1=p0 0
insert 0
delete 0 i c0=p0
route Main list s get 0
route Main add s post 1 Body
route Main drop iu post 2
route Main mark - post 3
route Main seen - get 4
route Main oops s post 5 Body
fun list s !p v:0 ask:0/1 text:Notes element:title/1 element:head/1 v:1 shown/1 element:h1/1 v:0 v:0 of:0/1 shown/1 element:p/1 v:0 of:1/1 s:Drop submit:2,1u/2 element:form/1 body/2 each input:Body v:1 s:Add submit:1,1/2 element:form/2 element:body/3 page/2 let/1
fun add ss. !p next:0 v:0 v:1 v:2 of:0/1 write:0/3 v:2 call:0/1 let/1 let/1
fun drop iu !p v:0 write:1/1 text:done element:p/1 element:body/1 let/1
fun mark - !p i:3 set:0/1 element:body let/1
fun seen - !p get:0 v:0 shown/1 element:body/1 element:body case:ns
fun oops ss. !p next:0 v:0 v:1 v:2 of:0/1 write:0/3 i:3 set:0/1 text:no fail/1 let/2 let/1";

/// A table of ints, a sequence, a cookie, queries for all rows, for those of an int and for all pairs, changes that add and drop an int,
/// and a function that counts down to 0.
const SMALL: &str = "\
table T 0 Id:i
sequence s
cookie c s
query - 0 0 - -
query i 0 0 c0=p0 -
query - 0,0 0 - -
insert 0
delete 0 i c0=p0
route M main - post 1
fun down i i v:0 i:0 eq/2 i:0 v:0 i:1 sub/2 call:0/1 if";

/// Code without anything.
pub fn nothing(alloc: Global) -> Code {
    Code {
        schema: Schema {
            tables: List::new(alloc),
            sequences: List::new(alloc),
        },
        handlers: Handlers {
            routes: List::new(alloc),
        },
        targets: List::new(alloc),
        names: List::new(alloc),
        variants: List::new(alloc),
        cookies: List::new(alloc),
        functions: List::new(alloc),
        queries: List::new(alloc),
        changes: List::new(alloc),
    }
}

// ---- tables

/// `Id:i`
fn column(alloc: Global, word: &str) -> Result<(Text, ColumnKind), Memory> {
    let (name, of) = word.split_once(':').unwrap_or((word, ""));
    let letter = of.as_bytes().first().copied().unwrap_or(b's');
    let name = text(alloc, name)?;
    Ok((name, kind(letter).unwrap_or(ColumnKind::Str)))
}

fn columns(alloc: Global, words: &str) -> Result<List<(Text, ColumnKind)>, Memory> {
    let mut columns = List::new(alloc);
    for word in words.split_ascii_whitespace() {
        let column = column(alloc, word)?;
        columns.push(column)?;
    }
    Ok(columns)
}

/// The one key, or none.
fn keys(alloc: Global, word: &str) -> Result<List<List<u32>>, Memory> {
    let mut keys = List::new(alloc);
    let key = numbers(alloc, word)?;
    if !key.is_empty() {
        keys.push(key)?;
    }
    Ok(keys)
}

/// `note 0 Id:i Body:s` has the first column as its key.
fn table(alloc: Global, line: &str) -> Result<TableShape, Memory> {
    let (name, rest) = first(line);
    let (key, words) = first(rest);
    let keys = keys(alloc, key)?;
    let columns = columns(alloc, words)?;
    let name = text(alloc, name)?;
    let primary = !keys.is_empty();
    Ok(TableShape {
        name,
        columns,
        keys,
        primary,
    })
}

// ---- routes

fn param(letter: u8) -> Option<Param> {
    match letter {
        b'i' => Some(Param::Int),
        b's' => Some(Param::Str),
        b'b' => Some(Param::Bool),
        b'u' => Some(Param::Unit),
        _ => None,
    }
}

fn params(alloc: Global, letters: &str) -> Result<List<Param>, Memory> {
    let mut params = List::new(alloc);
    for letter in letters.as_bytes() {
        if let Some(param) = param(*letter) {
            params.push(param)?;
        }
    }
    Ok(params)
}

/// A field of a form by its name, a checkbox where `?` stands behind it.
fn field(alloc: Global, number: u32, word: &str) -> Result<FormField, Memory> {
    let name = word.strip_suffix('?').unwrap_or(word);
    let checkbox = name.len() < word.len();
    let name = text(alloc, name)?;
    Ok(FormField {
        number: Name(number),
        name,
        checkbox,
    })
}

fn form(alloc: Global, words: &str) -> Result<List<FormField>, Memory> {
    let mut form = List::new(alloc);
    let mut number = 0u32;
    for word in words.split_ascii_whitespace() {
        let field = field(alloc, number, word)?;
        form.push(field)?;
        number = number.saturating_add(1);
    }
    Ok(form)
}

/// `Main add s post 1 Body` is a route with a string in its path and a form of one field, to the function 1.
fn route(alloc: Global, line: &str) -> Result<(Route, u32), Memory> {
    let (module_name, rest) = first(line);
    let (function_name, rest) = first(rest);
    let (params, rest) = first(rest);
    let (method, rest) = first(rest);
    let (target, fields) = first(rest);
    let form = form(alloc, fields)?;
    let params = self::params(alloc, params)?;
    let function_name = text(alloc, function_name)?;
    let module_name = text(alloc, module_name)?;
    let get = method == "get";
    let route = Route {
        module_name,
        function_name,
        params,
        form,
        get,
        post: !get,
    };
    Ok((route, number(target)))
}

fn take_route(alloc: Global, code: &mut Code, line: &str) -> Result<(), Memory> {
    let (route, target) = route(alloc, line)?;
    code.handlers.routes.push(route)?;
    code.targets.push(target)
}

// ---- functions

/// `add ii i ..` has two ints and gives an int. One with `!` before its result runs.
fn function(alloc: Global, line: &str) -> Result<Function, Memory> {
    let (name, rest) = first(line);
    let (params, rest) = first(rest);
    let (result, body) = first(rest);
    let gives = result.strip_prefix('!').unwrap_or(result);
    let runs = gives.len() < result.len();
    let name = text(alloc, name)?;
    let params = sorts(alloc, params)?;
    let result = sort(alloc, gives)?;
    let body = term(alloc, body)?;
    Ok(Function {
        name,
        params,
        result,
        runs,
        body,
    })
}

// ---- what is named

/// A constructor of this datatype, with the type of its argument or `-`.
fn take_variant(alloc: Global, code: &mut Code, line: &str) -> Result<(), Memory> {
    let (datatype, of) = first(line);
    let of = last_sort(alloc, of)?;
    code.variants.push((number(datatype), of))
}

fn take_cookie(alloc: Global, code: &mut Code, line: &str) -> Result<(), Memory> {
    let (name, of) = first(line);
    let letter = of.as_bytes().first().copied().unwrap_or(b's');
    let of = kind(letter).unwrap_or(ColumnKind::Str);
    let name = text(alloc, name)?;
    code.cookies.push(Cookie { name, of })
}

/// Takes a line of tables, sequences, cookies, names and constructors, or answers that it is none.
fn take_name(alloc: Global, code: &mut Code, word: &str, rest: &str) -> Result<bool, Memory> {
    match word {
        "table" => code.schema.tables.push(table(alloc, rest)?)?,
        "sequence" => code.schema.sequences.push(text(alloc, rest)?)?,
        "name" => code.names.push(text(alloc, rest)?)?,
        "cookie" => take_cookie(alloc, code, rest)?,
        "variant" => take_variant(alloc, code, rest)?,
        _ => return Ok(false),
    }
    Ok(true)
}

/// Takes a line of statements, routes and functions, or answers that it is none.
fn take_deed(alloc: Global, code: &mut Code, word: &str, rest: &str) -> Result<bool, Memory> {
    match word {
        "query" => code.queries.push(query(alloc, &code.schema, rest)?)?,
        "insert" => code.changes.push(insert(alloc, &code.schema, rest)?)?,
        "delete" => code.changes.push(delete(alloc, &code.schema, rest)?)?,
        "route" => take_route(alloc, code, rest)?,
        "fun" => code.functions.push(function(alloc, rest)?)?,
        _ => return Ok(false),
    }
    Ok(true)
}

/// Takes a line, or answers that it is none of code.
fn take(alloc: Global, code: &mut Code, line: &str) -> Result<bool, Memory> {
    let (word, rest) = first(line);
    if take_name(alloc, code, word, rest)? {
        return Ok(true);
    }
    take_deed(alloc, code, word, rest)
}

fn take_lines(alloc: Global, code: &mut Code, lines: &str) -> Result<(), Memory> {
    for line in lines.lines() {
        take(alloc, code, line)?;
    }
    Ok(())
}

/// The line with this number, from 1.
fn line_at<'a>(text: &'a str, number: u64) -> &'a str {
    let mut at = 0u64;
    for line in text.lines() {
        at = at.saturating_add(1);
        if at == number {
            return line;
        }
    }
    ""
}

/// Takes a line, or the lines of `notes` or `small`, which are programs of their own.
fn take_any(alloc: Global, code: &mut Code, line: &str) -> Result<bool, Memory> {
    match line {
        "notes" => {
            take_lines(alloc, code, NOTES)?;
            Ok(true)
        }
        "small" => {
            take_lines(alloc, code, SMALL)?;
            Ok(true)
        }
        _ => take(alloc, code, line),
    }
}

/// Takes the lines of code in a text, and answers the last other one.
pub fn take_text<'a>(alloc: Global, code: &mut Code, text: &'a str) -> Result<&'a str, Memory> {
    let mut at = 0u64;
    let mut other = 0u64;
    for line in text.lines() {
        at = at.saturating_add(1);
        if !take_any(alloc, code, line)? {
            other = at;
        }
    }
    Ok(line_at(text, other))
}
