//! A checked source as text: its routes, sites and updates.
use case_files::Printer;
use ur_sql::{Action, Change, Query};
use ur_tags::{Param, Route};
use ur_tree::Typed;
use ur_values::Schema;

/// `ok`, and a line for each route, each site and each update, in order.
pub fn put_source(typed: &Typed, p: &mut Printer) {
    p.put(b"= ok");
    for route in typed.handlers.routes.as_slice() {
        put_route(route, p);
    }
    for query in typed.queries.as_slice() {
        put_site(&typed.schema, query, p);
    }
    for change in typed.changes.as_slice() {
        put_update(&typed.schema, change, p);
    }
}

/// The methods, the names, the types of the arguments, and the fields of the form, `?` behind a checkbox.
fn put_route(route: &Route, p: &mut Printer) {
    p.put(methods(route));
    p.put(route.module_name.as_slice());
    p.put(b"/");
    p.put(route.function_name.as_slice());
    for param in route.params.as_slice() {
        p.word(param_word(*param));
    }
    for field in route.form.as_slice() {
        p.word(field.name.as_slice());
        if field.checkbox {
            p.put(b"?");
        }
    }
}

fn methods(route: &Route) -> &'static [u8] {
    match (route.get, route.post) {
        (true, true) => b"\n+ GET POST ",
        (true, false) => b"\n+ GET ",
        (false, true) => b"\n+ POST ",
        (false, false) => b"\n+ none ",
    }
}

fn param_word(param: Param) -> &'static [u8] {
    match param {
        Param::Int => b"int",
        Param::Str => b"string",
        Param::Bool => b"bool",
        Param::Unit => b"unit",
    }
}

/// The tables of FROM, and how many antiquotes there are.
fn put_site(schema: &Schema, query: &Query, p: &mut Printer) {
    p.put(b"\n+ site");
    for item in query.from.as_slice() {
        put_table(schema, item.table, p);
    }
    p.number(query.params.len() as u64);
}

/// What is done to which table, and how many antiquotes there are.
fn put_update(schema: &Schema, change: &Change, p: &mut Printer) {
    p.put(action_word(&change.action));
    put_table(schema, change.table, p);
    p.number(change.params.len() as u64);
}

fn action_word(action: &Action) -> &'static [u8] {
    match action {
        Action::Insert(_) => b"\n+ insert",
        Action::Update(_, _) => b"\n+ update",
        Action::Delete(_) => b"\n+ delete",
    }
}

fn put_table(schema: &Schema, number: u32, p: &mut Printer) {
    match schema.tables.get(number as usize) {
        Some(table) => p.word(table.name.as_slice()),
        None => p.word(b"none"),
    }
}
