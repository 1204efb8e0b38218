//! Kinds, constructors and parameters, as text: a word and its parts in parentheses.
use crate::names::{binder, field, literal, member, name};
use case_files::Printer;
use ur_syntax::{CField, Con, ConForm, ConParam, Kind, Param, RecordField};

#[cycle(kinds)]
pub fn kind(p: &mut Printer, of: &Kind) {
    match of {
        Kind::Star => p.word(b"Type"),
        Kind::Name => p.word(b"Name"),
        Kind::Row => p.word(b"{Type}"),
        Kind::Arrow(from, to) => {
            p.word(b"(->");
            kind(p, from.get());
            kind(p, to.get());
            p.put(b")");
        }
    }
}

#[cycle(cons)]
pub fn con(p: &mut Printer, of: &Con) {
    match &of.form {
        ConForm::Lambda(bound, of_kind, body) => {
            p.word(b"(fn");
            name(p, bound);
            kind(p, of_kind);
            con(p, body.get());
            p.put(b")");
        }
        ConForm::Arrow(from, to) => {
            p.word(b"(->");
            con(p, from.get());
            last(p, to.get());
        }
        ConForm::Concat(left, right) => {
            p.word(b"(++");
            con(p, left.get());
            last(p, right.get());
        }
        ConForm::App(function, argument) => {
            p.word(b"(");
            con(p, function.get());
            last(p, argument.get());
        }
        ConForm::Var(word) => name(p, word),
        ConForm::Member(home, word) => member(p, home, word),
        ConForm::Name(word) => literal(p, word),
        ConForm::Row(fields) => row(p, fields.as_slice()),
        ConForm::Record(fields) => record(p, fields.as_slice()),
        ConForm::RecordOf(inner) => {
            p.word(b"($");
            con(p, inner.get());
            p.put(b")");
        }
    }
}

/// The last constructor, and the end.
#[cycle(cons)]
fn last(p: &mut Printer, inner: &Con) {
    con(p, inner);
    p.put(b")");
}

#[cycle(cons)]
fn row(p: &mut Printer, fields: &[CField]) {
    p.word(b"[");
    for part in fields {
        row_field(p, part);
    }
    p.put(b"]");
}

#[cycle(cons)]
fn row_field(p: &mut Printer, of: &CField) {
    match of {
        CField::Bare(word) => field(p, word),
        CField::Given(word, value) => {
            p.word(b"(");
            field(p, word);
            con(p, value);
            p.put(b")");
        }
    }
}

#[cycle(cons)]
fn record(p: &mut Printer, fields: &[RecordField]) {
    p.word(b"{");
    for part in fields {
        field(p, &part.name);
        con(p, &part.con);
    }
    p.put(b"}");
}

pub fn param(p: &mut Printer, of: &Param) {
    match of {
        Param::Value(bound, of_con) => {
            p.word(b"(");
            binder(p, bound);
            con(p, of_con);
            p.put(b")");
        }
        Param::Unit => p.word(b"()"),
    }
}

pub fn con_param(p: &mut Printer, of: &ConParam) {
    match of {
        ConParam::Kinded(bound, of_kind) => {
            p.word(b"[");
            name(p, bound);
            kind(p, of_kind);
        }
        ConParam::Disjoint(left, right) => {
            p.word(b"[~");
            con(p, left);
            con(p, right);
        }
    }
    p.put(b"]");
}
