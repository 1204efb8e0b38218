//! Declarations, modules and signatures, as text.
use crate::cons::{con, con_param, kind, param};
use crate::exps::exp;
use crate::names::{name, names};
use case_files::Printer;
use ur_base::{List, Text};
use ur_syntax::{Constraint, Decl, DeclForm, FunDef, ValDecl, Variant};

pub fn module(p: &mut Printer, of: &[Decl]) {
    for each in of {
        decl(p, each);
    }
}

pub fn signature(p: &mut Printer, of: &[ValDecl]) {
    for each in of {
        named(p, b"(val", &each.name);
        con(p, &each.con);
        p.put(b")");
    }
}

pub fn decl(p: &mut Printer, of: &Decl) {
    match &of.form {
        DeclForm::Con(bound, of_kind, value) => {
            named(p, b"(con", bound);
            kind(p, of_kind);
            con(p, value);
        }
        DeclForm::Type(bound, value) => {
            named(p, b"(type", bound);
            con(p, value);
        }
        DeclForm::Datatype(bound, all) => {
            named(p, b"(datatype", bound);
            for each in all.as_slice() {
                variant(p, each);
            }
        }
        DeclForm::Table(bound, of_con, primary, unique) => {
            named(p, b"(table", bound);
            con(p, of_con);
            key(p, primary);
            for each in unique.as_slice() {
                constraint(p, each);
            }
        }
        DeclForm::Sequence(bound) => named(p, b"(sequence", bound),
        DeclForm::Cookie(bound, of_con) => {
            named(p, b"(cookie", bound);
            con(p, of_con);
        }
        DeclForm::Val(bound, of_con, value) => {
            named(p, b"(val", bound);
            con(p, of_con);
            exp(p, value);
        }
        DeclForm::Fun(all) => {
            p.word(b"(fun");
            for each in all.as_slice() {
                definition(p, each);
            }
        }
    }
    p.put(b")");
}

/// A word, and the name behind it.
fn named(p: &mut Printer, word: &[u8], bound: &Text) {
    p.word(word);
    name(p, bound);
}

fn variant(p: &mut Printer, of: &Variant) {
    named(p, b"(", &of.name);
    match &of.con {
        Some(of_con) => con(p, of_con),
        None => {}
    }
    p.put(b")");
}

fn key(p: &mut Printer, of: &Option<List<Text>>) {
    match of {
        Some(columns) => {
            p.word(b"(KEY");
            names(p, columns.as_slice());
            p.put(b")");
        }
        None => {}
    }
}

fn constraint(p: &mut Printer, of: &Constraint) {
    named(p, b"(UNIQUE", &of.name);
    names(p, of.columns.as_slice());
    p.put(b")");
}

fn definition(p: &mut Printer, of: &FunDef) {
    named(p, b"(", &of.name);
    for bound in of.con_params.as_slice() {
        con_param(p, bound);
    }
    for bound in of.params.as_slice() {
        param(p, bound);
    }
    p.word(b":");
    con(p, &of.result);
    p.word(b"=");
    exp(p, &of.body);
    p.put(b")");
}
