//! Expressions, as text: a word and its parts in parentheses. Behind `|` stands the code of SQL and XML.
use crate::cons::{con, con_param, param};
use crate::markup::parts;
use crate::names::{binder, declared, field, member, name};
use crate::pats::pat;
use crate::sql::{change, query};
use case_files::Printer;
use ur_syntax::{Binary, Branch, Exp, ExpForm, Field, LambdaParam, LetVal, QueryWord};

fn sign(of: Binary) -> &'static [u8] {
    match of {
        Binary::Or => b"(||",
        Binary::And => b"(&&",
        Binary::Eq => b"(=",
        Binary::Ne => b"(<>",
        Binary::Lt => b"(<",
        Binary::Le => b"(<=",
        Binary::Gt => b"(>",
        Binary::Ge => b"(>=",
        Binary::Cons => b"(::",
        Binary::Append => b"(^",
        Binary::Concat => b"(++",
        Binary::Add => b"(+",
        Binary::Sub => b"(-",
        Binary::Mul => b"(*",
        Binary::Div => b"(/",
        Binary::Rem => b"(%",
    }
}

fn query_word(of: QueryWord) -> &'static [u8] {
    match of {
        QueryWord::QueryL => b"(queryL",
        QueryWord::OneRow => b"(oneRow",
        QueryWord::OneOrNoRows => b"(oneOrNoRows",
    }
}

fn lambda_param(p: &mut Printer, of: &LambdaParam) {
    match of {
        LambdaParam::Typed(typed) => param(p, typed),
        LambdaParam::Con(of_con) => con_param(p, of_con),
        LambdaParam::Bare(bound) => binder(p, bound),
    }
}

#[cycle(exps)]
pub fn exp(p: &mut Printer, of: &Exp) {
    match &of.form {
        ExpForm::Bind(bound, first, rest) => {
            p.word(b"(<-");
            binder(p, bound);
            exp(p, first.get());
            last(p, rest.get());
        }
        ExpForm::Seq(first, rest) => {
            p.word(b"(;");
            exp(p, first.get());
            last(p, rest.get());
        }
        ExpForm::If(test, yes, no) => {
            p.word(b"(if");
            exp(p, test.get());
            exp(p, yes.get());
            last(p, no.get());
        }
        ExpForm::Lambda(params, body) => {
            p.word(b"(fn");
            for each in params.as_slice() {
                lambda_param(p, each);
            }
            p.word(b"=>");
            last(p, body.get());
        }
        ExpForm::Case(of_case, branches) => {
            p.word(b"(case");
            exp(p, of_case.get());
            cases(p, branches.as_slice());
            p.put(b")");
        }
        ExpForm::Binary(by, left, right) => {
            p.word(sign(*by));
            exp(p, left.get());
            last(p, right.get());
        }
        ExpForm::Remove(from, removed) => {
            p.word(b"(--");
            exp(p, from.get());
            field(p, &removed.name);
            p.put(b")");
        }
        ExpForm::Negative(inner) => one(p, b"(neg", inner.get()),
        ExpForm::App(function, given) => {
            p.word(b"(");
            exp(p, function.get());
            last(p, given.get());
        }
        ExpForm::ConApp(function, given) => {
            p.word(b"(");
            exp(p, function.get());
            p.word(b"[");
            con(p, given);
            p.put(b"])");
        }
        ExpForm::Project(from, of_field) => {
            p.word(b"(.");
            exp(p, from.get());
            field(p, of_field);
            p.put(b")");
        }
        ExpForm::Record(fields) => record(p, fields.as_slice()),
        ExpForm::Let(vals, body) => {
            p.word(b"(let");
            lets(p, vals.as_slice());
            p.word(b"in");
            last(p, body.get());
        }
        ExpForm::Return(inner) => one(p, b"(return", inner.get()),
        ExpForm::Show(inner) => one(p, b"(show", inner.get()),
        ExpForm::Not(inner) => one(p, b"(not", inner.get()),
        ExpForm::Error(inner) => one(p, b"(error", inner.get()),
        ExpForm::Some(inner) => one(p, b"(Some", inner.get()),
        ExpForm::SetCookie(cookie, value) => {
            p.word(b"(setCookie");
            declared(p, cookie);
            last(p, value.get());
        }
        ExpForm::Xml(xml, splices, attributes) => {
            p.word(b"(xml");
            parts(p, xml.parts.as_slice());
            code(p, splices.as_slice());
            code(p, attributes.as_slice());
            p.put(b")");
        }
        ExpForm::Dml(statement, given) => {
            p.word(b"(dml");
            change(p, statement);
            code(p, given.as_slice());
            p.put(b")");
        }
        ExpForm::Query(word, statement, given) => {
            p.word(query_word(*word));
            query(p, statement);
            code(p, given.as_slice());
            p.put(b")");
        }
        ExpForm::QueryX(statement, given, body) => {
            p.word(b"(queryX");
            query(p, statement);
            code(p, given.as_slice());
            last(p, body.get());
        }
        ExpForm::Fold(to, step, start, row) => {
            p.word(b"(fold");
            con(p, to);
            exp(p, step.get());
            exp(p, start.get());
            con(p, row);
            p.put(b")");
        }
        ExpForm::Int(value) => p.number(*value),
        ExpForm::Str(text) => p.quoted(text.as_slice()),
        ExpForm::Var(word) => name(p, word),
        ExpForm::Constructor(word) => name(p, word),
        ExpForm::Member(home, word) => member(p, home, word),
        ExpForm::MemberConstructor(home, word) => member(p, home, word),
        ExpForm::Unit => p.word(b"()"),
        ExpForm::Nil => p.word(b"[]"),
        ExpForm::Nextval(sequence) => {
            p.word(b"(nextval");
            declared(p, sequence);
            p.put(b")");
        }
        ExpForm::GetCookie(cookie) => {
            p.word(b"(getCookie");
            declared(p, cookie);
            p.put(b")");
        }
    }
}

/// The last expression, and the end.
#[cycle(exps)]
fn last(p: &mut Printer, inner: &Exp) {
    exp(p, inner);
    p.put(b")");
}

/// A word, one expression, and the end.
#[cycle(exps)]
fn one(p: &mut Printer, word: &[u8], inner: &Exp) {
    p.word(word);
    last(p, inner);
}

#[cycle(exps)]
fn code(p: &mut Printer, of: &[Exp]) {
    p.word(b"|");
    for inner in of {
        exp(p, inner);
    }
}

#[cycle(exps)]
fn cases(p: &mut Printer, of: &[Branch]) {
    for branch in of {
        p.word(b"(");
        pat(p, &branch.pat);
        p.word(b"=>");
        last(p, &branch.body);
    }
}

#[cycle(exps)]
fn record(p: &mut Printer, of: &[Field]) {
    p.word(b"{");
    for part in of {
        field(p, &part.name);
        exp(p, &part.value);
    }
    p.put(b"}");
}

#[cycle(exps)]
fn lets(p: &mut Printer, of: &[LetVal]) {
    for val in of {
        p.word(b"(val");
        name(p, &val.name);
        con(p, &val.con);
        last(p, &val.value);
    }
}
