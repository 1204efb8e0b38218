//! SQL, as text. Code stands by its number.
use crate::markup::shown;
use crate::names::{declared, member, name, names};
use case_files::Printer;
use ur_syntax::{
    Aggregate, Assignment, Direction, FromItem, Limit, OrderKey, Selected, Selection, SqlBinary,
    SqlChange, SqlExp, SqlForm, SqlQuery,
};

fn sign(of: &SqlBinary) -> &'static [u8] {
    match of {
        SqlBinary::Or => b"(OR",
        SqlBinary::And => b"(AND",
        SqlBinary::Eq => b"(=",
        SqlBinary::Ne => b"(<>",
        SqlBinary::Lt => b"(<",
        SqlBinary::Le => b"(<=",
        SqlBinary::Gt => b"(>",
        SqlBinary::Ge => b"(>=",
        SqlBinary::Add => b"(+",
        SqlBinary::Sub => b"(-",
        SqlBinary::Mul => b"(*",
    }
}

#[cycle(sexps)]
pub fn sexp(p: &mut Printer, of: &SqlExp) {
    match &of.form {
        SqlForm::Binary(by, left, right) => {
            p.word(sign(by));
            sexp(p, left.get());
            sexp(p, right.get());
            p.put(b")");
        }
        SqlForm::Not(inner) => one(p, b"(NOT", inner.get()),
        SqlForm::Negative(inner) => one(p, b"(neg", inner.get()),
        SqlForm::IsNull(inner) => one(p, b"(NULL?", inner.get()),
        SqlForm::IsNotNull(inner) => one(p, b"(SOME?", inner.get()),
        SqlForm::Some(inner) => one(p, b"(SOME", inner.get()),
        SqlForm::Int(value) => p.number(*value),
        SqlForm::Str(text) => p.quoted(text.as_slice()),
        SqlForm::True => p.word(b"TRUE"),
        SqlForm::False => p.word(b"FALSE"),
        SqlForm::Null => p.word(b"NULL"),
        SqlForm::Column(column) => name(p, column),
        SqlForm::Qualified(table, column) => member(p, table, column),
        SqlForm::Anti(code) => shown(p, *code),
    }
}

/// A word, one expression, and the end.
#[cycle(sexps)]
fn one(p: &mut Printer, word: &[u8], inner: &SqlExp) {
    p.word(word);
    sexp(p, inner);
    p.put(b")");
}

fn option(p: &mut Printer, word: &[u8], of: &Option<SqlExp>) {
    match of {
        Some(inner) => one(p, word, inner),
        None => {}
    }
}

fn selected(p: &mut Printer, of: &Selected) {
    match of {
        Selected::Column(column) => sexp(p, column),
        Selected::Named(value, alias) => {
            p.word(b"(AS");
            sexp(p, value);
            name(p, alias);
            p.put(b")");
        }
        Selected::Aggregate(_, how, alias) => {
            p.word(b"(AS");
            aggregate(p, how);
            name(p, alias);
            p.put(b")");
        }
    }
}

fn aggregate(p: &mut Printer, of: &Aggregate) {
    match of {
        Aggregate::Count => p.word(b"COUNT"),
        Aggregate::Sum(inner) => one(p, b"(SUM", inner),
        Aggregate::Min(inner) => one(p, b"(MIN", inner),
        Aggregate::Max(inner) => one(p, b"(MAX", inner),
    }
}

fn selection(p: &mut Printer, of: &Selection) {
    match of {
        Selection::All => p.word(b"*"),
        Selection::Items(items) => {
            for item in items.as_slice() {
                selected(p, item);
            }
        }
    }
}

fn from_item(p: &mut Printer, of: &FromItem) {
    p.word(b"(FROM");
    declared(p, &of.table);
    match &of.alias {
        Some(alias) => {
            p.word(b"AS");
            name(p, alias);
        }
        None => {}
    }
    option(p, b"(ON", &of.on);
    p.put(b")");
}

fn order_key(p: &mut Printer, of: &OrderKey) {
    match of.direction {
        Direction::Ascending => one(p, b"(ASC", &of.key),
        Direction::Descending => one(p, b"(DESC", &of.key),
    }
}

fn limit(p: &mut Printer, word: &[u8], of: &Option<Limit>) {
    match of {
        Some(Limit::Int(value)) => {
            p.word(word);
            p.number(*value);
        }
        Some(Limit::Anti(code)) => {
            p.word(word);
            shown(p, *code);
        }
        None => {}
    }
}

pub fn query(p: &mut Printer, of: &SqlQuery) {
    p.word(b"(SELECT");
    selection(p, &of.selection);
    for item in of.from.as_slice() {
        from_item(p, item);
    }
    option(p, b"(WHERE", &of.filter);
    for column in of.group.as_slice() {
        one(p, b"(GROUP", column);
    }
    for key in of.order.as_slice() {
        order_key(p, key);
    }
    limit(p, b"LIMIT", &of.limit);
    limit(p, b"OFFSET", &of.offset);
    p.put(b")");
}

fn assignment(p: &mut Printer, of: &Assignment) {
    p.word(b"(SET");
    name(p, &of.column);
    sexp(p, &of.value);
    p.put(b")");
}

pub fn change(p: &mut Printer, of: &SqlChange) {
    match of {
        SqlChange::Insert(_, table, columns, values) => {
            p.word(b"(INSERT");
            declared(p, table);
            names(p, columns.as_slice());
            for value in values.as_slice() {
                sexp(p, value);
            }
        }
        SqlChange::Update(_, table, assignments, filter) => {
            p.word(b"(UPDATE");
            declared(p, table);
            for each in assignments.as_slice() {
                assignment(p, each);
            }
            option(p, b"(WHERE", filter);
        }
        SqlChange::Delete(_, table, filter) => {
            p.word(b"(DELETE");
            declared(p, table);
            option(p, b"(WHERE", filter);
        }
    }
    p.put(b")");
}
