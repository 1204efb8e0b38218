//! Patterns, as text.
use crate::names::{binder, member, name};
use case_files::Printer;
use ur_syntax::{Argument, Pat, PatForm};

pub fn pat(p: &mut Printer, of: &Pat) {
    match &of.form {
        PatForm::Wild => p.word(b"_"),
        PatForm::Var(word) => name(p, word),
        PatForm::Int(value) => p.number(*value),
        PatForm::Negative(value) => {
            p.word(b"-");
            p.number(*value);
        }
        PatForm::Str(text) => p.quoted(text.as_slice()),
        PatForm::True => p.word(b"True"),
        PatForm::False => p.word(b"False"),
        PatForm::None => p.word(b"None"),
        PatForm::Some(bound) => {
            p.word(b"Some");
            binder(p, bound);
        }
        PatForm::Nil => p.word(b"[]"),
        PatForm::Cons(first, rest) => {
            binder(p, first);
            p.word(b"::");
            binder(p, rest);
        }
        PatForm::Constructor(word, given) => {
            name(p, word);
            argument(p, given);
        }
        PatForm::Member(home, word, given) => {
            member(p, home, word);
            argument(p, given);
        }
    }
}

fn argument(p: &mut Printer, of: &Argument) {
    match of {
        Argument::Absent => {}
        Argument::Bound(bound) => binder(p, bound),
    }
}
