//! Names, as text.
use case_files::Printer;
use ur_base::Text;
use ur_syntax::{Binder, DeclName, FieldName};

pub fn name(p: &mut Printer, of: &Text) {
    p.word(of.as_slice());
}

/// `M.x`
pub fn member(p: &mut Printer, home: &Text, of: &Text) {
    name(p, home);
    p.put(b".");
    p.put(of.as_slice());
}

/// `#A`
pub fn literal(p: &mut Printer, of: &Text) {
    p.word(b"#");
    p.put(of.as_slice());
}

pub fn field(p: &mut Printer, of: &FieldName) {
    match of {
        FieldName::Literal(word) => literal(p, word),
        FieldName::Variable(word) => name(p, word),
    }
}

pub fn binder(p: &mut Printer, of: &Binder) {
    match of {
        Binder::Ignored => p.word(b"_"),
        Binder::Named(word) => name(p, word),
    }
}

pub fn declared(p: &mut Printer, of: &DeclName) {
    match &of.module {
        Some(home) => member(p, home, &of.name),
        None => name(p, &of.name),
    }
}

/// `(A B)`
pub fn names(p: &mut Printer, of: &[Text]) {
    p.word(b"(");
    for word in of {
        name(p, word);
    }
    p.put(b")");
}
