//! XML, as text. Code stands by its number.
use crate::names::{literal, name};
use case_files::Printer;
use ur_syntax::{Attr, AttrValue, Tag, TagField, XmlForm, XmlPart};

#[cycle(markup)]
pub fn parts(p: &mut Printer, of: &[XmlPart]) {
    for inner in of {
        part(p, inner);
    }
}

#[cycle(markup)]
fn part(p: &mut Printer, of: &XmlPart) {
    match &of.form {
        XmlForm::Text(text) => p.quoted(text.as_slice()),
        XmlForm::Splice(code) => {
            p.word(b"{");
            p.number(u64::from(*code));
            p.put(b"}");
        }
        XmlForm::Show(code) => shown(p, *code),
        XmlForm::Element(tag, attributes, inner) => {
            opened(p, tag);
            given(p, attributes.as_slice());
            p.put(b">");
            parts(p, inner.as_slice());
            p.word(b"</>");
        }
    }
}

/// `{[0]}`
pub fn shown(p: &mut Printer, code: u32) {
    p.word(b"{[");
    p.number(u64::from(code));
    p.put(b"]}");
}

fn opened(p: &mut Printer, of: &Tag) {
    p.word(b"<");
    p.put(of.word.as_slice());
    match &of.field {
        TagField::None => {}
        TagField::Literal(word) => literal(p, word),
        TagField::Variable(word) => name(p, word),
    }
}

fn given(p: &mut Printer, of: &[Attr]) {
    for attribute in of {
        name(p, &attribute.name);
        p.word(b"=");
        match &attribute.value {
            AttrValue::Text(text) => p.quoted(text.as_slice()),
            AttrValue::Exp(code) => p.number(u64::from(*code)),
        }
    }
}
