//! Names that stand twice in a row that is written in a constructor.
ghost use Rattle.std.specs.Prelude.{◌≡◌, map};
ghost use Rattle.std.specs.List.{list_any};
ghost use Rattle.std.specs.Option.{option_copied};
ghost use Rattle.ur_typed_rules.specs.Names.{is_named};
ghost use Rattle.ur_typed_rules.specs.Repeats.{literal_name, field_literal, twice_of, or_else, first_repeated};
ghost use Rattle.ur_check_scopes.specs.Given.{again, first_in_fields, first_in_field, first_in_record};

use ur_base::Text;
use ur_syntax::{CField, Con, ConForm, FieldName, RecordField};

fn literal<'a>(name: &'a FieldName) -> Option<&'a Text>
    ensures { option_copied result ≡ literal_name name.now }
{
    match name {
        FieldName::Literal(a) => Some(a),
        FieldName::Variable(_) => None,
    }
}

fn field_literal<'a>(field: &'a CField) -> Option<&'a Text>
    ensures { option_copied result ≡ field_literal field.now }
{
    match field {
        CField::Bare(name) => literal(name),
        CField::Given(name, _) => literal(name),
    }
}

fn is_literally(found: Option<&Text>, name: &Text) -> bool
    ensures { result ≡ is_named name.now (option_copied found.entry) }
{
    match found {
        Some(a) => name.as_slice() == a.as_slice(),
        None => false,
    }
}

fn some_field_has(name: &Text, fields: &[CField]) -> bool
    ensures { result ≡ list_any (is_named name.now) (map field_literal fields.now) }
{
    for i in 0..fields.len() {
        if is_literally(field_literal(&fields[i]), name) {
            return true;
        }
    }
    false
}

fn some_record_field_has(name: &Text, fields: &[RecordField]) -> bool
    ensures { result ≡ list_any (is_named name.now) (map (λ f. literal_name f.name) fields.now) }
{
    for i in 0..fields.len() {
        if is_literally(literal(&fields[i].name), name) {
            return true;
        }
    }
    false
}

/// The name of a field, where one of the others has it too.
fn field_again<'a>(field: &'a CField, others: &[CField]) -> Option<&'a Text>
    ensures { option_copied result ≡ again (field_literal field.now) (map field_literal others.now) }
{
    match field_literal(field) {
        Some(name) => {
            if some_field_has(name, others) {
                return Some(name);
            }
            None
        }
        None => None,
    }
}

fn record_field_again<'a>(field: &'a RecordField, others: &[RecordField]) -> Option<&'a Text>
    ensures { option_copied result ≡ again (literal_name field.now.name) (map (λ f. literal_name f.name) others.now) }
{
    match literal(&field.name) {
        Some(name) => {
            if some_record_field_has(name, others) {
                return Some(name);
            }
            None
        }
        None => None,
    }
}

#[tactic(auto, using(crate::proofs::Repeating::repeating))]
fn twice_in_row<'a>(fields: &'a [CField]) -> Option<&'a Text>
    ensures { option_copied result ≡ twice_of (map field_literal fields.now) }
{
    let mut left = fields;
    while let Some((first, rest)) = left.split_first() {
        match field_again(first, rest) {
            Some(name) => return Some(name),
            None => left = rest,
        }
    }
    None
}

#[tactic(auto, using(crate::proofs::Repeating::repeating))]
fn twice_in_record<'a>(fields: &'a [RecordField]) -> Option<&'a Text>
    ensures { option_copied result ≡ twice_of (map (λ f. literal_name f.name) fields.now) }
{
    let mut left = fields;
    while let Some((first, rest)) = left.split_first() {
        match record_field_again(first, rest) {
            Some(name) => return Some(name),
            None => left = rest,
        }
    }
    None
}

/// The first literal name that stands twice in a row that is written in the constructor.
#[cycle(given)]
#[tactic(auto, using(crate::proofs::Repeating::written))]
pub fn given_twice<'a>(con: &'a Con) -> Option<&'a Text>
    ensures { option_copied result ≡ first_repeated con.now.form }
{
    match &con.form {
        ConForm::Lambda(_, _, body) => given_twice(body.get()),
        ConForm::Arrow(a, b) => match given_twice(a.get()) {
            Some(name) => Some(name),
            None => given_twice(b.get()),
        },
        ConForm::Concat(a, b) => match given_twice(a.get()) {
            Some(name) => Some(name),
            None => given_twice(b.get()),
        },
        ConForm::App(f, a) => match given_twice(f.get()) {
            Some(name) => Some(name),
            None => given_twice(a.get()),
        },
        ConForm::Var(_) => None,
        ConForm::Member(_, _) => None,
        ConForm::Name(_) => None,
        ConForm::Row(fields) => in_row(fields.as_slice()),
        ConForm::Record(fields) => in_record(fields.as_slice()),
        ConForm::RecordOf(row) => given_twice(row.get()),
    }
}

#[cycle(given)]
#[tactic(auto, using(crate::proofs::Repeating::written))]
fn in_row<'a>(fields: &'a [CField]) -> Option<&'a Text>
    ensures { option_copied result ≡ or_else (twice_of (map field_literal fields.now)) (first_in_fields fields.now) }
{
    match twice_in_row(fields) {
        Some(name) => Some(name),
        None => in_fields(fields),
    }
}

#[cycle(given)]
#[tactic(auto, using(crate::proofs::Repeating::written))]
fn in_fields<'a>(fields: &'a [CField]) -> Option<&'a Text>
    ensures { option_copied result ≡ first_in_fields fields.now }
{
    for i in 0..fields.len() {
        match in_field(&fields[i]) {
            Some(name) => return Some(name),
            None => {}
        }
    }
    None
}

#[cycle(given)]
#[tactic(auto, using(crate::proofs::Repeating::written))]
fn in_field<'a>(field: &'a CField) -> Option<&'a Text>
    ensures { option_copied result ≡ first_in_field field.now }
{
    match field {
        CField::Bare(_) => None,
        CField::Given(_, con) => given_twice(con),
    }
}

#[cycle(given)]
#[tactic(auto, using(crate::proofs::Repeating::written))]
fn in_record<'a>(fields: &'a [RecordField]) -> Option<&'a Text>
    ensures { option_copied result ≡ or_else (twice_of (map (λ f. literal_name f.name) fields.now)) (first_in_record fields.now) }
{
    match twice_in_record(fields) {
        Some(name) => Some(name),
        None => in_record_fields(fields),
    }
}

#[cycle(given)]
#[tactic(auto, using(crate::proofs::Repeating::written))]
fn in_record_fields<'a>(fields: &'a [RecordField]) -> Option<&'a Text>
    ensures { option_copied result ≡ first_in_record fields.now }
{
    for i in 0..fields.len() {
        match in_record_field(&fields[i]) {
            Some(name) => return Some(name),
            None => {}
        }
    }
    None
}

#[cycle(given)]
#[tactic(auto, using(crate::proofs::Repeating::written))]
fn in_record_field<'a>(field: &'a RecordField) -> Option<&'a Text>
    ensures { option_copied result ≡ first_repeated field.now.con.form }
{
    given_twice(&field.con)
}
