//! The sort of a literal.
ghost use Rattle.std.specs.Prelude.{◌≡◌, ◌||◌, bytes_eq, codes, option_map};
ghost use Rattle.std.specs.Option.{option_copied};
ghost use Rattle.ur_tree.specs.Places as places;
ghost use Rattle.ur_xmltype.specs.Tags.{field_of};
ghost use Rattle.ur_xmltype.specs.Literal as literals;
ghost use Rattle.ur_xmltype.specs.Views.{place_in, sort_in};

use crate::places::Place;
use crate::words::{field_of, same};
use ur_base::List;
use ur_rows::{NormalType, Part};
use ur_syntax::{XmlForm, XmlPart};

/// The sorts of XML: a page, a body, the rows of a table, the cells of a row, and what is spliced into forms.
#[derive(Clone, Copy, Debug, PartialEq, Eq)]
pub enum Sort {
    Page,
    Body,
    Table,
    Row,
    Fields,
}

/// The sort of a type of XML.
#[tactic(auto, using(crate::proofs::Equations::forms))]
pub fn sort_of(of: &NormalType) -> Option<Sort>
    ensures { option_map sort_in result ≡ places.sort_of of.now }
{
    match of {
        NormalType::Page => Some(Sort::Page),
        NormalType::Xbody => Some(Sort::Body),
        NormalType::Xtable => Some(Sort::Table),
        NormalType::Xtr => Some(Sort::Row),
        NormalType::Form(_) => Some(Sort::Fields),
        _ => None,
    }
}

/// Where the parts of a literal of a sort stand.
pub fn place_of(sort: Sort) -> Place
    ensures { place_in result ≡ places.place_of (sort_in sort) }
{
    match sort {
        Sort::Page => Place::Page,
        Sort::Body => Place::Body,
        Sort::Table => Place::Table,
        Sort::Row => Place::Row,
        Sort::Fields => Place::Fields,
    }
}

fn fields_word(word: &[u8]) -> Option<Sort>
    ensures { option_map sort_in result ≡ option_map (λ k. places.fields) (field_of word.now) }
{
    match field_of(word) {
        Some(_) => Some(Sort::Fields),
        None => None,
    }
}

fn is_page_word(word: &[u8]) -> bool
    ensures { result ≡ bytes_eq word.now (codes "head") || bytes_eq word.now (codes "body") }
{
    same(word, b"head") || same(word, b"body")
}

fn is_row_word(word: &[u8]) -> bool
    ensures { result ≡ bytes_eq word.now (codes "td") || bytes_eq word.now (codes "th") }
{
    same(word, b"td") || same(word, b"th")
}

/// The sort that the word of a first element gives.
fn sort_of_word(word: &[u8]) -> Option<Sort>
    ensures { option_map sort_in result ≡ literals.sort_of_word word.now }
{
    if is_page_word(word) {
        return Some(Sort::Page);
    }
    if same(word, b"tr") {
        return Some(Sort::Table);
    }
    if is_row_word(word) {
        return Some(Sort::Row);
    }
    fields_word(word)
}

fn or_body(sort: Option<Sort>) -> Sort
    ensures { sort_in result ≡ literals.or_body (option_map sort_in sort) }
{
    match sort {
        Some(sort) => sort,
        None => Sort::Body,
    }
}

/// The word of an element.
#[tactic(auto, using(crate::proofs::Equations::forms))]
pub fn word_of<'a>(part: &'a XmlPart) -> Option<&'a [u8]>
    ensures { option_map (λ w. w.now) result ≡ literals.word_of part.now.form }
{
    match &part.form {
        XmlForm::Element(tag, _, _) => Some(tag.word.as_slice()),
        _ => None,
    }
}

/// The sort that the first element gives.
fn first_of(parts: &[XmlPart]) -> Sort
    ensures { sort_in result ≡ literals.first_of parts.now }
{
    let mut left = parts;
    'parts: while let Some((first, rest)) = left.split_first() {
        match word_of(first) {
            Some(word) => return or_body(sort_of_word(word)),
            None => left = rest,
        }
    }
    Sort::Body
}

/// The sort of a literal: that of the type that is wanted, or else by its first element. None where another type is
/// wanted.
pub fn literal_sort(parts: &[XmlPart], wanted: Option<&NormalType>) -> Option<Sort>
    ensures { option_map sort_in result ≡ literals.sort_of_literal parts.now (option_copied wanted.entry) }
{
    match wanted {
        Some(of) => sort_of(of),
        None => Some(first_of(parts)),
    }
}

/// The type of a literal of a sort with these fields.
#[tactic(auto, using(crate::proofs::Equations::forms))]
pub fn sort_type(sort: Sort, row: List<Part>) -> NormalType
    ensures { result ≡ literals.sort_type (sort_in sort) row }
{
    match sort {
        Sort::Page => NormalType::Page,
        Sort::Body => NormalType::Xbody,
        Sort::Table => NormalType::Xtable,
        Sort::Row => NormalType::Xtr,
        Sort::Fields => NormalType::Form(row),
    }
}
