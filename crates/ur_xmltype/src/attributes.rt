//! Attributes.
ghost use Rattle.std.specs.Prelude.{◌≡◌};
ghost use Rattle.std.specs.List.{list_any};
ghost use Rattle.std.specs.Option.{option_copied};
ghost use Rattle.ur_xmltype.specs.Tags.{has_name, repeated, is_named, are_named, value_of, expression_of, expression_at};
ghost use Rattle.ur_xmltype.specs.Views.{names_in};

use crate::words::same;
use ur_base::Text;
use ur_syntax::{Attr, AttrValue};

/// The attributes that a tag may have.
#[derive(Clone, Copy)]
pub enum Takes {
    Nothing,
    Link,
    Value,
    /// `action` and `value`.
    Action,
}

fn has_name(name: &[u8], attr: &Attr) -> bool
    ensures { result ≡ has_name name.now attr.now }
{
    same(attr.name.as_slice(), name)
}

fn any_has_name(name: &[u8], attrs: &[Attr]) -> bool
    ensures { result ≡ list_any (has_name name.now) attrs.now }
{
    attrs.iter().any(|attr| has_name(name, attr))
}

/// The first name that a later attribute has too.
pub fn repeated<'a>(attrs: &'a [Attr]) -> Option<&'a Text>
    ensures { option_copied result ≡ repeated attrs.now }
{
    let mut left = attrs;
    'attrs: while let Some((first, rest)) = left.split_first() {
        if any_has_name(first.name.as_slice(), rest) {
            return Some(&first.name);
        }
        left = rest;
    }
    None
}

fn is_named(takes: Takes, attr: &Attr) -> bool
    ensures { result ≡ is_named (names_in takes) attr.now }
{
    let name = attr.name.as_slice();
    match takes {
        Takes::Nothing => false,
        Takes::Link => same(name, b"link"),
        Takes::Value => same(name, b"value"),
        Takes::Action => same(name, b"action") || same(name, b"value"),
    }
}

/// Whether the tag may have each of the attributes.
pub fn are_named(takes: Takes, attrs: &[Attr]) -> bool
    ensures { result ≡ are_named (names_in takes) attrs.now }
{
    attrs.iter().all(|attr| is_named(takes, attr))
}

/// The value of the attribute of this name.
pub fn value_of<'a>(name: &[u8], attrs: &'a [Attr]) -> Option<&'a AttrValue>
    ensures { option_copied result ≡ value_of name.now attrs.now }
{
    let mut left = attrs;
    'attrs: while let Some((first, rest)) = left.split_first() {
        if has_name(name, first) {
            return Some(&first.value);
        }
        left = rest;
    }
    None
}

fn expression_of(value: &AttrValue) -> Option<u32>
    ensures { result ≡ expression_of value.now }
{
    match value {
        AttrValue::Exp(n) => Some(*n),
        AttrValue::Text(_) => None,
    }
}

/// The number of the expression that the attribute of this name has.
pub fn expression_at(name: &[u8], attrs: &[Attr]) -> Option<u32>
    ensures { result ≡ expression_at name.now attrs.now }
{
    match value_of(name, attrs) {
        Some(value) => expression_of(value),
        None => None,
    }
}
