//! The words of tags.
ghost use Rattle.std.specs.Prelude.{◌≡◌, bytes_eq};
ghost use Rattle.ur_xmltype.specs.Tags.{tag_in, tag_of, field_of};

use ur_tags::tag_word;
use ur_values::{FieldKind, Tag};

const TAGS: [Tag; 26] = [
    Tag::Head,
    Tag::Title,
    Tag::Body,
    Tag::P,
    Tag::Div,
    Tag::Span,
    Tag::B,
    Tag::I,
    Tag::Em,
    Tag::Strong,
    Tag::H1,
    Tag::H2,
    Tag::H3,
    Tag::H4,
    Tag::Ul,
    Tag::Ol,
    Tag::Li,
    Tag::Pre,
    Tag::Code,
    Tag::Br,
    Tag::Hr,
    Tag::Table,
    Tag::Tr,
    Tag::Td,
    Tag::Th,
    Tag::Form,
];

/// Whether two words are the same.
pub fn same(a: &[u8], b: &[u8]) -> bool
    ensures { result ≡ bytes_eq a.now b.now }
{
    a == b
}

fn tag_in(tags: &[Tag], word: &[u8]) -> Option<Tag>
    ensures { result ≡ tag_in word.now tags.now }
{
    let mut left = tags;
    'tags: while let Some((first, rest)) = left.split_first() {
        if same(tag_word(*first), word) {
            return Some(*first);
        }
        left = rest;
    }
    None
}

/// The tag of an element with this word.
pub fn tag_of(word: &[u8]) -> Option<Tag>
    ensures { result ≡ tag_of word.now }
{
    tag_in(&TAGS, word)
}

/// The kind of field with this word.
pub fn field_of(word: &[u8]) -> Option<FieldKind>
    ensures { result ≡ field_of word.now }
{
    if same(word, b"textbox") {
        return Some(FieldKind::Textbox);
    }
    if same(word, b"password") {
        return Some(FieldKind::Password);
    }
    if same(word, b"textarea") {
        return Some(FieldKind::Textarea);
    }
    if same(word, b"checkbox") {
        return Some(FieldKind::Checkbox);
    }
    None
}
