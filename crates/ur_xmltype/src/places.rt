//! The places of XML.
ghost use Rattle.std.specs.Prelude.{◌≡◌, option_map};
ghost use Rattle.ur_tree.specs.Places as places;
ghost use Rattle.ur_xmltype.specs.Views.{place_in};
ghost use Rattle.ur_xmltype.specs.Faults as faults;

use ur_rows::NormalType;
use ur_values::Tag;

/// Where a part of XML stands. `Form` is within a form that stands in the literal itself, `Fields` in a literal that is
/// spliced into forms, and in `Nothing` nothing stands.
#[derive(Clone, Copy, Debug, PartialEq, Eq)]
pub enum Place {
    Page,
    Head,
    Title,
    Body,
    Table,
    Row,
    Form,
    Fields,
    Nothing,
}

/// Whether the elements of a body stand there.
pub fn is_flow(place: Place) -> bool
    ensures { result ≡ places.is_flow (place_in place) }
{
    match place {
        Place::Body => true,
        Place::Form => true,
        Place::Fields => true,
        _ => false,
    }
}

/// Whether text stands there.
pub fn holds_text(place: Place) -> bool
    ensures { result ≡ places.holds_text (place_in place) }
{
    match place {
        Place::Title => true,
        Place::Body => true,
        Place::Form => true,
        Place::Fields => true,
        _ => false,
    }
}

/// Whether fields stand there.
pub fn holds_fields(place: Place) -> bool
    ensures { result ≡ places.holds_fields (place_in place) }
{
    match place {
        Place::Form => true,
        Place::Fields => true,
        _ => false,
    }
}

/// Whether blank text is dropped there.
pub fn drops_blank(place: Place) -> bool
    ensures { result ≡ places.drops_blank (place_in place) }
{
    match place {
        Place::Page => true,
        Place::Head => true,
        Place::Table => true,
        Place::Row => true,
        _ => false,
    }
}

/// The type of what is spliced there, outside forms.
pub fn place_type(place: Place) -> Option<NormalType>
    ensures { result ≡ places.place_type (place_in place) }
{
    match place {
        Place::Body => Some(NormalType::Xbody),
        Place::Table => Some(NormalType::Xtable),
        Place::Row => Some(NormalType::Xtr),
        _ => None,
    }
}

/// The place as refusals name it.
pub fn place_text(place: Place) -> &'static [u8]
    ensures { result.now ≡ faults.place_text (place_in place) }
{
    match place {
        Place::Page => b"page",
        Place::Head => b"head",
        Place::Title => b"title",
        Place::Body => b"body",
        Place::Table => b"xtable",
        Place::Row => b"xtr",
        Place::Form => b"form",
        Place::Fields => b"form",
        Place::Nothing => b"nothing",
    }
}

/// What an element at a place holds; none where it may not stand.
pub fn inside(place: Place, tag: Tag) -> Option<Place>
    ensures { option_map place_in result ≡ places.inside (place_in place) tag }
{
    match tag {
        Tag::Head => in_page(place, Place::Head),
        Tag::Title => in_head(place),
        Tag::Body => in_page(place, Place::Body),
        Tag::Br => in_flow(place, Place::Nothing),
        Tag::Hr => in_flow(place, Place::Nothing),
        Tag::Table => in_flow(place, Place::Table),
        Tag::Tr => in_table(place),
        Tag::Td => in_row(place),
        Tag::Th => in_row(place),
        Tag::Form => in_body(place),
        _ => in_flow(place, place),
    }
}

fn in_flow(place: Place, inner: Place) -> Option<Place>
    ensures { option_map place_in result ≡ places.if_flow (place_in place) (place_in inner) }
{
    if is_flow(place) { Some(inner) } else { None }
}

fn in_page(place: Place, inner: Place) -> Option<Place>
    ensures { option_map place_in result ≡ places.in_page_only (place_in place) (place_in inner) }
{
    match place {
        Place::Page => Some(inner),
        _ => None,
    }
}

fn in_head(place: Place) -> Option<Place>
    ensures { option_map place_in result ≡ places.in_head_only (place_in place) }
{
    match place {
        Place::Head => Some(Place::Title),
        _ => None,
    }
}

fn in_table(place: Place) -> Option<Place>
    ensures { option_map place_in result ≡ places.in_table_only (place_in place) }
{
    match place {
        Place::Table => Some(Place::Row),
        _ => None,
    }
}

fn in_row(place: Place) -> Option<Place>
    ensures { option_map place_in result ≡ places.in_row_only (place_in place) }
{
    match place {
        Place::Row => Some(Place::Body),
        _ => None,
    }
}

fn in_body(place: Place) -> Option<Place>
    ensures { option_map place_in result ≡ places.in_body_only (place_in place) }
{
    match place {
        Place::Body => Some(Place::Form),
        _ => None,
    }
}
