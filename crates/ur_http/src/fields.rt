//! The fields of a head.
ghost use Rattle.std.specs.Prelude.{◌≡◌, ◌++◌, [], ◌∷◌, ℕ, List, length, map, All, IfOk};
ghost use Rattle.httparse.specs.Spans.{IsHeaderWithin, header_bytes};
ghost use Rattle.ur_http.specs.Fields.{values_of};
ghost use Rattle.ur_http.specs.Reading.{field_pair, IsOnly};

use crate::bytes::same_name;
use httparse::spans::HeaderSpan;
use std::alloc::Global;
use ur_base::Memory;

/// A field: its name, and its value without the white space around it.
#[derive(Copy, Clone, Debug)]
pub(crate) struct Field<'b> {
    pub name: &'b [u8],
    pub value: &'b [u8],
}

/// The fields that the spans cover.
pub(crate) fn fields_at<'b>(
    alloc: Global,
    bytes: &'b [u8],
    spans: &[HeaderSpan],
) -> Result<Vec<Field<'b>>, Memory>
    requires { All (IsHeaderWithin (length bytes.now)) spans.now }
    ensures { IfOk result (λ fields. map field_pair fields.items ≡ map (header_bytes bytes.now) spans.now) }
{
    let mut fields = Vec::new(alloc);
    for span in spans {
        let name = span.name.of(bytes);
        let value = span.value.of(bytes);
        fields.push(Field { name, value })?;
    }
    Ok(fields)
}

/// The values of the fields of a name, where there is at most one.
#[derive(Debug, Drop)]
pub(crate) enum Only<'b> {
    Missing,
    One(&'b [u8]),
    Several,
}

/// The value of the field of this name, which is compared without regard to ASCII case.
pub(crate) fn value_of<'b>(fields: &[Field<'b>], name: &[u8]) -> Only<'b>
    ensures { IsOnly result (values_of name.now (map field_pair fields.now)) }
{
    let mut found = Only::Missing;
    for field in fields {
        found = joined(found, field, name);
    }
    found
}

/// What was found, and one field more.
fn joined<'b>(found: Only<'b>, field: &Field<'b>, name: &[u8]) -> Only<'b>
    ensures { (values : List (List ℕ)) → IsOnly found.entry values → IsOnly result (values ++ values_of name.now (field_pair field.now ∷ [])) }
{
    if !same_name(field.name, name) {
        return found;
    }
    match found {
        Only::Missing => Only::One(field.value),
        Only::One(_) => Only::Several,
        Only::Several => Only::Several,
    }
}
