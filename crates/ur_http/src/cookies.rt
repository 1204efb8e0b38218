//! The cookies that a head carries (RFC 6265, section 4.2.1).
ghost use Rattle.std.specs.Prelude.{◌≡◌, ◌==◌, ◌<◌, ◌^◌, ◌++◌, [], ◌∷◌, true, false, length, map, filter, IfOk, IfSome, MatchOption, OnOk};
ghost use Rattle.std.specs.List.{position_or_len};
ghost use Rattle.ur_http.specs.Fields.{cookies_of, pairs_in, pair_of, is_pair};
ghost use Rattle.ur_http.specs.Reading.{field_pair};

use crate::bytes::{place_of, same_name, trim};
use crate::fields::Field;
use std::alloc::Global;
use std::str;
use ur_base::{List, Memory, Text};

/// The pairs of the Cookie fields, in order.
pub(crate) fn cookies(alloc: Global, fields: &[Field<'_>]) -> Result<List<(Text, Text)>, Memory>
    ensures { IfOk result (λ cookies. cookies ≡ cookies_of (map field_pair fields.now)) }
{
    let mut cookies = List::new(alloc);
    for field in fields {
        add_field(alloc, &mut cookies, field)?;
    }
    Ok(cookies)
}

/// Adds the pairs of a field, if it is a Cookie field.
fn add_field(
    alloc: Global,
    cookies: &mut List<(Text, Text)>,
    field: &Field<'_>,
) -> Result<(), Memory>
    ensures { OnOk result (cookies.new ≡ cookies.old ++ cookies_of (field_pair field.now ∷ [])) }
{
    if !same_name(field.name, b"cookie") {
        return Ok(());
    }
    add_pairs(alloc, cookies, field.value)?;
    Ok(())
}

fn add_pairs(alloc: Global, cookies: &mut List<(Text, Text)>, value: &[u8]) -> Result<(), Memory>
    ensures { OnOk result (cookies.new ≡ cookies.old ++ pairs_in value.now) }
{
    let mut left = value;
    while let Some(end) = place_of(left, b';') {
        add_pair(alloc, cookies, &left[..end])?;
        left = &left[end + 1..];
    }
    add_pair(alloc, cookies, left)?;
    Ok(())
}

/// Adds the pair of a piece; one without `=` or that is no UTF-8 is passed over.
fn add_pair(alloc: Global, cookies: &mut List<(Text, Text)>, piece: &[u8]) -> Result<(), Memory>
    ensures { OnOk result (cookies.new ≡ cookies.old ++ map pair_of (filter is_pair (piece.now ∷ []))) }
{
    match middle_of(piece) {
        None => Ok(()),
        Some(middle) => {
            let name = List::from_slice(alloc, trim(&piece[..middle]))?;
            let value = List::from_slice(alloc, trim(&piece[middle + 1..]))?;
            cookies.push((name, value))?;
            Ok(())
        }
    }
}

/// The place of the first `=` of a piece that is a pair.
fn middle_of(piece: &[u8]) -> Option<usize>
    ensures pair { MatchOption result (is_pair piece.now ≡ false) (λ middle. is_pair piece.now ≡ true) }
    ensures place { IfSome result (λ middle. (position_or_len (λ b. b == 61) piece.now ≡ middle) × (middle < length piece.now)) }
    ensures bound { length piece.now < 2 ^ 64 }
{
    match place_of(piece, b'=') {
        None => None,
        Some(middle) => match str::from_utf8(piece) {
            Ok(_) => Some(middle),
            Err(_) => None,
        },
    }
}
