//! Forms (WHATWG URL Standard, section 5.1).
ghost use Rattle.std.specs.Prelude.{◌≡◌, IfOk};
ghost use Rattle.std.specs.Str.Lossy.{utf8_lossy};
ghost use Rattle.form_urlencoded.specs.Form as spec;
ghost use Rattle.ur_http.specs.Requests.{form_of};

use form_urlencoded::{decode, raw_pairs};
use std::alloc::Global;
use ur_base::{List, Memory, Text};

/// The pairs of a form, in order.
pub(crate) fn form(alloc: Global, body: &[u8]) -> Result<List<(Text, Text)>, Memory>
    ensures { IfOk result (λ form. form ≡ form_of body.now) }
{
    let mut form = List::new(alloc);
    for (name, value) in raw_pairs(body) {
        let name = text(alloc, name)?;
        let value = text(alloc, value)?;
        form.push((name, value))?;
    }
    Ok(form)
}

/// What a name or a value stands for; what is no UTF-8 becomes U+FFFD.
fn text(alloc: Global, encoded: &[u8]) -> Result<Text, Memory>
    ensures { IfOk result (λ text. text ≡ utf8_lossy (spec.decode encoded.now)) }
{
    let decoded = decode(alloc, encoded)?;
    let text = decoded.into_owned(alloc)?;
    Ok(List::from_vec(text.into_bytes()))
}
