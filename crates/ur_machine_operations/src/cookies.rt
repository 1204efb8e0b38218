//! The cookies of a request.
ghost use Rattle.std.specs.Prelude.{◌≡◌, ◌==◌, OnOk, position};
ghost use Rattle.ur_terms.specs.State.{with_cookie};

use ur_base::{List, Memory};
use ur_values::Value;

/// Sets a cookie. One that was set before is set anew in its place.
pub(crate) fn set_cookie(
    sent: &mut List<(u32, Value)>,
    cookie: u32,
    value: Value,
) -> Result<(), Memory>
    ensures { OnOk result (sent.new ≡ with_cookie cookie value sent.old) }
{
    match place_of(sent, cookie) {
        Some(place) => {
            sent.set(place, (cookie, value));
            Ok(())
        }
        None => sent.push((cookie, value)),
    }
}

/// Where the cookie was set before.
fn place_of(sent: &List<(u32, Value)>, cookie: u32) -> Option<usize>
    ensures { result ≡ position (λ set. set.0 == cookie) sent.now }
{
    sent.iter().position(|set| set.0 == cookie)
}
