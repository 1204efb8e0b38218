//! The cookies of requests.
ghost use Rattle.std.specs.Prelude.{◌≡◌, All, IfOk, IsUtf8};
ghost use Rattle.std.specs.Option.{option_copied};
ghost use Rattle.ur_machine.specs.Cookies.{carried, carried_value, first_value};

use std::alloc::Global;
use std::str;
use ur_base::{Boxed, List, Memory, Text};
use ur_code::Cookie;
use ur_tags::unsegment;
use ur_values::Value;

/// What a request's pairs give of each cookie that a program declares: the value of the first pair of its name, where
/// it can be read as its kind.
pub(crate) fn carried(
    alloc: Global,
    cookies: &List<Cookie>,
    pairs: &[(Text, Text)],
) -> Result<List<Value>, Memory>
    requires { All (λ pair. IsUtf8 pair.1) pairs.now }
    ensures { IfOk result (λ values. values ≡ carried cookies.now pairs.now) }
{
    let mut carried = List::new(alloc);
    for cookie in cookies.as_slice() {
        carried.push(carried_value(alloc, cookie, pairs)?)?;
    }
    Ok(carried)
}

fn carried_value(alloc: Global, cookie: &Cookie, pairs: &[(Text, Text)]) -> Result<Value, Memory>
    requires { All (λ pair. IsUtf8 pair.1) pairs.now }
    ensures { IfOk result (λ value. value ≡ carried_value pairs.now cookie.now) }
{
    match first_value(&cookie.name, pairs) {
        None => Ok(Value::Absent),
        Some(text) => match str::from_utf8(text.as_slice()) {
            Err(_) => unreachable!(),
            Ok(text) => match unsegment(alloc, text, cookie.of)? {
                None => Ok(Value::Absent),
                Some(value) => Ok(Value::Present(Boxed::new(alloc, value)?)),
            },
        },
    }
}

/// The value of the first pair of this name, if there is one.
pub fn first_value<'a>(name: &Text, pairs: &'a [(Text, Text)]) -> Option<&'a Text>
    ensures { option_copied result ≡ first_value name.now pairs.now }
{
    for pair in pairs {
        if pair.0.as_slice() == name.as_slice() {
            return Some(&pair.1);
        }
    }
    None
}
