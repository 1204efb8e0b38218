//! The cookies of answers.
ghost use Rattle.std.specs.Prelude.{◌≡◌, IfOk};
ghost use Rattle.ur_tags.specs.Segments.{segment};
ghost use Rattle.ur_machine.specs.TurnsCookies as cookie_words;

use std::alloc::Global;
use ur_base::{List, Memory, Text};
use ur_code::Cookie;
use ur_values::Value;

/// The name of each cookie that was set and the segment of its value, in order.
pub(crate) fn sent_pairs(
    alloc: Global,
    cookies: &List<Cookie>,
    sent: &[(u32, Value)],
) -> Result<List<(Text, Text)>, Memory>
    ensures { IfOk result (λ pairs. pairs ≡ cookie_words.sent_pairs cookies.now sent.now) }
{
    let mut pairs = List::new(alloc);
    for set in sent {
        pairs.push(sent_pair(alloc, cookies, set.0, &set.1)?)?;
    }
    Ok(pairs)
}

fn sent_pair(
    alloc: Global,
    cookies: &List<Cookie>,
    number: u32,
    value: &Value,
) -> Result<(Text, Text), Memory>
    ensures { IfOk result (λ pair. pair ≡ cookie_words.sent_pair cookies.now (number, value.now)) }
{
    let name = name_of(alloc, cookies, number)?;
    let text = text_of(alloc, value)?;
    Ok((name, text))
}

/// The name of a cookie, empty where there is none of the number.
fn name_of(alloc: Global, cookies: &List<Cookie>, number: u32) -> Result<Text, Memory>
    ensures { IfOk result (λ name. name ≡ (cookie_words.sent_pair cookies.now (number, Value.Absent)).0) }
{
    match cookies.get(number as usize) {
        None => Ok(List::new(alloc)),
        Some(cookie) => Ok(List::from_slice(alloc, cookie.name.as_slice())?),
    }
}

/// The segment of an int, a string or a bool; nothing of any other value.
fn text_of(alloc: Global, value: &Value) -> Result<Text, Memory>
    ensures { IfOk result (λ text. text ≡ segment value.now) }
{
    if value.is_basic() {
        Ok(ur_tags::segment(alloc, value)?)
    } else {
        Ok(List::new(alloc))
    }
}
