//! Blanks, comments and numbers.
ghost use Rattle.std.specs.Prelude.{◌≡◌, ◌≤◌, ◌<◌, ◌+◌, ◌^◌, ◌==◌, ◌&&◌, length, drop, slice_index, true, MatchOption, Some, None};
ghost use Rattle.std.specs.List.{list_all};
ghost use Rattle.ur_lex.specs.Spelling.{is_digit, decimal_value};
ghost use Rattle.ur_lex.specs.Lexing.{is_blank, opens_comment, after_comments};

use crate::bytes::byte_at;

/// Space, tab, CR or LF.
pub fn is_blank(byte: u8) -> bool
    ensures { result ≡ is_blank byte }
{
    byte == b' ' || byte == b'\t' || byte == b'\r' || byte == b'\n'
}

/// Whether `(*` comes next.
pub fn opens_comment(bytes: &[u8]) -> bool
    ensures { result ≡ opens_comment bytes.now }
{
    byte_at(bytes, 0) == b'(' && byte_at(bytes, 1) == b'*'
}

/// Whether these two bytes stand here.
fn is_pair(bytes: &[u8], at: usize, first: u8, second: u8) -> bool
    requires { at + 2 ≤ length bytes.now }
    ensures { result ≡ (slice_index bytes.now at == first && slice_index bytes.now (at + 1) == second) }
{
    bytes[at] == first && bytes[at + 1] == second
}

/// The length of the comment with which the bytes begin, if it is closed.
pub fn comment(bytes: &[u8]) -> Option<usize>
    requires { opens_comment bytes.now ≡ true }
    ensures { MatchOption result (after_comments 1 (drop 2 bytes.now) ≡ None) (λ len. (2 ≤ len) × (len ≤ length bytes.now) × (after_comments 1 (drop 2 bytes.now) ≡ Some (drop len bytes.now))) }
{
    let mut open = 1usize;
    let mut at = 2usize;
    while open > 0 {
        if bytes.len() - at < 2 {
            return None;
        }
        if is_pair(bytes, at, b'(', b'*') {
            open += 1;
            at += 2;
        } else if is_pair(bytes, at, b'*', b')') {
            open -= 1;
            at += 2;
        } else {
            at += 1;
        }
    }
    Some(at)
}

/// The value of digits, if it is at most 9223372036854775807.
pub fn value(digits: &[u8]) -> Option<u64>
    requires { list_all is_digit digits.now ≡ true }
    ensures { MatchOption result (2 ^ 63 ≤ decimal_value digits.now) (λ n. (n ≡ decimal_value digits.now) × (n < 2 ^ 63)) }
{
    let mut value = 0u64;
    for digit in digits {
        value = value
            .saturating_mul(10)
            .saturating_add(u64::from(*digit - b'0'));
    }
    if value < 1 << 63 { Some(value) } else { None }
}
