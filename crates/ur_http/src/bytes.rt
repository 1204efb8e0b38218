//! Words on bytes: the white space around them, the first place of a byte, and names that are equal but for case.
ghost use Rattle.std.specs.Prelude.{◌≡◌, ◌==◌, ◌<◌, ◌^◌, length, reverse, MatchOption};
ghost use Rattle.std.specs.List.{position_or_len};
ghost use Rattle.std.specs.Str.{str_eq_ignore_ascii_case};
ghost use Rattle.httparse.specs.Grammar.{is_ows, skip_ows, trim_ows};

/// The bytes without the spaces and tabs at both ends (RFC 9110, section 5.6.3).
pub(crate) fn trim(bytes: &[u8]) -> &[u8]
    ensures { result.now ≡ trim_ows bytes.now }
{
    trim_end(trim_start(bytes))
}

fn trim_start(bytes: &[u8]) -> &[u8]
    ensures { result.now ≡ skip_ows bytes.now }
{
    let mut left = bytes;
    while let Some((first, rest)) = left.split_first() {
        if !is_white(*first) {
            break;
        }
        left = rest;
    }
    left
}

fn trim_end(bytes: &[u8]) -> &[u8]
    ensures { result.now ≡ reverse (skip_ows (reverse bytes.now)) }
{
    let mut left = bytes;
    while let Some((last, rest)) = left.split_last() {
        if !is_white(*last) {
            break;
        }
        left = rest;
    }
    left
}

fn is_white(byte: u8) -> bool
    ensures { result ≡ is_ows byte }
{
    byte == b' ' || byte == b'\t'
}

/// The first place of the byte, from 0.
pub(crate) fn place_of(bytes: &[u8], byte: u8) -> Option<usize>
    ensures place { MatchOption result (position_or_len (λ b. b == byte) bytes.now ≡ length bytes.now)
        (λ i. (position_or_len (λ b. b == byte) bytes.now ≡ i) × (i < length bytes.now)) }
    ensures bound { length bytes.now < 2 ^ 64 }
{
    bytes.iter().position(|b| *b == byte)
}

/// Whether the bytes are equal without regard to ASCII case.
pub(crate) fn same_name(a: &[u8], b: &[u8]) -> bool
    ensures { result ≡ str_eq_ignore_ascii_case a.now b.now }
{
    a.eq_ignore_ascii_case(b)
}
