//! Runs of bytes, and texts that others begin with.
ghost use Rattle.std.specs.Prelude.{◌≡◌, ◌≤◌, ◌<◌, ◌==◌, length, take, drop, slice_index, true, false};
ghost use Rattle.std.specs.List.{list_all};
ghost use Rattle.ur_lex.specs.Spelling.{is_small, is_capital, is_digit};
ghost use Rattle.ur_lex.specs.Scanning.{is_in, is_front};
ghost use Rattle.ur_lex.specs.declared.bytes.Class.TheVariants as class;

/// The bytes of a run: of a name, of a number, or of a tag's word.
#[derive(Clone, Copy)]
pub enum Class {
    Name,
    Digit,
    Word,
}

pub fn is_small(byte: u8) -> bool
    ensures { result ≡ is_small byte }
{
    b'a' <= byte && byte <= b'z'
}

pub fn is_capital(byte: u8) -> bool
    ensures { result ≡ is_capital byte }
{
    b'A' <= byte && byte <= b'Z'
}

pub fn is_digit(byte: u8) -> bool
    ensures { result ≡ is_digit byte }
{
    b'0' <= byte && byte <= b'9'
}

fn is_in(class: Class, byte: u8) -> bool
    ensures { result ≡ is_in class byte }
{
    match class {
        Class::Name => is_small(byte)
            || is_capital(byte)
            || is_digit(byte)
            || byte == b'_'
            || byte == b'\'',
        Class::Digit => is_digit(byte),
        Class::Word => is_small(byte) || is_digit(byte),
    }
}

/// The byte at this index, or 0 behind the end.
pub fn byte_at(bytes: &[u8], index: usize) -> u8
    ensures { result ≡ slice_index bytes.now index }
{
    if index < bytes.len() { bytes[index] } else { 0 }
}

/// The length of the longest front of this class.
pub fn run(class: Class, bytes: &[u8]) -> usize
    ensures within { result ≤ length bytes.now }
    ensures all { list_all (is_in class) (take result bytes.now) ≡ true }
    ensures end { is_in class (slice_index bytes.now result) ≡ false }
{
    let mut i = 0;
    while i < bytes.len() && is_in(class, bytes[i]) {
        i += 1;
    }
    i
}

/// Whether the bytes begin with this front.
pub fn begins(bytes: &[u8], front: &[u8]) -> bool
    ensures { result ≡ is_front front.now bytes.now }
{
    bytes.starts_with(front)
}
