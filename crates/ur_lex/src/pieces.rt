//! What stands between quotes, and in XML text, piece by piece.
ghost use Rattle.std.specs.Prelude.{◌≡◌, MatchOption, IfOk};
ghost use Rattle.std.specs.Option.{option_map};
ghost use Rattle.ur_lex.specs.Spelling.{is_plain, table};
ghost use Rattle.ur_lex.specs.Scanning.{rows_in, listed_piece, first_piece, IsReading};

use crate::bytes::begins;
use std::alloc::Global;
use ur_base::{List, Memory, Text};

/// In a string: quotes, backslashes, LF and tab.
const ESCAPES: [(&[u8], &[u8]); 4] = [
    (b"\\\"", b"\""),
    (b"\\\\", b"\\"),
    (b"\\n", b"\n"),
    (b"\\t", b"\t"),
];

/// In an sqltext: a quote.
const DOUBLED_QUOTE: [(&[u8], &[u8]); 1] = [(b"''", b"'")];

/// In a tag's string and in XML text. The last is U+00A0.
const ENTITIES: [(&[u8], &[u8]); 5] = [
    (b"&amp;", b"&"),
    (b"&lt;", b"<"),
    (b"&gt;", b">"),
    (b"&quot;", b"\""),
    (b"&nbsp;", b"\xc2\xa0"),
];

/// What a string, an sqltext, a tag's string and XML text are made of.
#[derive(Clone, Copy, Debug, PartialEq, Eq)]
pub enum Alphabet {
    Str,
    Sql,
    Attr,
    Xml,
}

/// A piece: how many bytes it has, and what they stand for.
#[derive(Clone, Copy)]
pub struct Piece<'a> {
    pub len: usize,
    pub meant: &'a [u8],
}

/// A text that was read: what it stands for, and how many bytes it has.
#[derive(Drop)]
pub struct Reading {
    pub content: Text,
    pub len: usize,
}

/// Whether a byte stands for itself.
fn is_plain(alphabet: Alphabet, byte: u8) -> bool
    ensures { result ≡ is_plain alphabet byte }
{
    match alphabet {
        Alphabet::Str => byte != b'\n' && byte != b'"' && byte != b'\\',
        Alphabet::Sql => byte != b'\n' && byte != b'\'',
        Alphabet::Attr => byte != b'\n' && byte != b'"' && byte != b'&',
        Alphabet::Xml => byte != b'<' && byte != b'{' && byte != b'&',
    }
}

/// The first text of a table with which the bytes begin.
fn listed(mut table: &[(&'static [u8], &'static [u8])], bytes: &[u8]) -> Option<Piece<'static>>
    ensures { option_map (λ p. (p.len, p.meant.now)) result ≡ listed_piece (rows_in table.entry.now) bytes.now }
{
    while let [row, rest @ ..] = table {
        if begins(bytes, row.0) {
            return Some(Piece {
                len: row.0.len(),
                meant: row.1,
            });
        }
        table = rest;
    }
    None
}

/// The texts that stand for others.
fn table(alphabet: Alphabet) -> &'static [(&'static [u8], &'static [u8])]
    ensures { rows_in result.now ≡ table alphabet }
{
    match alphabet {
        Alphabet::Str => &ESCAPES,
        Alphabet::Sql => &DOUBLED_QUOTE,
        Alphabet::Attr | Alphabet::Xml => &ENTITIES,
    }
}

/// The piece with which the bytes begin.
fn next_piece(alphabet: Alphabet, bytes: &[u8]) -> Option<Piece<'_>>
    ensures { MatchOption result (first_piece alphabet bytes.now ≡ None) (λ p. first_piece alphabet bytes.now ≡ Some (p.len, p.meant.now)) }
{
    if let Some(piece) = listed(table(alphabet), bytes) {
        return Some(piece);
    }
    if bytes.is_empty() || !is_plain(alphabet, bytes[0]) {
        return None;
    }
    Some(Piece {
        len: 1,
        meant: &bytes[..1],
    })
}

/// All pieces, up to the first bytes that begin with none.
pub fn read(alloc: Global, alphabet: Alphabet, bytes: &[u8]) -> Result<Reading, Memory>
    ensures { IfOk result (λ r. IsReading alphabet r.content r.len bytes.now) }
{
    let mut content = List::new(alloc);
    let mut len = 0;
    while let Some(piece) = next_piece(alphabet, &bytes[len..]) {
        content.extend_from_slice(piece.meant)?;
        len += piece.len;
    }
    Ok(Reading { content, len })
}
