//! A connection's input, cut in pieces.
ghost use Rattle.std.specs.Prelude.{◌≡◌, ◌≤◌, ◌+◌, ◌++◌, [], min, length, get_or, take, drop};
ghost use Rattle.ur_io.specs.Memory.{pieces_at, place_of, piece_from};

use ur_base::{Bytes, List};

/// The pieces of the connection that was made current last, none where none was.
pub(crate) fn pieces_of(connections: &[List<Bytes>], opened: usize) -> &[Bytes]
    requires { opened ≤ length connections.now }
    ensures { result.now ≡ pieces_at connections.now opened }
{
    match connections[..opened].last() {
        Some(pieces) => pieces.as_slice(),
        None => &[],
    }
}

/// What is left of the piece that has the next byte, behind that piece's number and the byte's place in it.
#[tactic(auto, using(crate::proofs::Inputs::place_next))]
pub(crate) fn next_piece(pieces: &[Bytes], mut piece: usize, mut at: usize) -> (usize, usize, &[u8])
    requires { at ≤ length (get_or pieces.now piece []) }
    ensures place { place_of pieces.now result.0 result.1 ≡ place_of pieces.now piece at }
    ensures left { result.2.now ≡ piece_from (place_of pieces.now piece at) pieces.now }
    ensures within { result.1 + length result.2.now ≤ length (get_or pieces.now result.0 []) }
    ensures fits { result.1 + length result.2.now ≤ usize.MAX }
{
    while let Some(bytes) = pieces.get(piece) {
        if at < bytes.len() {
            return (piece, at, &bytes.as_slice()[at..]);
        }
        piece += 1;
        at = 0;
    }
    (piece, 0, &[])
}

/// Copies bytes to the front of the buffer, as many as it holds, and answers how many.
pub(crate) fn copy_front(buf: &mut [u8], bytes: &[u8]) -> usize
    ensures count { result ≡ min (length buf.old) (length bytes.now) }
    ensures buffer { buf.new ≡ take result bytes.now ++ drop result buf.old }
{
    let count = buf.len().min(bytes.len());
    buf[..count].copy_from_slice(&bytes[..count]);
    count
}
