//! Pieces of bytes: a line, and a text without the spaces and tabs at its ends.
ghost use Rattle.std.specs.Prelude.{◌≡◌, ◌<◌, ◌≤◌, ◌+◌, ◌==◌, ◌∷◌, length, take, drop};
ghost use Rattle.std.specs.List.{position_or_len};
ghost use Rattle.std.specs.Str.Lines.{lines, strip_carriage_return};
ghost use Rattle.ur_load.specs.Lines.{is_space, line_ends, without_first, without_last};

/// The first line of bytes, and how many bytes it and its end take.
pub fn first_line(bytes: &[u8]) -> (&[u8], usize)
    requires { 0 < length bytes.now }
    ensures line { lines bytes.now ≡ result.0.now ∷ lines (drop result.1 bytes.now) }
    ensures begins { result.0.now ≡ take (length result.0.now) bytes.now }
    ensures goes { 0 < result.1 }
    ensures within { result.1 ≤ length bytes.now }
    ensures holds { length result.0.now ≤ result.1 }
    ensures plain { line_ends result.0.now ≡ 0 }
    ensures ended { result.1 < length bytes.now → line_ends (take result.1 bytes.now) ≡ 1 }
{
    let end = line_end(bytes);
    if end < bytes.len() {
        (without_return(&bytes[..end]), end + 1)
    } else {
        (bytes, end)
    }
}

fn is_newline(b: u8) -> bool
    ensures { result ≡ (b == 10) }
{
    b == b'\n'
}

/// How many bytes stand before the first LF.
fn line_end(bytes: &[u8]) -> usize
    ensures within { result ≤ length bytes.now }
    ensures first { result ≡ position_or_len (λ b. b == 10) bytes.now }
{
    let mut end = 0;
    'bytes: while end < bytes.len() && !is_newline(bytes[end]) {
        end += 1;
    }
    end
}

/// The bytes without the CR at their end, if one is there.
fn without_return(bytes: &[u8]) -> &[u8]
    ensures stripped { result.now ≡ strip_carriage_return bytes.now }
    ensures begins { result.now ≡ take (length result.now) bytes.now }
    ensures within { length result.now ≤ length bytes.now }
{
    let len = bytes.len();
    if len > 0 && bytes[len - 1] == b'\r' {
        &bytes[..len - 1]
    } else {
        bytes
    }
}

fn is_space(b: u8) -> bool
    ensures { result ≡ is_space b }
{
    b == b' ' || b == b'\t'
}

/// The bytes without the spaces and tabs at their begin.
pub fn trim_start(bytes: &[u8]) -> &[u8]
    ensures trimmed { result.now ≡ without_first is_space bytes.now }
    ensures within { length result.now ≤ length bytes.now }
{
    let mut from = 0;
    'spaces: while from < bytes.len() && is_space(bytes[from]) {
        from += 1;
    }
    &bytes[from..]
}

/// The bytes without the spaces and tabs at their end.
pub fn trim_end(bytes: &[u8]) -> &[u8]
    ensures trimmed { result.now ≡ without_last is_space bytes.now }
    ensures within { length result.now ≤ length bytes.now }
{
    let mut to = bytes.len();
    'spaces: while to > 0 && is_space(bytes[to - 1]) {
        to -= 1;
    }
    &bytes[..to]
}
