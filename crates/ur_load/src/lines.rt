//! The lines of a project file, with their places.
ghost use Rattle.std.specs.Prelude.{◌≡◌, ◌<◌, ◌≤◌, ◌+◌, ◌-◌, ◌∷◌, IfOk, length, map, take, drop};
ghost use Rattle.std.specs.List.{suffix_len};
ghost use Rattle.std.specs.Str.Lines.{lines};
ghost use Rattle.ur_load.specs.Lines.{trimmed, is_empty, line_ends};
ghost use Rattle.ur_load.specs.Placed.{texts, Stands, AreStanding};
ghost use Rattle.ur_load.specs.Sources.{file_limit};

use crate::pieces::{first_line, trim_end, trim_start};
use std::alloc::Global;
use ur_base::{List, Memory, Span, Text};

/// A line of the project file, without the spaces and tabs at its ends.
#[derive(Debug, Drop)]
pub struct Line {
    pub span: Span,
    pub text: Text,
}

/// The line that begins at a place, and the place behind it.
fn line_at(alloc: Global, bytes: &[u8], at: usize) -> Result<(Line, usize), Memory>
    requires short { length bytes.now ≤ file_limit }
    requires within { at < length bytes.now }
    ensures line { IfOk result (λ r. map trimmed (lines (drop at bytes.now)) ≡ r.0.text ∷ map trimmed (lines (drop r.1 bytes.now))) }
    ensures stands { IfOk result (λ r. Stands bytes.now (line_ends (take at bytes.now)) r.0) }
    ensures number { IfOk result (λ r. r.1 < length bytes.now → line_ends (take r.1 bytes.now) ≡ line_ends (take at bytes.now) + 1) }
    ensures goes { IfOk result (λ r. at < r.1) }
    ensures ends { IfOk result (λ r. r.1 ≤ length bytes.now) }
{
    let (whole, taken) = first_line(&bytes[at..]);
    let rest = trim_start(whole);
    let text = trim_end(rest);
    let from = at + (whole.len() - rest.len());
    let span = Span {
        file: 0,
        from: from as u32,
        to: (from + text.len()) as u32,
    };
    let text = Text::from_slice(alloc, text)?;
    Ok((Line { span, text }, at + taken))
}

/// All lines of the file.
pub fn all_lines(alloc: Global, bytes: &[u8]) -> Result<List<Line>, Memory>
    requires { length bytes.now ≤ file_limit }
    ensures texts { IfOk result (λ found. texts found ≡ map trimmed (lines bytes.now)) }
    ensures places { IfOk result (AreStanding bytes.now) }
{
    let mut found = List::new(alloc);
    let mut at = 0;
    'lines: while at < bytes.len() {
        let (line, next) = line_at(alloc, bytes, at)?;
        found.push(line)?;
        at = next;
    }
    Ok(found)
}

/// Whether nothing stands in a line.
pub fn is_empty(line: &Line) -> bool
    ensures { result ≡ is_empty line.now.text }
{
    line.text.is_empty()
}

/// How many lines there are up to the last that is not empty.
pub fn filled(lines: &[Line]) -> usize
    ensures within { result ≤ length lines.now }
    ensures lines { result ≡ length lines.now - suffix_len is_empty (texts lines.now) }
{
    let mut len = lines.len();
    'empty: while len > 0 && is_empty(&lines[len - 1]) {
        len -= 1;
    }
    len
}
