//! Bytes as cases write them.
use std::alloc::Global;
use ur_base::{Bytes, List, Memory};

/// What a letter behind a backslash stands for.
fn escaped(byte: u8) -> u8 {
    match byte {
        b'n' => b'\n',
        b'r' => b'\r',
        b't' => b'\t',
        b'x' => 255,
        other => other,
    }
}

/// The bytes of a line, in which `\n`, `\r` and `\t` are ends of lines, returns and tabs, and `\x` is a byte that no text has.
pub fn plain(alloc: Global, line: &str) -> Result<Bytes, Memory> {
    let mut bytes = List::new(alloc);
    let mut is_escape = false;
    for byte in line.as_bytes() {
        if is_escape {
            bytes.push(escaped(*byte))?;
            is_escape = false;
        } else if *byte == b'\\' {
            is_escape = true;
        } else {
            bytes.push(*byte)?;
        }
    }
    Ok(bytes)
}
