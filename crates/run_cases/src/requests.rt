//! Requests as cases write them.
use case_files::plain;
use std::alloc::Global;
use ur_base::{Bytes, List, Memory};

/// The bytes of a request by `METHOD PATH BODY`, with these fields. One that posts has the length of its body.
pub fn request(alloc: Global, line: &str, fields: &[u8]) -> Result<Bytes, Memory> {
    let (method, rest) = line.split_once(' ').unwrap_or((line, ""));
    let (path, body) = rest.split_once(' ').unwrap_or((rest, ""));
    let body = plain(alloc, body)?;
    let mut bytes = head(alloc, method, path)?;
    bytes.extend_from_slice(fields)?;
    if method == "POST" {
        bytes.append(length_field(alloc, body.len())?)?;
    }
    bytes.extend_from_slice(b"\r\n")?;
    bytes.append(body)?;
    Ok(bytes)
}

fn head(alloc: Global, method: &str, path: &str) -> Result<Bytes, Memory> {
    let line = format!(in alloc; "{method} {path} HTTP/1.1\r\nHost: localhost\r\n")?;
    Ok(List::from_vec(line.into_bytes()))
}

fn length_field(alloc: Global, length: usize) -> Result<Bytes, Memory> {
    let line = format!(in alloc; "Content-Length: {length}\r\n")?;
    Ok(List::from_vec(line.into_bytes()))
}
