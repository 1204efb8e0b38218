//! Requests in pieces, and what a splitter gives of them.
use case_files::{Printer, plain};
use std::alloc::Global;
use ur_base::{List, Memory, Text};
use ur_http::{HttpRequest, Item, Method, Splitter};

/// The longest bytes that are cut at each of them.
const CUT: usize = 1000;

fn word(method: Method) -> &'static [u8] {
    match method {
        Method::Get => b"GET",
        Method::Head => b"HEAD",
        Method::Post => b"POST",
        Method::Other => b"OTHER",
    }
}

fn put_pairs(p: &mut Printer, title: &[u8], pairs: &List<(Text, Text)>) {
    if !pairs.is_empty() {
        p.word(title);
    }
    for (name, value) in pairs.as_slice() {
        p.word(name.as_slice());
        p.put(b"=");
        p.put(value.as_slice());
    }
}

fn put_request(p: &mut Printer, request: &HttpRequest) {
    p.word(word(request.method));
    p.word(request.path.as_slice());
    put_pairs(p, b"form", &request.form);
    put_pairs(p, b"cookies", &request.cookies);
    if request.close {
        p.word(b"close");
    }
    p.put(b";");
}

/// Takes the items out, and says whether more bytes can be of use.
fn drain(splitter: &mut Splitter, p: &mut Printer) -> Result<bool, Memory> {
    for _ in 0..100 {
        match splitter.next()? {
            Item::NeedMore => return Ok(true),
            Item::Bad(status) => {
                p.number(u64::from(status));
                p.put(b";");
                return Ok(false);
            }
            Item::Request(request) => put_request(p, &request),
        }
    }
    Ok(false)
}

/// Feeds a first piece of so many bytes, and then others of this size.
fn feed(
    splitter: &mut Splitter,
    bytes: &[u8],
    first: usize,
    size: usize,
    p: &mut Printer,
) -> Result<(), Memory> {
    let first = first.min(bytes.len());
    let _ = splitter.feed(&bytes[..first]);
    let mut goes_on = drain(splitter, p)?;
    for piece in bytes[first..].chunks(size.max(1)) {
        if goes_on {
            let _ = splitter.feed(piece);
            goes_on = drain(splitter, p)?;
        }
    }
    Ok(())
}

/// What a splitter that is cleared gives of the bytes.
fn told(
    alloc: Global,
    splitter: &mut Splitter,
    bytes: &[u8],
    first: usize,
    size: usize,
) -> Result<Text, Memory> {
    splitter.clear();
    let mut p = Printer::new(alloc);
    p.put(b"=");
    feed(splitter, bytes, first, size, &mut p)?;
    p.finish()
}

/// Puts what is told where it is not the same as before.
fn put_if_new(p: &mut Printer, last: &Text, told: &Text) {
    if last.as_slice() != told.as_slice() {
        if !last.is_empty() {
            p.put(b"\n");
        }
        p.put(told.as_slice());
    }
}

fn put_sizes(
    alloc: Global,
    splitter: &mut Splitter,
    bytes: &[u8],
    p: &mut Printer,
) -> Result<Text, Memory> {
    let mut last = List::new(alloc);
    for size in [1, 2, 7, 64, 1000] {
        let told = told(alloc, splitter, bytes, 0, size)?;
        put_if_new(p, &last, &told);
        last = told;
    }
    Ok(last)
}

fn put_cuts(
    alloc: Global,
    splitter: &mut Splitter,
    bytes: &[u8],
    last: Text,
    p: &mut Printer,
) -> Result<(), Memory> {
    let mut last = last;
    for cut in 0..bytes.len() {
        let told = told(alloc, splitter, bytes, cut, usize::MAX)?;
        put_if_new(p, &last, &told);
        last = told;
    }
    Ok(())
}

fn put_ways(
    alloc: Global,
    splitter: &mut Splitter,
    bytes: &[u8],
    p: &mut Printer,
) -> Result<(), Memory> {
    let last = put_sizes(alloc, splitter, bytes, p)?;
    if bytes.len() > CUT {
        return Ok(());
    }
    put_cuts(alloc, splitter, bytes, last, p)
}

fn put_all(alloc: Global, bytes: &[u8], p: &mut Printer) -> Result<(), Memory> {
    let mut splitter = Splitter::new(alloc)?;
    put_ways(alloc, &mut splitter, bytes, p)
}

/// The requests of these bytes in pieces of 1, 2, 7, 64 and 1,000 bytes and in two pieces that are cut at each byte: what is told of each way
/// that differs from the one before.
pub fn splits(alloc: Global, text: &str, p: &mut Printer) -> Result<(), Memory> {
    let bytes = plain(alloc, text)?;
    put_all(alloc, bytes.as_slice(), p)
}
