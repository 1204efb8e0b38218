//! Connections with their requests, as cases write them.
use crate::words::{first, number};
use case_files::plain;
use std::alloc::Global;
use ur_base::{Bytes, List, Memory};

/// How a script is run: the units of a request, the entries of the cache, the numbers of the calls of the wire and of the keeper that fail,
/// 0 for none, and how the input comes in pieces.
#[derive(Clone, Copy, Debug)]
pub struct Sizes {
    pub steps: u32,
    pub cache: u32,
    pub wire: u32,
    /// the first and the last call of the keeper that fails, each in a run of its own
    pub keeper: (u32, u32),
    /// whether there is a run for each place where the first piece may end
    pub cuts: bool,
    /// the length of each other piece
    pub piece: u32,
    /// how many connections there are of each
    pub times: u32,
}

/// The input of each connection.
#[derive(Drop)]
pub struct Script {
    pub inputs: List<Bytes>,
    /// the fields of the next request
    fields: Bytes,
    pub sizes: Sizes,
}

impl Script {
    /// One connection without a request.
    pub fn new(alloc: Global) -> Script {
        Script {
            inputs: List::new(alloc),
            fields: List::new(alloc),
            sizes: Sizes {
                steps: 100,
                cache: 4,
                wire: 0,
                keeper: (0, 0),
                cuts: false,
                piece: u32::MAX,
                times: 1,
            },
        }
    }

    /// Takes the lines that say how the script is run and what is asked.
    pub fn take(&mut self, alloc: Global, text: &str) -> Result<(), Memory> {
        self.inputs.push(List::new(alloc))?;
        for line in text.lines() {
            let (word, rest) = first(line);
            self.take_line(alloc, word, rest)?;
        }
        Ok(())
    }

    fn take_line(&mut self, alloc: Global, word: &str, rest: &str) -> Result<(), Memory> {
        match word {
            "ask" => self.ask(alloc, rest),
            "raw" => self.raw(alloc, rest),
            "field" => self.field(rest),
            "again" => self.inputs.push(List::new(alloc)),
            _ => {
                self.sizes = sized(self.sizes, word, rest);
                Ok(())
            }
        }
    }

    fn raw(&mut self, alloc: Global, line: &str) -> Result<(), Memory> {
        let bytes = plain(alloc, line)?;
        self.put(alloc, bytes.as_slice())
    }

    fn field(&mut self, line: &str) -> Result<(), Memory> {
        self.fields.extend_from_slice(line.as_bytes())?;
        self.fields.extend_from_slice(b"\r\n")
    }

    /// Adds bytes to the input of the last connection.
    fn put(&mut self, alloc: Global, bytes: &[u8]) -> Result<(), Memory> {
        let mut input = self.inputs.pop().unwrap_or(List::new(alloc));
        input.extend_from_slice(bytes)?;
        self.inputs.push(input)
    }

    /// Adds a request: its method, its path and its body.
    fn ask(&mut self, alloc: Global, line: &str) -> Result<(), Memory> {
        let (method, rest) = first(line);
        let (path, body) = first(rest);
        let head = format!(in alloc; "{method} {path} HTTP/1.1\r\nHost: h\r\n")?;
        self.put(alloc, head.as_bytes())?;
        let fields = std::mem::replace(&mut self.fields, List::new(alloc));
        self.put(alloc, fields.as_slice())?;
        let length = body.len();
        let end = format!(in alloc; "Content-Length: {length}\r\n\r\n{body}")?;
        self.put(alloc, end.as_bytes())
    }
}

/// `steps 9`, `cache 0`, `wire 3`, `keeper 2` or `keeper 2 5`, `cuts`, `piece 1`, `times 200`
fn sized(sizes: Sizes, word: &str, rest: &str) -> Sizes {
    let mut sizes = sizes;
    let (from, to) = first(rest);
    match word {
        "steps" => sizes.steps = number(from),
        "cache" => sizes.cache = number(from),
        "wire" => sizes.wire = number(from),
        "keeper" => sizes.keeper = (number(from), number(to).max(number(from))),
        "cuts" => sizes.cuts = true,
        "piece" => sizes.piece = number(from),
        "times" => sizes.times = number(from),
        _ => {}
    }
    sizes
}
