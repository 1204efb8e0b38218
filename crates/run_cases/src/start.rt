//! What a run starts with.
use crate::requests::request;
use case_files::plain;
use std::alloc::Global;
use ur_base::{Bytes, List, Memory};

/// The numbers of the calls of each device that fail, 0 for none.
#[derive(Clone, Copy)]
pub struct Fails {
    pub shelf: u64,
    pub wire: u64,
    pub sink: u64,
    pub keeper: u64,
    pub keeper_too: u64,
}

/// Files, the inputs of connections, and how the devices behave.
#[derive(Drop)]
pub struct Start {
    pub files: List<(Bytes, Bytes)>,
    pub inputs: List<Bytes>,
    pub fails: Fails,
    /// the bytes of a piece of an input
    pub piece: usize,
    /// whether the scans of each connection are told
    pub each: bool,
    /// the words of a run before over the same store, and the inputs of its connections
    pub first: Bytes,
    pub first_inputs: List<Bytes>,
    /// the fields of the next request
    fields: Bytes,
}

impl Start {
    fn new(alloc: Global) -> Start {
        Start {
            files: List::new(alloc),
            inputs: List::new(alloc),
            fails: Fails {
                shelf: 0,
                wire: 0,
                sink: 0,
                keeper: 0,
                keeper_too: 0,
            },
            piece: 4096,
            each: false,
            first: List::new(alloc),
            first_inputs: List::new(alloc),
            fields: List::new(alloc),
        }
    }

    /// What the lines of a case say.
    pub fn read(alloc: Global, lines: &str) -> Result<Start, Memory> {
        let mut start = Start::new(alloc);
        for line in lines.lines() {
            start.take(alloc, line)?;
        }
        Ok(start)
    }

    fn take(&mut self, alloc: Global, line: &str) -> Result<(), Memory> {
        let (word, rest) = line.split_once(' ').unwrap_or((line, ""));
        match word {
            "file" => self.file(alloc, rest),
            ">" => self.text(rest),
            "ask" => self.ask(alloc, rest),
            "field" => self.field(alloc, rest),
            "raw" => self.raw(alloc, rest),
            "again" => self.inputs.push(List::new(alloc)),
            "before" => self.end_first(alloc, rest),
            _ => {
                self.set(word, rest);
                Ok(())
            }
        }
    }

    fn set(&mut self, word: &str, rest: &str) {
        let (one, two) = rest.split_once(' ').unwrap_or((rest, ""));
        let number = one.parse::<u64>().unwrap_or(0);
        match word {
            "shelf" => self.fails.shelf = number,
            "wire" => self.fails.wire = number,
            "sink" => self.fails.sink = number,
            "keeper" => {
                self.fails.keeper = number;
                self.fails.keeper_too = two.parse::<u64>().unwrap_or(0);
            }
            "piece" => self.piece = one.parse::<usize>().unwrap_or(4096),
            "each" => self.each = true,
            _ => {}
        }
    }

    /// `app/hello.urp hello\n`
    fn file(&mut self, alloc: Global, line: &str) -> Result<(), Memory> {
        let (name, text) = line.split_once(' ').unwrap_or((line, ""));
        let text = plain(alloc, text)?;
        let name = List::from_slice(alloc, name.as_bytes())?;
        self.files.push((name, text))
    }

    /// A line more of the last file.
    fn text(&mut self, line: &str) -> Result<(), Memory> {
        let Some((name, mut text)) = self.files.pop() else {
            return Ok(());
        };
        text.extend_from_slice(line.as_bytes())?;
        text.push(b'\n')?;
        self.files.push((name, text))
    }

    /// What was asked so far is asked of a run before, with these words.
    fn end_first(&mut self, alloc: Global, words: &str) -> Result<(), Memory> {
        self.first = plain(alloc, words)?;
        self.first_inputs = std::mem::replace(&mut self.inputs, List::new(alloc));
        Ok(())
    }

    /// A line more of the next request's fields.
    fn field(&mut self, alloc: Global, line: &str) -> Result<(), Memory> {
        let line = plain(alloc, line)?;
        self.fields.append(line)?;
        self.fields.extend_from_slice(b"\r\n")
    }

    fn ask(&mut self, alloc: Global, line: &str) -> Result<(), Memory> {
        let asked = request(alloc, line, self.fields.as_slice())?;
        self.fields = List::new(alloc);
        self.input(alloc, asked)
    }

    fn raw(&mut self, alloc: Global, line: &str) -> Result<(), Memory> {
        let bytes = plain(alloc, line)?;
        self.input(alloc, bytes)
    }

    /// More of the last connection's input, or the first one's.
    fn input(&mut self, alloc: Global, more: Bytes) -> Result<(), Memory> {
        let mut input = match self.inputs.pop() {
            Some(input) => input,
            None => List::new(alloc),
        };
        input.append(more)?;
        self.inputs.push(input)
    }
}
