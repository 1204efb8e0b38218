//! What trees are put into as text.
use std::alloc::Global;
use ur_base::{List, Memory, Text};

/// A text that grows word by word. Where memory is wanting it stays as it is from then on, and `finish` says so.
#[derive(Drop)]
pub struct Printer {
    alloc: Global,
    out: Text,
    lacks_memory: bool,
}

impl Printer {
    pub fn new(alloc: Global) -> Printer {
        Printer {
            alloc,
            out: List::new(alloc),
            lacks_memory: false,
        }
    }

    /// The text, or want of memory.
    pub fn finish(self) -> Result<Text, Memory> {
        let Printer {
            alloc: _,
            out,
            lacks_memory,
        } = self;
        if lacks_memory { Err(Memory) } else { Ok(out) }
    }

    /// Bytes as they are.
    pub fn put(&mut self, bytes: &[u8]) {
        if !self.lacks_memory {
            self.lacks_memory = self.out.extend_from_slice(bytes).is_err();
        }
    }

    /// A word, with a blank before it but at the begin and behind an opening bracket.
    pub fn word(&mut self, bytes: &[u8]) {
        match self.out.as_slice().last() {
            None | Some(b'(' | b'[' | b'{') => {}
            Some(_) => self.put(b" "),
        }
        self.put(bytes);
    }

    /// A number, as a word.
    pub fn number(&mut self, of: u64) {
        self.word(b"");
        self.count(of);
    }

    /// A number as it is.
    pub fn count(&mut self, of: u64) {
        match format!(in self.alloc; "{of}") {
            Ok(digits) => self.put(digits.as_bytes()),
            Err(_) => self.lacks_memory = true,
        }
    }

    /// An int, as a word.
    pub fn int(&mut self, of: i64) {
        self.word(b"");
        match format!(in self.alloc; "{of}") {
            Ok(digits) => self.put(digits.as_bytes()),
            Err(_) => self.lacks_memory = true,
        }
    }

    /// A text in quotes, with the escapes of the language.
    pub fn quoted(&mut self, of: &[u8]) {
        self.word(b"\"");
        for byte in of {
            match byte {
                b'"' => self.put(b"\\\""),
                b'\\' => self.put(b"\\\\"),
                b'\n' => self.put(b"\\n"),
                b'\t' => self.put(b"\\t"),
                other => self.put(&[*other]),
            }
        }
        self.put(b"\"");
    }

    /// Bytes, `^` for each return, and ` /` for each end of a line with a blank before what stands behind it.
    pub fn plain(&mut self, bytes: &[u8]) {
        let mut ended = false;
        for byte in bytes {
            if ended {
                self.put(b" ");
            }
            ended = *byte == b'\n';
            match byte {
                b'\r' => self.put(b"^"),
                b'\n' => self.put(b" /"),
                other => self.put(&[*other]),
            }
        }
    }

    /// The code of a refusal, as `E07`.
    pub fn code(&mut self, code: u8) {
        self.put(b"E");
        if code < 10 {
            self.put(b"0");
        }
        self.count(u64::from(code));
    }

    /// What a refusal says, behind `|`, where it says something.
    pub fn said(&mut self, bytes: &[u8]) {
        if !bytes.is_empty() {
            self.word(b"|");
            self.word(bytes);
        }
    }
}
