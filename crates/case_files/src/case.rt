//! Cases as they are written in a file: docs/CASES.md has their form.
use crate::runs::Subjects;
use std::alloc::{AllocError, Global};

/// A text, what it is to be read as, and what must come.
#[derive(Drop)]
pub struct Case {
    /// the line at which it begins, from 1
    pub line: usize,
    /// what the text is to be read as
    pub subject: String,
    pub text: String,
    /// the lines of what must come, and nothing before the first of these is read
    pub wanted: String,
    /// whether the next line stands directly behind what is there
    joins: bool,
}

impl Case {
    fn new(alloc: Global, line: usize, subject: &str, text: &str) -> Result<Case, AllocError> {
        let subject = String::from_str(alloc, subject)?;
        let joins = text.is_empty();
        let text = String::from_str(alloc, text)?;
        Ok(Case {
            line,
            subject,
            text,
            wanted: String::new(alloc),
            joins,
        })
    }

    /// A line more of the text, or more of the last line of what must come.
    fn go_on(&mut self, more: &str) -> Result<(), AllocError> {
        if self.wanted.is_empty() {
            if !self.joins {
                self.text.push_str("\n")?;
            }
            self.text.push_str(more)?;
        } else {
            if !self.joins {
                self.wanted.push_str(" ")?;
            }
            self.wanted.push_str(more.trim_start())?;
        }
        self.joins = false;
        Ok(())
    }

    /// A piece so many times. Nothing is put before it, nor behind it.
    fn repeat(&mut self, count: u16, piece: &str) -> Result<(), AllocError> {
        for _ in 0..count {
            if self.wanted.is_empty() {
                self.text.push_str(piece)?;
            } else {
                self.wanted.push_str(piece)?;
            }
        }
        self.joins = true;
        Ok(())
    }

    /// A piece so many times, each with its number in the place of `#`.
    fn count(
        &mut self,
        alloc: Global,
        count: u16,
        down: bool,
        piece: &str,
    ) -> Result<(), AllocError> {
        let (before, behind) = piece.split_once('#').unwrap_or((piece, ""));
        for n in 0..count {
            let number = if down { count - n } else { n + 1 };
            let text = format!(in alloc; "{before}{number:05}{behind}")?;
            self.repeat(1, text.as_str())?;
        }
        Ok(())
    }

    /// A line of what must come.
    fn want(&mut self, line: &str) -> Result<(), AllocError> {
        if !self.wanted.is_empty() {
            self.wanted.push_str("\n")?;
        }
        self.wanted.push_str(line)?;
        self.joins = false;
        Ok(())
    }
}

/// The cases of a file, and the lines that belong to none.
#[derive(Drop)]
pub struct Cases {
    pub cases: Vec<Case>,
    pub strays: Vec<usize>,
    /// whether the next line may belong to the last case
    is_open: bool,
}

impl Cases {
    /// The cases of a file with these subjects.
    pub fn read<S: Subjects>(alloc: Global, subjects: &S, file: &str) -> Result<Cases, AllocError> {
        let mut all = Cases {
            cases: Vec::new(alloc),
            strays: Vec::new(alloc),
            is_open: false,
        };
        let mut number = 0usize;
        for line in file.lines() {
            number = number.saturating_add(1);
            if !all.take(alloc, subjects, number, line)? {
                all.strays.push(number)?;
            }
        }
        Ok(all)
    }

    /// Takes a line, or answers that it belongs to no case.
    fn take<S: Subjects>(
        &mut self,
        alloc: Global,
        subjects: &S,
        number: usize,
        line: &str,
    ) -> Result<bool, AllocError> {
        if line.is_empty() || line.starts_with('#') {
            return Ok(true);
        }
        if matches!(line.as_bytes().first(), Some(b'a'..=b'z')) {
            return self.begin(alloc, subjects, number, line);
        }
        if !self.is_open {
            return Ok(false);
        }
        match self.cases.last_mut() {
            Some(case) => added(alloc, case, line),
            None => Ok(false),
        }
    }

    /// Takes the first line of a case.
    fn begin<S: Subjects>(
        &mut self,
        alloc: Global,
        subjects: &S,
        number: usize,
        line: &str,
    ) -> Result<bool, AllocError> {
        let (word, text) = match line.split_once(' ') {
            Some((word, text)) => (word, text),
            None => (line, ""),
        };
        self.is_open = subjects.has(word);
        if self.is_open {
            let case = Case::new(alloc, number, word, text)?;
            self.cases.push(case)?;
        }
        Ok(self.is_open)
    }
}

/// Adds a line to a case, or answers that it is none of a case.
fn added(alloc: Global, case: &mut Case, line: &str) -> Result<bool, AllocError> {
    if let Some(more) = line.strip_prefix('|') {
        case.go_on(more.strip_prefix(' ').unwrap_or(more))?;
        Ok(true)
    } else if let Some(repeated) = line.strip_prefix("* ") {
        repeated_in(case, repeated)
    } else if let Some(counted) = line.strip_prefix("** ") {
        counted_in(alloc, case, counted)
    } else if line.starts_with('=') || line.starts_with('+') || line.starts_with('!') {
        case.want(line)?;
        Ok(true)
    } else {
        Ok(false)
    }
}

/// Adds a piece as often as a line says.
fn repeated_in(case: &mut Case, line: &str) -> Result<bool, AllocError> {
    let Some((count, piece)) = line.split_once(' ') else {
        return Ok(false);
    };
    match count.parse::<u16>() {
        Ok(count) => {
            case.repeat(count, piece)?;
            Ok(true)
        }
        Err(_) => Ok(false),
    }
}

/// Adds a piece with each number up to the one that a line says, or from it down where a minus sign stands before it.
fn counted_in(alloc: Global, case: &mut Case, line: &str) -> Result<bool, AllocError> {
    let Some((written, piece)) = line.split_once(' ') else {
        return Ok(false);
    };
    let count = written.strip_prefix('-').unwrap_or(written);
    match count.parse::<u16>() {
        Ok(number) => {
            case.count(alloc, number, count.len() < written.len(), piece)?;
            Ok(true)
        }
        Err(_) => Ok(false),
    }
}
