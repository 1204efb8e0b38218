//! Files.
ghost use Rattle.std.specs.Prelude.{◌≡◌, ◌≤◌, ◌<◌, IfOk, None, Some, length, take};
ghost use Rattle.std.specs.Io.KnownBytes.{Consumes, IsAtEnd};
ghost use Rattle.ur_base.specs.Told.{WhereTold};
ghost use Rattle.ur_io.specs.Files.{fetched, IsWithin};

use crate::{FetchEnd, Fetched, Shelf};
use std::alloc::Global;
use std::fs;
use std::io::{self, ErrorKind, Read};
use std::marker::Model;
use std::rt::Files;
use ur_base::Bytes;

/// Files by their paths. Tells nothing of what they hold.
#[derive(Drop)]
pub struct FileShelf<R> {
    rt: R,
    faults: u64,
}

impl<R> Model for FileShelf<R> {
    ghost use Rattle.ur_io.specs.Real.{Counted};

    ghost Value = { Counted };

    ghost view = { λ s. record { faults = s.faults } };
}

impl<R: Drop> FileShelf<R> {
    pub fn new(rt: R) -> FileShelf<R>
        ensures { result ≡ record { faults = 0 } }
    {
        FileShelf { rt, faults: 0 }
    }
}

impl<R: Files + AllocGlobal + Drop> Shelf for FileShelf<R> {
    ghost told = { λ _. None };

    ghost faults = { λ s. s.faults };

    /// A directory and a file that cannot be read are Failed.
    fn fetch(&mut self, name: &str, most: usize) -> Result<Fetched, FetchEnd> {
        let fetched = read_file(&self.rt, name, most);
        if let Err(FetchEnd::Failed) = &fetched {
            self.faults = self.faults.saturating_add(1);
        }
        fetched
    }
}

fn read_file<R: Files + AllocGlobal>(rt: &R, name: &str, most: usize) -> Result<Fetched, FetchEnd>
    ensures within { IfOk result (IsWithin most) }
{
    match fs::open(rt, name) {
        Ok(mut file) => read_whole(rt.alloc(), &mut file, most),
        Err(error) => match error.kind() {
            ErrorKind::NotFound => Ok(Fetched::Missing),
            _ => Err(end_of(&error)),
        },
    }
}

/// Reads at most one byte more than `most`. Where the file tells its bytes, what is fetched is told.
fn read_whole<F: Read>(alloc: Global, file: &mut F, most: usize) -> Result<Fetched, FetchEnd>
    ensures contents { WhereTold (F.remaining file.old) (λ bytes. IfOk result (λ r. r ≡ fetched most (Some bytes))) }
    ensures within { IfOk result (IsWithin most) }
{
    let mut buf = [0u8; 4096];
    let mut bytes = Bytes::new(alloc);
    for _ in 0..u64::MAX {
        let left = most - bytes.len();
        let size = left.saturating_add(1).min(buf.len());
        let count = read_some(file, &mut buf[..size])?;
        if count == 0 {
            return Ok(Fetched::Whole(bytes));
        }
        if count > left {
            return Ok(Fetched::Longer);
        }
        bytes.extend_from_slice(&buf[..count])?;
    }
    Err(FetchEnd::Failed)
}

/// Reads some bytes to the front of the buffer; 0 is the file's end.
fn read_some<F: Read>(file: &mut F, buf: &mut [u8]) -> Result<usize, FetchEnd>
    requires { 0 < length buf.old }
    ensures within { IfOk result (λ n. n ≤ length buf.old) }
    ensures bytes { IfOk result (λ n. Consumes (F.remaining file.old) (F.remaining file.new) (take n buf.new)) }
    ensures end { IfOk result (λ n. n ≡ 0 → IsAtEnd (F.remaining file.new)) }
{
    match file.read(buf) {
        Ok(count) => Ok(count),
        Err(error) => Err(end_of(&error)),
    }
}

fn end_of(error: &io::Error) -> FetchEnd {
    match error.kind() {
        ErrorKind::OutOfMemory => FetchEnd::Memory,
        _ => FetchEnd::Failed,
    }
}
