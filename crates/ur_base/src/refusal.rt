//! Why a call ends without its answer: want of memory, or a refusal of the program that is compiled.
ghost use Rattle.std.specs.Prelude.{◌≡◌, IsTrue};
ghost use Rattle.ur_base.specs.Codes.{is_refusal_code};

use crate::List;
use std::alloc::{AllocError, AllocFailed};

/// Bytes that are UTF-8 where they come from outside as text.
pub type Text = List<u8>;

/// Any bytes.
pub type Bytes = List<u8>;

/// Want of memory.
#[derive(Debug, Clone, Copy, PartialEq, Eq)]
pub struct Memory;

impl From<AllocError> for Memory {
    fn from(_error: AllocError) -> Memory {
        Memory
    }
}

impl<T: Drop> From<AllocFailed<T>> for Memory {
    fn from(_error: AllocFailed<T>) -> Memory {
        Memory
    }
}

/// The bytes `from` up to `to` of a file, counted from 0. File 0 is the project file, file k the k-th module, and the
/// number after the last module's is the main module's signature.
#[derive(Debug, Clone, Copy, PartialEq, Eq)]
pub struct Span {
    pub file: u32,
    pub from: u32,
    pub to: u32,
}

/// Why a program is not compiled: the number of its code, as 2 for E02, where it stands, and two texts that say what
/// was found and what was wanted. The code is one of E01 to E20.
#[derive(Debug, Drop)]
pub struct Refusal {
    pub code: u8,
    pub span: Span,
    pub left: Text,
    pub right: Text,
    pub ghost named: { IsTrue (is_refusal_code code) },
}

/// A refusal, or want of memory.
#[derive(Debug, Drop)]
pub enum Stop {
    Refused(Refusal),
    Memory,
}

impl From<Memory> for Stop {
    ghost use Rattle.ur_base.specs.declared.refusal.Stop.TheVariants as stop;

    ghost from_gives = { λ _ given. given ≡ stop.Memory };

    fn from(_want: Memory) -> Stop {
        Stop::Memory
    }
}

impl From<Refusal> for Stop {
    ghost use Rattle.ur_base.specs.declared.refusal.Stop.TheVariants as stop;

    ghost from_gives = { λ refusal given. given ≡ stop.Refused refusal };

    fn from(refusal: Refusal) -> Stop {
        Stop::Refused(refusal)
    }
}
