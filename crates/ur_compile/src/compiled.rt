//! What the compiler answers.
ghost use Rattle.std.specs.Prelude.{◌≡◌};
ghost use Rattle.ur_compile.specs.Ends.{IsStopIn};

use std::alloc::Global;
use ur_base::{List, Memory, Refusal, Stop, Text};
use ur_conditions::Patterns;
use ur_load::LoadEnd;
use ur_verify::Verified;

/// Verified code, and the patterns by which its changes touch cached answers.
#[derive(Drop)]
pub struct Compiled {
    pub verified: Verified,
    pub patterns: Patterns,
}

/// Why there is no code: the project is refused, in the file of this name; the shelf failed; or memory is wanting.
#[derive(Debug, Drop)]
pub enum CompileEnd {
    Refused { file: Text, refusal: Refusal },
    Shelf,
    Memory,
}

impl From<Memory> for CompileEnd {
    ghost use Rattle.ur_compile.specs.declared.compiled.CompileEnd.TheVariants as compile_end;

    ghost from_gives = { λ _ given. given ≡ compile_end.Memory };

    fn from(_want: Memory) -> CompileEnd {
        CompileEnd::Memory
    }
}

impl From<LoadEnd> for CompileEnd {
    ghost use Rattle.ur_compile.specs.Ends.{end_of};

    ghost from_gives = { λ end given. given ≡ end_of end };

    fn from(end: LoadEnd) -> CompileEnd {
        match end {
            LoadEnd::Refused { file, refusal } => CompileEnd::Refused { file, refusal },
            LoadEnd::Shelf => CompileEnd::Shelf,
            LoadEnd::Memory => CompileEnd::Memory,
        }
    }
}

/// The stop in the file of this name.
pub fn stopped_in(alloc: Global, file: &Text, stop: Stop) -> CompileEnd
    ensures { IsStopIn file.now stop result }
{
    match stop {
        Stop::Refused(refusal) => match List::from_slice(alloc, file.as_slice()) {
            Ok(file) => CompileEnd::Refused { file, refusal },
            Err(_) => CompileEnd::Memory,
        },
        Stop::Memory => CompileEnd::Memory,
    }
}
