//! Why a project is not loaded.
ghost use Rattle.std.specs.Prelude.{◌≡◌, IsTrue};
ghost use Rattle.ur_base.specs.Codes.{is_refusal_code};
ghost use Rattle.ur_load.specs.Loads.{IsStopIn, SaysIn};

use std::alloc::Global;
use ur_base::{List, Memory, Refusal, Span, Stop, Text};
use ur_io::FetchEnd;

/// Why a project is not loaded: it is refused in one of its files, the shelf failed, or memory is wanting.
#[derive(Debug, Drop)]
pub enum LoadEnd {
    Refused { file: Text, refusal: Refusal },
    Shelf,
    Memory,
}

impl From<Memory> for LoadEnd {
    ghost use Rattle.ur_load.specs.declared.load_end.LoadEnd.TheVariants as load_end;

    ghost from_gives = { λ _ given. given ≡ load_end.Memory };

    fn from(_want: Memory) -> LoadEnd {
        LoadEnd::Memory
    }
}

impl From<FetchEnd> for LoadEnd {
    ghost use Rattle.ur_load.specs.Loads.{load_end_of};

    ghost from_gives = { λ end given. given ≡ load_end_of end };

    fn from(end: FetchEnd) -> LoadEnd {
        match end {
            FetchEnd::Failed => LoadEnd::Shelf,
            FetchEnd::Memory => LoadEnd::Memory,
        }
    }
}

/// The stop in this file.
pub fn stopped_in(alloc: Global, file: &[u8], stop: Stop) -> LoadEnd
    ensures { IsStopIn file.now stop result }
{
    match stop {
        Stop::Refused(refusal) => match List::from_slice(alloc, file) {
            Ok(file) => LoadEnd::Refused { file, refusal },
            Err(_) => LoadEnd::Memory,
        },
        Stop::Memory => LoadEnd::Memory,
    }
}

/// The refusal with this code and these texts, which speaks of a whole file.
pub fn refused_in(
    alloc: Global,
    number: u32,
    file: &[u8],
    code: u8,
    left: &[u8],
    right: &[u8],
) -> LoadEnd
    requires { IsTrue (is_refusal_code code) }
    ensures { SaysIn file.now code left.now right.now result }
{
    match (
        Text::from_slice(alloc, file),
        Text::from_slice(alloc, left),
        Text::from_slice(alloc, right),
    ) {
        (Ok(file), Ok(left), Ok(right)) => LoadEnd::Refused {
            file,
            refusal: Refusal {
                code,
                span: Span {
                    file: number,
                    from: 0,
                    to: 0,
                },
                left,
                right,
            },
        },
        _ => LoadEnd::Memory,
    }
}
