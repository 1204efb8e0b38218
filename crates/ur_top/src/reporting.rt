//! How a run ends, and what is printed then.
ghost use Rattle.std.specs.Prelude.{◌≡◌, ◌⊎◌, ◌≤◌, List, ℕ, ◌++◌, Some};
ghost use Rattle.ur_base.specs.Counts.{Rose};
ghost use Rattle.ur_base.specs.Told.{WhereTold};
ghost use Rattle.ur_top.specs.Ends.{IsStatus, Reports, SaysAt, SaysOf};

use std::alloc::Global;
use ur_base::{Bytes, Memory, Refusal, Text};
use ur_io::{Sink, print};
use ur_values::Schema;
use ur_words::{
    LoadReport, check_report, keeper_fault, load_report, memory, refusal_line, schema_report,
    shelf_fault, usage, wire_fault,
};

/// How a run ends, before its report.
#[derive(Drop)]
pub(crate) enum RunEnd {
    /// The project was served.
    Done,
    /// An accepted project with so many routes.
    Checked(usize),
    /// The text of its sites.
    Listed(Text),
    Loaded(LoadReport),
    Usage,
    Refused { file: Text, refusal: Refusal },
    Schema { kept: Schema, application: Schema },
    Shelf,
    /// The first line could not be printed.
    Sink,
    Wire,
    Keeper,
    Memory,
}

/// Prints the report of this end, and gives the status.
pub(crate) fn report<O: Sink>(alloc: Global, end: &RunEnd, out: &mut O) -> u8
    ensures status { IsStatus end.now result }
    ensures printed { WhereTold (O.told out.old) (λ before. (said : List ℕ) × (O.told out.new ≡ Some (before ++ said)) × Reports end.now result said) }
    ensures fault { result ≡ 5 → (end.now ≡ RunEnd.Sink) ⊎ Rose (O.faults out.old) (O.faults out.new) }
    ensures never_falls { O.faults out.old ≤ O.faults out.new }
{
    match end {
        RunEnd::Done => 0,
        RunEnd::Checked(routes) => say_made(out, 0, check_report(alloc, *routes)),
        RunEnd::Listed(text) => say(out, 0, text.as_slice()),
        RunEnd::Loaded(report) => say_made(out, 0, load_report(alloc, report)),
        RunEnd::Usage => say(out, 1, usage()),
        RunEnd::Refused { file, refusal } => {
            say_made(out, 2, refusal_line(alloc, file.as_slice(), refusal))
        }
        RunEnd::Schema { kept, application } => {
            say_made(out, 3, schema_report(alloc, kept, application))
        }
        RunEnd::Shelf => say(out, 4, shelf_fault()),
        RunEnd::Sink => 5,
        RunEnd::Wire => say(out, 6, wire_fault()),
        RunEnd::Keeper => say(out, 7, keeper_fault()),
        RunEnd::Memory => say(out, 8, memory()),
    }
}

/// Prints a text, where there was memory for it.
fn say_made<O: Sink>(out: &mut O, status: u8, made: Result<Bytes, Memory>) -> u8
    ensures status { (result ≡ status) ⊎ ((result ≡ 5) ⊎ (result ≡ 8)) }
    ensures printed { WhereTold (O.told out.old) (λ before. (said : List ℕ) × (O.told out.new ≡ Some (before ++ said)) × SaysOf status made result said) }
    ensures fault { result ≡ 5 → (status ≡ 5) ⊎ Rose (O.faults out.old) (O.faults out.new) }
    ensures never_falls { O.faults out.old ≤ O.faults out.new }
{
    match made {
        Ok(text) => say(out, status, text.as_slice()),
        Err(_) => say(out, 8, memory()),
    }
}

/// Prints the text. The status is then this one, or 5 where the sink failed within the text.
fn say<O: Sink>(out: &mut O, status: u8, text: &[u8]) -> u8
    ensures status { (result ≡ status) ⊎ (result ≡ 5) }
    ensures printed { WhereTold (O.told out.old) (λ before. (said : List ℕ) × (O.told out.new ≡ Some (before ++ said)) × SaysAt status text.now result said) }
    ensures fault { result ≡ 5 → (status ≡ 5) ⊎ Rose (O.faults out.old) (O.faults out.new) }
    ensures never_falls { O.faults out.old ≤ O.faults out.new }
{
    match print(out, text) {
        Ok(()) => status,
        Err(_) => 5,
    }
}
