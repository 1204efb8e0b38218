//! The outside: named files, connections and a place for reports, with what each call may do to them.
#![tactic(auto)]

mod memory;
mod real;
mod session;
mod shelf;
mod sink;
mod whole;
mod wire;

pub use memory::{MemoryShelf, MemorySink, MemoryWire};
pub use real::{FileShelf, StdSink, StdWire};
pub use session::{Mark, SessionEnd, Why};
pub use shelf::{FetchEnd, Fetched, Shelf};
pub use sink::Sink;
pub use whole::{give, print};
pub use wire::Wire;

/// A call that failed, as its object's count of faults shows.
#[derive(Debug, Clone, Copy, PartialEq, Eq)]
pub struct Failed;
