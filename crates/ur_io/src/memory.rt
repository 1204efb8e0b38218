//! The outside in memory. Each object tells everything, and fails at the calls that it was made to fail at.

mod input;
mod shelf;
mod sink;
mod space;
mod wire;

pub use shelf::MemoryShelf;
pub use sink::MemorySink;
pub use wire::MemoryWire;
