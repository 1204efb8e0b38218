//! The outside over the real thing. Each form counts what fails and tells nothing of content.

mod shelf;
mod sink;
mod wire;

pub use shelf::FileShelf;
pub use sink::StdSink;
pub use wire::StdWire;
