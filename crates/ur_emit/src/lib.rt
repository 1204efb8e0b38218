//! XML of plain terms, written straight into bytes, and the end of a run as bytes.
#![tactic(auto)]

mod binding;
mod ends;
mod fields;
mod links;
mod plain;
mod room;
mod slots;
mod terms;

pub use ends::{end_of, stand_for, written_items};
pub use fields::{items_at, truth_at, value_at};
pub use plain::{ends_plain, looks_plain};
pub use slots::{Chunk, Halt, Slot};
pub use terms::{emit, emit_items, written};
