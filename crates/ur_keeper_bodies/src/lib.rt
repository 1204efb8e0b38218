//! Bodies by two numbers, what a keeper of tables writes to, with their form in memory; and how rows, next numbers and
//! the schema stand in them as bytes.
#![tactic(auto)]

mod after;
mod bodies;
mod columns;
mod held;
mod memory;
mod row;
mod stored;
mod text;

pub use after::bodies_after;
pub use bodies::{Bodies, BodyChange};
pub use columns::{
    bodies_are_read, columns_bytes, grown_rows_are_read, read_columns,
    rows_of_columns_are_read_back,
};
pub use memory::MemoryBodies;
pub use row::{number_bytes, read_number, read_row, row_bytes, rows_are_read_back};
pub use stored::{Layout, parted, read_body, stored_text, texts_tell_layouts};
pub use text::read_schema;
