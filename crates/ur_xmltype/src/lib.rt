//! The typing of literals of XML, part by part: what a tag is at its place, what is asked of text and of what is
//! spliced, and the sort of a literal.
#![tactic(auto)]

mod attributes;
mod frame;
mod laws;
mod nodes;
mod places;
mod refusals;
mod rows;
mod sorts;
mod splices;
mod words;

pub use frame::framed;
pub use laws::{bad_frame_is_none, bad_tag_is_none, meeting_is_not_apart};
pub use nodes::{Node, field_row, inner_place, node_at};
pub use places::{Place, place_text};
pub use rows::row_apart;
pub use sorts::{Sort, literal_sort, place_of, sort_of, sort_type};
pub use splices::{Asked, fields_found, may_show, shown_at, splice_at, text_at};
