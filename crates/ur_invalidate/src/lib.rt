//! The patterns of queries and changes, by congruence closure of a pair's terms; and the cache sites, the updates and
//! the patterns between them, as text.
#![tactic(auto)]

mod classes;
mod comparing;
mod leaf;
mod lines;
mod numbering;
mod pair_numbers;
mod pattern_text;
mod reading;
mod site;
mod whole;

pub use classes::{Classes, classes_of};
pub use lines::sites_text;
pub use site::patterns_of;
pub use whole::patterns;
