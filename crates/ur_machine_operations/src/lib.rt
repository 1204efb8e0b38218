//! What a machine does with values: operators, texts, records, options and lists, XML, cookies and patterns. Operations on
//! tables are left to the keeper.
#![tactic(auto)]

mod built;
mod comparing;
mod cookies;
mod ints;
mod lists;
mod markup;
mod matching;
mod operands;
mod operators;
mod records;
mod texts;

pub use built::{error_body, is_small};
pub use operators::Operators;
