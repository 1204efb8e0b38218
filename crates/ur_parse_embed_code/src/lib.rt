//! The code of antiquotes as the tokens that it is, literals of XML with such code, and that SQL and XML are their
//! skeletons with the code filled in.
#![tactic(auto)]

mod attrs;
mod code;
mod law;
mod parts;
mod quotes;
mod tags;
mod tokens;

pub use code::{MAX_BRACKETS, antiquote, attribute, quoted, shown};
pub use law::{
    changes_are_filled, fronts_stay_within, literals_are_filled, nesting_is_reached,
    queries_are_filled,
};
pub use parts::literal as read_literal;
pub use quotes::{Quotes, Range};
pub use tokens::absent;
