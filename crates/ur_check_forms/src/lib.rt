//! The rules of cookies, statements and XML: the tree and the type of the whole from those of its parts.
#![tactic(auto)]

mod marked;
mod runs;
mod statements;
mod targets;

pub use marked::{Marked, Waiting, all_marks, and_marks, form_out, mark_of, no_marks};
pub use runs::{CookieAt, cookie_at, cookie_value, get_cookie_out, next_out, set_cookie_out};
pub use statements::{
    Antiquotes, ask_out, change_slot, each_out, query_at, query_slot, row_param, write_out,
};
pub use targets::{Target, action_types, are_linkable, is_linkable, is_page, link_types};
