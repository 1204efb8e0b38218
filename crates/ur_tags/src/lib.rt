//! Calls as paths and pages as bytes: what a browser gets and what it sends back.
#![tactic(auto)]

mod fields;
mod marks;
mod nodes;
mod pages;
mod paths;
mod routes;
mod segments;

pub use fields::push_field;
pub use marks::{
    is_void, push_attribute, push_attribute_if_any, push_close, push_open, push_tag_attributes,
    push_text, tag_word,
};
pub use nodes::push_nodes;
pub use pages::{document, show, show_error, show_text};
pub use paths::{path, push_argument, push_route, route, routes_back};
pub use routes::{FormField, Handlers, Param, Route};
pub use segments::{segment, segments_back, unsegment};
