//! The checked source, with its names resolved and its constructors in normal form, and the instances of its functions;
//! how types are written, and the words that all typing shares.
#![tactic(auto)]

mod closed;
mod exp;
mod text;
mod typed;

pub use closed::{Closed, Instance, Static, StaticField};
pub use exp::{Binary, Branch, Exp, FieldExp, Markup, Param, Unary};
pub use text::{apart_from, row_text, type_text};
pub use typed::{ConParam, Datatype, Function, ModuleVal, Typed, Variant};
