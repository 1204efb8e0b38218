//! The whole compiler: from the files of a project to verified code and its patterns.
#![tactic(auto)]

mod compiled;
mod compiling;
mod law;

pub use compiled::{CompileEnd, Compiled};
pub use compiling::compile;
pub use law::{each_numbering, one_application, one_step};
