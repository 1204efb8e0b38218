//! Laws of typing: expressions are given exactly what has its type by the rules, a project has at most one typed
//! source, which its function gives, and the statements fit the declared tables.
#![tactic(auto)]

mod law;
mod leading_laws_law;
mod project_laws_law;
mod sound_laws_law;
mod source_laws_law;
mod statement_laws_law;
mod whole_laws_law;

pub use law::typed_is_sound;
pub use leading_laws_law::walk_is_led;
pub use project_laws_law::{larger_limit, one_typed_source};
pub use sound_laws_law::checked_is_typed;
pub use source_laws_law::{none_has_no_source, source_is_made, typed_is_given};
pub use statement_laws_law::{
    change_fits_more, project_statements_fit, query_fits_more, statements_fit,
};
pub use whole_laws_law::{one_source, source_is_walked};
