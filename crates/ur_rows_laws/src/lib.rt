//! Laws of the normal forms of constructors, of their instances, and of what constructors are read as.
#![tactic(auto)]

mod instance_laws_laws;
mod laws;
mod reading_laws_laws;

pub use instance_laws_laws::{
    instance_keeps_kinds, instance_of_applied, instance_of_map, instance_of_union,
};
pub use laws::{applied_is_defined, definitions_stand, forms_are_normal, forms_have_kinds};
pub use reading_laws_laws::{form_of_applied, form_of_instance, map_of_written};
