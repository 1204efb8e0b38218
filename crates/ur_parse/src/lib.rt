//! Signatures, declarations and modules are read.
#![tactic(auto)]

mod columns;
mod datatype;
mod decl;
mod decls;
mod definition;
mod function;
mod keys;
mod module;
mod signature;
mod table;
mod vals;
mod value;

pub use datatype::read_datatype;
pub use decls::{read_con_decl, read_cookie, read_sequence, read_type_decl};
pub use module::parse;
pub use signature::parse_signature;
pub use table::read_table;
pub use vals::read_val_decl;
