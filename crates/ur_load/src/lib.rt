//! Projects: the modules that a project file names; and the files under a name, which are read in order, and spell
//! trees or are refused.
#![tactic(auto)]

mod fetching;
mod files;
mod lines;
mod load_end;
mod loaded;
mod loading;
mod modules;
mod pieces;
mod project;
mod project_file;
mod source;
mod trees;
mod whole;

pub use fetching::FILE_LIMIT;
pub use load_end::LoadEnd;
pub use loaded::{Loaded, file_at};
pub use project::load_project;
pub use project_file::{
    MAX_MODULES, one_bad_line, one_name_is_a_project, one_project_file, read_project,
};
pub use source::{Source, Sources};
pub use whole::{numbers_lead_to_files, one_project, one_refusal, refused_is_not_loaded};
