use ur_base::{Bytes, List, Text};

/// A file of a project with its number, which places in it carry: 1 is the first module's. `name` is its module's name
/// and `file` the name that the shelf was asked for.
#[derive(Debug, Drop)]
pub struct Source {
    pub number: u32,
    pub name: Text,
    pub file: Text,
    pub bytes: Bytes,
}

/// The files of a project's modules, in order, and of the main module's signature where there is one.
#[derive(Debug, Drop)]
pub struct Sources {
    pub modules: List<Source>,
    pub signature: Option<Source>,
}
