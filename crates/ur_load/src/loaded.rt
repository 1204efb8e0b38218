//! The trees of a project.
ghost use Rattle.std.specs.Prelude.{◌≡◌};
ghost use Rattle.ur_load.specs.Loaded.{file_at as file_of_number};

use ur_base::{List, Text};
use ur_syntax::{Module, Signature};

/// What the files of a project spell. `project` is the project file; `files` are the files of the modules and then that of the
/// main module's signature, where there is one, in order of the numbers that places carry; `names` are the modules' names in
/// programs, `modules` their trees, and `signature` is the signature's tree.
#[derive(Drop)]
pub struct Loaded {
    pub project: Text,
    pub files: List<Text>,
    pub names: List<Text>,
    pub modules: List<Module>,
    pub signature: Option<Signature>,
}

/// The file of the number that a place carries: 1 is that of the first module. The number 0, and one that is no file's, stand for
/// the project file.
pub fn file_at(loaded: &Loaded, number: u32) -> &Text
    ensures { result.now ≡ file_of_number loaded.now number }
{
    match (number as usize).checked_sub(1) {
        None => &loaded.project,
        Some(place) => match loaded.files.get(place) {
            None => &loaded.project,
            Some(file) => file,
        },
    }
}
