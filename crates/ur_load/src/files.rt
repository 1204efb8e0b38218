//! The names of a project's files.
ghost use Rattle.std.specs.Prelude.{◌≡◌, IfOk, string_bytes};
ghost use Rattle.ur_load.specs.Names.{project_file as file_of_project, module_file as file_of_module, signature_file as file_of_signature, module_name as name_of_module};

use std::alloc::Global;
use ur_base::{List, Memory, Text};

/// The project file: `.urp` is added where it is not there.
pub fn project_file(alloc: Global, name: &str) -> Result<String, Memory>
    ensures { IfOk result (λ file. string_bytes file ≡ file_of_project name.now) }
{
    if name.ends_with(".urp") {
        Ok(String::from_str(alloc, name)?)
    } else {
        Ok(format!(in alloc; "{name}.urp")?)
    }
}

/// The file of a module, which stands in the folder of the project.
pub fn module_file(alloc: Global, project: &str, name: &str) -> Result<String, Memory>
    ensures { IfOk result (λ file. string_bytes file ≡ file_of_module project.now name.now) }
{
    match project.rsplit_once('/') {
        Some((folder, _)) => Ok(format!(in alloc; "{folder}/{name}.ur")?),
        None => Ok(format!(in alloc; "{name}.ur")?),
    }
}

/// The file of a module's signature, which stands beside the module's own.
pub fn signature_file(alloc: Global, project: &str, name: &str) -> Result<String, Memory>
    ensures { IfOk result (λ file. string_bytes file ≡ file_of_signature project.now name.now) }
{
    match project.rsplit_once('/') {
        Some((folder, _)) => Ok(format!(in alloc; "{folder}/{name}.urs")?),
        None => Ok(format!(in alloc; "{name}.urs")?),
    }
}

/// A module's name in programs: its first letter is made a capital.
pub fn module_name(alloc: Global, name: &[u8]) -> Result<Text, Memory>
    ensures { IfOk result (λ text. text ≡ name_of_module name.now) }
{
    let mut text = List::from_slice(alloc, name)?;
    if let Some(first) = name.first() {
        text.set(0, first.saturating_sub(32));
    }
    Ok(text)
}
