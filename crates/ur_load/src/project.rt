//! The trees of a project from its files.
ghost use Rattle.std.specs.Prelude.{◌≡◌, ◌≤◌, length, map, IfOk};
ghost use Rattle.ur_base.specs.Counts.{Rose};
ghost use Rattle.ur_base.specs.Told.{WhereTold};
ghost use Rattle.ur_load.specs.Names.{project_file as file_of_project};
ghost use Rattle.ur_load.specs.Sources.{AreSpelled};
ghost use Rattle.ur_load.specs.Refuses.{RefusesFiles};
ghost use Rattle.ur_load.specs.Loaded.{IsLoaded, IsLoadedFrom, files_of as files_of_sources, names_of as names_of_sources};
ghost use Rattle.ur_load.specs.Loads.{IfRefusedIn, OnShelf};

use crate::files::{module_name, project_file};
use crate::load_end::LoadEnd;
use crate::loaded::Loaded;
use crate::loading::{Spelled, load_spelled};
use crate::source::{Source, Sources};
use std::alloc::Global;
use ur_base::{List, Memory, Text};
use ur_io::Shelf;

/// The trees of the project of this name. Refused with the first of these that is so, in its file: the project file is
/// missing (E02), too long (E20), no text (E03), or wrong (E01), or names more than 64 modules (E20); a module's file is
/// missing (E02) or too long (E20); the main module's signature, where its file is there, is too long (E20); a module is
/// no text (E03), or has something that is no token (E04), or is spelled by no tree (E05) or by none within 256 (E06), each
/// module after the one before it; the same of the signature.
pub fn load_project<S: Shelf>(
    alloc: Global,
    shelf: &mut S,
    project: &str,
) -> Result<Loaded, LoadEnd>
    ensures loaded { IfOk result (λ loaded. WhereTold (S.told shelf.old) (λ files. IsLoaded files project.now loaded)) }
    ensures named { IfOk result (λ loaded. length loaded.names ≡ length loaded.modules) }
    ensures refused { IfRefusedIn result (λ file r. WhereTold (S.told shelf.old) (λ files. RefusesFiles files project.now file r)) }
    ensures shelf { OnShelf result (Rose (S.faults shelf.old) (S.faults shelf.new)) }
    ensures never_falls { S.faults shelf.old ≤ S.faults shelf.new }
    ensures kept { S.told shelf.new ≡ S.told shelf.old }
{
    match load_spelled(alloc, shelf, project) {
        Ok(spelled) => Ok(loaded_of(alloc, project, spelled)?),
        Err(end) => Err(end),
    }
}

/// What is loaded of these sources and trees.
fn loaded_of(alloc: Global, project: &str, spelled: Spelled) -> Result<Loaded, Memory>
    requires { AreSpelled spelled.sources spelled.modules spelled.signature }
    ensures { IfOk result (IsLoadedFrom project.now spelled.sources) }
{
    let Spelled {
        sources,
        modules,
        signature,
    } = spelled;
    let project = own_file(alloc, project)?;
    let files = files_of(alloc, &sources)?;
    let names = names_of(alloc, sources.modules.as_slice())?;
    Ok(Loaded {
        project,
        files,
        names,
        modules,
        signature,
    })
}

/// The project file.
fn own_file(alloc: Global, project: &str) -> Result<Text, Memory>
    ensures { IfOk result (λ file. file ≡ file_of_project project.now) }
{
    let file = project_file(alloc, project)?;
    Ok(List::from_vec(file.into_bytes()))
}

/// The files of the modules, in order, and then that of the signature.
fn files_of(alloc: Global, sources: &Sources) -> Result<List<Text>, Memory>
    ensures { IfOk result (λ files. files ≡ files_of_sources sources.now) }
{
    let mut files = files_in(alloc, sources.modules.as_slice())?;
    match &sources.signature {
        None => Ok(files),
        Some(source) => {
            files.push(List::from_slice(alloc, source.file.as_slice())?)?;
            Ok(files)
        }
    }
}

/// The files of the modules, in order.
fn files_in(alloc: Global, sources: &[Source]) -> Result<List<Text>, Memory>
    ensures { IfOk result (λ files. files ≡ map (λ s. s.file) sources.now) }
{
    let mut files = List::new(alloc);
    for source in sources {
        files.push(List::from_slice(alloc, source.file.as_slice())?)?;
    }
    Ok(files)
}

/// The modules' names in programs.
fn names_of(alloc: Global, sources: &[Source]) -> Result<List<Text>, Memory>
    ensures { IfOk result (λ names. names ≡ names_of_sources sources.now) }
{
    let mut names = List::new(alloc);
    for source in sources {
        names.push(module_name(alloc, source.name.as_slice())?)?;
    }
    Ok(names)
}
