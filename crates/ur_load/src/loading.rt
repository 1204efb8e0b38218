//! The sources of a project, with their trees, from its files.
ghost use Rattle.std.specs.Prelude.{◌≡◌, ◌≤◌, ◌<◌, length, IfOk, IsTrue, string_bytes};
ghost use Rattle.std.specs.List.{list_all};
ghost use Rattle.ur_base.specs.Counts.{Rose};
ghost use Rattle.ur_base.specs.Told.{WhereTold};
ghost use Rattle.ur_load.specs.Words.{is_module_name};
ghost use Rattle.ur_load.specs.Project.{IsProject, RefusesProject, module_limit};
ghost use Rattle.ur_load.specs.Names.{module_file as file_of_module, signature_file as file_of_signature, main_of};
ghost use Rattle.ur_load.specs.Sources.{IsSource, AreSources, HasSignature, HasSources, AreSpelled, NamesModules, Lacks, IsTooLong, file_limit};
ghost use Rattle.ur_load.specs.Refuses.{RefusesFiles, RefusesSources};
ghost use Rattle.ur_load.specs.Loads.{IfRefusedIn, OnShelf, LacksModule, AreSmall, IsSmall};

use crate::fetching::{if_there, needed};
use crate::files::{module_file, project_file, signature_file};
use crate::load_end::{LoadEnd, stopped_in};
use crate::read_project;
use crate::source::{Source, Sources};
use crate::trees::{signature_tree, trees_of};
use std::alloc::Global;
use std::str;
use ur_base::{Bytes, List, Memory, Text};
use ur_io::Shelf;
use ur_syntax::{Module, Signature};

/// The sources of a project, with the trees that spell them.
#[derive(Drop)]
pub struct Spelled {
    pub sources: Sources,
    pub modules: List<Module>,
    pub signature: Option<Signature>,
}

/// The sources of the project of this name, with their trees.
pub fn load_spelled<S: Shelf>(
    alloc: Global,
    shelf: &mut S,
    project: &str,
) -> Result<Spelled, LoadEnd>
    ensures sources { IfOk result (λ s. WhereTold (S.told shelf.old) (λ files. HasSources files project.now s.sources)) }
    ensures spelled { IfOk result (λ s. AreSpelled s.sources s.modules s.signature) }
    ensures refused { IfRefusedIn result (λ file r. WhereTold (S.told shelf.old) (λ files. RefusesFiles files project.now file r)) }
    ensures shelf { OnShelf result (Rose (S.faults shelf.old) (S.faults shelf.new)) }
    ensures never_falls { S.faults shelf.old ≤ S.faults shelf.new }
    ensures kept { S.told shelf.new ≡ S.told shelf.old }
{
    match load_sources(alloc, shelf, project) {
        Ok(sources) => with_trees(alloc, sources),
        Err(end) => Err(end),
    }
}

/// The sources with their trees.
fn with_trees(alloc: Global, sources: Sources) -> Result<Spelled, LoadEnd>
    requires modules { AreSmall sources.modules }
    requires signature { IsSmall sources.signature }
    ensures sources { IfOk result (λ s. s.sources ≡ sources) }
    ensures spelled { IfOk result (λ s. AreSpelled s.sources s.modules s.signature) }
    ensures refused { IfRefusedIn result (RefusesSources sources) }
    ensures no_shelf { OnShelf result ⊥ }
{
    match trees_of(alloc, sources.modules.as_slice()) {
        Ok(modules) => match signature_tree(alloc, &sources.signature) {
            Ok(signature) => Ok(Spelled {
                sources,
                modules,
                signature,
            }),
            Err(end) => Err(end),
        },
        Err(end) => Err(end),
    }
}

/// The sources of the project of this name.
fn load_sources<S: Shelf>(alloc: Global, shelf: &mut S, project: &str) -> Result<Sources, LoadEnd>
    ensures sources { IfOk result (λ sources. WhereTold (S.told shelf.old) (λ files. HasSources files project.now sources)) }
    ensures modules { IfOk result (λ sources. AreSmall sources.modules) }
    ensures signature { IfOk result (λ sources. IsSmall sources.signature) }
    ensures refused { IfRefusedIn result (λ file r. WhereTold (S.told shelf.old) (λ files. RefusesFiles files project.now file r)) }
    ensures shelf { OnShelf result (Rose (S.faults shelf.old) (S.faults shelf.new)) }
    ensures never_falls { S.faults shelf.old ≤ S.faults shelf.new }
    ensures kept { S.told shelf.new ≡ S.told shelf.old }
{
    let names = load_names(alloc, shelf, project)?;
    let modules = match load_modules(alloc, shelf, project, names.as_slice()) {
        Ok(modules) => modules,
        Err(end) => return Err(end),
    };
    match load_signature(alloc, shelf, project, names.as_slice()) {
        Ok(signature) => Ok(Sources { modules, signature }),
        Err(end) => Err(end),
    }
}

/// The modules that the project file names.
fn load_names<S: Shelf>(alloc: Global, shelf: &mut S, project: &str) -> Result<List<Text>, LoadEnd>
    ensures names { IfOk result (λ names. WhereTold (S.told shelf.old) (λ files. NamesModules files project.now names)) }
    ensures words { IfOk result (λ names. IsTrue (list_all is_module_name names)) }
    ensures some { IfOk result (λ names. 0 < length names) }
    ensures few { IfOk result (λ names. length names ≤ module_limit) }
    ensures refused { IfRefusedIn result (λ file r. WhereTold (S.told shelf.old) (λ files. RefusesFiles files project.now file r)) }
    ensures shelf { OnShelf result (Rose (S.faults shelf.old) (S.faults shelf.new)) }
    ensures never_falls { S.faults shelf.old ≤ S.faults shelf.new }
    ensures kept { S.told shelf.new ≡ S.told shelf.old }
{
    let file = project_file(alloc, project)?;
    match needed(alloc, shelf, 0, &file) {
        Ok(bytes) => names_in(alloc, &file, bytes.as_slice()),
        Err(end) => Err(end),
    }
}

/// The modules that these bytes of the project file name.
fn names_in(alloc: Global, file: &str, bytes: &[u8]) -> Result<List<Text>, LoadEnd>
    requires { length bytes.now ≤ file_limit }
    ensures project { IfOk result (IsProject bytes.now) }
    ensures few { IfOk result (λ names. length names ≤ module_limit) }
    ensures refused { IfRefusedIn result (λ at r. (at ≡ file.now) × RefusesProject file.now bytes.now r) }
    ensures no_shelf { OnShelf result ⊥ }
{
    match read_project(alloc, file, bytes) {
        Ok(names) => Ok(names),
        Err(stop) => Err(stopped_in(alloc, file.as_bytes(), stop)),
    }
}

/// The sources of these modules, in order.
fn load_modules<S: Shelf>(
    alloc: Global,
    shelf: &mut S,
    project: &str,
    names: &[Text],
) -> Result<List<Source>, LoadEnd>
    requires words { IsTrue (list_all is_module_name names.now) }
    requires few { length names.now ≤ module_limit }
    ensures sources { IfOk result (λ sources. WhereTold (S.told shelf.old) (λ files. AreSources files project.now 1 names.now sources)) }
    ensures small { IfOk result AreSmall }
    ensures refused { IfRefusedIn result (λ file r. WhereTold (S.told shelf.old) (λ files. LacksModule files project.now names.now file r)) }
    ensures shelf { OnShelf result (Rose (S.faults shelf.old) (S.faults shelf.new)) }
    ensures never_falls { S.faults shelf.old ≤ S.faults shelf.new }
    ensures kept { S.told shelf.new ≡ S.told shelf.old }
{
    let mut sources = List::new(alloc);
    let mut number: u32 = 1;
    for name in names {
        match module_source(alloc, shelf, project, number, name) {
            Ok(source) => sources.push(source)?,
            Err(end) => return Err(end),
        }
        number += 1;
    }
    Ok(sources)
}

/// The source of the module of this name.
fn module_source<S: Shelf>(
    alloc: Global,
    shelf: &mut S,
    project: &str,
    number: u32,
    name: &Text,
) -> Result<Source, LoadEnd>
    requires { IsTrue (is_module_name name.now) }
    ensures source { IfOk result (λ s. WhereTold (S.told shelf.old) (λ files. IsSource files project.now number name.now s)) }
    ensures small { IfOk result (λ s. length s.bytes ≤ file_limit) }
    ensures refused { IfRefusedIn result (λ at r. (at ≡ file_of_module project.now name.now)
        × WhereTold (S.told shelf.old) (λ files. Lacks files (file_of_module project.now name.now) r)) }
    ensures shelf { OnShelf result (Rose (S.faults shelf.old) (S.faults shelf.new)) }
    ensures never_falls { S.faults shelf.old ≤ S.faults shelf.new }
    ensures kept { S.told shelf.new ≡ S.told shelf.old }
{
    let file = module_file(alloc, project, module_text(name.as_slice()))?;
    match needed(alloc, shelf, number, &file) {
        Ok(bytes) => Ok(source(alloc, number, name, file, bytes)?),
        Err(end) => Err(end),
    }
}

/// The source of the main module's signature, where its file is there.
fn load_signature<S: Shelf>(
    alloc: Global,
    shelf: &mut S,
    project: &str,
    names: &[Text],
) -> Result<Option<Source>, LoadEnd>
    requires words { IsTrue (list_all is_module_name names.now) }
    requires some { 0 < length names.now }
    requires few { length names.now ≤ module_limit }
    ensures signature { IfOk result (λ found. WhereTold (S.told shelf.old) (λ files. HasSignature files project.now names.now found)) }
    ensures small { IfOk result IsSmall }
    ensures refused { IfRefusedIn result (λ at r. (at ≡ file_of_signature project.now (main_of names.now))
        × WhereTold (S.told shelf.old) (λ files. IsTooLong files (file_of_signature project.now (main_of names.now)) r)) }
    ensures shelf { OnShelf result (Rose (S.faults shelf.old) (S.faults shelf.new)) }
    ensures never_falls { S.faults shelf.old ≤ S.faults shelf.new }
    ensures kept { S.told shelf.new ≡ S.told shelf.old }
{
    let name = main_module(names);
    let number = names.len() as u32 + 1;
    let file = signature_file(alloc, project, module_text(name.as_slice()))?;
    match if_there(alloc, shelf, number, &file) {
        Ok(Some(bytes)) => Ok(Some(source(alloc, number, name, file, bytes)?)),
        Ok(None) => Ok(None),
        Err(end) => Err(end),
    }
}

/// The name of the main module.
fn main_module(names: &[Text]) -> &Text
    requires words { IsTrue (list_all is_module_name names.now) }
    requires some { 0 < length names.now }
    ensures main { result.now ≡ main_of names.now }
    ensures word { IsTrue (is_module_name result.now) }
{
    &names[names.len() - 1]
}

/// The source of this number, name, file and bytes.
fn source(
    alloc: Global,
    number: u32,
    name: &Text,
    file: String,
    bytes: Bytes,
) -> Result<Source, Memory>
    ensures { IfOk result (λ s. s ≡ record { number = number; name = name.now; file = string_bytes file; bytes = bytes }) }
{
    let name = List::from_slice(alloc, name.as_slice())?;
    let file = List::from_vec(file.into_bytes());
    Ok(Source {
        number,
        name,
        file,
        bytes,
    })
}

/// A module's name as text: its bytes are letters, digits and `_`.
fn module_text(name: &[u8]) -> &str
    requires { IsTrue (is_module_name name.now) }
    ensures { result.now ≡ name.now }
{
    match str::from_utf8(name) {
        Ok(text) => text,
        Err(_) => unreachable!(),
    }
}
