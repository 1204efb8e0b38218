//! Generated projects through the lexer, the parser and the checker.
ghost use Rattle.std.specs.Prelude.{◌≡◌, length, IfOk};

use crate::projects::{Project, text_of};
use std::alloc::Global;
use ur_base::{List, Memory, Stop, Text};
use ur_check::check;
use ur_lex::{Tokens, lex};
use ur_parse::parse;
use ur_syntax::Module;

/// The greatest number of functions or of uses.
pub const MOST: u32 = 99_999;

/// The greatest number of bytes of a file.
const MOST_BYTES: usize = 1_048_576;

/// The bytes and the functions of a project.
#[derive(Clone, Copy)]
pub struct Counts {
    pub bytes: usize,
    pub functions: usize,
}

/// Checks a project of this size. None where it is refused; one that is too large for a file is want of memory.
pub fn check_all(alloc: Global, project: Project, size: u32) -> Result<Option<Counts>, Memory> {
    let text = text_of(alloc, project, size)?;
    let bytes = text.len();
    match functions_in(alloc, text.as_slice()) {
        Ok(functions) => Ok(Some(Counts { bytes, functions })),
        Err(Stop::Refused(_)) => Ok(None),
        Err(Stop::Memory) => Err(Memory),
    }
}

/// How many functions the checked project of one module has.
fn functions_in(alloc: Global, text: &[u8]) -> Result<usize, Stop> {
    let modules = modules_in(alloc, text)?;
    functions_of(alloc, modules.as_slice())
}

fn functions_of(alloc: Global, modules: &[Module]) -> Result<usize, Stop>
    requires { length modules.now ≡ 1 }
{
    let names = main_alone(alloc)?;
    let typed = check(alloc, names.as_slice(), modules, None)?;
    Ok(typed.functions())
}

fn modules_in(alloc: Global, text: &[u8]) -> Result<List<Module>, Stop>
    ensures { IfOk result (λ modules. length modules ≡ 1) }
{
    let module = module_in(alloc, text)?;
    let mut modules = List::new(alloc);
    modules.push(module)?;
    Ok(modules)
}

fn tokens_of(alloc: Global, text: &[u8]) -> Result<Tokens, Stop> {
    if text.len() > MOST_BYTES {
        return Err(Stop::Memory);
    }
    lex(alloc, 1, text)
}

fn module_in(alloc: Global, text: &[u8]) -> Result<Module, Stop> {
    let tokens = tokens_of(alloc, text)?;
    parse(alloc, &tokens)
}

/// The names of the modules.
fn main_alone(alloc: Global) -> Result<List<Text>, Memory>
    ensures { IfOk result (λ names. length names ≡ 1) }
{
    let name = List::from_slice(alloc, b"Main")?;
    let mut names = List::new(alloc);
    names.push(name)?;
    Ok(names)
}
