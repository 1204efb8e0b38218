//! Project files.
ghost use Rattle.std.specs.Prelude.{◌≡◌, ◌≤◌, ◌⊎◌, ◌∷◌, ◌++◌, [], true, List, ℕ, IfOk, IsTrue, IsUtf8, length};
ghost use Rattle.ur_base.specs.Codes.{is_refusal_code};
ghost use Rattle.ur_base.specs.Stopping.{IfRefused};
ghost use Rattle.ur_load.specs.Words.{is_module_name};
ghost use Rattle.ur_load.specs.Lines.{project_lines};
ghost use Rattle.ur_load.specs.Placed.{SaysWhole};
ghost use Rattle.ur_load.specs.Project.{IsProject, IsBadLine, RefusesProject, module_limit};
ghost use Rattle.ur_load.specs.Sources.{file_limit};

use crate::lines::{all_lines, filled};
use crate::modules::{modules_from, past_directives};
use std::alloc::Global;
use std::str;
use ur_base::{List, Refusal, Span, Stop, Text};

/// The greatest number of modules of a project.
pub const MAX_MODULES: usize = 64;

/// The refusal that speaks of no line of the project file, with its two texts.
fn refused(alloc: Global, code: u8, left: &[u8], right: &[u8]) -> Stop
    requires { IsTrue (is_refusal_code code) }
    ensures { SaysWhole code left.now right.now result }
{
    match (
        Text::from_slice(alloc, left),
        Text::from_slice(alloc, right),
    ) {
        (Ok(left), Ok(right)) => Stop::Refused(Refusal {
            code,
            span: Span {
                file: 0,
                from: 0,
                to: 0,
            },
            left,
            right,
        }),
        _ => Stop::Memory,
    }
}

/// The modules that a text names, the main module last; `file` is the name of its file.
fn named_modules(alloc: Global, file: &str, text: &[u8]) -> Result<List<Text>, Stop>
    requires short { length text.now ≤ file_limit }
    requires text { IsUtf8 text.now }
    ensures project { IfOk result (IsProject text.now) }
    ensures few { IfOk result (λ modules. length modules ≤ module_limit) }
    ensures refused { IfRefused result (RefusesProject file.now text.now) }
{
    let found = all_lines(alloc, text)?;
    let len = filled(found.as_slice());
    let lines = &found.as_slice()[..len];
    let begin = past_directives(alloc, lines)?;
    let modules = modules_from(alloc, lines, begin)?;
    if modules.is_empty() {
        return Err(refused(alloc, 1, b"", b""));
    }
    if modules.len() > MAX_MODULES {
        return Err(refused(alloc, 20, b"modules", b"64"));
    }
    Ok(modules)
}

/// The modules that the project file of this name names, the main module last. Refused as E03 where the bytes are not
/// UTF-8, as E01 with the first line that is wrong, and as E20 where there are more than 64 modules.
pub fn read_project(alloc: Global, file: &str, bytes: &[u8]) -> Result<List<Text>, Stop>
    requires { length bytes.now ≤ file_limit }
    ensures project { IfOk result (IsProject bytes.now) }
    ensures few { IfOk result (λ modules. length modules ≤ module_limit) }
    ensures refused { IfRefused result (RefusesProject file.now bytes.now) }
{
    match str::from_utf8(bytes) {
        Ok(_text) => named_modules(alloc, file, bytes),
        Err(_fault) => Err(refused(alloc, 3, file.as_bytes(), b"")),
    }
}

/// A file is a project in one way at most.
pub fn one_project_file()
    ensures { (bytes : List ℕ) (a b : List (List ℕ)) → IsProject bytes a → IsProject bytes b → a ≡ b }
{}

/// One line at most is the first that is wrong, and a file with such a line is no project.
pub fn one_bad_line()
    ensures one { (lines : List (List ℕ)) (m n : ℕ) (a b : List ℕ) → IsBadLine lines m a → IsBadLine lines n b → (m ≡ n) × (a ≡ b) }
    ensures none { (bytes : List ℕ) (number : ℕ) (line : List ℕ) (modules : List (List ℕ)) → IsBadLine (project_lines bytes) number line → IsProject bytes modules → ⊥ }
{}

/// A file of one name of a module, with or without a LF, is the project of that module.
pub fn one_name_is_a_project()
    ensures { (name bytes : List ℕ) → is_module_name name ≡ true → (bytes ≡ name) ⊎ (bytes ≡ name ++ 10 ∷ []) → IsProject bytes (name ∷ []) }
{}
