//! Which lines are directives, and which name modules.
ghost use Rattle.std.specs.Prelude.{◌≡◌, ◌<◌, ◌≤◌, ◌∷◌, ◌++◌, [], false, IsTrue, IfOk, length, drop};
ghost use Rattle.std.specs.List.{list_all, position_or_len};
ghost use Rattle.ur_base.specs.Stopping.{IfRefused};
ghost use Rattle.ur_load.specs.Words.{is_module_name, is_name_byte, is_small, is_one_of};
ghost use Rattle.ur_load.specs.Lines.{is_empty};
ghost use Rattle.ur_load.specs.Placed.{texts, SaysLine, SaysLineOf};
ghost use Rattle.ur_load.specs.Project.{is_directive, AreToName, AreModules};

use crate::lines::{Line, is_empty};
use std::alloc::Global;
use std::str;
use ur_base::{List, Memory, Names, Refusal, Stop, Text};

/// Whether the line is a directive.
pub fn is_directive(line: &[u8]) -> bool
    ensures { result ≡ is_directive line.now }
{
    line.starts_with(b"database ")
        || line.starts_with(b"sql ")
        || line == b"debug".as_slice()
        || line.starts_with(b"#")
}

fn is_name_byte(b: u8) -> bool
    ensures { result ≡ is_name_byte b }
{
    b.is_ascii_alphanumeric() || b == b'_'
}

fn is_small(b: u8) -> bool
    ensures { result ≡ is_small b }
{
    b'a' <= b && b <= b'z'
}

fn has_name_bytes(line: &[u8]) -> bool
    ensures { result ≡ list_all is_name_byte line.now }
{
    line.iter().all(|b| is_name_byte(*b))
}

/// Whether the line is the name of a module.
pub fn is_module_name(line: &[u8]) -> bool
    ensures { result ≡ is_module_name line.now }
{
    match line.first() {
        None => false,
        Some(first) => is_small(*first) && has_name_bytes(line),
    }
}

/// The refusal of a line.
fn bad_line(alloc: Global, line: &Line) -> Stop
    ensures { SaysLineOf line.now result }
{
    match Text::from_slice(alloc, line.text.as_slice()) {
        Ok(left) => Stop::Refused(Refusal {
            code: 1,
            span: line.span,
            left,
            right: List::new(alloc),
        }),
        Err(Memory) => Stop::Memory,
    }
}

/// The number of the first empty line, or of lines where none is.
fn first_empty(lines: &[Line]) -> usize
    ensures within { result ≤ length lines.now }
    ensures first { result ≡ position_or_len is_empty (texts lines.now) }
{
    let mut at = 0;
    'lines: while at < lines.len() && !is_empty(&lines[at]) {
        at += 1;
    }
    at
}

/// How many lines stand before those that are to name modules.
pub fn past_directives(alloc: Global, lines: &[Line]) -> Result<usize, Stop>
    ensures within { IfOk result (λ begin. begin ≤ length lines.now) }
    ensures found { IfOk result (λ begin. AreToName (texts lines.now) (drop begin (texts lines.now))) }
    ensures refused { IfRefused result (SaysLine lines.now) }
{
    let empty = first_empty(lines);
    if empty == lines.len() {
        return Ok(0);
    }
    for line in &lines[..empty] {
        if !is_directive(line.text.as_slice()) {
            return Err(bad_line(alloc, line));
        }
    }
    Ok(empty + 1)
}

/// The modules that the lines from `begin` on name.
pub fn modules_from(alloc: Global, lines: &[Line], begin: usize) -> Result<List<Text>, Stop>
    requires within { begin ≤ length lines.now }
    requires named { AreToName (texts lines.now) (drop begin (texts lines.now)) }
    ensures found { IfOk result (λ modules. modules ≡ drop begin (texts lines.now)) }
    ensures fit { IfOk result AreModules }
    ensures refused { IfRefused result (SaysLine lines.now) }
{
    let mut modules = List::new(alloc);
    let mut known = Names::new(alloc);
    for line in &lines[begin..] {
        if !is_module_name(line.text.as_slice()) {
            return Err(bad_line(alloc, line));
        }
        if is_known(&mut known, line.text.as_slice(), modules.len())? {
            return Err(bad_line(alloc, line));
        }
        modules.push(Text::from_slice(alloc, line.text.as_slice())?)?;
    }
    Ok(modules)
}

/// Whether the name is among those known, of which there are `count`; a new one is put behind them.
fn is_known(known: &mut Names, name: &[u8], count: usize) -> Result<bool, Memory>
    requires count { count ≡ length known.old }
    requires word { IsTrue (is_module_name name.now) }
    ensures found { IfOk result (λ found. found ≡ is_one_of known.old name.now) }
    ensures added { IfOk result (λ found. found ≡ false → known.new ≡ known.old ++ name.now ∷ []) }
{
    let number = known.number(module_text(name))?;
    Ok((number.0 as usize) < count)
}

/// The name of a module as text.
fn module_text(name: &[u8]) -> &str
    requires { IsTrue (is_module_name name.now) }
    ensures { result.now ≡ name.now }
{
    match str::from_utf8(name) {
        Ok(text) => text,
        Err(_) => unreachable!(),
    }
}
