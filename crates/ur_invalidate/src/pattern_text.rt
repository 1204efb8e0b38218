//! Patterns as text.
ghost use Rattle.std.specs.Prelude.{◌≡◌, ◌<◌, ◌++◌, OnOk, flat_map, codes, length};
ghost use Rattle.ur_invalidate.specs.Texts as texts;

use std::alloc::Global;
use std::slice;
use ur_base::{List, Memory, Text};
use ur_sql::{Guard, KeyAt, Pattern};
use ur_values::Value;

/// Writes the lines of an update and a site.
pub fn write_patterns(
    alloc: Global,
    out: &mut Text,
    update: u64,
    site: u64,
    patterns: &[Pattern],
) -> Result<(), Memory>
    requires update { update < 18446744073709551615 }
    requires site { site < 18446744073709551615 }
    ensures { OnOk result (out.new ≡ out.old ++ texts.patterns_text update site patterns.now) }
{
    match patterns {
        [] => {
            write_pair(alloc, out, update, site)?;
            out.extend_from_slice(b" none\n")
        }
        [first, rest @ ..] => {
            write_pattern(alloc, out, update, site, first)?;
            write_further(alloc, out, update, site, rest)
        }
    }
}

fn write_further(
    alloc: Global,
    out: &mut Text,
    update: u64,
    site: u64,
    patterns: &[Pattern],
) -> Result<(), Memory>
    requires update { update < 18446744073709551615 }
    requires site { site < 18446744073709551615 }
    ensures { OnOk result (out.new ≡ out.old ++ flat_map (texts.pattern_line update site) patterns.now) }
{
    for pattern in patterns {
        write_pattern(alloc, out, update, site, pattern)?;
    }
    Ok(())
}

fn write_pattern(
    alloc: Global,
    out: &mut Text,
    update: u64,
    site: u64,
    pattern: &Pattern,
) -> Result<(), Memory>
    requires update { update < 18446744073709551615 }
    requires site { site < 18446744073709551615 }
    ensures { OnOk result (out.new ≡ out.old ++ texts.pattern_line update site pattern.now) }
{
    write_pair(alloc, out, update, site)?;
    out.extend_from_slice(b" drops ")?;
    write_keys(alloc, out, pattern.keys.as_slice())?;
    write_guards(alloc, out, pattern.guards.as_slice())?;
    out.extend_from_slice(b"\n")?;
    Ok(())
}

fn write_pair(alloc: Global, out: &mut Text, update: u64, site: u64) -> Result<(), Memory>
    requires update { update < 18446744073709551615 }
    requires site { site < 18446744073709551615 }
    ensures { OnOk result (out.new ≡ out.old ++ texts.pair_text update site) }
{
    let update = update + 1;
    let site = site + 1;
    let text = format!(in alloc; "update {update} site {site}")?;
    out.extend_from_slice(text.as_bytes())
}

fn write_keys(alloc: Global, out: &mut Text, keys: &[KeyAt]) -> Result<(), Memory>
    ensures { OnOk result (out.new ≡ out.old ++ texts.keys_text keys.now) }
{
    match keys {
        [] => out.extend_from_slice(b"all"),
        [first, rest @ ..] => {
            write_key(alloc, out, first)?;
            write_more_keys(alloc, out, rest)
        }
    }
}

fn write_more_keys(alloc: Global, out: &mut Text, keys: &[KeyAt]) -> Result<(), Memory>
    ensures { OnOk result (out.new ≡ out.old ++ texts.further (codes ", ") texts.key_text keys.now) }
{
    for key in keys {
        out.extend_from_slice(b", ")?;
        write_key(alloc, out, key)?;
    }
    Ok(())
}

fn write_key(alloc: Global, out: &mut Text, key: &KeyAt) -> Result<(), Memory>
    ensures { OnOk result (out.new ≡ out.old ++ texts.key_text key.now) }
{
    match key {
        KeyAt::Arg(number) => write_argument(alloc, out, *number),
        KeyAt::Is(constant) => write_constant(alloc, out, constant),
        KeyAt::Any => out.extend_from_slice(b"*"),
    }
}

fn write_guards(alloc: Global, out: &mut Text, guards: &[Guard]) -> Result<(), Memory>
    ensures { OnOk result (out.new ≡ out.old ++ texts.guards_text guards.now) }
{
    match guards {
        [] => Ok(()),
        [first, rest @ ..] => {
            out.extend_from_slice(b" if ")?;
            write_guard(alloc, out, first)?;
            write_more_guards(alloc, out, rest)
        }
    }
}

fn write_more_guards(alloc: Global, out: &mut Text, guards: &[Guard]) -> Result<(), Memory>
    ensures { OnOk result (out.new ≡ out.old ++ texts.further (codes " and ") texts.guard_text guards.now) }
{
    for guard in guards {
        out.extend_from_slice(b" and ")?;
        write_guard(alloc, out, guard)?;
    }
    Ok(())
}

fn write_guard(alloc: Global, out: &mut Text, guard: &Guard) -> Result<(), Memory>
    ensures { OnOk result (out.new ≡ out.old ++ texts.guard_text guard.now) }
{
    match guard {
        Guard::Args(first, second) => {
            write_argument(alloc, out, *first)?;
            out.extend_from_slice(b" = ")?;
            write_argument(alloc, out, *second)
        }
        Guard::Is(number, constant) => {
            write_argument(alloc, out, *number)?;
            out.extend_from_slice(b" = ")?;
            write_constant(alloc, out, constant)
        }
    }
}

fn write_argument(alloc: Global, out: &mut Text, number: u32) -> Result<(), Memory>
    ensures { OnOk result (out.new ≡ out.old ++ texts.argument_text number) }
{
    let place = u64::from(number) + 1;
    let text = format!(in alloc; "x{place}")?;
    out.extend_from_slice(text.as_bytes())
}

fn write_constant(alloc: Global, out: &mut Text, constant: &Value) -> Result<(), Memory>
    ensures { OnOk result (out.new ≡ out.old ++ texts.constant_text constant.now) }
{
    match constant {
        Value::Int(int) => write_int(alloc, out, *int),
        Value::Bool(holds) => out.extend_from_slice(bool_text(*holds)),
        Value::Str(text) => write_text(out, text.as_slice()),
        Value::Absent => out.extend_from_slice(b"NULL"),
        _ => Ok(()),
    }
}

fn write_int(alloc: Global, out: &mut Text, int: i64) -> Result<(), Memory>
    ensures { OnOk result (out.new ≡ out.old ++ texts.constant_text (Value.Int int)) }
{
    let text = format!(in alloc; "{int}")?;
    out.extend_from_slice(text.as_bytes())
}

fn bool_text(holds: bool) -> &'static [u8]
    ensures { result.now ≡ texts.constant_text (Value.Bool holds) }
{
    if holds { b"TRUE" } else { b"FALSE" }
}

fn write_text(out: &mut Text, text: &[u8]) -> Result<(), Memory>
    ensures { OnOk result (out.new ≡ out.old ++ texts.constant_text (Value.Str text.now)) }
{
    out.extend_from_slice(b"'")?;
    write_quoted(out, text)?;
    out.extend_from_slice(b"'")?;
    Ok(())
}

fn write_quoted(out: &mut Text, text: &[u8]) -> Result<(), Memory>
    ensures { OnOk result (out.new ≡ out.old ++ flat_map texts.quoted text.now) }
{
    for byte in text {
        out.extend_from_slice(quoted(byte))?;
    }
    Ok(())
}

/// The byte as SQL's text has it.
fn quoted(byte: &u8) -> &[u8]
    ensures { result.now ≡ texts.quoted byte.now }
{
    if *byte == b'\'' {
        b"''"
    } else {
        slice::from_ref(byte)
    }
}
