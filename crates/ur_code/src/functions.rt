//! The functions of code with their types, as text.
ghost use Rattle.std.specs.Prelude.{◌≡◌, ◌++◌, IfOk, OnOk};
ghost use Rattle.ur_code.specs.Texts.{params_text, result_text, function_text, listing_text};

use crate::Code;
use std::alloc::Global;
use ur_base::{List, Memory, Text};
use ur_terms::Function;
use ur_values::{ValueType, write_around, write_type};

/// A line for each function, in the order of their numbers: its name and its type.
pub fn listing(alloc: Global, code: &Code) -> Result<Text, Memory>
    ensures { IfOk result (λ text. text ≡ listing_text code.now) }
{
    let mut text = List::new(alloc);
    let names = code.names.as_slice();
    for function in code.functions.as_slice() {
        write_function(alloc, &mut text, names, function)?;
    }
    Ok(text)
}

fn write_function(
    alloc: Global,
    out: &mut Text,
    names: &[Text],
    function: &Function,
) -> Result<(), Memory>
    ensures { OnOk result (out.new ≡ out.old ++ function_text names.now function.now) }
{
    out.extend_from_slice(function.name.as_slice())?;
    out.extend_from_slice(b" : ")?;
    write_params(alloc, out, names, function.params.as_slice())?;
    write_result(alloc, out, names, function.runs, &function.result)?;
    out.extend_from_slice(b"\n")?;
    Ok(())
}

/// Writes each parameter's type with an arrow behind it.
fn write_params(
    alloc: Global,
    out: &mut Text,
    names: &[Text],
    params: &[ValueType],
) -> Result<(), Memory>
    ensures { OnOk result (out.new ≡ out.old ++ params_text names.now params.now) }
{
    for param in params {
        write_around(alloc, out, names, b"", param)?;
        out.extend_from_slice(b" -> ")?;
    }
    Ok(())
}

fn write_result(
    alloc: Global,
    out: &mut Text,
    names: &[Text],
    runs: bool,
    of: &ValueType,
) -> Result<(), Memory>
    ensures { OnOk result (out.new ≡ out.old ++ result_text names.now runs of.now) }
{
    if runs {
        write_around(alloc, out, names, b"transaction ", of)
    } else {
        write_type(alloc, out, names, of)
    }
}
