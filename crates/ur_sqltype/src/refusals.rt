//! What refusals say.
ghost use Rattle.std.specs.Prelude.{◌≡◌, [], Some, IfOk};
ghost use Rattle.std.specs.Fmt.{decimal};
ghost use Rattle.ur_syntax.specs.Names.{name_text};
ghost use Rattle.ur_sqltype.specs.Faults.{TellsSql, unknown, misfit, kind_text, null_misfit};

use std::alloc::Global;
use ur_base::{List, Memory, Refusal, Span, Text};
use ur_values::ColumnKind;

/// A name that nothing in scope has.
pub fn unknown(alloc: Global, span: Span, name: &[u8]) -> Result<Refusal, Memory>
    ensures { IfOk result (λ r. TellsSql r (unknown name.now)) }
{
    let left = List::from_slice(alloc, name)?;
    Ok(Refusal {
        code: 7,
        span,
        left,
        right: List::new(alloc),
    })
}

/// What was found, where another thing is wanted.
pub fn misfit(alloc: Global, span: Span, left: &[u8], right: &[u8]) -> Result<Refusal, Memory>
    ensures { IfOk result (λ r. TellsSql r (misfit left.now right.now)) }
{
    let left = List::from_slice(alloc, left)?;
    let right = List::from_slice(alloc, right)?;
    Ok(Refusal {
        code: 12,
        span,
        left,
        right,
    })
}

/// How a type is written.
pub fn kind_text(kind: ColumnKind) -> &'static [u8]
    ensures { result.now ≡ kind_text kind }
{
    match kind {
        ColumnKind::Int => b"int",
        ColumnKind::Str => b"string",
        ColumnKind::Bool => b"bool",
        ColumnKind::OptInt => b"option (int)",
        ColumnKind::OptStr => b"option (string)",
        ColumnKind::OptBool => b"option (bool)",
    }
}

/// An expression of no optional type, beside NULL or under IS NULL or IS NOT NULL.
pub fn no_option(
    alloc: Global,
    span: Span,
    beside: bool,
    kind: ColumnKind,
) -> Result<Refusal, Memory>
    ensures { IfOk result (λ r. TellsSql r (null_misfit beside kind)) }
{
    if beside {
        return misfit(alloc, span, b"NULL", kind_text(kind));
    }
    misfit(alloc, span, kind_text(kind), b"an option")
}

/// How a name with a qualifier is written.
pub fn name_text(alloc: Global, qualifier: &[u8], name: &[u8]) -> Result<Text, Memory>
    ensures { IfOk result (λ text. text ≡ name_text (Some qualifier.now) name.now) }
{
    let mut text = List::from_slice(alloc, qualifier)?;
    text.extend_from_slice(b".")?;
    text.extend_from_slice(name)?;
    Ok(text)
}

/// A number in decimal digits.
pub fn number_text(alloc: Global, number: u64) -> Result<Text, Memory>
    ensures { IfOk result (λ text. text ≡ decimal number) }
{
    let text = format!(in alloc; "{number}")?;
    List::from_slice(alloc, text.as_bytes())
}
