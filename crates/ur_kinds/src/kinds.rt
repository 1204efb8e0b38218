//! Kinds: arrows, spelling and refusals.
ghost use Rattle.std.specs.Prelude.{◌≡◌, ◌++◌, codes, IfOk, OnOk};
ghost use Rattle.ur_base.specs.Stopping.{Says};
ghost use Rattle.ur_syntax.specs.Kinds.{arrow as arrow_of, is_plain};
ghost use Rattle.ur_kinds.specs.Texts.{around, kind_text};

use std::alloc::Global;
use ur_base::{Boxed, List, Memory, Refusal, Span, Text};
use ur_syntax::Kind;

pub fn is_plain(k: &Kind) -> bool
    ensures { result ≡ is_plain k.now }
{
    match k {
        Kind::Arrow(_, _) => false,
        _ => true,
    }
}

pub fn arrow(alloc: Global, k: Kind, j: Kind) -> Result<Kind, Memory>
    ensures { IfOk result (λ a. a ≡ arrow_of k j) }
{
    let k = Boxed::new(alloc, k)?;
    let j = Boxed::new(alloc, j)?;
    Ok(Kind::Arrow(k, j))
}

/// Writes a kind at the end of a text, in parentheses unless it is plain.
#[cycle(writing)]
fn write_around(out: &mut Text, k: &Kind) -> Result<(), Memory>
    ensures { OnOk result (out.new ≡ out.old ++ around k.now (kind_text k.now)) }
{
    if is_plain(k) {
        return write_kind(out, k);
    }
    out.extend_from_slice(b"(")?;
    write_kind(out, k)?;
    out.extend_from_slice(b")")?;
    Ok(())
}

/// Writes a kind at the end of a text.
#[cycle(writing)]
fn write_kind(out: &mut Text, k: &Kind) -> Result<(), Memory>
    ensures { OnOk result (out.new ≡ out.old ++ kind_text k.now) }
{
    match k {
        Kind::Star => out.extend_from_slice(b"Type"),
        Kind::Name => out.extend_from_slice(b"Name"),
        Kind::Row => out.extend_from_slice(b"{Type}"),
        Kind::Arrow(a, b) => {
            write_around(out, a.get())?;
            out.extend_from_slice(b" -> ")?;
            write_kind(out, b.get())?;
            Ok(())
        }
    }
}

/// A kind as a refusal tells it.
pub fn kind_text(alloc: Global, k: &Kind) -> Result<Text, Memory>
    ensures { IfOk result (λ text. text ≡ kind_text k.now) }
{
    let mut text = List::new(alloc);
    write_kind(&mut text, k)?;
    Ok(text)
}

/// A kind that was found where another one is wanted.
pub fn bad_kind(alloc: Global, span: Span, found: &Kind, wanted: &Kind) -> Result<Refusal, Memory>
    ensures { IfOk result (λ r. Says r 9 (kind_text found.now) (kind_text wanted.now)) }
{
    let left = kind_text(alloc, found)?;
    let right = kind_text(alloc, wanted)?;
    Ok(Refusal {
        code: 9,
        span,
        left,
        right,
    })
}
