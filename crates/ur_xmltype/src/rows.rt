//! The rows of forms.
ghost use Rattle.std.specs.Prelude.{◌∷◌, [], map, IfOk, OnOk};
ghost use Rattle.ur_base.specs.Stopping.{IfRefused, Says};
ghost use Rattle.ur_rows.specs.Apart.{AreApart};
ghost use Rattle.ur_disjoint.specs.Tests.{pair};
ghost use Rattle.ur_tree.specs.Text.{row_text};
ghost use Rattle.ur_xmltype.specs.Faults.{IsMeeting};

use std::alloc::Global;
use std::slice;
use ur_base::{Memory, Refusal, Span, Stop, Text};
use ur_disjoint::{Assumed, prove};
use ur_rows::Part;
use ur_tree::row_text;

fn meeting(
    alloc: Global,
    names: &[Text],
    span: Span,
    first: &Part,
    rest: &[Part],
) -> Result<Refusal, Memory>
    ensures { IfOk result (λ r. Says r 11 (row_text names.now (first.now ∷ [])) (row_text names.now rest.now)) }
{
    let left = row_text(alloc, names, slice::from_ref(first))?;
    let right = row_text(alloc, names, rest)?;
    Ok(Refusal {
        code: 11,
        span,
        left,
        right,
    })
}

/// The parts of a row are apart from each other. Else this is E11 with two rows of it that are not apart: a part and
/// the parts behind it.
pub fn row_apart(
    alloc: Global,
    names: &[Text],
    assumed: &[Assumed],
    span: Span,
    row: &[Part],
) -> Result<(), Stop>
    ensures apart { OnOk result (AreApart (map pair assumed.now) row.now) }
    ensures refused { IfRefused result (IsMeeting names.now (map pair assumed.now) row.now) }
{
    let mut left = row;
    'parts: while let Some((first, rest)) = left.split_first() {
        if !prove(assumed, slice::from_ref(first), rest) {
            return Err(Stop::Refused(meeting(alloc, names, span, first, rest)?));
        }
        left = rest;
    }
    Ok(())
}
