//! The types of antiquotes.
ghost use Rattle.std.specs.Prelude.{◌≡◌, Some, IfOk};
ghost use Rattle.ur_base.specs.Stopping.{IfRefused};
ghost use Rattle.ur_sqltype.specs.Antiquotes.{AreKinds, found_kind};
ghost use Rattle.ur_sqltype.specs.SqltypeFaults.{AntiquoteIsOther, IsOther};

use crate::{column_type_kind, misfit, normal_text, nowhere};
use std::alloc::Global;
use ur_base::{List, Stop, Text};
use ur_rows::Normal;
use ur_values::ColumnKind;

/// What is found of an antiquote, as a type of SQL.
fn kind_of(of: &Normal) -> Option<ColumnKind>
    ensures { result ≡ found_kind of.now }
{
    match of {
        Normal::Type(t) => column_type_kind(t),
        Normal::Name(_) => None,
        Normal::Row(_) => None,
        Normal::Fn(_, _) => None,
    }
}

fn found_kind(alloc: Global, of: &Normal, datatypes: &[Text]) -> Result<ColumnKind, Stop>
    ensures kind { IfOk result (λ k. found_kind of.now ≡ Some k) }
    ensures refused { IfRefused result (IsOther datatypes.now of.now) }
{
    match kind_of(of) {
        Some(kind) => Ok(kind),
        None => {
            let text = normal_text(alloc, of, datatypes)?;
            Err(Stop::Refused(misfit(
                alloc,
                nowhere(),
                text.as_slice(),
                b"int, string, bool or an option of these",
            )?))
        }
    }
}

/// The types of the antiquotes of a query or change.
pub fn kinds_found(
    alloc: Global,
    found: &[Normal],
    datatypes: &[Text],
) -> Result<List<ColumnKind>, Stop>
    ensures kinds { IfOk result (AreKinds found.now) }
    ensures refused { IfRefused result (AntiquoteIsOther datatypes.now found.now) }
{
    let mut kinds = List::new(alloc);
    for i in 0..found.len() {
        let kind = found_kind(alloc, &found[i], datatypes)?;
        kinds.push(kind)?;
    }
    Ok(kinds)
}
