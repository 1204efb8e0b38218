//! The fields of a row in written order, with their nodes counted.
ghost use Rattle.std.specs.Prelude.{◌≡◌, ◌++◌, ◌+◌, ◌<◌, [], ◌∷◌, List as GhostList, IfOk, MatchOption};
ghost use Rattle.ur_rows.specs.declared.normal.NormalType.{NormalType as GhostType};
ghost use Rattle.ur_rows.specs.declared.normal.Part.{Part as GhostPart};
ghost use Rattle.ur_rows.specs.Made.{field, unit};
ghost use Rattle.ur_rows.specs.Nodes.{type_nodes};
ghost use Rattle.ur_rows.specs.Order.{joined};
ghost use Rattle.ur_rows_reduce.specs.Held.{TypeIs, RowIs};
ghost use Rattle.ur_rows_normal.specs.Listed.{ListedAs};

use std::alloc::Global;
use ur_base::{List, Memory};
use ur_rows::{Label, NormalType, Part, boxed, left_of_type, unit};
use ur_rows_reduce::{Fields, merged, outline, type_height};

/// Fields in written order with the number of nodes that they leave. Where they have too many, any types may stand in place
/// of theirs.
#[derive(Drop)]
pub enum Listed {
    Small(List<Part>, u32),
    Large(List<Part>),
}

fn left_after(t: &NormalType, left: u32) -> Option<u32>
    ensures { MatchOption result (left < type_nodes t.now + 1) (λ rest. rest + (type_nodes t.now + 1) ≡ left) }
{
    match left_of_type(t, left) {
        Some(rest) => rest.checked_sub(1),
        None => None,
    }
}

/// The parts with one field more.
fn with_field(
    alloc: Global,
    parts: List<Part>,
    label: Label,
    t: NormalType,
) -> Result<List<Part>, Memory>
    ensures { IfOk result (λ r. r ≡ parts ++ (field label t ∷ [])) }
{
    let mut parts = parts;
    let t = boxed(alloc, t)?;
    parts.push(Part::Field(label, t))?;
    Ok(parts)
}

/// One field more, behind the others. There is no memory for one that is too high.
pub fn one_more(
    alloc: Global,
    fields: Listed,
    label: Label,
    t: Option<NormalType>,
) -> Result<Listed, Memory>
    ensures { IfOk result (λ f. (r : GhostList GhostPart) (u : GhostType) → ListedAs fields r → TypeIs t u → ListedAs f (r ++ (field label u ∷ []))) }
{
    match fields {
        Listed::Small(parts, left) => match t {
            Some(t) => {
                type_height(&t, 4094)?;
                match left_after(&t, left) {
                    Some(rest) => Ok(Listed::Small(with_field(alloc, parts, label, t)?, rest)),
                    None => Ok(Listed::Large(with_field(alloc, parts, label, unit(alloc))?)),
                }
            }
            None => Ok(Listed::Large(with_field(alloc, parts, label, unit(alloc))?)),
        },
        Listed::Large(parts) => Ok(Listed::Large(with_field(alloc, parts, label, unit(alloc))?)),
    }
}

/// The row of the fields.
pub fn row_of_listed(alloc: Global, fields: Listed) -> Result<Fields, Memory>
    ensures { IfOk result (λ f. (r : GhostList GhostPart) → ListedAs fields r → RowIs f (joined r [])) }
{
    match fields {
        Listed::Small(parts, left) => Ok(Fields::Small(merged(parts, List::new(alloc))?, left)),
        Listed::Large(parts) => {
            let row = merged(parts, List::new(alloc))?;
            Ok(Fields::Large(outline(alloc, &row)?))
        }
    }
}
