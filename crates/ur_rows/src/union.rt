ghost use Rattle.std.specs.Prelude.{◌≡◌, ◌≤◌, length, insert, IfOk};
ghost use Rattle.ur_rows.specs.Order.{with_part, joined};

use crate::compare::before;
use crate::normal::Part;
use ur_base::{List, Memory};

/// Where a part goes in a row.
fn place_of(part: &Part, row: &[Part]) -> usize
    ensures within { result ≤ length row.now }
    ensures place { with_part part.now row.now ≡ insert row.now result part.now }
{
    for at in 0..row.len() {
        if before(part, &row[at]) {
            return at;
        }
    }
    row.len()
}

/// The row with one part more, at its place.
pub fn with_part(part: Part, row: List<Part>) -> Result<List<Part>, Memory>
    ensures { IfOk result (λ r. r ≡ with_part part row) }
{
    let at = place_of(&part, row.as_slice());
    let mut parts = row.into_vec();
    parts.insert(at, part)?;
    Ok(List::from_vec(parts))
}

/// `left ++ right`.
pub fn joined(left: List<Part>, right: List<Part>) -> Result<List<Part>, Memory>
    ensures { IfOk result (λ r. r ≡ joined left right) }
{
    let mut left = left;
    let mut right = right;
    while let Some(part) = left.pop() {
        right = with_part(part, right)?;
    }
    Ok(right)
}
