//! Parts are put in at their places in a row that is in order.
ghost use Rattle.std.specs.Prelude.{◌≡◌, ◌≤◌, true, length, insert, IfOk};
ghost use Rattle.ur_rows.specs.Order.{with_part, joined};
ghost use Rattle.ur_rows.specs.IsNormal.{is_row};

use ur_base::{List, Memory};
use ur_rows::{Part, before, joined};

/// Where a part goes in a row that is in order. The place is found by halving what is left.
fn place_in(part: &Part, row: &[Part]) -> usize
    requires { is_row row.now ≡ true }
    ensures within { result ≤ length row.now }
    ensures place { with_part part.now row.now ≡ insert row.now result part.now }
{
    let mut low = 0;
    let mut high = row.len();
    'halves: while low < high {
        let middle = low + (high - low) / 2;
        if before(part, &row[middle]) {
            high = middle;
        } else {
            low = middle + 1;
        }
    }
    low
}

/// A row in order with one part more, at its place.
pub fn placed(part: Part, row: List<Part>) -> Result<List<Part>, Memory>
    requires { is_row row ≡ true }
    ensures { IfOk result (λ r. r ≡ with_part part row) }
{
    let at = place_in(&part, row.as_slice());
    let mut parts = row.into_vec();
    parts.insert(at, part)?;
    Ok(List::from_vec(parts))
}

fn is_in_order(parts: &[Part]) -> bool
    ensures { result ≡ is_row parts.now }
{
    for i in 1..parts.len() {
        if !before(&parts[i - 1], &parts[i]) {
            return false;
        }
    }
    true
}

fn insert_all(left: List<Part>, right: List<Part>) -> Result<List<Part>, Memory>
    requires { is_row right ≡ true }
    ensures { IfOk result (λ r. r ≡ joined left right) }
{
    let mut left = left;
    let mut right = right;
    while let Some(part) = left.pop() {
        right = placed(part, right)?;
    }
    Ok(right)
}

/// `left ++ right`. Places are found by halving where the right row is in order.
pub fn merged(left: List<Part>, right: List<Part>) -> Result<List<Part>, Memory>
    ensures { IfOk result (λ r. r ≡ joined left right) }
{
    if is_in_order(right.as_slice()) {
        insert_all(left, right)
    } else {
        joined(left, right)
    }
}
