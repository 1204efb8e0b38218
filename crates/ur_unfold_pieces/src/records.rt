//! Records whose fields are numbers.
ghost use Rattle.std.specs.Prelude.{◌≡◌, ◌≤◌, ◌++◌, ℕ, insert, length, IfOk, OnOk};
ghost use Rattle.ur_unfold_pieces.specs.Records.{with_number, numbers_together, number_of_field, without_number};

use ur_base::{List, Memory, Name};
use ur_unfold_static::Field;

/// The place of a field among those that stand in order of names, behind those of its own name.
fn place_for(name: Name, fields: &[Field]) -> usize
    ensures within { result ≤ length fields.now }
    ensures place { (of : ℕ) → with_number (record { name = name; of = of }) fields.now ≡ insert fields.now result (record { name = name; of = of }) }
{
    for place in 0..fields.len() {
        if name.0 < fields[place].name.0 {
            return place;
        }
    }
    fields.len()
}

/// The fields with one more.
pub fn with_field(field: Field, fields: List<Field>) -> Result<List<Field>, Memory>
    ensures { IfOk result (λ made. made ≡ with_number field fields) }
{
    let place = place_for(field.name, fields.as_slice());
    let mut fields = fields.into_vec();
    fields.insert(place, field)?;
    Ok(List::from_vec(fields))
}

/// The fields of both, those of `left` put to those of `right` from the last one on.
pub fn all_fields(left: &List<Field>, right: List<Field>) -> Result<List<Field>, Memory>
    ensures { IfOk result (λ made. made ≡ numbers_together left.now right) }
{
    let more = left.as_slice();
    let count = more.len();
    let mut fields = right;
    for i in 0..count {
        fields = with_field(more[count - 1 - i], fields)?;
    }
    Ok(fields)
}

/// The first field of this name.
pub fn field_at(name: Name, fields: &List<Field>) -> Option<u32>
    ensures { result ≡ number_of_field name fields.now }
{
    let all = fields.as_slice();
    for i in 0..all.len() {
        if all[i].name.0 == name.0 {
            return Some(all[i].of);
        }
    }
    None
}

/// Moves the fields of other names to the end.
pub fn push_others(name: Name, fields: &List<Field>, others: &mut List<Field>) -> Result<(), Memory>
    ensures { OnOk result (others.new ≡ others.old ++ without_number name fields.now) }
{
    let all = fields.as_slice();
    for i in 0..all.len() {
        if all[i].name.0 != name.0 {
            others.push(all[i])?;
        }
    }
    Ok(())
}
