//! Whether a constructor of an instance has too many nodes.
ghost use Rattle.std.specs.Prelude.{◌↔◌, IsTrue};
ghost use Rattle.std.specs.List.{AllByRecursion};
ghost use Rattle.ur_unfold.specs.Sizes.{ConIsSmall, KeyIsSmall};

use ur_base::List;
use ur_rows::is_within;
use ur_unfold_pieces::{Key, Opening};
use ur_unfold_static::Closing;

/// Whether no constructor of an instance has too many nodes.
pub fn are_small(table: &Opening<'_>) -> bool
    ensures { IsTrue result ↔ AllByRecursion (KeyIsSmall table.now.closing) table.now.instances.keys }
{
    let keys = table.instances.as_slice();
    for i in 0..keys.len() {
        if !key_is_small(&table.closing, &keys[i]) {
            return false;
        }
    }
    true
}

fn key_is_small(closing: &Closing<'_>, key: &Key) -> bool
    ensures { IsTrue result ↔ KeyIsSmall closing.now key.now }
{
    cons_are_small(closing, &key.cons)
}

fn cons_are_small(closing: &Closing<'_>, numbers: &List<u32>) -> bool
    ensures { IsTrue result ↔ AllByRecursion (ConIsSmall closing.now) numbers.now }
{
    let all = numbers.as_slice();
    for i in 0..all.len() {
        if !con_is_small(closing, all[i]) {
            return false;
        }
    }
    true
}

fn con_is_small(closing: &Closing<'_>, number: u32) -> bool
    ensures { IsTrue result ↔ ConIsSmall closing.now number }
{
    match closing.con(number) {
        None => true,
        Some(con) => is_within(con),
    }
}
