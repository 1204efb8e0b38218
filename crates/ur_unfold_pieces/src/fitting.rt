//! Whether the numbers of a key stand for something.
ghost use Rattle.std.specs.Prelude.{◌≡◌, ◌<◌, ◌↔◌, length, IsTrue, IfOk};
ghost use Rattle.ur_unfold_static.specs.Held.{AreBelow};
ghost use Rattle.ur_unfold_pieces.specs.Keys.{KeyFits};

use crate::opening::Key;
use ur_base::{List, Memory};
use ur_unfold_static::Closing;

/// A place as a number.
pub fn number_of(place: usize) -> Result<u32, Memory>
    ensures { IfOk result (λ n. n ≡ place) }
{
    if place > u32::MAX as usize {
        return Err(Memory);
    }
    Ok(place as u32)
}

fn is_con(closing: &Closing<'_>, number: u32) -> bool
    ensures { IsTrue result ↔ (number < length closing.now.cons) }
{
    match closing.con(number) {
        Some(_) => true,
        None => false,
    }
}

fn is_static(closing: &Closing<'_>, number: u32) -> bool
    ensures { IsTrue result ↔ (number < length closing.now.statics) }
{
    match closing.node(number) {
        Some(_) => true,
        None => false,
    }
}

fn are_cons(closing: &Closing<'_>, numbers: &List<u32>) -> bool
    ensures { IsTrue result ↔ AreBelow (length closing.now.cons) numbers.now }
{
    let all = numbers.as_slice();
    for i in 0..all.len() {
        if !is_con(closing, all[i]) {
            return false;
        }
    }
    true
}

fn are_statics(closing: &Closing<'_>, numbers: &List<u32>) -> bool
    ensures { IsTrue result ↔ AreBelow (length closing.now.statics) numbers.now }
{
    let all = numbers.as_slice();
    for i in 0..all.len() {
        if !is_static(closing, all[i]) {
            return false;
        }
    }
    true
}

/// Whether the numbers of a key stand for something.
pub fn key_fits(closing: &Closing<'_>, key: &Key) -> bool
    ensures { IsTrue result ↔ KeyFits closing.now key.now }
{
    if !are_cons(closing, &key.cons) {
        return false;
    }
    are_statics(closing, &key.fixed)
}
