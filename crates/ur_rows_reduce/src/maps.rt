//! `map` of a function of types over a row, where either may be too large.
ghost use Rattle.std.specs.Prelude.{◌≡◌, ◌≤◌, true, List as GhostList, IfOk, MatchOption};
ghost use Rattle.ur_rows.specs.declared.normal.Normal.{Normal as GhostNormal};
ghost use Rattle.ur_rows.specs.declared.normal.NormalType.{NormalType as GhostType};
ghost use Rattle.ur_rows.specs.declared.normal.Part.{Part as GhostPart};
ghost use Rattle.ur_rows.specs.IsNormal.{is_normal, is_normal_type, all_normal_parts};
ghost use Rattle.ur_rows.specs.Made.{unit as made_unit};
ghost use Rattle.ur_rows.specs.Nodes.{type_nodes, row_nodes, most_nodes};
ghost use Rattle.ur_rows.specs.Put.{as_row, mapped_row};
ghost use Rattle.ur_rows.specs.Normal.{as_function};
ghost use Rattle.ur_rows_reduce.specs.Held.{Holds, RowIs, Outlines};

use crate::count::{Halt, left_of_mapped_row, size_of};
use crate::held::{Fields, Held, Large, outline};
use crate::mapped_is_low;
use crate::occurs::{holds_type, uses_type};
use std::alloc::Global;
use ur_base::{List, Memory};
use ur_rows::{Normal, NormalType, Part, copy_row, mapped_row, unit};

/// The body of a function of types.
fn body_of(f: &Normal) -> Option<&NormalType>
    ensures { MatchOption result (as_function f.now ≡ made_unit) (λ t. as_function f.now ≡ t.now) }
{
    match f {
        Normal::Fn(_, body) => match body.get() {
            Normal::Type(t) => Some(t),
            Normal::Name(_) => None,
            Normal::Row(_) => None,
            Normal::Fn(_, _) => None,
        },
        Normal::Type(_) => None,
        Normal::Name(_) => None,
        Normal::Row(_) => None,
    }
}

/// `map f r` of a row. There is no memory for one that is too high.
fn mapped_small(alloc: Global, f: &NormalType, r: &List<Part>) -> Result<Fields, Memory>
    ensures { IfOk result (λ m. RowIs m (mapped_row f.now r.now)) }
{
    mapped_is_low(f, r, 4095)?;
    let size = size_of(f)?;
    match left_of_mapped_row(alloc, f, size, r, 65535) {
        Ok(left) => Ok(Fields::Small(mapped_row(alloc, f, r)?, left)),
        Err(halt) => match halt {
            Halt::Memory => Err(Memory),
            Halt::TooLarge => Ok(Fields::Large(outline(alloc, r)?)),
        },
    }
}

fn copy_outline(alloc: Global, o: &Option<List<Part>>) -> Result<Option<List<Part>>, Memory>
    ensures { IfOk result (λ p. p ≡ o.now) }
{
    match o {
        Some(s) => Ok(Some(copy_row(alloc, s)?)),
        None => Ok(None),
    }
}

/// `map f r` of a row that is too large. There is no memory for an outline that is not kept, nor for a function that
/// uses its argument only in maps.
fn mapped_large(alloc: Global, f: &NormalType, o: &Option<List<Part>>) -> Result<Fields, Memory>
    ensures { IfOk result (λ m. (r : GhostList GhostPart) → is_normal_type f.now ≡ true → all_normal_parts r ≡ true → most_nodes ≤ row_nodes r → Outlines o.now r →
        RowIs m (mapped_row f.now r)) }
{
    if holds_type(false, 0, f) {
        return Ok(Fields::Large(copy_outline(alloc, o)?));
    }
    if uses_type(0, f)? {
        return Err(Memory);
    }
    match o {
        Some(s) => mapped_small(alloc, f, s),
        None => Err(Memory),
    }
}

/// `map f r` of what is held for a row.
fn mapped_held(alloc: Global, f: &NormalType, r: &Held) -> Result<Fields, Memory>
    ensures { IfOk result (λ m. (n : GhostNormal) → is_normal_type f.now ≡ true → is_normal n ≡ true → Holds r.now n → RowIs m (mapped_row f.now (as_row n))) }
{
    match r {
        Held::Form(form) => match form {
            Normal::Row(parts) => mapped_small(alloc, f, parts),
            Normal::Type(_) => Ok(Fields::Small(List::new(alloc), 65535)),
            Normal::Name(_) => Ok(Fields::Small(List::new(alloc), 65535)),
            Normal::Fn(_, _) => Ok(Fields::Small(List::new(alloc), 65535)),
        },
        Held::Large(large) => match large {
            Large::Row(o) => mapped_large(alloc, f, o),
            Large::Type => Err(Memory),
            Large::TypeFunction => Err(Memory),
            Large::Function => Err(Memory),
        },
    }
}

/// `map f r` of a row, with a function that is too large.
fn mapped_by_large(alloc: Global, r: &List<Part>) -> Result<Fields, Memory>
    ensures { IfOk result (λ m. (f : GhostType) → is_normal_type f ≡ true → most_nodes ≤ type_nodes f → RowIs m (mapped_row f r.now)) }
{
    if r.is_empty() {
        return Ok(Fields::Small(List::new(alloc), 65535));
    }
    Ok(Fields::Large(outline(alloc, r)?))
}

/// `map f r` of what is held for a row, with a function that is too large.
fn mapped_held_by_large(alloc: Global, r: &Held) -> Result<Fields, Memory>
    ensures { IfOk result (λ m. (f : GhostType) (n : GhostNormal) → is_normal_type f ≡ true → most_nodes ≤ type_nodes f → Holds r.now n → RowIs m (mapped_row f (as_row n))) }
{
    match r {
        Held::Form(form) => match form {
            Normal::Row(parts) => mapped_by_large(alloc, parts),
            Normal::Type(_) => Ok(Fields::Small(List::new(alloc), 65535)),
            Normal::Name(_) => Ok(Fields::Small(List::new(alloc), 65535)),
            Normal::Fn(_, _) => Ok(Fields::Small(List::new(alloc), 65535)),
        },
        Held::Large(large) => match large {
            Large::Row(o) => Ok(Fields::Large(copy_outline(alloc, o)?)),
            Large::Type => Err(Memory),
            Large::TypeFunction => Err(Memory),
            Large::Function => Err(Memory),
        },
    }
}

/// `map f r` of what is held for the function and for the row.
pub fn mapped(alloc: Global, f: &Held, r: &Held) -> Result<Fields, Memory>
    ensures { IfOk result (λ x. (m n : GhostNormal) → is_normal m ≡ true → is_normal n ≡ true → Holds f.now m → Holds r.now n → RowIs x (mapped_row (as_function m) (as_row n))) }
{
    match f {
        Held::Form(form) => match body_of(form) {
            Some(t) => mapped_held(alloc, t, r),
            None => mapped_held(alloc, &unit(alloc), r),
        },
        Held::Large(large) => match large {
            Large::TypeFunction => mapped_held_by_large(alloc, r),
            Large::Type => Err(Memory),
            Large::Row(_) => Err(Memory),
            Large::Function => Err(Memory),
        },
    }
}
