//! What is kept of a normal form: the form itself, or what is known of one with too many nodes.
ghost use Rattle.std.specs.Prelude.{◌≡◌, ◌<◌, true, List as GhostList, IfOk};
ghost use Rattle.ur_rows.specs.declared.normal.Normal.{Normal as GhostNormal};
ghost use Rattle.ur_rows.specs.declared.normal.Normal.TheVariants as normal;
ghost use Rattle.ur_rows.specs.declared.normal.NormalType.{NormalType as GhostType};
ghost use Rattle.ur_rows.specs.declared.normal.Part.{Part as GhostPart};
ghost use Rattle.ur_rows.specs.IsNormal.{is_normal};
ghost use Rattle.ur_rows.specs.Made.{arrow_of, record_of, form_of};
ghost use Rattle.ur_rows.specs.Nodes.{nodes, most_nodes};
ghost use Rattle.ur_rows.specs.Order.{joined};
ghost use Rattle.ur_rows.specs.Put.{as_type, as_row, raised};
ghost use Rattle.ur_rows_reduce.specs.declared.held.Fields.TheVariants as fields;
ghost use Rattle.ur_rows_reduce.specs.Held.{Means, Holds, TypeIs, RowIs, Outlines, SameShape};

use crate::place::merged;
use crate::{height, row_height, type_height};
use std::alloc::Global;
use ur_base::{List, Memory};
use ur_rows::{
    Normal, NormalType, Part, Raising, as_row, as_type, boxed, is_within, left_of_row,
    left_of_type, mapped_row, put_row, raised, unit,
};

/// What is known of a form with more nodes than a form may have. Of a row it is the outline: its variables and the names of
/// its fields, each of type unit, where that is kept.
#[derive(Drop)]
pub enum Large {
    Type,
    Row(Option<List<Part>>),
    /// A function whose body is a type.
    TypeFunction,
    Function,
}

/// A form, or what is known of one that is too large.
#[derive(Drop)]
pub enum Held {
    Form(Normal),
    Large(Large),
}

/// A row with the number of nodes that it leaves, or the outline of one that is too large.
#[derive(Drop)]
pub enum Fields {
    Small(List<Part>, u32),
    Large(Option<List<Part>>),
}

/// The outline of a row.
pub fn outline(alloc: Global, r: &List<Part>) -> Result<Option<List<Part>>, Memory>
    ensures { IfOk result (λ o. Outlines o r.now) }
{
    Ok(Some(mapped_row(alloc, &unit(alloc), r)?))
}

/// The outline of two rows together.
fn both(left: Option<List<Part>>, right: Option<List<Part>>) -> Result<Option<List<Part>>, Memory>
    ensures { IfOk result (λ o. (r s : GhostList GhostPart) → Outlines left r → Outlines right s → Outlines o (joined r s)) }
{
    match left {
        None => Ok(None),
        Some(l) => match right {
            None => Ok(None),
            Some(r) => {
                if l.len().saturating_add(r.len()) > 65535 {
                    return Ok(None);
                }
                Ok(Some(merged(l, r)?))
            }
        },
    }
}

/// What is known of a form of the same shape that has too many nodes.
pub fn shape(n: &Normal) -> Large
    ensures { (m : GhostNormal) → SameShape n.now m → most_nodes < nodes m → Means result m }
{
    match n {
        Normal::Type(_) => Large::Type,
        Normal::Name(_) => Large::Function,
        Normal::Row(_) => Large::Row(None),
        Normal::Fn(_, c) => match c.get() {
            Normal::Type(_) => Large::TypeFunction,
            Normal::Name(_) => Large::Function,
            Normal::Row(_) => Large::Function,
            Normal::Fn(_, _) => Large::Function,
        },
    }
}

/// The form, where it is not too large. There is no memory for one that is too high.
pub fn measured(alloc: Global, n: Normal) -> Result<Held, Memory>
    ensures { IfOk result (λ h. Holds h n) }
{
    height(&n, 4096)?;
    if is_within(&n) {
        return Ok(Held::Form(n));
    }
    match &n {
        Normal::Row(r) => Ok(Held::Large(Large::Row(outline(alloc, r)?))),
        _ => Ok(Held::Large(shape(&n))),
    }
}

/// The row, where it is not too large. There is no memory for one that is too high.
pub fn sized(alloc: Global, r: List<Part>) -> Result<Fields, Memory>
    ensures { IfOk result (λ f. RowIs f r) }
{
    row_height(&r, 4095)?;
    match left_of_row(&r, 65535) {
        Some(left) => Ok(Fields::Small(r, left)),
        None => Ok(Fields::Large(outline(alloc, &r)?)),
    }
}

/// The type that is held, or that it is too large.
pub fn type_of(alloc: Global, h: Held) -> Result<Option<NormalType>, Memory>
    ensures { IfOk result (λ t. (n : GhostNormal) → Holds h n → TypeIs t (as_type n)) }
{
    match h {
        Held::Form(n) => Ok(Some(as_type(alloc, n))),
        Held::Large(large) => match large {
            Large::Type => Ok(None),
            Large::Row(_) => Err(Memory),
            Large::TypeFunction => Err(Memory),
            Large::Function => Err(Memory),
        },
    }
}

/// The row that is held.
pub fn fields_of(alloc: Global, h: Held) -> Result<Fields, Memory>
    ensures { IfOk result (λ f. (n : GhostNormal) → Holds h n → RowIs f (as_row n)) }
{
    match h {
        Held::Form(n) => sized(alloc, as_row(alloc, n)),
        Held::Large(large) => match large {
            Large::Row(o) => Ok(Fields::Large(o)),
            Large::Type => Err(Memory),
            Large::TypeFunction => Err(Memory),
            Large::Function => Err(Memory),
        },
    }
}

/// A row as a constructor.
pub fn row_of(f: Fields) -> Held
    ensures { (r : GhostList GhostPart) → RowIs f r → Holds result (normal.Row r) }
{
    match f {
        Fields::Small(r, _) => Held::Form(Normal::Row(r)),
        Fields::Large(o) => Held::Large(Large::Row(o)),
    }
}

/// `$r`.
pub fn record_of(f: Fields) -> Held
    ensures { (r : GhostList GhostPart) → RowIs f r → Holds result (normal.Type (record_of r)) }
{
    match f {
        Fields::Small(r, _) => Held::Form(Normal::Type(NormalType::Record(r))),
        Fields::Large(_) => Held::Large(Large::Type),
    }
}

/// `xml form [] r`.
pub fn form_of(f: Fields) -> Held
    ensures { (r : GhostList GhostPart) → RowIs f r → Holds result (normal.Type (form_of r)) }
{
    match f {
        Fields::Small(r, _) => Held::Form(Normal::Type(NormalType::Form(r))),
        Fields::Large(_) => Held::Large(Large::Type),
    }
}

/// An arrow of types. There is no memory for one that is too high.
#[inline(never)]
pub fn arrow(alloc: Global, a: Option<NormalType>, b: Option<NormalType>) -> Result<Held, Memory>
    ensures { IfOk result (λ h. (s t : GhostType) → TypeIs a s → TypeIs b t → Holds h (normal.Type (arrow_of s t))) }
{
    match a {
        None => Ok(Held::Large(Large::Type)),
        Some(s) => match b {
            None => Ok(Held::Large(Large::Type)),
            Some(t) => {
                let s = boxed(alloc, s)?;
                let t = boxed(alloc, t)?;
                let form = NormalType::Arrow(s, t);
                type_height(&form, 4096)?;
                match left_of_type(&form, 65536) {
                    Some(_) => Ok(Held::Form(Normal::Type(form))),
                    None => Ok(Held::Large(Large::Type)),
                }
            }
        },
    }
}

/// `r ++ s`.
#[inline(never)]
pub fn union(alloc: Global, left: Fields, right: Fields) -> Result<Fields, Memory>
    ensures { IfOk result (λ f. (r s : GhostList GhostPart) → RowIs left r → RowIs right s → RowIs f (joined r s)) }
{
    match left {
        Fields::Small(r, a) => match right {
            Fields::Small(s, b) => small_union(alloc, r, a, s, b),
            Fields::Large(o) => Ok(Fields::Large(both(outline(alloc, &r)?, o)?)),
        },
        Fields::Large(o) => match right {
            Fields::Small(s, _) => Ok(Fields::Large(both(o, outline(alloc, &s)?)?)),
            Fields::Large(p) => Ok(Fields::Large(both(o, p)?)),
        },
    }
}

/// `r ++ s`, where `a` and `b` nodes are left by each.
fn small_union(
    alloc: Global,
    r: List<Part>,
    a: u32,
    s: List<Part>,
    b: u32,
) -> Result<Fields, Memory>
    ensures { IfOk result (λ f. (p q : GhostList GhostPart) → RowIs (fields.Small r a) p → RowIs (fields.Small s b) q → RowIs f (joined p q)) }
{
    match a.checked_add(b) {
        None => Err(Memory),
        Some(sum) => {
            if sum < 65535 {
                let r = outline(alloc, &r)?;
                let s = outline(alloc, &s)?;
                return Ok(Fields::Large(both(r, s)?));
            }
            Ok(Fields::Small(merged(r, s)?, sum - 65535))
        }
    }
}

fn raised_outline(
    alloc: Global,
    by: u32,
    o: &Option<List<Part>>,
) -> Result<Option<List<Part>>, Memory>
    ensures { IfOk result (λ p. (r : GhostList GhostPart) → Outlines o.now r → Outlines p (as_row (raised by (normal.Row r)))) }
{
    match o {
        Some(s) => Ok(Some(put_row(alloc, &Raising { by }, 0, s)?)),
        None => Ok(None),
    }
}

/// What is held, seen from `by` more functions within.
pub fn raised_held(alloc: Global, by: u32, h: &Held) -> Result<Held, Memory>
    ensures { IfOk result (λ g. (n : GhostNormal) → is_normal n ≡ true → Holds h.now n → Holds g (raised by n)) }
{
    match h {
        Held::Form(n) => measured(alloc, raised(alloc, by, n)?),
        Held::Large(large) => match large {
            Large::Type => Ok(Held::Large(Large::Type)),
            Large::Row(o) => Ok(Held::Large(Large::Row(raised_outline(alloc, by, o)?))),
            Large::TypeFunction => Ok(Held::Large(Large::TypeFunction)),
            Large::Function => Ok(Held::Large(Large::Function)),
        },
    }
}
