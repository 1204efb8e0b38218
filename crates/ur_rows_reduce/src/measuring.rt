//! The height of a form, where it is no more than so many levels.
ghost use Rattle.std.specs.Prelude.{◌≡◌, ◌+◌, ◌≤◌, IfOk};
ghost use Rattle.ur_rows_reduce.specs.Height.{type_height, part_height, row_height, height};

use ur_base::{List, Memory};
use ur_rows::{Normal, NormalType, Part};

/// One level less.
pub fn lower(levels: u32) -> Result<u32, Memory>
    ensures { IfOk result (λ left. left + 1 ≡ levels) }
{
    match levels.checked_sub(1) {
        Some(left) => Ok(left),
        None => Err(Memory),
    }
}

/// A single level.
fn single(levels: u32) -> Result<u32, Memory>
    ensures { IfOk result (λ h. (h ≡ 1) × (h ≤ levels)) }
{
    if levels == 0 {
        return Err(Memory);
    }
    Ok(1)
}

/// The height of a type. There is no memory for one of more than so many levels.
#[cycle(measuring)]
#[tactic(auto, using(crate::proofs::Heights::heights))]
pub fn type_height(t: &NormalType, levels: u32) -> Result<u32, Memory>
    ensures { IfOk result (λ h. (h ≡ type_height t.now) × (h ≤ levels)) }
{
    match t {
        NormalType::Opt(x) => {
            let inner = type_height(x.get(), lower(levels)?)?;
            Ok(inner + 1)
        }
        NormalType::Many(x) => {
            let inner = type_height(x.get(), lower(levels)?)?;
            Ok(inner + 1)
        }
        NormalType::Transaction(x) => {
            let inner = type_height(x.get(), lower(levels)?)?;
            Ok(inner + 1)
        }
        NormalType::Arrow(a, b) => {
            let left = type_height(a.get(), lower(levels)?)?;
            let right = type_height(b.get(), lower(levels)?)?;
            Ok(left.max(right) + 1)
        }
        NormalType::Record(r) => {
            let inner = row_height(r, lower(levels)?)?;
            Ok(inner + 1)
        }
        NormalType::Form(r) => {
            let inner = row_height(r, lower(levels)?)?;
            Ok(inner + 1)
        }
        NormalType::Int => single(levels),
        NormalType::Str => single(levels),
        NormalType::Bool => single(levels),
        NormalType::Page => single(levels),
        NormalType::Xbody => single(levels),
        NormalType::Xtable => single(levels),
        NormalType::Xtr => single(levels),
        NormalType::Variable(_) => single(levels),
        NormalType::Datatype(_) => single(levels),
    }
}

/// The same for the parts of a row.
#[cycle(measuring)]
#[tactic(auto, using(crate::proofs::Heights::heights))]
pub fn row_height(r: &List<Part>, levels: u32) -> Result<u32, Memory>
    ensures { IfOk result (λ h. (h ≡ row_height r.now) × (h ≤ levels)) }
{
    let parts = r.as_slice();
    let mut most = 0;
    for i in 0..parts.len() {
        let next = part_height(&parts[i], levels)?;
        most = next.max(most);
    }
    Ok(most)
}

/// The same for one part.
#[cycle(measuring)]
#[tactic(auto, using(crate::proofs::Heights::heights))]
fn part_height(p: &Part, levels: u32) -> Result<u32, Memory>
    ensures { IfOk result (λ h. (h ≡ part_height p.now) × (h ≤ levels)) }
{
    match p {
        Part::Field(_, t) => {
            let inner = type_height(t.get(), lower(levels)?)?;
            Ok(inner + 1)
        }
        Part::Piece(_) => single(levels),
        Part::Mapped(_, f) => {
            let inner = type_height(f.get(), lower(levels)?)?;
            Ok(inner + 1)
        }
    }
}

/// The height of a normal form. There is no memory for one of more than so many levels.
#[tactic(auto, using(crate::proofs::Heights::heights))]
pub fn height(n: &Normal, levels: u32) -> Result<u32, Memory>
    ensures { IfOk result (λ h. (h ≡ height n.now) × (h ≤ levels)) }
{
    match n {
        Normal::Type(t) => type_height(t, levels),
        Normal::Name(_) => single(levels),
        Normal::Row(r) => {
            let inner = row_height(r, lower(levels)?)?;
            Ok(inner + 1)
        }
        Normal::Fn(_, c) => {
            let inner = height(c.get(), lower(levels)?)?;
            Ok(inner + 1)
        }
    }
}
