//! Whether what a substitution makes is not too high. It is told before anything is made, from the heights of what is put
//! in: what `map f` of a row makes is taken to be as high as f and the row's highest part together.
ghost use Rattle.std.specs.Prelude.{◌≡◌, ◌+◌, ◌≤◌, suc, IfOk};
ghost use Rattle.ur_rows.specs.Put.{Putting, put, put_type, put_part, put_row, argument, mapped_row, applied_once};
ghost use Rattle.ur_rows_reduce.specs.Height.{type_height, row_height, height, most_levels};
ghost use Rattle.ur_rows_reduce.specs.Lifts.{Within, at_variable, over_map};

use crate::measuring::{lower, row_height, type_height};
use ur_base::{List, Memory};
use ur_rows::{Normal, NormalType, Part, Var, is_here};

/// The heights of what is put in place of variables.
pub trait Lifts {
    ghost use Rattle.std.specs.Prelude.{◌≡◌};
    ghost use Rattle.ur_rows_reduce.specs.Lifts.{Levels};

    ghost levels: { Self → Levels };

    /// The height of what stands for a variable as a type.
    fn of_type(&self, depth: u32, v: &Var) -> u32
        ensures { result ≡ (levels self.now).types depth v.now };

    /// The height of what stands for a variable as a row.
    fn of_row(&self, depth: u32, v: &Var) -> u32
        ensures { result ≡ (levels self.now).rows depth v.now };
}

/// The heights of what is put in place of an `fn`'s variable, as a type and as a row.
#[derive(Clone, Copy)]
pub struct AtVariable {
    pub as_type: u32,
    pub as_row: u32,
}

impl Lifts for AtVariable {
    ghost levels = { λ a. at_variable a.as_type a.as_row };

    fn of_type(&self, depth: u32, v: &Var) -> u32 {
        if is_here(depth, v) { self.as_type } else { 1 }
    }

    fn of_row(&self, depth: u32, v: &Var) -> u32 {
        if is_here(depth, v) { self.as_row } else { 1 }
    }
}

fn no_more(height: u32, levels: u32) -> Result<(), Memory>
    ensures { IfOk result (λ _. height ≤ levels) }
{
    if height > levels {
        return Err(Memory);
    }
    Ok(())
}

fn deeper(depth: u32) -> Result<u32, Memory>
    ensures { IfOk result (λ d. d ≡ suc depth) }
{
    match depth.checked_add(1) {
        Some(d) => Ok(d),
        None => Err(Memory),
    }
}

/// What is left of so many levels for a function that is mapped over a row of a height.
fn under_map(row: u32, levels: u32) -> Result<u32, Memory>
    ensures { IfOk result (λ left. left + over_map row ≡ levels) }
{
    let over = row.saturating_sub(1).max(1);
    match levels.checked_sub(over) {
        Some(left) => Ok(left),
        None => Err(Memory),
    }
}

/// Whether a type with others in place of its variables has no more than so many levels. There is no memory for more.
#[cycle(after)]
#[tactic(auto, using(crate::proofs::Lifting::after))]
pub fn type_after<L: Lifts>(how: &L, depth: u32, t: &NormalType, levels: u32) -> Result<(), Memory>
    ensures { IfOk result (λ _. (σ : Putting) → Within (L.levels how.now) σ → type_height (put_type σ depth t.now) ≤ levels) }
{
    match t {
        NormalType::Variable(v) => no_more(how.of_type(depth, v), levels),
        NormalType::Opt(x) => type_after(how, depth, x.get(), lower(levels)?),
        NormalType::Many(x) => type_after(how, depth, x.get(), lower(levels)?),
        NormalType::Transaction(x) => type_after(how, depth, x.get(), lower(levels)?),
        NormalType::Arrow(a, b) => {
            let below = lower(levels)?;
            type_after(how, depth, a.get(), below)?;
            type_after(how, depth, b.get(), below)
        }
        NormalType::Record(r) => row_after(how, depth, r, lower(levels)?),
        NormalType::Form(r) => row_after(how, depth, r, lower(levels)?),
        NormalType::Int => no_more(1, levels),
        NormalType::Str => no_more(1, levels),
        NormalType::Bool => no_more(1, levels),
        NormalType::Page => no_more(1, levels),
        NormalType::Xbody => no_more(1, levels),
        NormalType::Xtable => no_more(1, levels),
        NormalType::Xtr => no_more(1, levels),
        NormalType::Datatype(_) => no_more(1, levels),
    }
}

/// The same for a row.
#[cycle(after)]
#[tactic(auto, using(crate::proofs::Lifting::after))]
pub fn row_after<L: Lifts>(how: &L, depth: u32, r: &List<Part>, levels: u32) -> Result<(), Memory>
    ensures { IfOk result (λ _. (σ : Putting) → Within (L.levels how.now) σ → row_height (put_row σ depth r.now) ≤ levels) }
{
    let parts = r.as_slice();
    for i in 0..parts.len() {
        part_after(how, depth, &parts[i], levels)?;
    }
    Ok(())
}

/// The same for a part.
#[cycle(after)]
#[tactic(auto, using(crate::proofs::Lifting::after))]
fn part_after<L: Lifts>(how: &L, depth: u32, p: &Part, levels: u32) -> Result<(), Memory>
    ensures { IfOk result (λ _. (σ : Putting) → Within (L.levels how.now) σ → row_height (put_part σ depth p.now) ≤ levels) }
{
    match p {
        Part::Field(_, t) => type_after(how, depth, t.get(), lower(levels)?),
        Part::Piece(v) => no_more(how.of_row(depth, v), levels),
        Part::Mapped(v, f) => {
            let below = under_map(how.of_row(depth, v), levels)?;
            type_after(how, deeper(depth)?, f.get(), below)
        }
    }
}

/// The same for a normal form.
#[tactic(auto, using(crate::proofs::Lifting::after))]
pub fn normal_after<L: Lifts>(how: &L, depth: u32, n: &Normal, levels: u32) -> Result<(), Memory>
    ensures { IfOk result (λ _. (σ : Putting) → Within (L.levels how.now) σ → height (put σ depth n.now) ≤ levels) }
{
    match n {
        Normal::Type(t) => type_after(how, depth, t, levels),
        Normal::Name(_) => no_more(1, levels),
        Normal::Row(r) => row_after(how, depth, r, lower(levels)?),
        Normal::Fn(_, c) => normal_after(how, deeper(depth)?, c.get(), lower(levels)?),
    }
}

/// The heights of an argument.
pub fn argument_levels(a: &Normal) -> Result<AtVariable, Memory>
    ensures { IfOk result (λ l. Within (at_variable l.as_type l.as_row) (argument a.now)) }
{
    match a {
        Normal::Type(t) => {
            let as_type = type_height(t, 4096)?;
            Ok(AtVariable { as_type, as_row: 0 })
        }
        Normal::Row(r) => {
            let as_row = row_height(r, 4096)?;
            Ok(AtVariable { as_type: 1, as_row })
        }
        Normal::Name(_) => Ok(AtVariable {
            as_type: 1,
            as_row: 0,
        }),
        Normal::Fn(_, _) => Ok(AtVariable {
            as_type: 1,
            as_row: 0,
        }),
    }
}

/// Whether a function applied to an argument is no higher than a form may be. There is no memory for a higher one.
pub fn applied_is_low(f: &Normal, a: &Normal) -> Result<(), Memory>
    ensures { IfOk result (λ _. height (applied_once f.now a.now) ≤ most_levels) }
{
    match f {
        Normal::Fn(_, c) => {
            let how = argument_levels(a)?;
            normal_after(&how, 0, c.get(), 4096)
        }
        Normal::Type(_) => Ok(()),
        Normal::Name(_) => Ok(()),
        Normal::Row(_) => Ok(()),
    }
}

/// Whether `map f r` has no more than so many levels. There is no memory for more.
pub fn mapped_is_low(f: &NormalType, r: &List<Part>, levels: u32) -> Result<(), Memory>
    ensures { IfOk result (λ _. row_height (mapped_row f.now r.now) ≤ levels) }
{
    let row = row_height(r, levels)?;
    let left = under_map(row, levels)?;
    type_height(f, left)?;
    Ok(())
}
