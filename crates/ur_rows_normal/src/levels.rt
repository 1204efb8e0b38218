//! The heights of what stands for the free variables.
ghost use Rattle.std.specs.Prelude.{◌≡◌, IfOk};
ghost use Rattle.ur_rows.specs.Put.{as_type, as_row, arguments};
ghost use Rattle.ur_rows_reduce.specs.Height.{type_height, row_height};
ghost use Rattle.ur_rows_reduce.specs.Lifts.{Within};
ghost use Rattle.ur_rows_normal.specs.Arguments.{at_numbers, free_height};

use std::alloc::Global;
use ur_base::{List, Memory};
use ur_rows::{Normal, Var};
use ur_rows_reduce::{Lifts, row_height, type_height};

/// The heights of the constructors that take the place of the free variables, as types and as rows.
#[derive(Drop)]
pub struct Heights {
    pub types: List<u32>,
    pub rows: List<u32>,
}

fn height_at(heights: &List<u32>, v: &Var) -> u32
    ensures { result ≡ free_height heights.now v.now }
{
    match v {
        Var::Free(n) => match heights.get(*n as usize) {
            Some(height) => *height,
            None => 1,
        },
        Var::Bound(_) => 1,
    }
}

impl Lifts for Heights {
    ghost use Rattle.ur_rows_normal.specs.Arguments.{at_numbers};

    ghost levels = { λ h. at_numbers h.types h.rows };

    fn of_type(&self, _depth: u32, v: &Var) -> u32 {
        height_at(&self.types, v)
    }

    fn of_row(&self, _depth: u32, v: &Var) -> u32 {
        height_at(&self.rows, v)
    }
}

fn height_as_type(n: &Normal) -> Result<u32, Memory>
    ensures { IfOk result (λ h. h ≡ type_height (as_type n.now)) }
{
    match n {
        Normal::Type(t) => {
            let height = type_height(t, 4096)?;
            Ok(height)
        }
        _ => Ok(1),
    }
}

fn height_as_row(n: &Normal) -> Result<u32, Memory>
    ensures { IfOk result (λ h. h ≡ row_height (as_row n.now)) }
{
    match n {
        Normal::Row(r) => {
            let height = row_height(r, 4096)?;
            Ok(height)
        }
        _ => Ok(0),
    }
}

/// The heights of constructors. There is no memory for a higher one than a form may be.
pub fn heights_of(alloc: Global, args: &[Normal]) -> Result<Heights, Memory>
    ensures { IfOk result (λ h. Within (at_numbers h.types h.rows) (arguments args.now)) }
{
    let mut types = List::new(alloc);
    let mut rows = List::new(alloc);
    for i in 0..args.len() {
        let arg = &args[i];
        let as_type = height_as_type(arg)?;
        let as_row = height_as_row(arg)?;
        types.push(as_type)?;
        rows.push(as_row)?;
    }
    Ok(Heights { types, rows })
}
