//! What stands for the free variables.
ghost use Rattle.std.specs.Prelude.{◌≡◌, true, IfOk, slice_index_or};
ghost use Rattle.ur_rows.specs.declared.normal.Normal.TheVariants as normal;
ghost use Rattle.ur_rows.specs.Made.{unit as made_unit};
ghost use Rattle.ur_rows.specs.Put.{as_type, as_label, as_row, arguments};
ghost use Rattle.ur_rows_normal.specs.Arguments.{are_normal};

use std::alloc::Global;
use ur_base::{List, Memory};
use ur_rows::{
    Label, Normal, NormalType, Part, Puts, Var, copy_label, copy_row, copy_type, mapped_row, one,
    unit,
};
use ur_rows_reduce::{Halt, Measured, left_of_mapped_row};

fn type_in(alloc: Global, n: &Normal) -> Result<NormalType, Memory>
    ensures { IfOk result (λ t. t ≡ as_type n.now) }
{
    match n {
        Normal::Type(t) => copy_type(alloc, t),
        _ => Ok(unit(alloc)),
    }
}

fn label_in(alloc: Global, n: &Normal) -> Result<Label, Memory>
    ensures { IfOk result (λ l. l ≡ as_label n.now) }
{
    match n {
        Normal::Name(l) => copy_label(alloc, l),
        _ => Ok(Label::Literal(List::new(alloc))),
    }
}

fn row_in(alloc: Global, n: &Normal) -> Result<List<Part>, Memory>
    ensures { IfOk result (λ r. r ≡ as_row n.now) }
{
    match n {
        Normal::Row(r) => copy_row(alloc, r),
        _ => Ok(List::new(alloc)),
    }
}

fn type_of_free(alloc: Global, args: &[Normal], n: u32) -> Result<NormalType, Memory>
    ensures { IfOk result (λ t. t ≡ as_type (slice_index_or args.now n (normal.Type made_unit))) }
{
    match args.get(n as usize) {
        Some(a) => type_in(alloc, a),
        None => Ok(unit(alloc)),
    }
}

fn label_of_free(alloc: Global, args: &[Normal], n: u32) -> Result<Label, Memory>
    ensures { IfOk result (λ l. l ≡ as_label (slice_index_or args.now n (normal.Type made_unit))) }
{
    match args.get(n as usize) {
        Some(a) => label_in(alloc, a),
        None => Ok(Label::Literal(List::new(alloc))),
    }
}

fn row_of_free(alloc: Global, args: &[Normal], n: u32) -> Result<List<Part>, Memory>
    ensures { IfOk result (λ r. r ≡ as_row (slice_index_or args.now n (normal.Type made_unit))) }
{
    match args.get(n as usize) {
        Some(a) => row_in(alloc, a),
        None => Ok(List::new(alloc)),
    }
}

/// The constructors that take the place of the free variables, in order of binding, all in normal form.
#[derive(Clone, Copy)]
pub struct Arguments<'a> {
    pub of: &'a [Normal],
    ghost normal: { are_normal of.now ≡ true },
}

impl<'a> Puts for Arguments<'a> {
    ghost use Rattle.ur_rows.specs.Put.{arguments};

    ghost putting = { λ a. arguments a.of.now };

    fn type_at(&self, alloc: Global, _depth: u32, v: &Var) -> Result<NormalType, Memory> {
        match v {
            Var::Free(n) => type_of_free(alloc, self.of, *n),
            Var::Bound(i) => Ok(NormalType::Variable(Var::Bound(*i))),
        }
    }

    fn label_at(&self, alloc: Global, _depth: u32, v: &Var) -> Result<Label, Memory> {
        match v {
            Var::Free(n) => label_of_free(alloc, self.of, *n),
            Var::Bound(i) => Ok(Label::Variable(Var::Bound(*i))),
        }
    }

    fn row_at(&self, alloc: Global, _depth: u32, v: &Var) -> Result<List<Part>, Memory> {
        match v {
            Var::Free(n) => row_of_free(alloc, self.of, *n),
            Var::Bound(i) => one(alloc, Part::Piece(Var::Bound(*i))),
        }
    }

    fn map_at(
        &self,
        alloc: Global,
        depth: u32,
        v: &Var,
        f: NormalType,
    ) -> Result<List<Part>, Memory> {
        let row = self.row_at(alloc, depth, v)?;
        mapped_row(alloc, &f, &row)
    }
}

impl<'a> Measured for Arguments<'a> {
    fn drops(&self, alloc: Global, depth: u32, v: &Var) -> Result<bool, Memory> {
        let row = self.row_at(alloc, depth, v)?;
        Ok(row.is_empty())
    }

    fn left_of_map(
        &self,
        alloc: Global,
        depth: u32,
        v: &Var,
        f: &NormalType,
        size: u32,
        nodes: u32,
    ) -> Result<u32, Halt> {
        let row = self.row_at(alloc, depth, v)?;
        left_of_mapped_row(alloc, f, size, &row, nodes)
    }
}
