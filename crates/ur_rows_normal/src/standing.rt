//! Whether an arrow stands in a type, and whether each `transaction` in it is the result of an arrow.
ghost use Rattle.std.specs.Prelude.{◌≡◌};
ghost use Rattle.ur_rows.specs.Made.{record_of};
ghost use Rattle.ur_rows.specs.Types.{holds_arrow, part_holds_arrow, is_arrow, is_placed, may_run, part_placed, is_value_type};
ghost use Rattle.ur_rows_normal.specs.Standing.{row_holds_arrow, row_is_placed};

use ur_base::List;
use ur_rows::{NormalType, Part};

pub fn is_arrow(t: &NormalType) -> bool
    ensures { result ≡ is_arrow t.now }
{
    match t {
        NormalType::Arrow(_, _) => true,
        _ => false,
    }
}

/// Whether an arrow stands in a type.
#[cycle(arrows)]
#[tactic(auto, using(crate::proofs::Arrows::arrows))]
pub fn holds_arrow(t: &NormalType) -> bool
    ensures { result ≡ holds_arrow t.now }
{
    match t {
        NormalType::Arrow(_, _) => true,
        NormalType::Opt(x) => holds_arrow(x.get()),
        NormalType::Many(x) => holds_arrow(x.get()),
        NormalType::Transaction(x) => holds_arrow(x.get()),
        NormalType::Record(r) => row_holds_arrow(r),
        NormalType::Form(r) => row_holds_arrow(r),
        NormalType::Int => false,
        NormalType::Str => false,
        NormalType::Bool => false,
        NormalType::Page => false,
        NormalType::Xbody => false,
        NormalType::Xtable => false,
        NormalType::Xtr => false,
        NormalType::Variable(_) => false,
        NormalType::Datatype(_) => false,
    }
}

/// The same for a row.
#[cycle(arrows)]
#[tactic(auto, using(crate::proofs::Arrows::arrows))]
pub fn row_holds_arrow(r: &List<Part>) -> bool
    ensures { result ≡ row_holds_arrow r.now }
{
    let parts = r.as_slice();
    for i in 0..parts.len() {
        if part_holds_arrow(&parts[i]) {
            return true;
        }
    }
    false
}

#[cycle(arrows)]
#[tactic(auto, using(crate::proofs::Arrows::arrows))]
fn part_holds_arrow(p: &Part) -> bool
    ensures { result ≡ part_holds_arrow p.now }
{
    match p {
        Part::Field(_, t) => holds_arrow(t.get()),
        Part::Piece(_) => false,
        Part::Mapped(_, f) => holds_arrow(f.get()),
    }
}

/// Whether each `transaction` in a type is the result of an arrow.
#[cycle(places)]
#[tactic(auto, using(crate::proofs::Arrows::places))]
pub fn is_placed(t: &NormalType) -> bool
    ensures { result ≡ is_placed t.now }
{
    match t {
        NormalType::Transaction(_) => false,
        NormalType::Arrow(a, b) => is_placed(a.get()) && may_run(b.get()),
        NormalType::Opt(x) => is_placed(x.get()),
        NormalType::Many(x) => is_placed(x.get()),
        NormalType::Record(r) => row_is_placed(r),
        NormalType::Form(r) => row_is_placed(r),
        NormalType::Int => true,
        NormalType::Str => true,
        NormalType::Bool => true,
        NormalType::Page => true,
        NormalType::Xbody => true,
        NormalType::Xtable => true,
        NormalType::Xtr => true,
        NormalType::Variable(_) => true,
        NormalType::Datatype(_) => true,
    }
}

/// The same, but that the whole may be a `transaction`.
#[cycle(places)]
#[tactic(auto, using(crate::proofs::Arrows::places))]
pub fn may_run(t: &NormalType) -> bool
    ensures { result ≡ may_run t.now }
{
    match t {
        NormalType::Transaction(x) => is_placed(x.get()),
        NormalType::Arrow(a, b) => is_placed(a.get()) && may_run(b.get()),
        NormalType::Opt(x) => is_placed(x.get()),
        NormalType::Many(x) => is_placed(x.get()),
        NormalType::Record(r) => row_is_placed(r),
        NormalType::Form(r) => row_is_placed(r),
        NormalType::Int => true,
        NormalType::Str => true,
        NormalType::Bool => true,
        NormalType::Page => true,
        NormalType::Xbody => true,
        NormalType::Xtable => true,
        NormalType::Xtr => true,
        NormalType::Variable(_) => true,
        NormalType::Datatype(_) => true,
    }
}

/// The same for the types of a row.
#[cycle(places)]
#[tactic(auto, using(crate::proofs::Arrows::places))]
pub fn row_is_placed(r: &List<Part>) -> bool
    ensures { result ≡ row_is_placed r.now }
{
    let parts = r.as_slice();
    for i in 0..parts.len() {
        if !part_is_placed(&parts[i]) {
            return false;
        }
    }
    true
}

#[cycle(places)]
#[tactic(auto, using(crate::proofs::Arrows::places))]
fn part_is_placed(p: &Part) -> bool
    ensures { result ≡ part_placed p.now }
{
    match p {
        Part::Field(_, t) => is_placed(t.get()),
        Part::Piece(_) => true,
        Part::Mapped(_, f) => is_placed(f.get()),
    }
}

/// Whether a type is that of a value that exists at run time.
pub fn is_value_type(t: &NormalType) -> bool
    ensures { result ≡ is_value_type t.now }
{
    is_placed(t) && !holds_arrow(t)
}

/// Whether the record of a row is a value that exists at run time.
#[tactic(auto, using(crate::proofs::Arrows::records))]
pub fn row_of_values(r: &List<Part>) -> bool
    ensures { result ≡ is_value_type (record_of r.now) }
{
    row_is_placed(r) && !row_holds_arrow(r)
}
