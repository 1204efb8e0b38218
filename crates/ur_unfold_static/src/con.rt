//! Closed constructors with their sizes, by which those that differ are mostly told apart.
ghost use Rattle.std.specs.Prelude.{◌≡◌, ◌↔◌, true, IsTrue, IfOk, IfSome};
ghost use Rattle.ur_rows.specs.IsNormal.{is_normal};
ghost use Rattle.ur_rows.specs.Nodes.{nodes, row_nodes, type_nodes};

use ur_base::{List, Memory};
use ur_rows::{Normal, NormalType, Part, equal, left_of_row, left_of_type};

/// A closed constructor in normal form, and how many nodes it has.
#[derive(Drop)]
pub struct Con {
    pub size: u32,
    pub of: Normal,
    ghost sized: { size ≡ nodes of },
    ghost normal: { is_normal of ≡ true },
}

fn type_size(t: &NormalType) -> Option<u32>
    ensures { IfSome result (λ n. n ≡ type_nodes t.now) }
{
    match left_of_type(t, u32::MAX) {
        Some(left) => Some(u32::MAX - left),
        None => None,
    }
}

fn row_size(r: &List<Part>) -> Option<u32>
    ensures { IfSome result (λ n. n ≡ row_nodes r.now) }
{
    match left_of_row(r, u32::MAX) {
        Some(left) => Some(u32::MAX - left),
        None => None,
    }
}

/// How many nodes a constructor has, where that is a u32.
fn size_of(con: &Normal) -> Option<u32>
    ensures { IfSome result (λ n. n ≡ nodes con.now) }
{
    match con {
        Normal::Type(t) => type_size(t),
        Normal::Name(_) => Some(1),
        Normal::Row(r) => row_size(r)?.checked_add(1),
        Normal::Fn(_, c) => size_of(c.get())?.checked_add(1),
    }
}

/// The constructor with its size. There is no memory for one of 2^32 nodes.
pub fn sized(of: Normal) -> Result<Con, Memory>
    requires { is_normal of ≡ true }
    ensures { IfOk result (λ con. con.of ≡ of) }
{
    match size_of(&of) {
        Some(size) => Ok(Con { size, of }),
        None => Err(Memory),
    }
}

/// Whether two constructors are the same. Takes no memory.
pub fn same_con(a: &Con, b: &Con) -> bool
    ensures { IsTrue result ↔ (a.now.of ≡ b.now.of) }
{
    if a.size != b.size {
        return false;
    }
    equal(&a.of, &b.of)
}
