//! The forms of expressions that carry their types.
ghost use Rattle.ur_tree.specs.declared.exp.Exp.TheVariants as x;
ghost use Rattle.ur_unfold_pieces.specs.Forming.{OpensExp};

use crate::parts::{boxed_one, kids, leaf};
use std::alloc::Global;
use ur_base::{Boxed, List};
use ur_meaning::{Halt, Head, Opened};
use ur_rows::NormalType;
use ur_terms::Op;
use ur_tree::{Exp, Markup};
use ur_unfold_pieces::{Opening, Piece, result_in, type_in};

pub fn absent_form<'a>(
    alloc: Global,
    table: &Opening<'a>,
    scope: u32,
    t: &NormalType,
) -> Result<Opened<Piece<'a>>, Halt>
    ensures { OpensExp table.now table.now scope (x.Absent t.now) result }
{
    let of = type_in(alloc, table, scope, t)?;
    leaf(alloc, Head::Strict(Op::Absent(of)))
}

pub fn empty_form<'a>(
    alloc: Global,
    table: &Opening<'a>,
    scope: u32,
    t: &NormalType,
) -> Result<Opened<Piece<'a>>, Halt>
    ensures { OpensExp table.now table.now scope (x.Empty t.now) result }
{
    let of = type_in(alloc, table, scope, t)?;
    leaf(alloc, Head::Strict(Op::Empty(of)))
}

pub fn fail_form<'a>(
    alloc: Global,
    table: &Opening<'a>,
    scope: u32,
    t: &NormalType,
    e: &'a Boxed<Exp>,
) -> Result<Opened<Piece<'a>>, Halt>
    ensures { OpensExp table.now table.now scope (x.Fail t.now e.now) result }
{
    let of = result_in(alloc, table, scope, t)?;
    boxed_one(alloc, Head::Strict(Op::Fail(of)), scope, e)
}

pub fn xml_form<'a>(
    alloc: Global,
    table: &Opening<'a>,
    scope: u32,
    t: &NormalType,
    parts: &'a List<Markup>,
) -> Result<Opened<Piece<'a>>, Halt>
    ensures { OpensExp table.now table.now scope (x.Xml t.now parts.now) result }
{
    let of = type_in(alloc, table, scope, t)?;
    kids(alloc, Head::Strict(Op::Markup(of)), scope, parts)
}
