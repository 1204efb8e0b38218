//! Substitutions within so many nodes, which are counted while the form is made.
ghost use Rattle.std.specs.Prelude.{◌≡◌, ◌+◌, ◌<◌, ◌≤◌, suc, IfOk, Err};
ghost use Rattle.ur_rows.specs.Nodes.{type_nodes, part_nodes, row_nodes, nodes, most_nodes};
ghost use Rattle.ur_rows.specs.Put.{Putting, put, put_type, put_part, put_row, mapped_part, mapped_row, applied_once};
ghost use Rattle.ur_rows_reduce.specs.Height.{height, most_levels};
ghost use Rattle.ur_rows_reduce.specs.declared.count.Halt.TheVariants as halt;
ghost use Rattle.ur_rows_reduce.specs.Mapping.{Drops, mapped_nodes};

use crate::applied_is_low;
use std::alloc::Global;
use ur_base::{Boxed, List, Memory};
use ur_rows::{
    Argument, Normal, NormalType, Part, Puts, Raising, TypeAt, Var, boxed, boxed_normal, copy_kind,
    is_identity, joined, left_of_row, left_of_type, one, put_label, unit,
};

/// Why a normal form is not made: want of memory, or more nodes than it may have.
#[derive(Debug, Clone, Copy)]
pub enum Halt {
    Memory,
    TooLarge,
}

impl From<Memory> for Halt {
    ghost use Rattle.ur_rows_reduce.specs.declared.count.Halt.TheVariants as halt;

    ghost from_gives = { λ _ given. given ≡ halt.Memory };

    fn from(_want: Memory) -> Halt {
        Halt::Memory
    }
}

/// One node less.
pub fn less_one(nodes: u32) -> Result<u32, Halt>
    ensures fits { IfOk result (λ left. left + 1 ≡ nodes) }
    ensures over { result ≡ Err halt.TooLarge → nodes < 1 }
{
    if nodes == 0 {
        return Err(Halt::TooLarge);
    }
    Ok(nodes - 1)
}

fn left_of_a_type(t: &NormalType, nodes: u32) -> Result<u32, Halt>
    ensures fits { IfOk result (λ left. left + type_nodes t.now ≡ nodes) }
    ensures over { result ≡ Err halt.TooLarge → nodes < type_nodes t.now }
{
    match left_of_type(t, nodes) {
        Some(left) => Ok(left),
        None => Err(Halt::TooLarge),
    }
}

/// What is left of so many nodes after those of a row.
fn left_of_a_row(r: &List<Part>, nodes: u32) -> Result<u32, Halt>
    ensures fits { IfOk result (λ left. left + row_nodes r.now ≡ nodes) }
    ensures over { result ≡ Err halt.TooLarge → nodes < row_nodes r.now }
{
    match left_of_row(r, nodes) {
        Some(left) => Ok(left),
        None => Err(Halt::TooLarge),
    }
}

/// The number of nodes of a type.
pub fn size_of(t: &NormalType) -> Result<u32, Memory>
    ensures { IfOk result (λ n. n ≡ type_nodes t.now) }
{
    match left_of_type(t, u32::MAX) {
        Some(left) => Ok(u32::MAX - left),
        None => Err(Memory),
    }
}

/// What is left of so many nodes after those of `map f` of a row variable, where f has `size`.
fn left_of_mapped(f: &NormalType, size: u32, nodes: u32) -> Result<u32, Halt>
    requires { size ≡ type_nodes f.now }
    ensures fits { IfOk result (λ left. left + mapped_nodes f.now ≡ nodes) }
    ensures over { result ≡ Err halt.TooLarge → nodes < mapped_nodes f.now }
{
    if is_identity(f) {
        return less_one(nodes);
    }
    match nodes.checked_sub(size) {
        Some(left) => less_one(left),
        None => Err(Halt::TooLarge),
    }
}

/// What is put in place of variables, with the nodes that a map takes then.
pub trait Measured: Puts {
    ghost use Rattle.std.specs.Prelude.{◌≡◌, ◌+◌, ◌<◌, IfOk, Err};
    ghost use Rattle.ur_rows.specs.Nodes.{type_nodes, row_nodes};
    ghost use Rattle.ur_rows.specs.Put.{Putting};
    ghost use Rattle.ur_rows_reduce.specs.declared.count.Halt.TheVariants as halt;
    ghost use Rattle.ur_rows_reduce.specs.Mapping.{Drops};

    /// Whether nothing takes the place of a map of the variable.
    fn drops(&self, alloc: Global, depth: u32, v: &Var) -> Result<bool, Memory>
        ensures { IfOk result (λ b. Drops (Self.putting self.now) depth v.now b) };

    /// What is left of so many nodes after those of what takes the place of `map f` of the variable, where f has `size`.
    fn left_of_map(
        &self,
        alloc: Global,
        depth: u32,
        v: &Var,
        f: &NormalType,
        size: u32,
        nodes: u32,
    ) -> Result<u32, Halt>
        requires { size ≡ type_nodes f.now }
        ensures fits { IfOk result (λ left. left + row_nodes ((Self.putting self.now).maps depth v.now f.now) ≡ nodes) }
        ensures over { result ≡ Err halt.TooLarge → nodes < row_nodes ((Self.putting self.now).maps depth v.now f.now) };
}

impl Measured for Raising {
    fn drops(&self, _alloc: Global, _depth: u32, _v: &Var) -> Result<bool, Memory> {
        Ok(false)
    }

    fn left_of_map(
        &self,
        _alloc: Global,
        _depth: u32,
        _v: &Var,
        f: &NormalType,
        size: u32,
        nodes: u32,
    ) -> Result<u32, Halt> {
        left_of_mapped(f, size, nodes)
    }
}

impl<'a> Measured for TypeAt<'a> {
    fn drops(&self, _alloc: Global, _depth: u32, _v: &Var) -> Result<bool, Memory> {
        Ok(false)
    }

    fn left_of_map(
        &self,
        _alloc: Global,
        _depth: u32,
        _v: &Var,
        f: &NormalType,
        size: u32,
        nodes: u32,
    ) -> Result<u32, Halt> {
        left_of_mapped(f, size, nodes)
    }
}

fn deeper(depth: u32) -> Result<u32, Memory>
    ensures { IfOk result (λ d. d ≡ suc depth) }
{
    match depth.checked_add(1) {
        Some(d) => Ok(d),
        None => Err(Memory),
    }
}

/// A type, with what is left of so many nodes after its own.
#[inline(never)]
fn counted(t: NormalType, nodes: u32) -> Result<(NormalType, u32), Halt>
    ensures form { IfOk result (λ m. m.0 ≡ t) }
    ensures fits { IfOk result (λ m. m.1 + type_nodes t ≡ nodes) }
    ensures over { result ≡ Err halt.TooLarge → nodes < type_nodes t }
{
    let left = left_of_a_type(&t, nodes)?;
    Ok((t, left))
}

/// A type as the child of another, which takes one node more.
#[inline(never)]
fn inside(alloc: Global, made: (NormalType, u32)) -> Result<(Boxed<NormalType>, u32), Halt>
    ensures form { IfOk result (λ m. m.0 ≡ made.0) }
    ensures fits { IfOk result (λ m. m.1 + 1 ≡ made.1) }
    ensures over { result ≡ Err halt.TooLarge → made.1 < 1 }
{
    let left = less_one(made.1)?;
    let child = boxed(alloc, made.0)?;
    Ok((child, left))
}

/// What takes the place of a variable as a type.
#[inline(never)]
fn variable_within<P: Measured>(
    alloc: Global,
    how: &P,
    depth: u32,
    v: &Var,
    nodes: u32,
) -> Result<(NormalType, u32), Halt>
    ensures form { IfOk result (λ m. m.0 ≡ (P.putting how.now).types depth v.now) }
    ensures fits { IfOk result (λ m. m.1 + type_nodes ((P.putting how.now).types depth v.now) ≡ nodes) }
    ensures over { result ≡ Err halt.TooLarge → nodes < type_nodes ((P.putting how.now).types depth v.now) }
{
    let made = how.type_at(alloc, depth, v)?;
    let left = left_of_a_type(&made, nodes)?;
    Ok((made, left))
}

/// What takes the place of a variable as a row.
#[inline(never)]
fn piece_within<P: Measured>(
    alloc: Global,
    how: &P,
    depth: u32,
    v: &Var,
    nodes: u32,
) -> Result<(List<Part>, u32), Halt>
    ensures form { IfOk result (λ m. m.0 ≡ (P.putting how.now).rows depth v.now) }
    ensures fits { IfOk result (λ m. m.1 + row_nodes ((P.putting how.now).rows depth v.now) ≡ nodes) }
    ensures over { result ≡ Err halt.TooLarge → nodes < row_nodes ((P.putting how.now).rows depth v.now) }
{
    let made = how.row_at(alloc, depth, v)?;
    let left = left_of_a_row(&made, nodes)?;
    Ok((made, left))
}

/// What takes the place of `map f` of a variable, where f leaves so many of the nodes.
#[inline(never)]
fn map_within<P: Measured>(
    alloc: Global,
    how: &P,
    depth: u32,
    v: &Var,
    f: (NormalType, u32),
    nodes: u32,
) -> Result<(List<Part>, u32), Halt>
    requires { f.1 + type_nodes f.0 ≡ nodes }
    ensures form { IfOk result (λ m. m.0 ≡ (P.putting how.now).maps depth v.now f.0) }
    ensures fits { IfOk result (λ m. m.1 + row_nodes ((P.putting how.now).maps depth v.now f.0) ≡ nodes) }
    ensures over { result ≡ Err halt.TooLarge → nodes < row_nodes ((P.putting how.now).maps depth v.now f.0) }
{
    let size = nodes - f.1;
    let left = how.left_of_map(alloc, depth, v, &f.0, size, nodes)?;
    let row = how.map_at(alloc, depth, v, f.0)?;
    Ok((row, left))
}

/// A type with others in place of its variables, and what is left of so many nodes after its own.
#[cycle(within)]
#[tactic(auto, using(crate::proofs::Within::within))]
pub fn put_type_within<P: Measured>(
    alloc: Global,
    how: &P,
    depth: u32,
    t: &NormalType,
    nodes: u32,
) -> Result<(NormalType, u32), Halt>
    ensures form { IfOk result (λ m. m.0 ≡ put_type (P.putting how.now) depth t.now) }
    ensures fits { IfOk result (λ m. m.1 + type_nodes (put_type (P.putting how.now) depth t.now) ≡ nodes) }
    ensures over { result ≡ Err halt.TooLarge → nodes < type_nodes (put_type (P.putting how.now) depth t.now) }
{
    match t {
        NormalType::Variable(v) => variable_within(alloc, how, depth, v, nodes),
        NormalType::Opt(x) => {
            let made = put_type_within(alloc, how, depth, x.get(), nodes)?;
            let child = inside(alloc, made)?;
            Ok((NormalType::Opt(child.0), child.1))
        }
        NormalType::Many(x) => {
            let made = put_type_within(alloc, how, depth, x.get(), nodes)?;
            let child = inside(alloc, made)?;
            Ok((NormalType::Many(child.0), child.1))
        }
        NormalType::Transaction(x) => {
            let made = put_type_within(alloc, how, depth, x.get(), nodes)?;
            let child = inside(alloc, made)?;
            Ok((NormalType::Transaction(child.0), child.1))
        }
        NormalType::Arrow(a, b) => {
            let x = put_type_within(alloc, how, depth, a.get(), nodes)?;
            let y = put_type_within(alloc, how, depth, b.get(), x.1)?;
            let right = inside(alloc, y)?;
            let left = boxed(alloc, x.0)?;
            Ok((NormalType::Arrow(left, right.0), right.1))
        }
        NormalType::Record(r) => {
            let row = put_row_within(alloc, how, depth, r, nodes)?;
            let left = less_one(row.1)?;
            Ok((NormalType::Record(row.0), left))
        }
        NormalType::Form(r) => {
            let row = put_row_within(alloc, how, depth, r, nodes)?;
            let left = less_one(row.1)?;
            Ok((NormalType::Form(row.0), left))
        }
        NormalType::Int => counted(NormalType::Int, nodes),
        NormalType::Str => counted(NormalType::Str, nodes),
        NormalType::Bool => counted(NormalType::Bool, nodes),
        NormalType::Page => counted(NormalType::Page, nodes),
        NormalType::Xbody => counted(NormalType::Xbody, nodes),
        NormalType::Xtable => counted(NormalType::Xtable, nodes),
        NormalType::Xtr => counted(NormalType::Xtr, nodes),
        NormalType::Datatype(d) => counted(NormalType::Datatype(*d), nodes),
    }
}

/// The same for a row.
#[cycle(within)]
#[tactic(auto, using(crate::proofs::Within::within))]
pub fn put_row_within<P: Measured>(
    alloc: Global,
    how: &P,
    depth: u32,
    r: &List<Part>,
    nodes: u32,
) -> Result<(List<Part>, u32), Halt>
    ensures form { IfOk result (λ m. m.0 ≡ put_row (P.putting how.now) depth r.now) }
    ensures fits { IfOk result (λ m. m.1 + row_nodes (put_row (P.putting how.now) depth r.now) ≡ nodes) }
    ensures over { result ≡ Err halt.TooLarge → nodes < row_nodes (put_row (P.putting how.now) depth r.now) }
{
    let parts = r.as_slice();
    let count = parts.len();
    let mut row = List::new(alloc);
    let mut left = nodes;
    for i in 0..count {
        let made = put_part_within(alloc, how, depth, &parts[count - 1 - i], left)?;
        row = joined(made.0, row)?;
        left = made.1;
    }
    Ok((row, left))
}

/// The same for a part. What is mapped is made first, unless nothing takes the map's place.
#[cycle(within)]
#[tactic(auto, using(crate::proofs::Within::within))]
fn put_part_within<P: Measured>(
    alloc: Global,
    how: &P,
    depth: u32,
    p: &Part,
    nodes: u32,
) -> Result<(List<Part>, u32), Halt>
    ensures form { IfOk result (λ m. m.0 ≡ put_part (P.putting how.now) depth p.now) }
    ensures fits { IfOk result (λ m. m.1 + row_nodes (put_part (P.putting how.now) depth p.now) ≡ nodes) }
    ensures over { result ≡ Err halt.TooLarge → nodes < row_nodes (put_part (P.putting how.now) depth p.now) }
{
    match p {
        Part::Field(l, t) => {
            let made = put_type_within(alloc, how, depth, t.get(), nodes)?;
            let child = inside(alloc, made)?;
            let l = put_label(alloc, how, depth, l)?;
            let row = one(alloc, Part::Field(l, child.0))?;
            Ok((row, child.1))
        }
        Part::Piece(v) => piece_within(alloc, how, depth, v, nodes),
        Part::Mapped(v, f) => {
            if how.drops(alloc, depth, v)? {
                return Ok((List::new(alloc), nodes));
            }
            let within = deeper(depth)?;
            let f = put_type_within(alloc, how, within, f.get(), nodes)?;
            map_within(alloc, how, depth, v, f, nodes)
        }
    }
}

/// What is left of so many nodes after those of `map f` of a part, where f has `size`.
fn left_of_mapped_part(
    alloc: Global,
    f: &NormalType,
    size: u32,
    p: &Part,
    nodes: u32,
) -> Result<u32, Halt>
    requires { size ≡ type_nodes f.now }
    ensures fits { IfOk result (λ left. left + part_nodes (mapped_part f.now p.now) ≡ nodes) }
    ensures over { result ≡ Err halt.TooLarge → nodes < part_nodes (mapped_part f.now p.now) }
{
    match p {
        Part::Field(_, t) => {
            let how = TypeAt { by: 1, of: t.get() };
            let made = put_type_within(alloc, &how, 0, f, nodes)?;
            less_one(made.1)
        }
        Part::Piece(_) => left_of_mapped(f, size, nodes),
        Part::Mapped(_, g) => {
            let how = TypeAt { by: 0, of: g.get() };
            let made = put_type_within(alloc, &how, 0, f, nodes)?;
            left_of_mapped(&made.0, nodes - made.1, nodes)
        }
    }
}

/// What is left of so many nodes after those of `map f r`, where f has `size`.
#[tactic(auto, using(crate::proofs::After::maps))]
pub fn left_of_mapped_row(
    alloc: Global,
    f: &NormalType,
    size: u32,
    r: &List<Part>,
    nodes: u32,
) -> Result<u32, Halt>
    requires { size ≡ type_nodes f.now }
    ensures fits { IfOk result (λ left. left + row_nodes (mapped_row f.now r.now) ≡ nodes) }
    ensures over { result ≡ Err halt.TooLarge → nodes < row_nodes (mapped_row f.now r.now) }
{
    let parts = r.as_slice();
    let mut left = nodes;
    for i in 0..parts.len() {
        left = left_of_mapped_part(alloc, f, size, &parts[i], left)?;
    }
    Ok(left)
}

impl<'a> Measured for Argument<'a> {
    fn drops(&self, alloc: Global, depth: u32, v: &Var) -> Result<bool, Memory> {
        let row = self.row_at(alloc, depth, v)?;
        Ok(row.is_empty())
    }

    fn left_of_map(
        &self,
        alloc: Global,
        depth: u32,
        v: &Var,
        f: &NormalType,
        size: u32,
        nodes: u32,
    ) -> Result<u32, Halt> {
        let row = self.row_at(alloc, depth, v)?;
        left_of_mapped_row(alloc, f, size, &row, nodes)
    }
}

/// A normal form with others in place of its variables, and what is left of so many nodes after its own.
#[tactic(auto, using(crate::proofs::Within::within))]
pub fn put_normal_within<P: Measured>(
    alloc: Global,
    how: &P,
    depth: u32,
    n: &Normal,
    limit: u32,
) -> Result<(Normal, u32), Halt>
    ensures form { IfOk result (λ m. m.0 ≡ put (P.putting how.now) depth n.now) }
    ensures fits { IfOk result (λ m. m.1 + nodes (put (P.putting how.now) depth n.now) ≡ limit) }
    ensures over { result ≡ Err halt.TooLarge → limit < nodes (put (P.putting how.now) depth n.now) }
{
    match n {
        Normal::Type(t) => {
            let made = put_type_within(alloc, how, depth, t, limit)?;
            Ok((Normal::Type(made.0), made.1))
        }
        Normal::Name(l) => {
            let left = less_one(limit)?;
            let made = put_label(alloc, how, depth, l)?;
            Ok((Normal::Name(made), left))
        }
        Normal::Row(r) => {
            let made = put_row_within(alloc, how, depth, r, limit)?;
            let left = less_one(made.1)?;
            Ok((Normal::Row(made.0), left))
        }
        Normal::Fn(k, c) => {
            let kind = copy_kind(alloc, k)?;
            let within = deeper(depth)?;
            let made = put_normal_within(alloc, how, within, c.get(), limit)?;
            let left = less_one(made.1)?;
            let body = boxed_normal(alloc, made.0)?;
            Ok((Normal::Fn(kind, body), left))
        }
    }
}

/// A function applied to one argument, where the result has no more than the greatest number of nodes. There is no memory
/// for one that is too high.
pub fn applied_within(alloc: Global, f: &Normal, a: &Normal) -> Result<Normal, Halt>
    ensures form { IfOk result (λ n. n ≡ applied_once f.now a.now) }
    ensures small { IfOk result (λ n. nodes n ≤ most_nodes) }
    ensures low { IfOk result (λ n. height n ≤ most_levels) }
    ensures over { result ≡ Err halt.TooLarge → most_nodes < nodes (applied_once f.now a.now) }
{
    match f {
        Normal::Fn(_, c) => {
            applied_is_low(f, a)?;
            let made = put_normal_within(alloc, &Argument { of: a }, 0, c.get(), 65536)?;
            Ok(made.0)
        }
        Normal::Type(_) => Ok(Normal::Type(unit(alloc))),
        Normal::Name(_) => Ok(Normal::Type(unit(alloc))),
        Normal::Row(_) => Ok(Normal::Type(unit(alloc))),
    }
}
