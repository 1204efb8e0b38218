ghost use Rattle.std.specs.Prelude.{◌≡◌, suc, [], ◌∷◌, IfOk};
ghost use Rattle.ur_rows.specs.Put.{Putting, put, put_label, put_type, put_part, put_row};

use crate::copy::{boxed_normal, copy_text};
use crate::normal::{Label, Normal, NormalType, Part, Var};
use crate::union::joined;
use std::alloc::Global;
use ur_base::{Boxed, List, Memory};
use ur_syntax::copy_kind;

/// What is put in place of variables.
pub trait Puts {
    ghost use Rattle.ur_rows.specs.Put.{Putting};

    ghost putting: { Self → Putting };

    fn type_at(&self, alloc: Global, depth: u32, v: &Var) -> Result<NormalType, Memory>
        ensures { IfOk result (λ t. t ≡ (putting self.now).types depth v.now) };

    fn label_at(&self, alloc: Global, depth: u32, v: &Var) -> Result<Label, Memory>
        ensures { IfOk result (λ l. l ≡ (putting self.now).labels depth v.now) };

    fn row_at(&self, alloc: Global, depth: u32, v: &Var) -> Result<List<Part>, Memory>
        ensures { IfOk result (λ r. r ≡ (putting self.now).rows depth v.now) };

    fn map_at(
        &self,
        alloc: Global,
        depth: u32,
        v: &Var,
        f: NormalType,
    ) -> Result<List<Part>, Memory>
        ensures { IfOk result (λ r. r ≡ (putting self.now).maps depth v.now f) };
}

fn deeper(depth: u32) -> Result<u32, Memory>
    ensures { IfOk result (λ d. d ≡ suc depth) }
{
    match depth.checked_add(1) {
        Some(d) => Ok(d),
        None => Err(Memory),
    }
}

pub fn one(alloc: Global, part: Part) -> Result<List<Part>, Memory>
    ensures { IfOk result (λ r. r ≡ part ∷ []) }
{
    let mut row = List::new(alloc);
    row.push(part)?;
    Ok(row)
}

pub fn boxed(alloc: Global, t: NormalType) -> Result<Boxed<NormalType>, Memory>
    ensures { IfOk result (λ b. b ≡ t) }
{
    Ok(Boxed::new(alloc, t)?)
}

pub fn put_label<P: Puts>(alloc: Global, how: &P, depth: u32, l: &Label) -> Result<Label, Memory>
    ensures { IfOk result (λ x. x ≡ put_label (P.putting how.now) depth l.now) }
{
    match l {
        Label::Literal(name) => Ok(Label::Literal(copy_text(alloc, name)?)),
        Label::Variable(v) => how.label_at(alloc, depth, v),
    }
}

#[cycle(putting)]
pub fn put_type<P: Puts>(
    alloc: Global,
    how: &P,
    depth: u32,
    t: &NormalType,
) -> Result<NormalType, Memory>
    ensures { IfOk result (λ x. x ≡ put_type (P.putting how.now) depth t.now) }
{
    match t {
        NormalType::Int => Ok(NormalType::Int),
        NormalType::Str => Ok(NormalType::Str),
        NormalType::Bool => Ok(NormalType::Bool),
        NormalType::Page => Ok(NormalType::Page),
        NormalType::Xbody => Ok(NormalType::Xbody),
        NormalType::Xtable => Ok(NormalType::Xtable),
        NormalType::Xtr => Ok(NormalType::Xtr),
        NormalType::Variable(v) => how.type_at(alloc, depth, v),
        NormalType::Datatype(d) => Ok(NormalType::Datatype(*d)),
        NormalType::Opt(x) => {
            let y = put_type(alloc, how, depth, x.get())?;
            Ok(NormalType::Opt(boxed(alloc, y)?))
        }
        NormalType::Many(x) => {
            let y = put_type(alloc, how, depth, x.get())?;
            Ok(NormalType::Many(boxed(alloc, y)?))
        }
        NormalType::Transaction(x) => {
            let y = put_type(alloc, how, depth, x.get())?;
            Ok(NormalType::Transaction(boxed(alloc, y)?))
        }
        NormalType::Arrow(a, b) => {
            let x = put_type(alloc, how, depth, a.get())?;
            let y = put_type(alloc, how, depth, b.get())?;
            Ok(NormalType::Arrow(boxed(alloc, x)?, boxed(alloc, y)?))
        }
        NormalType::Record(r) => Ok(NormalType::Record(put_row(alloc, how, depth, r)?)),
        NormalType::Form(r) => Ok(NormalType::Form(put_row(alloc, how, depth, r)?)),
    }
}

#[cycle(putting)]
pub fn put_row<P: Puts>(
    alloc: Global,
    how: &P,
    depth: u32,
    r: &List<Part>,
) -> Result<List<Part>, Memory>
    ensures { IfOk result (λ x. x ≡ put_row (P.putting how.now) depth r.now) }
{
    let parts = r.as_slice();
    let count = parts.len();
    let mut row = List::new(alloc);
    for i in 0..count {
        let part = put_part(alloc, how, depth, &parts[count - 1 - i])?;
        row = joined(part, row)?;
    }
    Ok(row)
}

#[cycle(putting)]
pub fn put_part<P: Puts>(alloc: Global, how: &P, depth: u32, p: &Part) -> Result<List<Part>, Memory>
    ensures { IfOk result (λ x. x ≡ put_part (P.putting how.now) depth p.now) }
{
    match p {
        Part::Field(l, t) => {
            let l = put_label(alloc, how, depth, l)?;
            let t = put_type(alloc, how, depth, t.get())?;
            one(alloc, Part::Field(l, boxed(alloc, t)?))
        }
        Part::Piece(v) => how.row_at(alloc, depth, v),
        Part::Mapped(v, f) => {
            let f = put_type(alloc, how, deeper(depth)?, f.get())?;
            how.map_at(alloc, depth, v, f)
        }
    }
}

pub fn put_normal<P: Puts>(alloc: Global, how: &P, depth: u32, n: &Normal) -> Result<Normal, Memory>
    ensures { IfOk result (λ x. x ≡ put (P.putting how.now) depth n.now) }
{
    match n {
        Normal::Type(t) => Ok(Normal::Type(put_type(alloc, how, depth, t)?)),
        Normal::Name(l) => Ok(Normal::Name(put_label(alloc, how, depth, l)?)),
        Normal::Row(r) => Ok(Normal::Row(put_row(alloc, how, depth, r)?)),
        Normal::Fn(k, c) => {
            let kind = copy_kind(alloc, k)?;
            let body = put_normal(alloc, how, deeper(depth)?, c.get())?;
            Ok(Normal::Fn(kind, boxed_normal(alloc, body)?))
        }
    }
}
