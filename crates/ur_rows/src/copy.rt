ghost use Rattle.std.specs.Prelude.{◌≡◌, ◌++◌, IfOk};

use crate::normal::{Label, Normal, NormalType, Part, Var};
use crate::put::boxed;
use std::alloc::Global;
use ur_base::{Boxed, List, Memory, Text};

pub fn copy_text(alloc: Global, text: &Text) -> Result<Text, Memory>
    ensures { IfOk result (λ t. t ≡ text.now) }
{
    Ok(List::from_slice(alloc, text.as_slice())?)
}

pub fn copy_var(v: &Var) -> Var
    ensures { result ≡ v.now }
{
    match v {
        Var::Free(n) => Var::Free(*n),
        Var::Bound(i) => Var::Bound(*i),
    }
}

pub fn copy_label(alloc: Global, l: &Label) -> Result<Label, Memory>
    ensures { IfOk result (λ x. x ≡ l.now) }
{
    match l {
        Label::Literal(name) => Ok(Label::Literal(copy_text(alloc, name)?)),
        Label::Variable(v) => Ok(Label::Variable(copy_var(v))),
    }
}

#[cycle(copying)]
pub fn copy_type(alloc: Global, t: &NormalType) -> Result<NormalType, Memory>
    ensures { IfOk result (λ x. x ≡ t.now) }
{
    match t {
        NormalType::Int => Ok(NormalType::Int),
        NormalType::Str => Ok(NormalType::Str),
        NormalType::Bool => Ok(NormalType::Bool),
        NormalType::Page => Ok(NormalType::Page),
        NormalType::Xbody => Ok(NormalType::Xbody),
        NormalType::Xtable => Ok(NormalType::Xtable),
        NormalType::Xtr => Ok(NormalType::Xtr),
        NormalType::Variable(v) => Ok(NormalType::Variable(copy_var(v))),
        NormalType::Datatype(d) => Ok(NormalType::Datatype(*d)),
        NormalType::Opt(x) => {
            let y = copy_type(alloc, x.get())?;
            Ok(NormalType::Opt(boxed(alloc, y)?))
        }
        NormalType::Many(x) => {
            let y = copy_type(alloc, x.get())?;
            Ok(NormalType::Many(boxed(alloc, y)?))
        }
        NormalType::Transaction(x) => {
            let y = copy_type(alloc, x.get())?;
            Ok(NormalType::Transaction(boxed(alloc, y)?))
        }
        NormalType::Arrow(a, b) => {
            let x = copy_type(alloc, a.get())?;
            let y = copy_type(alloc, b.get())?;
            Ok(NormalType::Arrow(boxed(alloc, x)?, boxed(alloc, y)?))
        }
        NormalType::Record(r) => Ok(NormalType::Record(copy_row(alloc, r)?)),
        NormalType::Form(r) => Ok(NormalType::Form(copy_row(alloc, r)?)),
    }
}

#[cycle(copying)]
pub fn copy_row(alloc: Global, r: &List<Part>) -> Result<List<Part>, Memory>
    ensures { IfOk result (λ x. x ≡ r.now) }
{
    let parts = r.as_slice();
    let mut row = List::new(alloc);
    for i in 0..parts.len() {
        let part = copy_part(alloc, &parts[i])?;
        row.push(part)?;
    }
    Ok(row)
}

#[cycle(copying)]
pub fn copy_part(alloc: Global, p: &Part) -> Result<Part, Memory>
    ensures { IfOk result (λ x. x ≡ p.now) }
{
    match p {
        Part::Field(l, t) => {
            let l = copy_label(alloc, l)?;
            let t = copy_type(alloc, t.get())?;
            Ok(Part::Field(l, boxed(alloc, t)?))
        }
        Part::Piece(v) => Ok(Part::Piece(copy_var(v))),
        Part::Mapped(v, f) => {
            let f = copy_type(alloc, f.get())?;
            Ok(Part::Mapped(copy_var(v), boxed(alloc, f)?))
        }
    }
}

pub fn boxed_normal(alloc: Global, n: Normal) -> Result<Boxed<Normal>, Memory>
    ensures { IfOk result (λ b. b ≡ n) }
{
    Ok(Boxed::new(alloc, n)?)
}
