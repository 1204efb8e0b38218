ghost use Rattle.std.specs.Prelude.{◌≡◌, suc, [], ◌∷◌, ◌≤◌, IfOk};
ghost use Rattle.ur_rows.specs.Made.{unit};
ghost use Rattle.ur_rows.specs.IsNormal.{is_identity};
ghost use Rattle.ur_rows.specs.Put.{Putting, raising, raised_var, nearer, is_here, type_at, mapped_variable, mapped_part, mapped_row, applied_type, composed, as_type, as_label, as_row, argument, raised, applied_once, applied};

use crate::copy::{copy_label, copy_type, copy_var};
use crate::normal::{Label, Normal, NormalType, Part, Var};
use crate::put::{Puts, boxed, one, put_normal, put_type};
use crate::union::with_part;
use std::alloc::Global;
use ur_base::{List, Memory};

/// Whether a function of types, given by its body, is the identity.
pub fn is_identity(f: &NormalType) -> bool
    ensures { result ≡ is_identity f.now }
{
    match f {
        NormalType::Variable(v) => match v {
            Var::Bound(i) => *i == 0,
            Var::Free(_) => false,
        },
        _ => false,
    }
}

/// `map f` of a row variable.
pub fn mapped_variable(alloc: Global, f: NormalType, v: Var) -> Result<Part, Memory>
    ensures { IfOk result (λ p. p ≡ mapped_variable f v) }
{
    if is_identity(&f) {
        Ok(Part::Piece(v))
    } else {
        Ok(Part::Mapped(v, boxed(alloc, f)?))
    }
}

fn raised_var(by: u32, depth: u32, v: &Var) -> Result<Var, Memory>
    ensures { IfOk result (λ w. w ≡ raised_var by depth v.now) }
{
    match v {
        Var::Free(n) => Ok(Var::Free(*n)),
        Var::Bound(i) => {
            if *i < depth {
                return Ok(Var::Bound(*i));
            }
            match i.checked_add(by) {
                Some(j) => Ok(Var::Bound(j)),
                None => Err(Memory),
            }
        }
    }
}

/// Puts variables further out.
#[derive(Clone, Copy)]
pub struct Raising {
    pub by: u32,
}

impl Puts for Raising {
    ghost putting = { λ r. raising r.by };

    fn type_at(&self, _alloc: Global, depth: u32, v: &Var) -> Result<NormalType, Memory> {
        Ok(NormalType::Variable(raised_var(self.by, depth, v)?))
    }

    fn label_at(&self, _alloc: Global, depth: u32, v: &Var) -> Result<Label, Memory> {
        Ok(Label::Variable(raised_var(self.by, depth, v)?))
    }

    fn row_at(&self, alloc: Global, depth: u32, v: &Var) -> Result<List<Part>, Memory> {
        one(alloc, Part::Piece(raised_var(self.by, depth, v)?))
    }

    fn map_at(
        &self,
        alloc: Global,
        depth: u32,
        v: &Var,
        f: NormalType,
    ) -> Result<List<Part>, Memory> {
        one(
            alloc,
            mapped_variable(alloc, f, raised_var(self.by, depth, v)?)?,
        )
    }
}

fn nearer(by: u32, depth: u32, v: &Var) -> Var
    requires { by ≤ 1 }
    ensures { result ≡ nearer by depth v.now }
{
    match v {
        Var::Free(n) => Var::Free(*n),
        Var::Bound(i) => {
            if *i > depth {
                Var::Bound(*i - by)
            } else {
                Var::Bound(*i)
            }
        }
    }
}

/// Whether a variable is that of the `fn` so many others stand within.
pub fn is_here(depth: u32, v: &Var) -> bool
    ensures { result ≡ is_here depth v.now }
{
    match v {
        Var::Free(_) => false,
        Var::Bound(i) => *i == depth,
    }
}

/// Puts a type in place of an `fn`'s variable, which goes away if `by` is 1.
#[derive(Clone, Copy)]
pub struct TypeAt<'a> {
    pub by: u32,
    pub of: &'a NormalType,
    ghost small: { by ≤ 1 },
}

impl<'a> Puts for TypeAt<'a> {
    ghost putting = { λ r. type_at r.by r.of.now };

    fn type_at(&self, alloc: Global, depth: u32, v: &Var) -> Result<NormalType, Memory> {
        if is_here(depth, v) {
            put_type(alloc, &Raising { by: depth }, 0, self.of)
        } else {
            Ok(NormalType::Variable(nearer(self.by, depth, v)))
        }
    }

    fn label_at(&self, _alloc: Global, depth: u32, v: &Var) -> Result<Label, Memory> {
        Ok(Label::Variable(nearer(self.by, depth, v)))
    }

    fn row_at(&self, alloc: Global, depth: u32, v: &Var) -> Result<List<Part>, Memory> {
        one(alloc, Part::Piece(nearer(self.by, depth, v)))
    }

    fn map_at(
        &self,
        alloc: Global,
        depth: u32,
        v: &Var,
        f: NormalType,
    ) -> Result<List<Part>, Memory> {
        one(alloc, mapped_variable(alloc, f, nearer(self.by, depth, v))?)
    }
}

/// `f t`, for a function of types given by its body.
pub fn applied_type(alloc: Global, f: &NormalType, t: &NormalType) -> Result<NormalType, Memory>
    ensures { IfOk result (λ x. x ≡ applied_type f.now t.now) }
{
    put_type(alloc, &TypeAt { by: 1, of: t }, 0, f)
}

/// `fn x => f (g x)`.
pub fn composed(alloc: Global, f: &NormalType, g: &NormalType) -> Result<NormalType, Memory>
    ensures { IfOk result (λ x. x ≡ composed f.now g.now) }
{
    put_type(alloc, &TypeAt { by: 0, of: g }, 0, f)
}

fn mapped_part(alloc: Global, f: &NormalType, p: &Part) -> Result<Part, Memory>
    ensures { IfOk result (λ x. x ≡ mapped_part f.now p.now) }
{
    match p {
        Part::Field(l, t) => {
            let l = copy_label(alloc, l)?;
            let t = applied_type(alloc, f, t.get())?;
            Ok(Part::Field(l, boxed(alloc, t)?))
        }
        Part::Piece(v) => {
            let f = copy_type(alloc, f)?;
            mapped_variable(alloc, f, copy_var(v))
        }
        Part::Mapped(v, g) => {
            let h = composed(alloc, f, g.get())?;
            mapped_variable(alloc, h, copy_var(v))
        }
    }
}

/// `map f r`.
pub fn mapped_row(alloc: Global, f: &NormalType, r: &List<Part>) -> Result<List<Part>, Memory>
    ensures { IfOk result (λ x. x ≡ mapped_row f.now r.now) }
{
    let parts = r.as_slice();
    let count = parts.len();
    let mut row = List::new(alloc);
    for i in 0..count {
        let part = mapped_part(alloc, f, &parts[count - 1 - i])?;
        row = with_part(part, row)?;
    }
    Ok(row)
}

/// `$[]`.
pub fn unit(alloc: Global) -> NormalType
    ensures { result ≡ unit }
{
    NormalType::Record(List::new(alloc))
}

/// The type that a form of kind `Type` is.
pub fn as_type(alloc: Global, n: Normal) -> NormalType
    ensures { result ≡ as_type n }
{
    match n {
        Normal::Type(t) => t,
        _ => unit(alloc),
    }
}

/// The name that a form of kind `Name` is.
pub fn as_label(alloc: Global, n: Normal) -> Label
    ensures { result ≡ as_label n }
{
    match n {
        Normal::Name(l) => l,
        _ => Label::Literal(List::new(alloc)),
    }
}

/// The parts of a form of kind `{Type}`.
pub fn as_row(alloc: Global, n: Normal) -> List<Part>
    ensures { result ≡ as_row n }
{
    match n {
        Normal::Row(r) => r,
        _ => List::new(alloc),
    }
}

/// A normal form seen from `by` more `fn`s within.
pub fn raised(alloc: Global, by: u32, n: &Normal) -> Result<Normal, Memory>
    ensures { IfOk result (λ x. x ≡ raised by n.now) }
{
    put_normal(alloc, &Raising { by }, 0, n)
}

/// Puts a constructor in place of an `fn`'s variable.
#[derive(Clone, Copy)]
pub struct Argument<'a> {
    pub of: &'a Normal,
}

impl<'a> Puts for Argument<'a> {
    ghost putting = { λ r. argument r.of.now };

    fn type_at(&self, alloc: Global, depth: u32, v: &Var) -> Result<NormalType, Memory> {
        if is_here(depth, v) {
            Ok(as_type(alloc, raised(alloc, depth, self.of)?))
        } else {
            Ok(NormalType::Variable(nearer(1, depth, v)))
        }
    }

    fn label_at(&self, alloc: Global, depth: u32, v: &Var) -> Result<Label, Memory> {
        if is_here(depth, v) {
            Ok(as_label(alloc, raised(alloc, depth, self.of)?))
        } else {
            Ok(Label::Variable(nearer(1, depth, v)))
        }
    }

    fn row_at(&self, alloc: Global, depth: u32, v: &Var) -> Result<List<Part>, Memory> {
        if is_here(depth, v) {
            Ok(as_row(alloc, raised(alloc, depth, self.of)?))
        } else {
            one(alloc, Part::Piece(nearer(1, depth, v)))
        }
    }

    fn map_at(
        &self,
        alloc: Global,
        depth: u32,
        v: &Var,
        f: NormalType,
    ) -> Result<List<Part>, Memory> {
        let row = self.row_at(alloc, depth, v)?;
        mapped_row(alloc, &f, &row)
    }
}

/// A function applied to one argument.
pub fn applied_once(alloc: Global, f: &Normal, a: &Normal) -> Result<Normal, Memory>
    ensures { IfOk result (λ x. x ≡ applied_once f.now a.now) }
{
    match f {
        Normal::Fn(_, c) => put_normal(alloc, &Argument { of: a }, 0, c.get()),
        _ => Ok(Normal::Type(unit(alloc))),
    }
}

/// A function applied to arguments in turn.
pub fn applied(alloc: Global, f: Normal, args: &[Normal]) -> Result<Normal, Memory>
    ensures { IfOk result (λ x. x ≡ applied f args.now) }
{
    let mut form = f;
    for i in 0..args.len() {
        form = applied_once(alloc, &form, &args[i])?;
    }
    Ok(form)
}
