//! Whether an expression is one of these, which hold no others.
ghost use Rattle.std.specs.Prelude.{◌≡◌, ◌↔◌, IsTrue};
ghost use Rattle.ur_tree.specs.declared.exp.Exp.TheVariants as x;

use crate::parts::same_cons;
use ur_base::{List, Text};
use ur_rows::{Normal, NormalType, equal_types};
use ur_tree::Exp;

pub fn is_int(n: i64, b: &Exp) -> bool
    ensures { IsTrue result ↔ (x.Int n ≡ b.now) }
{
    match b {
        Exp::Int(m) => n == *m,
        _ => false,
    }
}

pub fn is_text(s: &Text, b: &Exp) -> bool
    ensures { IsTrue result ↔ (x.Str s.now ≡ b.now) }
{
    match b {
        Exp::Str(t) => s == t,
        _ => false,
    }
}

pub fn is_truth(truth: bool, b: &Exp) -> bool
    ensures { IsTrue result ↔ (x.Bool truth ≡ b.now) }
{
    match b {
        Exp::Bool(other) => truth == *other,
        _ => false,
    }
}

pub fn is_unit(b: &Exp) -> bool
    ensures { IsTrue result ↔ (x.Unit ≡ b.now) }
{
    match b {
        Exp::Unit => true,
        _ => false,
    }
}

pub fn is_variable(n: u32, b: &Exp) -> bool
    ensures { IsTrue result ↔ (x.Variable n ≡ b.now) }
{
    match b {
        Exp::Variable(m) => n == *m,
        _ => false,
    }
}

pub fn is_fixed(n: u32, b: &Exp) -> bool
    ensures { IsTrue result ↔ (x.Fixed n ≡ b.now) }
{
    match b {
        Exp::Fixed(m) => n == *m,
        _ => false,
    }
}

pub fn is_val(n: u32, b: &Exp) -> bool
    ensures { IsTrue result ↔ (x.Val n ≡ b.now) }
{
    match b {
        Exp::Val(m) => n == *m,
        _ => false,
    }
}

pub fn is_function(k: u32, cons: &List<Normal>, b: &Exp) -> bool
    ensures { IsTrue result ↔ (x.Function k cons.now ≡ b.now) }
{
    match b {
        Exp::Function(j, others) => k == *j && same_cons(cons, others),
        _ => false,
    }
}

pub fn is_absent(t: &NormalType, b: &Exp) -> bool
    ensures { IsTrue result ↔ (x.Absent t.now ≡ b.now) }
{
    match b {
        Exp::Absent(u) => equal_types(t, u),
        _ => false,
    }
}

pub fn is_empty(t: &NormalType, b: &Exp) -> bool
    ensures { IsTrue result ↔ (x.Empty t.now ≡ b.now) }
{
    match b {
        Exp::Empty(u) => equal_types(t, u),
        _ => false,
    }
}

pub fn is_next(q: u32, b: &Exp) -> bool
    ensures { IsTrue result ↔ (x.Next q ≡ b.now) }
{
    match b {
        Exp::Next(r) => q == *r,
        _ => false,
    }
}

pub fn is_get_cookie(k: u32, b: &Exp) -> bool
    ensures { IsTrue result ↔ (x.GetCookie k ≡ b.now) }
{
    match b {
        Exp::GetCookie(j) => k == *j,
        _ => false,
    }
}
