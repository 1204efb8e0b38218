//! Copies and equality of kinds.
ghost use Rattle.std.specs.Prelude.{◌≡◌, ◌↔◌, IsTrue, IfOk};

use crate::kind::Kind;
use std::alloc::Global;
use ur_base::{Boxed, Memory};

pub fn copy_kind(alloc: Global, k: &Kind) -> Result<Kind, Memory>
    ensures { IfOk result (λ j. j ≡ k.now) }
{
    match k {
        Kind::Star => Ok(Kind::Star),
        Kind::Name => Ok(Kind::Name),
        Kind::Row => Ok(Kind::Row),
        Kind::Arrow(a, b) => {
            let x = copy_kind(alloc, a.get())?;
            let y = copy_kind(alloc, b.get())?;
            Ok(Kind::Arrow(Boxed::new(alloc, x)?, Boxed::new(alloc, y)?))
        }
    }
}

pub fn equal_kinds(a: &Kind, b: &Kind) -> bool
    ensures { IsTrue result ↔ (a.now ≡ b.now) }
{
    match a {
        Kind::Star => match b {
            Kind::Star => true,
            _ => false,
        },
        Kind::Name => match b {
            Kind::Name => true,
            _ => false,
        },
        Kind::Row => match b {
            Kind::Row => true,
            _ => false,
        },
        Kind::Arrow(x, y) => match b {
            Kind::Arrow(v, w) => equal_kinds(x.get(), v.get()) && equal_kinds(y.get(), w.get()),
            _ => false,
        },
    }
}
