//! Parameters and patterns that are the same.
ghost use Rattle.std.specs.Prelude.{◌≡◌, ◌↔◌, IsTrue};
ghost use Rattle.ur_terms.specs.declared.term.Pattern.TheVariants as p;

use ur_base::{List, Text};
use ur_rows::{Normal, equal, equal_types};
use ur_terms::Pattern;
use ur_tree::Param;

/// Whether two parameters are the same.
pub fn same_param(a: &Param, b: &Param) -> bool
    ensures { IsTrue result ↔ (a.now ≡ b.now) }
{
    if a.fixed != b.fixed {
        return false;
    }
    equal_types(&a.of, &b.of)
}

/// Whether two lists of parameters are the same. Takes no memory.
pub fn same_params(a: &List<Param>, b: &List<Param>) -> bool
    ensures { IsTrue result ↔ (a.now ≡ b.now) }
{
    let xs = a.as_slice();
    let ys = b.as_slice();
    if xs.len() != ys.len() {
        return false;
    }
    for i in 0..xs.len() {
        if !same_param(&xs[i], &ys[i]) {
            return false;
        }
    }
    true
}

/// Whether two lists of constructors are the same.
pub fn same_cons(a: &List<Normal>, b: &List<Normal>) -> bool
    ensures { IsTrue result ↔ (a.now ≡ b.now) }
{
    let xs = a.as_slice();
    let ys = b.as_slice();
    if xs.len() != ys.len() {
        return false;
    }
    for i in 0..xs.len() {
        if !equal(&xs[i], &ys[i]) {
            return false;
        }
    }
    true
}

/// Whether two patterns are the same. Takes no memory.
pub fn same_patterns(a: &Pattern, b: &Pattern) -> bool
    ensures { IsTrue result ↔ (a.now ≡ b.now) }
{
    match a {
        Pattern::Any => is_any(b),
        Pattern::Int(n) => is_int(*n, b),
        Pattern::Str(s) => is_str(s, b),
        Pattern::Bool(x) => is_bool(*x, b),
        Pattern::Absent => is_absent(b),
        Pattern::Present => is_present(b),
        Pattern::Empty => is_empty(b),
        Pattern::Cons => is_cons(b),
        Pattern::Tagged(k) => is_tagged(*k, b),
    }
}

fn is_any(b: &Pattern) -> bool
    ensures { IsTrue result ↔ (p.Any ≡ b.now) }
{
    match b {
        Pattern::Any => true,
        _ => false,
    }
}

fn is_int(n: i64, b: &Pattern) -> bool
    ensures { IsTrue result ↔ (p.Int n ≡ b.now) }
{
    match b {
        Pattern::Int(m) => n == *m,
        _ => false,
    }
}

fn is_str(s: &Text, b: &Pattern) -> bool
    ensures { IsTrue result ↔ (p.Str s.now ≡ b.now) }
{
    match b {
        Pattern::Str(t) => s == t,
        _ => false,
    }
}

fn is_bool(x: bool, b: &Pattern) -> bool
    ensures { IsTrue result ↔ (p.Bool x ≡ b.now) }
{
    match b {
        Pattern::Bool(y) => x == *y,
        _ => false,
    }
}

fn is_absent(b: &Pattern) -> bool
    ensures { IsTrue result ↔ (p.Absent ≡ b.now) }
{
    match b {
        Pattern::Absent => true,
        _ => false,
    }
}

fn is_present(b: &Pattern) -> bool
    ensures { IsTrue result ↔ (p.Present ≡ b.now) }
{
    match b {
        Pattern::Present => true,
        _ => false,
    }
}

fn is_empty(b: &Pattern) -> bool
    ensures { IsTrue result ↔ (p.Empty ≡ b.now) }
{
    match b {
        Pattern::Empty => true,
        _ => false,
    }
}

fn is_cons(b: &Pattern) -> bool
    ensures { IsTrue result ↔ (p.Cons ≡ b.now) }
{
    match b {
        Pattern::Cons => true,
        _ => false,
    }
}

fn is_tagged(k: u32, b: &Pattern) -> bool
    ensures { IsTrue result ↔ (p.Tagged k ≡ b.now) }
{
    match b {
        Pattern::Tagged(j) => k == *j,
        _ => false,
    }
}
