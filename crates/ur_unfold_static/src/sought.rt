//! The variable that is sought.
ghost use Rattle.std.specs.Prelude.{◌≡◌, ◌+◌, ◌||◌, IfOk};
ghost use Rattle.ur_source.specs.Names as names;
ghost use Rattle.ur_unfold_static.specs.Sought.{is_sought};
ghost use Rattle.ur_unfold_static.specs.Words.{place_names};

use ur_base::Memory;

/// A constructor variable, by its order of binding, or a static name, by its place.
#[derive(Clone, Copy)]
pub enum Sought {
    Con(u32),
    Fixed(u32),
}

/// Whether the n-th constructor variable is sought.
pub fn is_con(of: Sought, n: u32) -> bool
    ensures { result ≡ is_sought of (names.con n) }
{
    match of {
        Sought::Con(m) => m == n,
        Sought::Fixed(_) => false,
    }
}

fn is_fixed(of: Sought, n: u32) -> bool
    ensures { result ≡ is_sought of (names.fixed n) }
{
    match of {
        Sought::Con(_) => false,
        Sought::Fixed(m) => m == n,
    }
}

/// Whether the static name of this place is sought, so many being bound within.
pub fn is_outer(of: Sought, depth: u32, i: u32) -> bool
    ensures { result ≡ place_names of depth i }
{
    if i < depth {
        return false;
    }
    is_fixed(of, i - depth)
}

/// Whether one of two is so.
pub fn either(a: bool, b: bool) -> bool
    ensures { result ≡ (a || b) }
{
    a || b
}

/// More static names that are bound. There is no memory for 2^32 of them.
pub fn deeper(depth: u32, more: u32) -> Result<u32, Memory>
    ensures { IfOk result (λ d. d ≡ more + depth) }
{
    match more.checked_add(depth) {
        Some(sum) => Ok(sum),
        None => Err(Memory),
    }
}
