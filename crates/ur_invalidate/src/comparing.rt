//! Whether patterns are equal.
ghost use Rattle.std.specs.Prelude.{◌≡◌};
ghost use Rattle.std.specs.Cmp.Lexicographic.{pointwise};
ghost use Rattle.ur_conditions.specs.Patterns.{key_eq, guard_eq, pattern_eq};

use ur_conditions::same_values;
use ur_sql::{Guard, KeyAt, Pattern};

/// Whether the two patterns are equal. Takes no memory.
pub fn same_patterns(a: &Pattern, b: &Pattern) -> bool
    ensures { result ≡ pattern_eq a.now b.now }
{
    a.site == b.site
        && same_keys(a.keys.as_slice(), b.keys.as_slice())
        && same_guards(a.guards.as_slice(), b.guards.as_slice())
}

fn same_keys(keys: &[KeyAt], others: &[KeyAt]) -> bool
    ensures { result ≡ pointwise key_eq keys.now others.now }
{
    if keys.len() != others.len() {
        return false;
    }
    for i in 0..keys.len() {
        if !same_key(&keys[i], &others[i]) {
            return false;
        }
    }
    true
}

fn same_key(a: &KeyAt, b: &KeyAt) -> bool
    ensures { result ≡ key_eq a.now b.now }
{
    match a {
        KeyAt::Arg(m) => match b {
            KeyAt::Arg(n) => *m == *n,
            KeyAt::Is(_) => false,
            KeyAt::Any => false,
        },
        KeyAt::Is(x) => match b {
            KeyAt::Arg(_) => false,
            KeyAt::Is(y) => same_values(x, y),
            KeyAt::Any => false,
        },
        KeyAt::Any => match b {
            KeyAt::Arg(_) => false,
            KeyAt::Is(_) => false,
            KeyAt::Any => true,
        },
    }
}

fn same_guards(guards: &[Guard], others: &[Guard]) -> bool
    ensures { result ≡ pointwise guard_eq guards.now others.now }
{
    if guards.len() != others.len() {
        return false;
    }
    for i in 0..guards.len() {
        if !same_guard(&guards[i], &others[i]) {
            return false;
        }
    }
    true
}

fn same_guard(a: &Guard, b: &Guard) -> bool
    ensures { result ≡ guard_eq a.now b.now }
{
    match a {
        Guard::Args(m, n) => match b {
            Guard::Args(k, l) => *m == *k && *n == *l,
            Guard::Is(_, _) => false,
        },
        Guard::Is(m, x) => match b {
            Guard::Args(_, _) => false,
            Guard::Is(n, y) => *m == *n && same_values(x, y),
        },
    }
}
