//! Whether two patterns are the same.
ghost use Rattle.std.specs.Prelude.{◌≡◌};
ghost use Rattle.ur_terms.specs.declared.term.Pattern.TheVariants as shape;
ghost use Rattle.ur_tree.specs.Patterns.{same_bool, same_pattern};

use ur_terms::Pattern;

/// Whether two patterns are the same.
pub fn same_pattern(a: &Pattern, b: &Pattern) -> bool
    ensures { result ≡ same_pattern a.now b.now }
{
    match a {
        Pattern::Any => is_any(b),
        Pattern::Int(m) => match b {
            Pattern::Int(n) => *m == *n,
            _ => false,
        },
        Pattern::Str(s) => match b {
            Pattern::Str(t) => s.as_slice() == t.as_slice(),
            _ => false,
        },
        Pattern::Bool(x) => match b {
            Pattern::Bool(y) => same_bool(*x, *y),
            _ => false,
        },
        Pattern::Absent => is_absent(b),
        Pattern::Present => is_present(b),
        Pattern::Empty => is_empty(b),
        Pattern::Cons => is_cons(b),
        Pattern::Tagged(c) => match b {
            Pattern::Tagged(e) => *c == *e,
            _ => false,
        },
    }
}

pub fn is_any(pattern: &Pattern) -> bool
    ensures first { result ≡ same_pattern shape.Any pattern.now }
    ensures second { result ≡ same_pattern pattern.now shape.Any }
{
    match pattern {
        Pattern::Any => true,
        _ => false,
    }
}

fn same_bool(a: bool, b: bool) -> bool
    ensures { result ≡ same_bool a b }
{
    if a { b } else { !b }
}

fn is_absent(pattern: &Pattern) -> bool
    ensures { result ≡ same_pattern shape.Absent pattern.now }
{
    match pattern {
        Pattern::Absent => true,
        _ => false,
    }
}

fn is_present(pattern: &Pattern) -> bool
    ensures { result ≡ same_pattern shape.Present pattern.now }
{
    match pattern {
        Pattern::Present => true,
        _ => false,
    }
}

fn is_empty(pattern: &Pattern) -> bool
    ensures { result ≡ same_pattern shape.Empty pattern.now }
{
    match pattern {
        Pattern::Empty => true,
        _ => false,
    }
}

fn is_cons(pattern: &Pattern) -> bool
    ensures { result ≡ same_pattern shape.Cons pattern.now }
{
    match pattern {
        Pattern::Cons => true,
        _ => false,
    }
}
