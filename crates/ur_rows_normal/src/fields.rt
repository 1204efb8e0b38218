//! The field of a name, which is a literal or a variable.
ghost use Rattle.std.specs.Prelude.{◌≡◌, ◌<◌, true, false, length, None, Some, MatchOption};
ghost use Rattle.std.specs.List.{remove};
ghost use Rattle.ur_rows.specs.Types.{same_var, same_label, is_field, part_type, field_type, without};

use ur_base::List;
use ur_rows::{Label, NormalType, Part, Var};

pub fn same_var(a: &Var, b: &Var) -> bool
    ensures { result ≡ same_var a.now b.now }
{
    match a {
        Var::Free(n) => match b {
            Var::Free(m) => *n == *m,
            Var::Bound(_) => false,
        },
        Var::Bound(i) => match b {
            Var::Free(_) => false,
            Var::Bound(j) => *i == *j,
        },
    }
}

pub fn same_label(a: &Label, b: &Label) -> bool
    ensures { result ≡ same_label a.now b.now }
{
    match a {
        Label::Literal(x) => match b {
            Label::Literal(y) => x.as_slice() == y.as_slice(),
            Label::Variable(_) => false,
        },
        Label::Variable(v) => match b {
            Label::Literal(_) => false,
            Label::Variable(w) => same_var(v, w),
        },
    }
}

/// The type of a part that is the field of that name.
fn type_at<'a>(l: &Label, p: &'a Part) -> Option<&'a NormalType>
    ensures { MatchOption result (is_field l.now p.now ≡ false) (λ t. (is_field l.now p.now ≡ true) × (part_type p.now ≡ Some t.now)) }
{
    match p {
        Part::Field(m, t) => {
            if same_label(l, m) {
                return Some(t.get());
            }
            None
        }
        Part::Piece(_) => None,
        Part::Mapped(_, _) => None,
    }
}

/// The type of a row's field of that name.
pub fn field_type<'a>(l: &Label, r: &'a List<Part>) -> Option<&'a NormalType>
    ensures { MatchOption result (field_type l.now r.now ≡ None) (λ t. field_type l.now r.now ≡ Some t.now) }
{
    let parts = r.as_slice();
    for i in 0..parts.len() {
        match type_at(l, &parts[i]) {
            Some(t) => return Some(t),
            None => {}
        }
    }
    None
}

/// The place of a row's field of that name.
fn place_of(l: &Label, r: &[Part]) -> Option<usize>
    ensures { MatchOption result (without l.now r.now ≡ r.now) (λ i. (i < length r.now) × (without l.now r.now ≡ remove r.now i)) }
{
    for i in 0..r.len() {
        if is_field(l, &r[i]) {
            return Some(i);
        }
    }
    None
}

fn is_field(l: &Label, p: &Part) -> bool
    ensures { result ≡ is_field l.now p.now }
{
    match p {
        Part::Field(m, _) => same_label(l, m),
        Part::Piece(_) => false,
        Part::Mapped(_, _) => false,
    }
}

/// A row without its field of that name.
pub fn without(l: &Label, r: List<Part>) -> List<Part>
    ensures { result ≡ without l.now r }
{
    match place_of(l, r.as_slice()) {
        Some(i) => {
            let mut row = r;
            let _field = row.remove(i);
            row
        }
        None => r,
    }
}
