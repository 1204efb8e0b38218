ghost use Rattle.std.specs.Prelude.{◌≡◌};
ghost use Rattle.ur_rows.specs.Told.{Tells, type_tag, row_form};
ghost use Rattle.ur_rows.specs.Order.{place, label_form, type_form, part_form, stands_before};

use crate::normal::{Label, NormalType, Part, Var};
use std::cmp::Ordering;
use ur_base::List;

fn compare_vars(a: &Var, b: &Var) -> Ordering
    ensures { Tells result (place a.now) (place b.now) }
{
    match a {
        Var::Free(n) => match b {
            Var::Free(m) => n.cmp(m),
            Var::Bound(_) => Ordering::Less,
        },
        Var::Bound(i) => match b {
            Var::Free(_) => Ordering::Greater,
            Var::Bound(j) => j.cmp(i),
        },
    }
}

pub fn compare_labels(a: &Label, b: &Label) -> Ordering
    ensures { Tells result (label_form a.now) (label_form b.now) }
{
    match a {
        Label::Literal(x) => match b {
            Label::Literal(y) => x.as_slice().cmp(y.as_slice()),
            Label::Variable(_) => Ordering::Less,
        },
        Label::Variable(v) => match b {
            Label::Literal(_) => Ordering::Greater,
            Label::Variable(w) => compare_vars(v, w),
        },
    }
}

fn tag(t: &NormalType) -> u8
    ensures { result ≡ type_tag t.now }
{
    match t {
        NormalType::Int => 0,
        NormalType::Str => 1,
        NormalType::Bool => 2,
        NormalType::Page => 3,
        NormalType::Xbody => 4,
        NormalType::Xtable => 5,
        NormalType::Xtr => 6,
        NormalType::Variable(_) => 7,
        NormalType::Datatype(_) => 8,
        NormalType::Opt(_) => 9,
        NormalType::Many(_) => 10,
        NormalType::Transaction(_) => 11,
        NormalType::Arrow(_, _) => 12,
        NormalType::Record(_) => 13,
        NormalType::Form(_) => 14,
    }
}

#[cycle(comparing)]
pub fn compare_types(a: &NormalType, b: &NormalType) -> Ordering
    ensures { Tells result (type_form a.now) (type_form b.now) }
{
    let by_tag = tag(a).cmp(&tag(b));
    if !by_tag.is_eq() {
        return by_tag;
    }
    match a {
        NormalType::Variable(v) => match b {
            NormalType::Variable(w) => compare_vars(v, w),
            _ => by_tag,
        },
        NormalType::Datatype(c) => match b {
            NormalType::Datatype(d) => c.cmp(d),
            _ => by_tag,
        },
        NormalType::Opt(t) => match b {
            NormalType::Opt(u) => compare_types(t.get(), u.get()),
            _ => by_tag,
        },
        NormalType::Many(t) => match b {
            NormalType::Many(u) => compare_types(t.get(), u.get()),
            _ => by_tag,
        },
        NormalType::Transaction(t) => match b {
            NormalType::Transaction(u) => compare_types(t.get(), u.get()),
            _ => by_tag,
        },
        NormalType::Arrow(t, u) => match b {
            NormalType::Arrow(v, w) => {
                compare_types(t.get(), v.get()).then(compare_types(u.get(), w.get()))
            }
            _ => by_tag,
        },
        NormalType::Record(r) => match b {
            NormalType::Record(s) => compare_rows(r, s),
            _ => by_tag,
        },
        NormalType::Form(r) => match b {
            NormalType::Form(s) => compare_rows(r, s),
            _ => by_tag,
        },
        _ => by_tag,
    }
}

#[cycle(comparing)]
pub fn compare_rows(a: &List<Part>, b: &List<Part>) -> Ordering
    ensures { Tells result (row_form a.now) (row_form b.now) }
{
    let xs = a.as_slice();
    let ys = b.as_slice();
    for i in 0..xs.len() {
        if i == ys.len() {
            return Ordering::Greater;
        }
        let order = compare_parts(&xs[i], &ys[i]);
        if !order.is_eq() {
            return order;
        }
    }
    if xs.len() == ys.len() {
        Ordering::Equal
    } else {
        Ordering::Less
    }
}

#[cycle(comparing)]
pub fn compare_parts(a: &Part, b: &Part) -> Ordering
    ensures { Tells result (part_form a.now) (part_form b.now) }
{
    match a {
        Part::Field(l, t) => match b {
            Part::Field(m, u) => {
                let by_label = compare_labels(l, m);
                if !by_label.is_eq() {
                    return by_label;
                }
                compare_types(t.get(), u.get())
            }
            Part::Piece(_) => Ordering::Less,
            Part::Mapped(_, _) => Ordering::Less,
        },
        Part::Piece(v) => match b {
            Part::Field(_, _) => Ordering::Greater,
            Part::Piece(w) => compare_vars(v, w),
            Part::Mapped(w, _) => compare_vars(v, w).then(Ordering::Less),
        },
        Part::Mapped(v, t) => match b {
            Part::Field(_, _) => Ordering::Greater,
            Part::Piece(w) => compare_vars(v, w).then(Ordering::Greater),
            Part::Mapped(w, u) => {
                let by_variable = compare_vars(v, w);
                if !by_variable.is_eq() {
                    return by_variable;
                }
                compare_types(t.get(), u.get())
            }
        },
    }
}

pub fn before(a: &Part, b: &Part) -> bool
    ensures { result ≡ stands_before a.now b.now }
{
    compare_parts(a, b).is_le()
}
