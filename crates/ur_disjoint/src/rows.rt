ghost use Rattle.std.specs.Prelude.{◌≡◌, ◌↔◌, IsTrue, map};
ghost use Rattle.ur_rows.specs.Apart.{Apart, AreApart, piece_of};
ghost use Rattle.ur_rows.specs.Types.{same_var, same_label};
ghost use Rattle.ur_disjoint.specs.Tests.{same_piece, holds_piece, labels_differ, differ, one_name, has_pair, assumed_apart, apart_from, is_apart, all_apart, pair};
ghost use Rattle.ur_disjoint.specs.Kept.{ApartIsKept};

use ur_base::List;
use ur_rows::{Label, Part, Var};

/// Two rows that are taken to be apart.
#[derive(Drop)]
pub struct Assumed {
    pub left: List<Part>,
    pub right: List<Part>,
}

fn same_var(a: &Var, b: &Var) -> bool
    ensures { result ≡ same_var a.now b.now }
{
    match a {
        Var::Free(n) => match b {
            Var::Free(m) => *n == *m,
            Var::Bound(_) => false,
        },
        Var::Bound(i) => match b {
            Var::Free(_) => false,
            Var::Bound(j) => *i == *j,
        },
    }
}

fn same_label(a: &Label, b: &Label) -> bool
    ensures { result ≡ same_label a.now b.now }
{
    match a {
        Label::Literal(x) => match b {
            Label::Literal(y) => x.as_slice() == y.as_slice(),
            Label::Variable(_) => false,
        },
        Label::Variable(v) => match b {
            Label::Literal(_) => false,
            Label::Variable(w) => same_var(v, w),
        },
    }
}

fn same_piece(a: &Part, b: &Part) -> bool
    ensures { result ≡ same_piece (piece_of a.now) (piece_of b.now) }
{
    match a {
        Part::Field(l, _) => match b {
            Part::Field(m, _) => same_label(l, m),
            Part::Piece(_) => false,
            Part::Mapped(_, _) => false,
        },
        Part::Piece(v) => match b {
            Part::Field(_, _) => false,
            Part::Piece(w) => same_var(v, w),
            Part::Mapped(w, _) => same_var(v, w),
        },
        Part::Mapped(v, _) => match b {
            Part::Field(_, _) => false,
            Part::Piece(w) => same_var(v, w),
            Part::Mapped(w, _) => same_var(v, w),
        },
    }
}

fn labels_differ(a: &Label, b: &Label) -> bool
    ensures { result ≡ labels_differ a.now b.now }
{
    match a {
        Label::Literal(x) => match b {
            Label::Literal(y) => x.as_slice() != y.as_slice(),
            Label::Variable(_) => false,
        },
        Label::Variable(_) => false,
    }
}

fn differ(a: &Part, b: &Part) -> bool
    ensures { result ≡ differ (piece_of a.now) (piece_of b.now) }
{
    match a {
        Part::Field(l, _) => match b {
            Part::Field(m, _) => labels_differ(l, m),
            Part::Piece(_) => false,
            Part::Mapped(_, _) => false,
        },
        Part::Piece(_) => false,
        Part::Mapped(_, _) => false,
    }
}

fn holds_piece(p: &Part, row: &[Part]) -> bool
    ensures { result ≡ holds_piece (piece_of p.now) row.now }
{
    for i in 0..row.len() {
        if same_piece(p, &row[i]) {
            return true;
        }
    }
    false
}

fn one_name(a: &Part, b: &Part) -> bool
    ensures { result ≡ one_name (piece_of a.now) (piece_of b.now) }
{
    match a {
        Part::Field(l, _) => match b {
            Part::Field(m, _) => same_label(l, m),
            Part::Piece(_) => false,
            Part::Mapped(_, _) => false,
        },
        Part::Piece(_) => false,
        Part::Mapped(_, _) => false,
    }
}

fn has_pair(assumed: &[Assumed], p: &Part, q: &Part) -> bool
    ensures { result ≡ has_pair assumed.now (piece_of p.now) (piece_of q.now) }
{
    for i in 0..assumed.len() {
        let left = assumed[i].left.as_slice();
        let right = assumed[i].right.as_slice();
        if holds_piece(p, left) && holds_piece(q, right) {
            return true;
        }
        if holds_piece(q, left) && holds_piece(p, right) {
            return true;
        }
    }
    false
}

fn assumed_apart(assumed: &[Assumed], p: &Part, q: &Part) -> bool
    ensures { result ≡ assumed_apart assumed.now (piece_of p.now) (piece_of q.now) }
{
    !one_name(p, q) && has_pair(assumed, p, q)
}

fn apart_from(assumed: &[Assumed], p: &Part, row: &[Part]) -> bool
    ensures { result ≡ apart_from assumed.now (piece_of p.now) row.now }
{
    for i in 0..row.len() {
        let apart = differ(p, &row[i]) || assumed_apart(assumed, p, &row[i]);
        if !apart {
            return false;
        }
    }
    true
}

fn is_apart(assumed: &[Assumed], left: &[Part], right: &[Part]) -> bool
    ensures { result ≡ is_apart assumed.now left.now right.now }
{
    for i in 0..left.len() {
        if !apart_from(assumed, &left[i], right) {
            return false;
        }
    }
    true
}

/// Whether each piece of the one row is apart from each piece of the other.
pub fn prove(assumed: &[Assumed], left: &[Part], right: &[Part]) -> bool
    ensures { IsTrue result ↔ Apart (map pair assumed.now) left.now right.now }
{
    is_apart(assumed, left, right)
}

/// Whether the pieces of a row are apart from each other.
pub fn are_apart(assumed: &[Assumed], row: &[Part]) -> bool
    ensures { IsTrue result ↔ AreApart (map pair assumed.now) row.now }
{
    all_apart(assumed, row)
}

fn all_apart(assumed: &[Assumed], row: &[Part]) -> bool
    ensures { result ≡ all_apart assumed.now row.now }
{
    let mut rest = row;
    while let Some((p, behind)) = rest.split_first() {
        if !apart_from(assumed, p, behind) {
            return false;
        }
        rest = behind;
    }
    true
}

/// Rows that are apart stay so where constructors take the place of variables.
pub fn apart_is_kept()
    ensures { ApartIsKept }
{}
