//! Parts of XML that are the same.
ghost use Rattle.std.specs.Prelude.{◌≡◌, ◌↔◌, IsTrue};

use crate::exps::{same_exp, same_exps, same_held};
use ur_base::List;
use ur_rows::equal_labels;
use ur_tree::Markup;

/// Whether two lists of parts are the same. Takes no memory.
#[cycle(same)]
pub fn same_markups(a: &List<Markup>, b: &List<Markup>) -> bool
    ensures { IsTrue result ↔ (a.now ≡ b.now) }
{
    let xs = a.as_slice();
    let ys = b.as_slice();
    if xs.len() != ys.len() {
        return false;
    }
    for i in 0..xs.len() {
        if !same_markup(&xs[i], &ys[i]) {
            return false;
        }
    }
    true
}

#[cycle(same)]
fn same_markup(a: &Markup, b: &Markup) -> bool
    ensures { IsTrue result ↔ (a.now ≡ b.now) }
{
    match a {
        Markup::Text(s) => match b {
            Markup::Text(t) => { s == t }
            _ => false,
        },
        Markup::Shown(e) => match b {
            Markup::Shown(f) => { same_exp(e, f) }
            _ => false,
        },
        Markup::Splice(e) => match b {
            Markup::Splice(f) => { same_exp(e, f) }
            _ => false,
        },
        Markup::Element(tag, kids) => match b {
            Markup::Element(other, others) => { *tag == *other && same_markups(kids, others) }
            _ => false,
        },
        Markup::Link(k, args, kids) => match b {
            Markup::Link(j, args2, kids2) => {
                *k == *j && same_exps(args, args2) && same_markups(kids, kids2)
            }
            _ => false,
        },
        Markup::Input(kind, l, e) => match b {
            Markup::Input(other, m, f) => {
                *kind == *other && equal_labels(l, m) && same_held(e, f)
            }
            _ => false,
        },
        Markup::Submit(k, args, e) => match b {
            Markup::Submit(j, others, f) => {
                *k == *j && same_exps(args, others) && same_held(e, f)
            }
            _ => false,
        },
    }
}
