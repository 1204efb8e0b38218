//! Numbers that stand for something.
ghost use Rattle.std.specs.Prelude.{◌≡◌, ◌↔◌, ◌<◌, IsTrue, map};
ghost use Rattle.ur_unfold_static.specs.Held.{AreBelow, NodeIsBelow};

use crate::node::{Field, Node};
use ur_base::List;

fn is_below(number: u32, most: usize) -> bool
    ensures { IsTrue result ↔ (number < most) }
{
    (number as usize) < most
}

/// Whether all numbers are below this one.
fn are_below(numbers: &List<u32>, most: usize) -> bool
    ensures { IsTrue result ↔ AreBelow most numbers.now }
{
    let all = numbers.as_slice();
    for i in 0..all.len() {
        if !is_below(all[i], most) {
            return false;
        }
    }
    true
}

fn field_is_below(field: &Field, most: usize) -> bool
    ensures { IsTrue result ↔ (field.now.of < most) }
{
    (field.of as usize) < most
}

fn fields_are_below(fields: &List<Field>, most: usize) -> bool
    ensures { IsTrue result ↔ AreBelow most (map (λ f. f.of) fields.now) }
{
    let all = fields.as_slice();
    for i in 0..all.len() {
        if !field_is_below(&all[i], most) {
            return false;
        }
    }
    true
}

/// Whether the numbers of a node stand for something, where there is so much of each.
pub fn fits(node: &Node, cons: usize, lambdas: usize, statics: usize) -> bool
    ensures { IsTrue result ↔ NodeIsBelow cons lambdas statics node.now }
{
    match node {
        Node::Int(_) => true,
        Node::Str(_) => true,
        Node::Bool(_) => true,
        Node::Function(_, js) => are_below(js, cons),
        Node::Lambda {
            of,
            cons: js,
            fixed: fs,
        } => lambda_fits(*of, js, fs, cons, lambdas, statics),
        Node::Record(fields) => fields_are_below(fields, statics),
    }
}

fn lambda_fits(
    of: u32,
    js: &List<u32>,
    fs: &List<u32>,
    cons: usize,
    lambdas: usize,
    statics: usize,
) -> bool
    ensures { IsTrue result ↔ (of < lambdas) × AreBelow cons js.now × AreBelow statics fs.now }
{
    if !is_below(of, lambdas) {
        return false;
    }
    if !are_below(js, cons) {
        return false;
    }
    are_below(fs, statics)
}
