ghost use Rattle.std.specs.Prelude.{◌≡◌, ◌+◌, ◌<◌, ◌≤◌, ◌↔◌, IsTrue, MatchOption};
ghost use Rattle.ur_rows.specs.Nodes.{type_nodes, part_nodes, row_nodes, nodes, most_nodes};

use crate::normal::{Normal, NormalType, Part};
use ur_base::List;

/// What is left of so many nodes after those of the type, if it has no more.
#[cycle(counting)]
#[tactic(auto, using(crate::proofs::Counts::counts))]
pub fn left_of_type(t: &NormalType, nodes: u32) -> Option<u32>
    ensures { MatchOption result (nodes < type_nodes t.now) (λ left. left + type_nodes t.now ≡ nodes) }
{
    match t {
        NormalType::Opt(x) => left_of_type(x.get(), nodes)?.checked_sub(1),
        NormalType::Many(x) => left_of_type(x.get(), nodes)?.checked_sub(1),
        NormalType::Transaction(x) => left_of_type(x.get(), nodes)?.checked_sub(1),
        NormalType::Arrow(a, b) => {
            let left = left_of_type(a.get(), nodes)?;
            left_of_type(b.get(), left)?.checked_sub(1)
        }
        NormalType::Record(r) => left_of_row(r, nodes)?.checked_sub(1),
        NormalType::Form(r) => left_of_row(r, nodes)?.checked_sub(1),
        NormalType::Int => nodes.checked_sub(1),
        NormalType::Str => nodes.checked_sub(1),
        NormalType::Bool => nodes.checked_sub(1),
        NormalType::Page => nodes.checked_sub(1),
        NormalType::Xbody => nodes.checked_sub(1),
        NormalType::Xtable => nodes.checked_sub(1),
        NormalType::Xtr => nodes.checked_sub(1),
        NormalType::Variable(_) => nodes.checked_sub(1),
        NormalType::Datatype(_) => nodes.checked_sub(1),
    }
}

/// What is left of so many nodes after those of the parts of a row, if they have no more.
#[cycle(counting)]
#[tactic(auto, using(crate::proofs::Counts::counts))]
pub fn left_of_row(r: &List<Part>, nodes: u32) -> Option<u32>
    ensures { MatchOption result (nodes < row_nodes r.now) (λ left. left + row_nodes r.now ≡ nodes) }
{
    let parts = r.as_slice();
    let mut left = nodes;
    for i in 0..parts.len() {
        left = left_of_part(&parts[i], left)?;
    }
    Some(left)
}

/// The same for one part.
#[cycle(counting)]
#[tactic(auto, using(crate::proofs::Counts::counts))]
pub fn left_of_part(p: &Part, nodes: u32) -> Option<u32>
    ensures { MatchOption result (nodes < part_nodes p.now) (λ left. left + part_nodes p.now ≡ nodes) }
{
    match p {
        Part::Field(_, t) => left_of_type(t.get(), nodes)?.checked_sub(1),
        Part::Piece(_) => nodes.checked_sub(1),
        Part::Mapped(_, f) => left_of_type(f.get(), nodes)?.checked_sub(1),
    }
}

#[tactic(auto, using(crate::proofs::Counts::counts))]
fn left_of(n: &Normal, limit: u32) -> Option<u32>
    ensures { MatchOption result (limit < nodes n.now) (λ left. left + nodes n.now ≡ limit) }
{
    match n {
        Normal::Type(t) => left_of_type(t, limit),
        Normal::Name(_) => limit.checked_sub(1),
        Normal::Row(r) => left_of_row(r, limit)?.checked_sub(1),
        Normal::Fn(_, c) => left_of(c.get(), limit)?.checked_sub(1),
    }
}

/// Whether a normal form has no more than the greatest number of nodes.
pub fn is_within(n: &Normal) -> bool
    ensures { IsTrue result ↔ (nodes n.now ≤ most_nodes) }
{
    left_of(n, 65536).is_some()
}
