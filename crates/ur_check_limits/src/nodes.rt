//! The nodes of a statement's scalar expressions, counted down from a number.
ghost use Rattle.std.specs.Prelude.{◌≡◌, ◌+◌, ◌<◌, sum_by, MatchOption, Option};
ghost use Rattle.ur_sql.specs.Nodes.{scalar_nodes, nodes_if_any, aggregate_nodes, field_nodes, query_nodes, change_nodes, action_nodes};

use ur_base::List;
use ur_sql::{Action, Aggregate, Change, Field, OrderKey, Query, Scalar};

/// What is left after the nodes of a scalar; none where it has more.
#[tactic(auto, using(crate::proofs::Equations::counted))]
fn after_scalar(of: &Scalar, left: u32) -> Option<u32>
    ensures { MatchOption result (left < scalar_nodes of.now) (λ rest. rest + scalar_nodes of.now ≡ left) }
{
    match left.checked_sub(1) {
        None => None,
        Some(within) => match of {
            Scalar::Constant(_) => Some(within),
            Scalar::Column(_, _) => Some(within),
            Scalar::Param(_) => Some(within),
            Scalar::Or(a, b) => {
                let rest = after_scalar(a.get(), within)?;
                after_scalar(b.get(), rest)
            }
            Scalar::And(a, b) => {
                let rest = after_scalar(a.get(), within)?;
                after_scalar(b.get(), rest)
            }
            Scalar::Not(a) => after_scalar(a.get(), within),
            Scalar::Compare(_, a, b) => {
                let rest = after_scalar(a.get(), within)?;
                after_scalar(b.get(), rest)
            }
            Scalar::Add(a, b) => {
                let rest = after_scalar(a.get(), within)?;
                after_scalar(b.get(), rest)
            }
            Scalar::Sub(a, b) => {
                let rest = after_scalar(a.get(), within)?;
                after_scalar(b.get(), rest)
            }
            Scalar::Mul(a, b) => {
                let rest = after_scalar(a.get(), within)?;
                after_scalar(b.get(), rest)
            }
            Scalar::Neg(a) => after_scalar(a.get(), within),
            Scalar::Null(_) => Some(within),
            Scalar::Present(a) => after_scalar(a.get(), within),
        },
    }
}

fn after_any(of: &Option<Scalar>, left: u32) -> Option<u32>
    ensures { MatchOption result (left < nodes_if_any of.now) (λ rest. rest + nodes_if_any of.now ≡ left) }
{
    match of {
        None => Some(left),
        Some(of) => after_scalar(of, left),
    }
}

fn after_aggregate(of: &Aggregate, left: u32) -> Option<u32>
    ensures { MatchOption result (left < aggregate_nodes of.now) (λ rest. rest + aggregate_nodes of.now ≡ left) }
{
    match of {
        Aggregate::Count => Some(left),
        Aggregate::Sum(by) => after_scalar(by, left),
        Aggregate::Min(by) => after_scalar(by, left),
        Aggregate::Max(by) => after_scalar(by, left),
    }
}

fn after_field(of: &Field, left: u32) -> Option<u32>
    ensures { MatchOption result (left < field_nodes of.now) (λ rest. rest + field_nodes of.now ≡ left) }
{
    match of {
        Field::Columns(_, _) => Some(left),
        Field::Single(_, by) => after_scalar(by, left),
        Field::Over(_, of) => after_aggregate(of, left),
    }
}

fn after_fields(fields: &List<Field>, left: u32) -> Option<u32>
    ensures { MatchOption result (left < sum_by field_nodes fields.now) (λ rest. rest + sum_by field_nodes fields.now ≡ left) }
{
    let mut left = left;
    let all = fields.as_slice();
    for i in 0..all.len() {
        match after_field(&all[i], left) {
            None => return None,
            Some(rest) => left = rest,
        }
    }
    Some(left)
}

fn after_scalars(scalars: &List<Scalar>, left: u32) -> Option<u32>
    ensures { MatchOption result (left < sum_by scalar_nodes scalars.now) (λ rest. rest + sum_by scalar_nodes scalars.now ≡ left) }
{
    let mut left = left;
    let all = scalars.as_slice();
    for i in 0..all.len() {
        match after_scalar(&all[i], left) {
            None => return None,
            Some(rest) => left = rest,
        }
    }
    Some(left)
}

fn after_order(keys: &List<OrderKey>, left: u32) -> Option<u32>
    ensures { MatchOption result (left < sum_by (λ k. scalar_nodes k.by) keys.now) (λ rest. rest + sum_by (λ k. scalar_nodes k.by) keys.now ≡ left) }
{
    let mut left = left;
    let all = keys.as_slice();
    for i in 0..all.len() {
        match after_scalar(&all[i].by, left) {
            None => return None,
            Some(rest) => left = rest,
        }
    }
    Some(left)
}

fn after_sets(sets: &List<(u32, Scalar)>, left: u32) -> Option<u32>
    ensures { MatchOption result (left < sum_by (λ set. scalar_nodes set.1) sets.now) (λ rest. rest + sum_by (λ set. scalar_nodes set.1) sets.now ≡ left) }
{
    let mut left = left;
    let all = sets.as_slice();
    for i in 0..all.len() {
        match after_scalar(&all[i].1, left) {
            None => return None,
            Some(rest) => left = rest,
        }
    }
    Some(left)
}

/// What is left after the nodes of a query; none where it has more.
pub fn after_query(q: &Query, left: u32) -> Option<u32>
    ensures { MatchOption result (left < query_nodes q.now) (λ rest. rest + query_nodes q.now ≡ left) }
{
    let left = after_fields(&q.fields, left)?;
    let left = after_scalars(&q.on, left)?;
    let left = after_any(&q.filter, left)?;
    after_order(&q.order, left)
}

/// The same of a change.
pub fn after_change(u: &Change, left: u32) -> Option<u32>
    ensures { MatchOption result (left < change_nodes u.now) (λ rest. rest + change_nodes u.now ≡ left) }
{
    match &u.action {
        Action::Insert(sets) => after_sets(sets, left),
        Action::Update(sets, condition) => match after_sets(sets, left) {
            None => None,
            Some(rest) => after_any(condition, rest),
        },
        Action::Delete(condition) => after_any(condition, left),
    }
}
