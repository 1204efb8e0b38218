//! The list of the lambdas of the source that were closed, each once.
ghost use Rattle.std.specs.Prelude.{◌≡◌, ◌↔◌, ◌≤◌, ◌<◌, ◌++◌, length, List as Items, Some, slice_get, IsTrue, IfOk, MatchOption};
ghost use Rattle.ur_meaning.specs.Instances.{Different};
ghost use Rattle.ur_unfold_static.specs.Held.{Written};
ghost use Rattle.ur_unfold_static.specs.Lists.{IsAbsent, all_written, most_entries, written};

use crate::entries::push;
use crate::node::Lambda;
use crate::{same_exp, same_params};
use ur_base::{List, Memory};
use ur_tree::{Exp, Param};

fn same_lambda(known: &Lambda<'_>, params: &List<Param>, body: &Exp) -> bool
    ensures { IsTrue result ↔ (written known.now ≡ (params.now, body.now)) }
{
    if !same_params(known.params, params) {
        return false;
    }
    same_exp(known.body, body)
}

/// The place of a lambda.
fn place_of(lambdas: &List<Lambda<'_>>, params: &List<Param>, body: &Exp) -> Option<usize>
    ensures { MatchOption result (IsAbsent (all_written lambdas.now) (params.now, body.now)) (λ j. (j < length lambdas.now) × (slice_get (all_written lambdas.now) j ≡ Some (params.now, body.now))) }
{
    let known = lambdas.as_slice();
    for i in 0..known.len() {
        if same_lambda(&known[i], params, body) {
            return Some(i);
        }
    }
    None
}

/// The number of a lambda, which is added where it is new. Equal lambdas have one number, wherever they stand.
pub fn add_lambda<'a>(
    lambdas: &mut List<Lambda<'a>>,
    params: &'a List<Param>,
    body: &'a Exp,
) -> Result<u32, Memory>
    requires few { length lambdas.old ≤ most_entries }
    ensures few { length lambdas.new ≤ most_entries }
    ensures number { IfOk result (λ j. slice_get (all_written lambdas.new) j ≡ Some (params.now, body.now)) }
    ensures grows { (more : Items Written) × (all_written lambdas.new ≡ all_written lambdas.old ++ more) }
    ensures once { Different (all_written lambdas.old) → Different (all_written lambdas.new) }
{
    match place_of(lambdas, params, body) {
        Some(place) => Ok(place as u32),
        None => {
            let number = push(lambdas, Lambda { params, body })?;
            Ok(number)
        }
    }
}
