//! The first limit that a typed source exceeds.
ghost use Rattle.std.specs.Prelude.{◌≡◌, true, MatchOption};
ghost use Rattle.ur_check_limits.specs.Limits as limits;
ghost use Rattle.ur_check_limits.specs.Limits.{first_exceeded, IsWithinLimits};

use crate::exceeding::is_exceeded;
use crate::limit::Limit;
use ur_tree::Typed;

/// The first limit, in the order of `Limit`, that the source exceeds; none where it is within all. Takes no memory.
#[tactic(auto, using(crate::proofs::InOrder::in_turn))]
pub fn exceeded(app: &Typed) -> Option<Limit>
    ensures first { result ≡ first_exceeded app.now }
    ensures within { MatchOption result (IsWithinLimits app.now) (λ limit. limits.is_exceeded app.now limit ≡ true) }
{
    if is_exceeded(app, Limit::Tables) {
        return Some(Limit::Tables);
    }
    if is_exceeded(app, Limit::Columns) {
        return Some(Limit::Columns);
    }
    if is_exceeded(app, Limit::Sequences) {
        return Some(Limit::Sequences);
    }
    if is_exceeded(app, Limit::Routes) {
        return Some(Limit::Routes);
    }
    if is_exceeded(app, Limit::Sites) {
        return Some(Limit::Sites);
    }
    if is_exceeded(app, Limit::Updates) {
        return Some(Limit::Updates);
    }
    if is_exceeded(app, Limit::Items) {
        return Some(Limit::Items);
    }
    if is_exceeded(app, Limit::Antiquotes) {
        return Some(Limit::Antiquotes);
    }
    if is_exceeded(app, Limit::Parameters) {
        return Some(Limit::Parameters);
    }
    if is_exceeded(app, Limit::Nodes) {
        return Some(Limit::Nodes);
    }
    None
}
