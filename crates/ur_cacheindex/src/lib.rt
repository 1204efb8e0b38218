//! The keys of cached answers, found by a mask, in linked lists of numbers and in items by number.
#![tactic(auto)]

mod counted;
mod heads;
mod index;
mod law;
mod linked;
mod lists;
mod matching;
mod node;
#[cfg(test)]
mod tests;
mod walk;
mod wanted;

pub use counted::Counted;
pub use index::Index;
pub use law::{a_number_comes, a_number_goes, other_lists_stay, other_lists_stay_too};
pub use node::{Mask, Node, NodeId};
