//! What a machine does next.
use ur_base::List;
use ur_terms::{Branch, Op, Term};
use ur_values::Value;

/// A term is entered, or its value is given to the nearest frame.
#[derive(Drop)]
pub enum Control<'a> {
    Enter(&'a Term),
    Give(Value),
}

/// Why a run stops: it is done, it failed with this body, its budget is spent, it comes to an operation on tables
/// with these arguments, or memory is wanting.
#[derive(Drop)]
pub enum Pause<'a> {
    Page(Value),
    Failed(Value),
    Spent,
    Store(&'a Op, List<Value>),
    Memory,
}

/// Goes on, or stops.
#[derive(Drop)]
pub enum Next<'a> {
    On(Control<'a>),
    Off(Pause<'a>),
}

/// What an operation comes to.
#[derive(Drop)]
pub enum Performed {
    Done(Value),
    Failed(Value),
    Spent,
    /// It is one on tables; these were its arguments.
    Store(List<Value>),
    Memory,
}

/// Whether a pattern matched: what it binds, or the value as it was.
#[derive(Drop)]
pub enum Matched {
    Yes(List<Value>),
    No(Value),
    Memory,
}

/// The first branch that matches, with its number and what it binds, if there is one.
#[derive(Drop)]
pub enum Found<'a> {
    Branch(usize, &'a Branch, List<Value>),
    None,
    Memory,
}
