//! What a turn came to.
use ur_base::List;
use ur_values::Atom;

/// The operation on tables that a turn did or failed in, where it paid its unit: a query's site, with its key where there was memory
/// for it, a change or a sequence.
#[derive(Drop)]
pub enum Reached {
    Nothing,
    Query(u32, Option<List<Atom>>),
    Change(u32),
    Sequence(u32),
}
