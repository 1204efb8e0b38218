//! Whether a term reads a variable.
ghost use Rattle.std.specs.Prelude.{All, IsTrue};
ghost use Rattle.ur_machine_frames.specs.Unread.{under, Unread, BranchUnread};

use ur_terms::{Branch, Pattern, Term};

/// Whether the variable with this number does not stand in the term, as far as it is seen by so many looks at terms.
#[cycle(unread)]
pub fn is_unread(term: &Term, number: usize, looks: &mut usize) -> bool
    ensures { IsTrue result → Unread number term.now }
{
    if *looks == 0 {
        return false;
    }
    *looks -= 1;
    match term {
        Term::Variable(other) => *other as usize != number,
        Term::Int(_) => true,
        Term::Str(_) => true,
        Term::Bool(_) => true,
        Term::Make(_, args) => are_unread(args.as_slice(), number, looks),
        Term::Call(_, args) => are_unread(args.as_slice(), number, looks),
        Term::Let(args, body) => {
            if !are_unread(args.as_slice(), number, looks) {
                return false;
            }
            is_unread_under(body.get(), args.len(), number, looks)
        }
        Term::If(condition, yes, no) => {
            if !is_unread(condition.get(), number, looks) {
                return false;
            }
            if !is_unread(yes.get(), number, looks) {
                return false;
            }
            is_unread(no.get(), number, looks)
        }
        Term::Case(subject, branches) => {
            if !is_unread(subject.get(), number, looks) {
                return false;
            }
            are_branches_unread(branches.as_slice(), number, looks)
        }
        Term::Each(rows, body) => {
            if !is_unread(rows.get(), number, looks) {
                return false;
            }
            is_unread_under(body.get(), 1, number, looks)
        }
    }
}

/// The same inside a binder of so many variables.
#[cycle(unread)]
pub fn is_unread_under(body: &Term, bound: usize, number: usize, looks: &mut usize) -> bool
    ensures { IsTrue result → Unread (under bound number) body.now }
{
    match number.checked_add(bound) {
        Some(inside) => is_unread(body, inside, looks),
        None => false,
    }
}

/// The same of all terms.
#[cycle(unread)]
pub fn are_unread(terms: &[Term], number: usize, looks: &mut usize) -> bool
    ensures { IsTrue result → All (Unread number) terms.now }
{
    for term in terms {
        if !is_unread(term, number, looks) {
            return false;
        }
    }
    true
}

/// The same of all branches.
#[cycle(unread)]
pub fn are_branches_unread(branches: &[Branch], number: usize, looks: &mut usize) -> bool
    ensures { IsTrue result → All (BranchUnread number) branches.now }
{
    for branch in branches {
        if !is_branch_unread(branch, number, looks) {
            return false;
        }
    }
    true
}

/// The same of a branch, however many variables its pattern binds.
#[cycle(unread)]
fn is_branch_unread(branch: &Branch, number: usize, looks: &mut usize) -> bool
    ensures { IsTrue result → BranchUnread number branch.now }
{
    match &branch.pattern {
        Pattern::Any => is_unread_under(&branch.body, 1, number, looks),
        Pattern::Int(_) => is_unread(&branch.body, number, looks),
        Pattern::Str(_) => is_unread(&branch.body, number, looks),
        Pattern::Bool(_) => is_unread(&branch.body, number, looks),
        Pattern::Absent => is_unread(&branch.body, number, looks),
        Pattern::Present => is_unread_under(&branch.body, 1, number, looks),
        Pattern::Empty => is_unread(&branch.body, number, looks),
        Pattern::Cons => is_unread_under(&branch.body, 2, number, looks),
        Pattern::Tagged(_) => {
            if !is_unread(&branch.body, number, looks) {
                return false;
            }
            is_unread_under(&branch.body, 1, number, looks)
        }
    }
}
