//! The acts of terms.
ghost use Rattle.std.specs.Prelude.{◌≡◌, [], ◌∷◌, ◌++◌, IfOk, map, flat_map};
ghost use Rattle.ur_terms.specs.Shape.{op_deeds, deeds};
ghost use Rattle.ur_effects.specs.Acts.{act_deed, body_deeds};

use crate::act::{Act, Write};
use std::alloc::Global;
use ur_base::{Boxed, List, Memory};
use ur_terms::{Branch, Function, Op, Term};

/// The acts in the body of a function, if there is one of this number.
pub fn acts_of(alloc: Global, functions: &List<Function>, number: u32) -> Result<List<Act>, Memory>
    ensures { IfOk result (λ acts. map act_deed acts ≡ body_deeds functions.now number) }
{
    let none = List::new(alloc);
    match functions.get(number as usize) {
        None => Ok(none),
        Some(function) => with_term(&function.body, none),
    }
}

fn with_act(acts: List<Act>, act: Act) -> Result<List<Act>, Memory>
    ensures { IfOk result (λ more. map act_deed more ≡ map act_deed acts ++ act_deed act ∷ []) }
{
    let mut more = acts;
    more.push(act)?;
    Ok(more)
}

/// The acts, and what an operation does.
fn with_op(op: &Op, acts: List<Act>) -> Result<List<Act>, Memory>
    ensures { IfOk result (λ more. map act_deed more ≡ map act_deed acts ++ op_deeds op.now) }
{
    match op {
        Op::Write(_) => with_act(acts, Act::Writes(Write::Change)),
        Op::Next(_) => with_act(acts, Act::Writes(Write::Number)),
        Op::SetCookie(_) => with_act(acts, Act::Writes(Write::Cookie)),
        _ => Ok(acts),
    }
}

/// The acts, and those of a term. The call in a link or a submit button is none.
#[cycle(walk)]
fn with_term(term: &Term, acts: List<Act>) -> Result<List<Act>, Memory>
    ensures { IfOk result (λ more. map act_deed more ≡ map act_deed acts ++ deeds term.now) }
{
    match term {
        Term::Variable(_) => Ok(acts),
        Term::Int(_) => Ok(acts),
        Term::Str(_) => Ok(acts),
        Term::Bool(_) => Ok(acts),
        Term::Make(op, args) => {
            let more = with_op(op, acts)?;
            with_terms(args, more)
        }
        Term::Call(number, args) => {
            let more = with_act(acts, Act::Calls(*number))?;
            with_terms(args, more)
        }
        Term::Let(values, body) => {
            let more = with_terms(values, acts)?;
            with_term(body.get(), more)
        }
        Term::If(test, then, other) => {
            let more = with_term(test.get(), acts)?;
            let more = with_term(then.get(), more)?;
            with_term(other.get(), more)
        }
        Term::Case(of, branches) => {
            let more = with_term(of.get(), acts)?;
            with_branches(branches, more)
        }
        Term::Each(rows, body) => {
            let more = with_term(rows.get(), acts)?;
            with_term(body.get(), more)
        }
    }
}

#[cycle(walk)]
fn with_terms(terms: &List<Term>, acts: List<Act>) -> Result<List<Act>, Memory>
    ensures { IfOk result (λ more. map act_deed more ≡ map act_deed acts ++ flat_map deeds terms.now) }
{
    let mut more = acts;
    for term in terms.as_slice() {
        more = with_term(term, more)?;
    }
    Ok(more)
}

#[cycle(walk)]
fn with_branches(branches: &List<Branch>, acts: List<Act>) -> Result<List<Act>, Memory>
    ensures { IfOk result (λ more. map act_deed more ≡ map act_deed acts ++ flat_map (λ branch. deeds branch.body) branches.now) }
{
    let mut more = acts;
    for branch in branches.as_slice() {
        more = with_term(&branch.body, more)?;
    }
    Ok(more)
}
