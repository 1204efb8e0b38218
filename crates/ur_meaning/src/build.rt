//! Terms of their parts.
ghost use Rattle.std.specs.Prelude.{◌≡◌, [], ◌∷◌, ◌++◌, map, IfOk};
ghost use Rattle.ur_terms.specs.declared.term.Branch.{Branch};
ghost use Rattle.ur_terms.specs.declared.term.Term.{Term};
ghost use Rattle.ur_terms.specs.declared.term.Term.TheVariants as t;
ghost use Rattle.ur_meaning.specs.Unfolds.{stuck_term};
ghost use Rattle.ur_meaning.specs.Making.{IsMemory};
ghost use Rattle.ur_meaning.specs.Building.{IsBuilt};

use crate::halt::Halt;
use crate::head::{Head, Opened};
use std::alloc::Global;
use ur_base::{Boxed, List};
use ur_terms::{Branch, Pattern, Term};

/// The last term, which is taken out.
fn popped(alloc: Global, made: &mut List<Term>) -> Result<Boxed<Term>, Halt>
    ensures last { IfOk result (λ a. made.old ≡ made.new ++ a ∷ []) }
    ensures memory { IsMemory result }
{
    match made.pop() {
        Some(term) => Ok(Boxed::new(alloc, term)?),
        None => Err(Halt::Memory),
    }
}

fn choice(alloc: Global, made: List<Term>) -> Result<Term, Halt>
    ensures made { IfOk result (λ a. (c x y : Term) → made ≡ c ∷ x ∷ y ∷ [] → a ≡ t.If c x y) }
    ensures memory { IsMemory result }
{
    let mut made = made;
    let no = popped(alloc, &mut made)?;
    let yes = popped(alloc, &mut made)?;
    let condition = popped(alloc, &mut made)?;
    Ok(Term::If(condition, yes, no))
}

fn bound(alloc: Global, made: List<Term>) -> Result<Term, Halt>
    ensures made { IfOk result (λ a. (xs : _) (b : Term) → made ≡ xs ++ b ∷ [] → a ≡ t.Let xs b) }
    ensures memory { IsMemory result }
{
    let mut made = made;
    let body = popped(alloc, &mut made)?;
    Ok(Term::Let(made, body))
}

fn each(alloc: Global, made: List<Term>) -> Result<Term, Halt>
    ensures made { IfOk result (λ a. (x b : Term) → made ≡ x ∷ b ∷ [] → a ≡ t.Each x b) }
    ensures memory { IsMemory result }
{
    let mut made = made;
    let body = popped(alloc, &mut made)?;
    let list = popped(alloc, &mut made)?;
    Ok(Term::Each(list, body))
}

/// The branches of these patterns and bodies.
fn branches(
    alloc: Global,
    patterns: &mut List<Pattern>,
    bodies: &mut List<Term>,
) -> Result<List<Branch>, Halt>
    ensures made { IfOk result (λ made. (bs : _) → bodies.old ≡ map (λ b. b.body) bs → patterns.old ≡ map (λ b. b.pattern) bs → made ≡ bs) }
    ensures memory { IsMemory result }
{
    let mut made = List::new(alloc);
    for _place in 0..patterns.len() {
        let branch = last_branch(patterns, bodies)?;
        made.push(branch)?;
    }
    let mut made = made.into_vec();
    made.reverse();
    Ok(List::from_vec(made))
}

fn last_branch(patterns: &mut List<Pattern>, bodies: &mut List<Term>) -> Result<Branch, Halt>
    ensures patterns { IfOk result (λ b. patterns.old ≡ patterns.new ++ b.pattern ∷ []) }
    ensures bodies { IfOk result (λ b. bodies.old ≡ bodies.new ++ b.body ∷ []) }
    ensures memory { IsMemory result }
{
    match patterns.pop() {
        Some(pattern) => match bodies.pop() {
            Some(body) => Ok(Branch { pattern, body }),
            None => Err(Halt::Memory),
        },
        None => Err(Halt::Memory),
    }
}

fn cases(alloc: Global, patterns: List<Pattern>, made: List<Term>) -> Result<Term, Halt>
    ensures made { IfOk result (λ a. (x : Term) (bs : _) → made ≡ x ∷ map (λ b. b.body) bs → patterns ≡ map (λ b. b.pattern) bs → a ≡ t.Case x bs) }
    ensures memory { IsMemory result }
{
    if made.is_empty() {
        return Err(Halt::Memory);
    }
    let mut patterns = patterns;
    let mut made = made;
    let value = made.remove(0);
    let value = Boxed::new(alloc, value)?;
    let branches = branches(alloc, &mut patterns, &mut made)?;
    Ok(Term::Case(value, branches))
}

/// The term of a form that is neither the same as its part nor without a form.
fn build(alloc: Global, head: Head, made: List<Term>) -> Result<Term, Halt>
    ensures built { IfOk result (IsBuilt head made) }
    ensures memory { IsMemory result }
{
    match head {
        Head::Int(n) => Ok(Term::Int(n)),
        Head::Text(s) => Ok(Term::Str(s)),
        Head::Bool(b) => Ok(Term::Bool(b)),
        Head::Variable(n) => Ok(Term::Variable(n)),
        Head::Strict(op) => Ok(Term::Make(op, made)),
        Head::Same => Err(Halt::Memory),
        Head::Choice => choice(alloc, made),
        Head::Let => bound(alloc, made),
        Head::Case(patterns) => cases(alloc, patterns, made),
        Head::Each => each(alloc, made),
        Head::Call(j) => Ok(Term::Call(j, made)),
        Head::Nothing => Err(Halt::Memory),
    }
}

/// The term of a form, its parts being made.
pub fn close<P: Drop>(alloc: Global, opened: Opened<P>, made: List<Term>) -> Result<Term, Halt>
    ensures built { IfOk result (IsBuilt opened.head made) }
    ensures memory { IsMemory result }
{
    let Opened { head, parts: _ } = opened;
    build(alloc, head, made)
}

/// The term of what has no form.
pub fn stuck(alloc: Global) -> Result<Term, Halt>
    ensures made { IfOk result (λ a. a ≡ stuck_term) }
    ensures memory { IsMemory result }
{
    let condition = Boxed::new(alloc, Term::Int(0))?;
    let yes = Boxed::new(alloc, Term::Int(0))?;
    let no = Boxed::new(alloc, Term::Int(0))?;
    Ok(Term::If(condition, yes, no))
}
