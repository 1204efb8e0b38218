//! The forms of `case`.
ghost use Rattle.std.specs.Prelude.{◌≡◌, ◌∷◌, ◌++◌, map, IfOk};
ghost use Rattle.ur_meaning.specs.declared.head.Head.TheVariants as heads;
ghost use Rattle.ur_unfold_pieces.specs.Keys.{Gives};
ghost use Rattle.ur_unfold_pieces.specs.Told.{told, exp};
ghost use Rattle.ur_unfold_table.specs.Opened.{IsOpened};

use std::alloc::Global;
use ur_base::{Boxed, List, Memory};
use ur_meaning::{Halt, Head, Opened};
use ur_terms::Pattern;
use ur_tree::{Branch, Exp};
use ur_unfold_pieces::Piece;

/// A pattern of its own that equals this one.
fn copy_pattern(alloc: Global, pattern: &Pattern) -> Result<Pattern, Memory>
    ensures { IfOk result (λ copy. copy ≡ pattern.now) }
{
    match pattern {
        Pattern::Any => Ok(Pattern::Any),
        Pattern::Int(n) => Ok(Pattern::Int(*n)),
        Pattern::Str(text) => Ok(Pattern::Str(List::from_slice(alloc, text.as_slice())?)),
        Pattern::Bool(b) => Ok(Pattern::Bool(*b)),
        Pattern::Absent => Ok(Pattern::Absent),
        Pattern::Present => Ok(Pattern::Present),
        Pattern::Empty => Ok(Pattern::Empty),
        Pattern::Cons => Ok(Pattern::Cons),
        Pattern::Tagged(k) => Ok(Pattern::Tagged(*k)),
    }
}

/// The pattern of a branch.
fn pattern_of(alloc: Global, branch: &Branch) -> Result<Pattern, Memory>
    ensures { IfOk result (λ copy. copy ≡ branch.now.pattern) }
{
    copy_pattern(alloc, &branch.pattern)
}

/// The body of a branch.
fn body_piece<'a>(scope: u32, branch: &'a Branch) -> Piece<'a>
    ensures { told result ≡ exp scope branch.now.body }
{
    Piece::Exp(scope, &branch.body)
}

/// The patterns of branches.
fn patterns_of(alloc: Global, branches: &List<Branch>) -> Result<List<Pattern>, Memory>
    ensures { IfOk result (λ ps. ps ≡ map (λ b. b.pattern) branches.now) }
{
    let all = branches.as_slice();
    let mut patterns = List::new(alloc);
    for i in 0..all.len() {
        let pattern = pattern_of(alloc, &all[i])?;
        patterns.push(pattern)?;
    }
    Ok(patterns)
}

/// Adds the bodies of branches to the parts.
fn push_bodies<'a>(
    parts: &mut List<Piece<'a>>,
    scope: u32,
    branches: &'a List<Branch>,
) -> Result<(), Halt>
    ensures { Gives (λ done. map told parts.new ≡ map told parts.old ++ map (λ b. exp scope b.body) branches.now) result }
{
    let all = branches.as_slice();
    for i in 0..all.len() {
        parts.push(body_piece(scope, &all[i]))?;
    }
    Ok(())
}

pub fn cases_form<'a>(
    alloc: Global,
    scope: u32,
    e: &'a Boxed<Exp>,
    branches: &'a List<Branch>,
) -> Result<Opened<Piece<'a>>, Halt>
    ensures { IsOpened (heads.Case (map (λ b. b.pattern) branches.now)) (exp scope e.now ∷ map (λ b. exp scope b.body) branches.now) result }
{
    let patterns = patterns_of(alloc, branches)?;
    let mut parts = List::new(alloc);
    parts.push(Piece::Exp(scope, e.get()))?;
    push_bodies(&mut parts, scope, branches)?;
    let head = Head::Case(patterns);
    Ok(Opened { head, parts })
}
