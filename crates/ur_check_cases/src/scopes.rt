//! The scope of the step of a fold.
ghost use Rattle.std.specs.Prelude.{◌≡◌, ◌+◌, ◌++◌, [], ◌∷◌, map, length, IfOk};
ghost use Rattle.ur_syntax.specs.declared.con.ConEnv.{ConEnv as GhostEnv};
ghost use Rattle.ur_syntax.specs.declared.kind.Kind.TheVariants as kind;
ghost use Rattle.ur_rows.specs.declared.normal.Var.TheVariants as var;
ghost use Rattle.ur_rows.specs.declared.normal.Label.TheVariants as label;
ghost use Rattle.ur_rows.specs.declared.normal.Part.TheVariants as part;
ghost use Rattle.ur_rows.specs.Made.{field, unit};
ghost use Rattle.ur_disjoint.specs.Tests.{pair};
ghost use Rattle.ur_rows_normal.specs.Preparing.{Reads, Covers};
ghost use Rattle.ur_tree.specs.Typing as typing;
ghost use Rattle.ur_typed_rules.specs.Names.{Names as GhostNames};
ghost use Rattle.ur_typed.specs.Folds.{step_names};
ghost use Rattle.ur_check_scopes.specs.Views.{env_in};
ghost use Rattle.ur_check_cases.specs.Steps.{step_in};

use crate::steps::Step;
use std::alloc::Global;
use ur_base::{List, Memory};
use ur_check_scopes::{Around, Cons, Locals, Scope};
use ur_disjoint::Assumed;
use ur_rows::{Label, NormalType, Part, Var, boxed, copy_row, one, unit, with_part};
use ur_rows_normal::{Layer, Place};
use ur_syntax::{Kind, copy_kind};

/// The constructors in scope of the step.
#[derive(Drop)]
pub struct StepScope {
    pub names: Layer,
    pub kinds: List<Kind>,
    pub known: List<Assumed>,
}

fn step_kinds(alloc: Global, around: &[Kind]) -> Result<List<Kind>, Memory>
    ensures { IfOk result (λ ks. ks ≡ around.now ++ kind.Name ∷ kind.Star ∷ kind.Row ∷ []) }
{
    let mut kinds = copy_kinds(alloc, around)?;
    kinds.push(Kind::Name)?;
    kinds.push(Kind::Star)?;
    kinds.push(Kind::Row)?;
    Ok(kinds)
}

fn copy_kinds(alloc: Global, around: &[Kind]) -> Result<List<Kind>, Memory>
    ensures { IfOk result (λ ks. ks ≡ around.now) }
{
    let mut kinds = List::new(alloc);
    for i in 0..around.len() {
        let kind = copy_kind(alloc, &around[i])?;
        kinds.push(kind)?;
    }
    Ok(kinds)
}

fn copy_assumed(alloc: Global, assumed: &Assumed) -> Result<Assumed, Memory>
    ensures { IfOk result (λ a. pair a ≡ pair assumed.now) }
{
    let left = copy_row(alloc, &assumed.left)?;
    let right = copy_row(alloc, &assumed.right)?;
    Ok(Assumed { left, right })
}

fn free(kinds: usize, further: u32) -> Result<Var, Memory>
    ensures { IfOk result (λ v. v ≡ var.Free (kinds + further)) }
{
    if kinds < 4294967296 {
        return match (kinds as u32).checked_add(further) {
            Some(number) => Ok(Var::Free(number)),
            None => Err(Memory),
        };
    }
    Err(Memory)
}

/// `[nm = t]`, in a scope with so many variables.
#[tactic(auto, using(crate::proofs::Scoping::parts))]
fn named_field(alloc: Global, kinds: usize, of: NormalType) -> Result<Part, Memory>
    ensures { IfOk result (λ p. p ≡ field (label.Variable (var.Free kinds)) of) }
{
    let name = free(kinds, 0)?;
    let of = boxed(alloc, of)?;
    Ok(Part::Field(Label::Variable(name), of))
}

fn rest_row(alloc: Global, kinds: usize) -> Result<List<Part>, Memory>
    ensures { IfOk result (λ r. r ≡ part.Piece (var.Free (kinds + 2)) ∷ []) }
{
    let rest = free(kinds, 2)?;
    let row = one(alloc, Part::Piece(rest))?;
    Ok(row)
}

/// The rest of the row in the step.
pub fn rest_of(alloc: Global, cons: &Cons) -> Result<List<Part>, Memory>
    ensures { IfOk result (λ r. r ≡ typing.step_rest (env_in cons.now)) }
{
    rest_row(alloc, cons.kinds.len())
}

/// `[nm = t] ++ rest` in the step.
pub fn row_of_step(alloc: Global, cons: &Cons) -> Result<List<Part>, Memory>
    ensures { IfOk result (λ r. r ≡ typing.step_row (env_in cons.now)) }
{
    let kinds = cons.kinds.len();
    let t = free(kinds, 1)?;
    let field = named_field(alloc, kinds, NormalType::Variable(t))?;
    let rest = rest_row(alloc, kinds)?;
    let row = with_part(field, rest)?;
    Ok(row)
}

fn step_assumed(alloc: Global, kinds: usize) -> Result<Assumed, Memory>
    ensures { IfOk result (λ a. pair a ≡ (field (label.Variable (var.Free kinds)) unit ∷ [], part.Piece (var.Free (kinds + 2)) ∷ [])) }
{
    let name = named_field(alloc, kinds, unit(alloc))?;
    let left = one(alloc, name)?;
    let right = rest_row(alloc, kinds)?;
    Ok(Assumed { left, right })
}

fn step_known(alloc: Global, kinds: usize, around: &[Assumed]) -> Result<List<Assumed>, Memory>
    ensures { IfOk result (λ ks. map pair ks ≡ (field (label.Variable (var.Free kinds)) unit ∷ [], part.Piece (var.Free (kinds + 2)) ∷ []) ∷ map pair around.now) }
{
    let mut known = List::new(alloc);
    let first = step_assumed(alloc, kinds)?;
    known.push(first)?;
    for i in 0..around.len() {
        let assumed = copy_assumed(alloc, &around[i])?;
        known.push(assumed)?;
    }
    Ok(known)
}

fn layer_of(alloc: Global, around: &Place, step: &Step) -> Result<Layer, Memory>
    ensures { IfOk result (λ l. (names : GhostNames) → Reads around.now names.cons → Covers l around.now (step_names (step_in step.now) names).cons) }
{
    let mut names = Layer::new(alloc, around);
    names.bind(alloc, step.nm, &Kind::Name)?;
    names.bind(alloc, step.t, &Kind::Star)?;
    names.bind(alloc, step.rest, &Kind::Row)?;
    Ok(names)
}

/// The scope of the step: its three variables, and the assumption that its name is apart from the rest.
pub fn step_scope(alloc: Global, around: &Around, step: &Step) -> Result<StepScope, Memory>
    ensures names { IfOk result (λ x. (names : GhostNames) → Reads around.now.scope.cons.names names.cons → Covers x.names around.now.scope.cons.names (step_names (step_in step.now) names).cons) }
    ensures kinds { IfOk result (λ x. x.kinds ≡ around.now.scope.cons.kinds.now ++ kind.Name ∷ kind.Star ∷ kind.Row ∷ []) }
    ensures known { IfOk result (λ x. map pair x.known ≡ (field (typing.step_name (env_in around.now.scope.cons)) unit ∷ [], typing.step_rest (env_in around.now.scope.cons)) ∷ map pair around.now.scope.cons.known.now) }
{
    let cons = around.scope.cons;
    let names = layer_of(alloc, &cons.names, step)?;
    let kinds = step_kinds(alloc, cons.kinds)?;
    let known = step_known(alloc, cons.kinds.len(), cons.known)?;
    Ok(StepScope {
        names,
        kinds,
        known,
    })
}

/// Within the constructors of the step, with these names.
pub fn within_step<'b>(
    around: &'b Around<'b>,
    scope: &'b StepScope,
    locals: Locals<'b>,
) -> Around<'b>
    ensures world { result.world ≡ around.now.world }
    ensures names { (env : GhostEnv) → Covers scope.now.names around.now.scope.cons.names env → Reads result.scope.cons.names env }
    ensures kinds { result.scope.cons.kinds.now ≡ scope.now.kinds }
    ensures known { result.scope.cons.known.now ≡ scope.now.known }
    ensures locals { result.scope.locals ≡ locals.entry }
{
    let cons = Cons {
        names: scope.names.over(&around.scope.cons.names),
        kinds: scope.kinds.as_slice(),
        known: scope.known.as_slice(),
    };
    Around {
        world: around.world,
        scope: Scope { cons, locals },
        levels: around.levels,
    }
}
