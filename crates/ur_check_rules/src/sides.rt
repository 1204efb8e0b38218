//! Forms with one side and with two.
ghost use Rattle.std.specs.Prelude.{◌≡◌, IfOk, Some, codes};
ghost use Rattle.ur_base.specs.Stopping.{IfRefused};
ghost use Rattle.ur_rows.specs.declared.normal.NormalType.{NormalType as GhostType};
ghost use Rattle.ur_rows.specs.declared.normal.NormalType.TheVariants as ty;
ghost use Rattle.ur_rows.specs.Made.{record_of};
ghost use Rattle.ur_rows.specs.Order as order;
ghost use Rattle.ur_rows.specs.Types as types;
ghost use Rattle.ur_typed_rules.specs.Tests.{is_apart};
ghost use Rattle.ur_tree.specs.declared.exp.Unary.TheVariants as unary;
ghost use Rattle.ur_tree.specs.Make as make;
ghost use Rattle.ur_tree.specs.Typing as typing;
ghost use Rattle.ur_typed_rules.specs.Scopes.{Scope as GhostScope, Mode as GhostMode, finds, wants, of_option, of_transaction};
ghost use Rattle.ur_typed_rules.specs.Faults as faults;
ghost use Rattle.ur_typed.specs.Rules as rules;
ghost use Rattle.ur_typed.specs.Rules.{Sites as GhostSites, Walk as GhostWalk};
ghost use Rattle.ur_typed.specs.Walking.{typed};
ghost use Rattle.ur_check_scopes.specs.Views.{Refuses, StopIs, env_in};
ghost use Rattle.ur_check_rules.specs.Promises.{GivesSides, TellsSides, TellsShow};
ghost use Rattle.ur_check_rules.specs.Views.{out_with, operation_in};
ghost use Rattle.ur_check_rules.specs.Sides.{BreaksJoined, BreaksJoin, BreaksOperation};

use crate::made::{binary_of, unary_of};
use crate::operators::{Operation, is_basic};
use crate::out::Out;
use crate::records::no_record;
use std::alloc::Global;
use ur_base::{List, Memory, Span, Stop};
use ur_check_scopes::{Around, not_apart, not_of_type, row_of};
use ur_disjoint::prove;
use ur_rows::{NormalType, Part, boxed, copy_row, copy_type, joined};
use ur_tree::{Binary, Unary};

/// `-e` and `not e`.
pub fn unary_out(alloc: Global, op: Unary, of: NormalType, out: Out) -> Result<Out, Memory>
    ensures { IfOk result (λ o. (s : GhostScope) (before after : GhostSites) (u : GhostType) (a : GhostWalk) → a s before (wants u) ≡ Some (out_with out after) → rules.one_out op u of s before a ≡ Some (out_with o after)) }
{
    let exp = unary_of(alloc, op, out.exp)?;
    Ok(Out { of, exp })
}

fn shown(alloc: Global, out: Out) -> Result<Out, Memory>
    ensures { IfOk result (λ o. (st : GhostSites) → rules.gives ty.Str (make.unary unary.Show out.exp) st ≡ Some (out_with o st)) }
{
    let exp = unary_of(alloc, Unary::Show, out.exp)?;
    Ok(Out {
        of: NormalType::Str,
        exp,
    })
}

fn not_basic(alloc: Global, around: &Around, span: Span, of: &NormalType) -> Stop
    ensures { StopIs around.now.world.now.datatype_names (faults.not_of_type around.now.world.now.datatype_names of.now (codes "int, string or bool")) result }
{
    let names = around.world.datatype_names.as_slice();
    not_of_type(alloc, names, span, of, b"int, string or bool")
}

/// `show e`.
pub fn show_out(alloc: Global, around: &Around, span: Span, out: Out) -> Result<Out, Stop>
    ensures shown { IfOk result (λ o. (s : GhostScope) (before after : GhostSites) (a : GhostWalk) → a s before finds ≡ Some (out_with out after) → rules.show_out s before a ≡ Some (out_with o after)) }
    ensures refused { IfRefused result (TellsShow around.now out) }
{
    if is_basic(&out.of) {
        let made = shown(alloc, out)?;
        return Ok(made);
    }
    Err(not_basic(alloc, around, span, &out.of))
}

#[tactic(auto, using(crate::proofs::Sided::types))]
fn option_of(alloc: Global, of: NormalType) -> Result<NormalType, Memory>
    ensures { IfOk result (λ t. t ≡ types.option_of of) }
{
    let item = boxed(alloc, of)?;
    Ok(NormalType::Opt(item))
}

#[tactic(auto, using(crate::proofs::Sided::types))]
fn transaction_of(alloc: Global, of: NormalType) -> Result<NormalType, Memory>
    ensures { IfOk result (λ t. t ≡ types.transaction_of of) }
{
    let item = boxed(alloc, of)?;
    Ok(NormalType::Transaction(item))
}

/// `Some e`.
pub fn some_out(alloc: Global, out: Out) -> Result<Out, Memory>
    ensures { IfOk result (λ o. (s : GhostScope) (before after : GhostSites) (m : GhostMode) (a : GhostWalk) → a s before (of_option m) ≡ Some (out_with out after) → rules.some_out s before m a ≡ Some (out_with o after)) }
{
    let Out { of, exp } = out;
    let of = option_of(alloc, of)?;
    let exp = unary_of(alloc, Unary::Present, exp)?;
    Ok(Out { of, exp })
}

/// `return e`.
pub fn return_out(alloc: Global, out: Out) -> Result<Out, Memory>
    ensures { IfOk result (λ o. (s : GhostScope) (before after : GhostSites) (m : GhostMode) (a : GhostWalk) → a s before (of_transaction m) ≡ Some (out_with out after) → rules.return_out s before m a ≡ Some (out_with o after)) }
{
    let Out { of, exp } = out;
    let of = transaction_of(alloc, of)?;
    let exp = unary_of(alloc, Unary::Return, exp)?;
    Ok(Out { of, exp })
}

/// The record of the fields of two rows.
#[tactic(auto, using(crate::proofs::Sided::types))]
fn joined_record(alloc: Global, left: &List<Part>, right: &List<Part>) -> Result<NormalType, Memory>
    ensures { IfOk result (λ t. t ≡ record_of (order.joined left.now right.now)) }
{
    let left = copy_row(alloc, left)?;
    let right = copy_row(alloc, right)?;
    let row = joined(left, right)?;
    Ok(NormalType::Record(row))
}

/// Whether the rows are apart.
fn rows_apart(around: &Around, left: &List<Part>, right: &List<Part>) -> bool
    ensures { result ≡ is_apart (env_in around.now.scope.cons).known left.now right.now }
{
    prove(around.scope.cons.known, left.as_slice(), right.as_slice())
}

fn rows_meet(
    alloc: Global,
    around: &Around,
    span: Span,
    left: &List<Part>,
    right: &List<Part>,
) -> Stop
    ensures { StopIs around.now.world.now.datatype_names (faults.not_apart left.now right.now) result }
{
    let names = around.world.datatype_names.as_slice();
    not_apart(alloc, names, span, left.as_slice(), right.as_slice())
}

/// The record of the fields of two rows, where these are apart.
fn joined_rows(
    alloc: Global,
    around: &Around,
    span: Span,
    left: &List<Part>,
    right: &List<Part>,
) -> Result<NormalType, Stop>
    ensures joined { IfOk result (λ t. rules.join_types (env_in around.now.scope.cons).known (Some left.now) (Some right.now) ≡ Some t) }
    ensures refused { IfRefused result (Refuses around.now.world.now.datatype_names (BreaksJoined (env_in around.now.scope.cons).known left.now right.now)) }
{
    if rows_apart(around, left, right) {
        let joined = joined_record(alloc, left, right)?;
        return Ok(joined);
    }
    Err(rows_meet(alloc, around, span, left, right))
}

/// The type of `++`. The spans are those of the whole, the left side and the right side.
fn join_type(
    alloc: Global,
    around: &Around,
    spans: (Span, Span, Span),
    left: &NormalType,
    right: &NormalType,
) -> Result<NormalType, Stop>
    ensures joined { IfOk result (λ t. rules.operation_type (env_in around.now.scope.cons).known typing.joins left.now right.now ≡ Some t) }
    ensures refused { IfRefused result (Refuses around.now.world.now.datatype_names (BreaksJoin around.now.world.now.datatype_names (env_in around.now.scope.cons).known left.now right.now)) }
{
    match row_of(left) {
        Some(r) => match row_of(right) {
            Some(s) => joined_rows(alloc, around, spans.0, r, s),
            None => Err(no_record(alloc, around, spans.2, right)),
        },
        None => Err(no_record(alloc, around, spans.1, left)),
    }
}

#[tactic(auto, using(crate::proofs::Sided::types))]
fn list_of(alloc: Global, of: &NormalType) -> Result<NormalType, Memory>
    ensures { IfOk result (λ t. t ≡ types.list_of of.now) }
{
    let copy = copy_type(alloc, of)?;
    let item = boxed(alloc, copy)?;
    Ok(NormalType::Many(item))
}

/// The type of an operator between sides of these types.
fn operation_type(
    alloc: Global,
    around: &Around,
    spans: (Span, Span, Span),
    operation: &Operation,
    left: &NormalType,
    right: &NormalType,
) -> Result<NormalType, Stop>
    ensures typed { IfOk result (λ t. rules.operation_type (env_in around.now.scope.cons).known (operation_in operation.now) left.now right.now ≡ Some t) }
    ensures refused { IfRefused result (Refuses around.now.world.now.datatype_names (BreaksOperation around.now.world.now.datatype_names (env_in around.now.scope.cons).known (operation_in operation.now) left.now right.now)) }
{
    match operation {
        Operation::OfTwo(_, of) => {
            let given = copy_type(alloc, of)?;
            Ok(given)
        }
        Operation::Equates => Ok(NormalType::Bool),
        Operation::Orders => Ok(NormalType::Bool),
        Operation::Conses => {
            let list = list_of(alloc, left)?;
            Ok(list)
        }
        Operation::Joins => join_type(alloc, around, spans, left, right),
    }
}

/// An operator with its two sides, the left of which may have its type. The spans are those of the whole, the left side
/// and the right side.
pub fn sides_out(
    alloc: Global,
    around: &Around,
    spans: (Span, Span, Span),
    op: Binary,
    operation: &Operation,
    left: Out,
    right: Out,
) -> Result<Out, Stop>
    ensures joined { IfOk result (GivesSides around.now op operation.now left right) }
    ensures refused { IfRefused result (TellsSides around.now op operation.now left right) }
{
    let of = operation_type(alloc, around, spans, operation, &left.of, &right.of)?;
    let exp = binary_of(alloc, op, left.exp, right.exp)?;
    Ok(Out { of, exp })
}
