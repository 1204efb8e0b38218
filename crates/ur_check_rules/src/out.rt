//! What is found of an expression.
ghost use Rattle.std.specs.Prelude.{◌≡◌, ◌||◌, not, nat_le, true, IfOk, OnOk, Some};
ghost use Rattle.std.specs.Option.{option_copied};
ghost use Rattle.ur_base.specs.Stopping.{IfRefused};
ghost use Rattle.ur_rows.specs.Nodes.{type_nodes};
ghost use Rattle.ur_rows.specs.Types as types;
ghost use Rattle.ur_tree.specs.IsStatic as statics;
ghost use Rattle.ur_typed_rules.specs.Tests.{same_type};
ghost use Rattle.ur_typed_rules.specs.Scopes.{World as GhostWorld, Scope as GhostScope, Mode as GhostMode};
ghost use Rattle.ur_typed.specs.Rules as rules;
ghost use Rattle.ur_typed.specs.Rules.{Sites as GhostSites, Out as GhostOut};
ghost use Rattle.ur_typed.specs.Causes.{BreaksSettled};
ghost use Rattle.ur_check_rules.specs.Telling.{TellsBehind};
ghost use Rattle.ur_check_scopes.specs.Views.{Stands, Refuses, mode_of};
ghost use Rattle.ur_check_rules.specs.Views.{out_with};

use crate::fixed::is_static;
use std::alloc::Global;
use ur_base::{Boxed, List, Memory, Span, Stop};
use ur_check_scopes::{Around, too_large, type_not_so, types_differ};
use ur_rows::{NormalType, equal_types, left_of_type};
use ur_rows_normal::{holds_arrow, may_run};
use ur_sql::{Change, Query};
use ur_tree::Exp;

/// The queries and changes that are numbered so far. A statement takes its number before its antiquotes are looked at,
/// which may hold further ones, and it stands in its place once their types are known.
#[derive(Drop)]
pub struct Sites {
    pub queries: List<Option<Query>>,
    pub changes: List<Option<Change>>,
}

/// A resolved expression with its type.
#[derive(Drop)]
pub struct Out {
    pub of: NormalType,
    pub exp: Boxed<Exp>,
}

/// The expression with the type.
pub fn gives(alloc: Global, of: NormalType, exp: Exp) -> Result<Out, Memory>
    ensures { IfOk result (λ o. (st : GhostSites) → rules.gives of exp st ≡ Some (out_with o st)) }
{
    let exp = Boxed::new(alloc, exp)?;
    Ok(Out { of, exp })
}

/// Whether the type has at most 65,536 nodes.
fn is_small(of: &NormalType) -> bool
    ensures { result ≡ nat_le (type_nodes of.now) 65536 }
{
    left_of_type(of, 65536).is_some()
}

/// Whether the type holds no arrow, or the expression is static.
fn may_move(out: &Out) -> bool
    ensures { result ≡ (not (types.holds_arrow out.now.of) || statics.is_static out.now.exp) }
{
    !holds_arrow(&out.of) || is_static(out.exp.get())
}

/// The type is within the limit, a transaction stands in it only where one may, and with an arrow in it the expression
/// is static.
fn is_accepted(alloc: Global, around: &Around, span: Span, out: &Out) -> Result<(), Stop>
    ensures ok { OnOk result (rules.is_accepted 65536 out.now.exp out.now.of ≡ true) }
    ensures refused { IfRefused result (λ r. (w : GhostWorld) (s : GhostScope) (m : GhostMode) (st : GhostSites) → Stands around.now w s → Refuses around.now.world.now.datatype_names (BreaksSettled around.now.world.now.datatype_names w m (out_with out.now st)) r) }
{
    let names = around.world.datatype_names.as_slice();
    if !is_small(&out.of) {
        return Err(too_large(alloc, span));
    }
    if !may_run(&out.of) {
        return Err(type_not_so(alloc, names, span, &out.of, b"no transaction within"));
    }
    if may_move(out) {
        return Ok(());
    }
    Err(type_not_so(alloc, names, span, &out.of, b"a static expression"))
}

fn same_type(a: &NormalType, b: &NormalType) -> bool
    ensures { result ≡ same_type a.now b.now }
{
    equal_types(a, b)
}

/// The type is the wanted one, where one is wanted.
pub fn fits(
    alloc: Global,
    around: &Around,
    span: Span,
    of: &NormalType,
    wanted: Option<&NormalType>,
) -> Result<(), Stop>
    ensures ok { OnOk result (rules.fits (mode_of (option_copied wanted.entry)) of.now ≡ true) }
    ensures refused { IfRefused result (λ r. (w : GhostWorld) (o : GhostOut) → o.of ≡ of.now → Refuses around.now.world.now.datatype_names (BreaksSettled around.now.world.now.datatype_names w (mode_of (option_copied wanted.entry)) o) r) }
{
    match wanted {
        Some(t) => {
            if same_type(of, t) {
                return Ok(());
            }
            let names = around.world.datatype_names.as_slice();
            Err(types_differ(alloc, names, span, of, t))
        }
        None => Ok(()),
    }
}

/// What is found, where its type is accepted, and is the wanted one.
pub fn settled(
    alloc: Global,
    around: &Around,
    span: Span,
    out: Out,
    wanted: Option<&NormalType>,
) -> Result<Out, Stop>
    ensures settled { IfOk result (λ o. (w : GhostWorld) (s : GhostScope) (st : GhostSites) → Stands around.now w s → rules.settled w.most (mode_of (option_copied wanted.entry)) (out_with out st) ≡ Some (out_with o st)) }
    ensures refused { IfRefused result (TellsBehind around.now (λ names w s st. BreaksSettled names w (mode_of (option_copied wanted.entry)) (out_with out st))) }
{
    fits(alloc, around, span, &out.of, wanted)?;
    is_accepted(alloc, around, span, &out)?;
    Ok(out)
}
