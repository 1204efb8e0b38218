//! The head of a function.
ghost use Rattle.std.specs.Prelude.{◌≡◌, ◌&&◌, ℕ, true, false, nat_le, [], ◌∷◌, map, slice_get, Some, IfOk, OnOk, List as GhostList};
ghost use Rattle.std.specs.List.{list_all};
ghost use Rattle.ur_base.specs.Stopping.{IfRefused};
ghost use Rattle.ur_syntax.specs.declared.con.ConEnv.{ConEnv as GhostEnv};
ghost use Rattle.ur_syntax.specs.declared.con.ConParam.TheVariants as written_con;
ghost use Rattle.ur_rows.specs.Nodes.{nodes, most_nodes};
ghost use Rattle.ur_rows.specs.Normal.{nf};
ghost use Rattle.ur_rows.specs.Types.{holds_arrow};
ghost use Rattle.ur_rows_normal.specs.Preparing.{Reads, Covers};
ghost use Rattle.ur_tree.specs.App.{within_head};
ghost use Rattle.ur_tree.specs.Env.{variables};
ghost use Rattle.ur_rows.specs.Kinded.{row_is_in};
ghost use Rattle.ur_tree.specs.declared.exp.Param.{Param as GhostParam};
ghost use Rattle.ur_typed_rules.specs.Names.{Names as GhostNames};
ghost use Rattle.ur_typed_rules.specs.Tests.{is_type};
ghost use Rattle.ur_typed_rules.specs.Arguments.{BreaksWritten};
ghost use Rattle.ur_typed_rules.specs.Rules.{small_type, may_be_param};
ghost use Rattle.ur_check_scopes.specs.Views.{Refuses, IsLarge, env_in, head_in, local_in, param_in};
ghost use Rattle.ur_check_scopes.specs.Params.{IsWrittenType};
ghost use Rattle.ur_typed.specs.Project.{names_at};
ghost use Rattle.ur_typed.specs.Declaring.{Sofar, Heading, datatype_names, con_params_out, all_params_out, small_row, con_param_fits, written_heading, head_fits, heading_out};
ghost use Rattle.ur_typed.specs.DeclFaults.{HasLargeSide, HasLargeParam, BreaksHeadParams, BreaksHead, BreaksHeading};
ghost use Rattle.ur_check_heads.specs.Views.{Sees, names_after};
ghost use Rattle.ur_check_heads.specs.Heading.{BreaksSides, BreaksCons, BreaksResult, MayBeWritten};
ghost use Rattle.ur_typed_rules.specs.Faults as faults;

use crate::bodies::{HeadScope, bind_param, head_scope};
use crate::project::{LEVELS, Project};
use std::alloc::Global;
use ur_base::{List, Memory, Span, Stop};
use ur_check_scopes::{
    Around, Cons, Head, Local, Locals, Scope, is_type, normal_at, param_out, tree_params,
    type_not_so, unkinded, written_is_param,
};
use ur_rows::{NormalType, Part, as_row, as_type};
use ur_rows_normal::{Layer, Place, holds_arrow, row_is_in};
use ur_syntax::{Con, ConParam as WrittenCon, FunDef, Param as Written, copy_kind};
use ur_tree::{ConParam, Param};

// ---- the head as it is written

/// The constructors in scope, of which the names alone are asked.
fn cons_at<'a>(place: &Place<'a>) -> Cons<'a>
    ensures { result.names ≡ place.now }
{
    Cons {
        names: *place,
        kinds: &[],
        known: &[],
    }
}

/// A side of `~`.
fn side(alloc: Global, place: &Place, con: &Con) -> Result<List<Part>, Stop>
    ensures row { IfOk result (λ row. (env : GhostEnv) → Reads place.now env → small_row most_nodes (nf env con.now) ≡ Some row) }
    ensures refused { IfRefused result (λ r. IsLarge r × ((env : GhostEnv) → Reads place.now env → nat_le (nodes (nf env con.now)) most_nodes ≡ false)) }
{
    let cons = cons_at(place);
    let form = normal_at(alloc, &cons, con)?;
    let row = as_row(alloc, form);
    Ok(row)
}

/// Two rows that are to be apart.
fn sides(alloc: Global, place: &Place, one: &Con, other: &Con) -> Result<ConParam, Stop>
    ensures param { IfOk result (λ p. (known : GhostNames) → Reads place.now known.cons → con_params_out most_nodes known (written_con.Disjoint one.now other.now ∷ []) ≡ Some (known, p ∷ [])) }
    ensures refused { IfRefused result (λ r. IsLarge r × ((known : GhostNames) → Reads place.now known.cons → HasLargeSide most_nodes known (written_con.Disjoint one.now other.now ∷ []))) }
{
    let left = side(alloc, place, one)?;
    let right = side(alloc, place, other)?;
    Ok(ConParam::Apart(left, right))
}

/// A constructor parameter behind those whose variables are bound.
fn con_param(
    alloc: Global,
    place: &Place,
    names: &Layer,
    written: &WrittenCon,
) -> Result<ConParam, Stop>
    ensures param { IfOk result (λ p. (known : GhostNames) → Covers names.now place.now known.cons → con_params_out most_nodes known (written.now ∷ []) ≡ Some (names_after (written.now ∷ []) known, p ∷ [])) }
    ensures refused { IfRefused result (λ r. IsLarge r × ((known : GhostNames) → Covers names.now place.now known.cons → HasLargeSide most_nodes known (written.now ∷ []))) }
{
    match written {
        WrittenCon::Kinded(_, kind) => {
            let copy = copy_kind(alloc, kind)?;
            Ok(ConParam::Kinded(copy))
        }
        WrittenCon::Disjoint(one, other) => {
            let outside = *place;
            let inner = names.over(&outside);
            let apart = sides(alloc, &inner, one, other)?;
            Ok(apart)
        }
    }
}

/// The constructor parameters of a function, and their variables over the names of a place.
#[derive(Drop)]
struct Parameters {
    names: Layer,
    cons: List<ConParam>,
}

fn con_params(alloc: Global, place: &Place, written: &[WrittenCon]) -> Result<Parameters, Stop>
    ensures names { IfOk result (λ p. (known : GhostNames) → Reads place.now known.cons → Covers p.names place.now (names_after written.now known).cons) }
    ensures params { IfOk result (λ p. (known : GhostNames) → Reads place.now known.cons → con_params_out most_nodes known written.now ≡ Some (names_after written.now known, p.cons)) }
    ensures refused { IfRefused result (λ r. IsLarge r × ((known : GhostNames) → Reads place.now known.cons → HasLargeSide most_nodes known written.now)) }
{
    let mut names = Layer::new(alloc, place);
    let mut cons = List::new(alloc);
    for i in 0..written.len() {
        let param = &written[i];
        let con = con_param(alloc, place, &names, param)?;
        bind_param(alloc, &mut names, param)?;
        cons.push(con)?;
    }
    Ok(Parameters { names, cons })
}

/// The parameters of a function.
fn params(alloc: Global, place: &Place, written: &[Written]) -> Result<List<Local>, Stop>
    ensures params { IfOk result (λ ls. (known : GhostNames) → Reads place.now known.cons → all_params_out most_nodes known written.now ≡ Some (map local_in ls, map param_in ls)) }
    ensures refused { IfRefused result (λ r. IsLarge r × ((known : GhostNames) → Reads place.now known.cons → HasLargeParam most_nodes known written.now)) }
{
    let cons = cons_at(place);
    let mut locals = List::new(alloc);
    for i in 0..written.len() {
        let local = param_out(alloc, &cons, &written[i])?;
        locals.push(local)?;
    }
    Ok(locals)
}

/// The result of a function.
fn result_at(alloc: Global, place: &Place, con: &Con) -> Result<NormalType, Stop>
    ensures of { IfOk result (λ t. (env : GhostEnv) → Reads place.now env → small_type most_nodes (nf env con.now) ≡ Some t) }
    ensures refused { IfRefused result (λ r. IsLarge r × ((env : GhostEnv) → Reads place.now env → nat_le (nodes (nf env con.now)) most_nodes ≡ false)) }
{
    let cons = cons_at(place);
    let form = normal_at(alloc, &cons, con)?;
    let of = as_type(alloc, form);
    Ok(of)
}

/// The head of a function with these constructor parameters.
fn head_behind(
    alloc: Global,
    place: &Place,
    parameters: Parameters,
    function: &FunDef,
) -> Result<Head, Stop>
    ensures head { IfOk result (λ h. (known : GhostNames) → Covers parameters.names place.now (names_after function.now.con_params known).cons → con_params_out most_nodes known function.now.con_params ≡ Some (names_after function.now.con_params known, parameters.cons)
        → (w : Heading) × (written_heading most_nodes known function.now ≡ Some w) × (w.head ≡ head_in h)) }
    ensures refused { IfRefused result (λ r. IsLarge r × ((known : GhostNames) (texts : GhostList (GhostList ℕ)) → Covers parameters.names place.now (names_after function.now.con_params known).cons
        → con_params_out most_nodes known function.now.con_params ≡ Some (names_after function.now.con_params known, parameters.cons) → BreaksHeading texts most_nodes known function.now faults.too_large)) }
{
    let Parameters { names, cons } = parameters;
    let outside = *place;
    let inner = names.over(&outside);
    let locals = params(alloc, &inner, function.params.as_slice())?;
    let result = result_at(alloc, &inner, &function.result)?;
    let params = tree_params(alloc, locals.as_slice())?;
    Ok(Head {
        cons,
        params,
        result,
    })
}

/// The head of a function as it is written.
fn written_head(alloc: Global, place: &Place, function: &FunDef) -> Result<Head, Stop>
    ensures head { IfOk result (λ h. (known : GhostNames) → Reads place.now known.cons → (w : Heading) × (written_heading most_nodes known function.now ≡ Some w) × (w.head ≡ head_in h)) }
    ensures refused { IfRefused result (λ r. IsLarge r × ((known : GhostNames) (texts : GhostList (GhostList ℕ)) → Reads place.now known.cons → BreaksHeading texts most_nodes known function.now faults.too_large)) }
{
    let parameters = con_params(alloc, place, function.con_params.as_slice())?;
    let head = head_behind(alloc, place, parameters, function)?;
    Ok(head)
}

// ---- whether it may be written

/// Where a side of `~` is written.
fn side_span(written: &[WrittenCon], at: usize, whole: Span) -> Span {
    match written.get(at) {
        Some(param) => left_span(param, whole),
        None => whole,
    }
}

fn left_span(param: &WrittenCon, whole: Span) -> Span {
    match param {
        WrittenCon::Disjoint(left, _) => left.span,
        WrittenCon::Kinded(_, _) => whole,
    }
}

fn are_rows(cons: &Cons, one: &List<Part>, other: &List<Part>) -> Result<bool, Memory>
    ensures { IfOk result (λ b. b ≡ (row_is_in (variables (env_in cons.now)) one.now && row_is_in (variables (env_in cons.now)) other.now)) }
{
    let left = row_is_in(one, cons.kinds, 0)?;
    let right = row_is_in(other, cons.kinds, 0)?;
    Ok(left && right)
}

/// Both sides of `~` are rows.
fn sides_fit(alloc: Global, around: &Around, span: Span, con: &ConParam) -> Result<(), Stop>
    ensures ok { OnOk result (con_param_fits (env_in around.now.scope.cons) con.now ≡ true) }
    ensures refused { IfRefused result (Refuses around.now.world.now.datatype_names (BreaksSides (env_in around.now.scope.cons) con.now)) }
{
    match con {
        ConParam::Kinded(_) => Ok(()),
        ConParam::Apart(one, other) => {
            let fits = are_rows(&around.scope.cons, one, other)?;
            if fits {
                return Ok(());
            }
            Err(unkinded(alloc, span, b"another kind", b"{Type}"))
        }
    }
}

fn cons_fit(
    alloc: Global,
    around: &Around,
    function: &FunDef,
    cons: &[ConParam],
) -> Result<(), Stop>
    ensures ok { OnOk result (list_all (con_param_fits (env_in around.now.scope.cons)) cons.now ≡ true) }
    ensures refused { IfRefused result (Refuses around.now.world.now.datatype_names (BreaksCons (env_in around.now.scope.cons) cons.now)) }
{
    for i in 0..cons.len() {
        let span = side_span(function.con_params.as_slice(), i, function.span);
        sides_fit(alloc, around, span, &cons[i])?;
    }
    Ok(())
}

/// The type at one place may be that of its parameter, if there is one.
fn param_fits(
    alloc: Global,
    around: &Around,
    written: &Written,
    params: &[Param],
    at: usize,
) -> Result<(), Stop>
    ensures ok { OnOk result ((p : GhostParam) → slice_get params.now at ≡ Some p → IsWrittenType written.now p.of → may_be_param (env_in around.now.scope.cons) p.of ≡ true) }
    ensures refused { IfRefused result (Refuses around.now.world.now.datatype_names (λ f. (p : GhostParam) × (slice_get params.now at ≡ Some p) × BreaksWritten (env_in around.now.scope.cons) written.now p.of f)) }
{
    let count = params.len();
    if at < count {
        return written_is_param(alloc, around, written, &params[at].of);
    }
    Ok(())
}

fn params_fit(
    alloc: Global,
    around: &Around,
    written: &[Written],
    params: &[Param],
) -> Result<(), Stop>
    ensures ok { OnOk result (MayBeWritten (env_in around.now.scope.cons) written.now params.now) }
    ensures refused { IfRefused result (Refuses around.now.world.now.datatype_names (BreaksHeadParams (env_in around.now.scope.cons) written.now params.now)) }
{
    for i in 0..written.len() {
        param_fits(alloc, around, &written[i], params, i)?;
    }
    Ok(())
}

/// The result may be written, and no type in it has an arrow.
fn result_fits(alloc: Global, around: &Around, con: &Con, of: &NormalType) -> Result<(), Stop>
    ensures typed { OnOk result (is_type (env_in around.now.scope.cons) of.now ≡ true) }
    ensures no_arrow { OnOk result (holds_arrow of.now ≡ false) }
    ensures refused { IfRefused result (Refuses around.now.world.now.datatype_names (BreaksResult around.now.world.now.datatype_names (env_in around.now.scope.cons) con.now of.now)) }
{
    is_type(alloc, around, con, of)?;
    if !holds_arrow(of) {
        return Ok(());
    }
    let names = around.world.datatype_names.as_slice();
    Err(type_not_so(alloc, names, con.span, of, b"a result without an arrow"))
}

/// Whether a head may be written.
fn head_fits(alloc: Global, around: &Around, function: &FunDef, head: &Head) -> Result<(), Stop>
    ensures ok { OnOk result (env_in around.now.scope.cons ≡ within_head (head_in head.now) → (known : GhostNames) (w : Heading) → written_heading most_nodes known function.now ≡ Some w → w.head ≡ head_in head.now → head_fits (head_in head.now) ≡ true) }
    ensures refused { IfRefused result (λ r. env_in around.now.scope.cons ≡ within_head (head_in head.now) → Refuses around.now.world.now.datatype_names (BreaksHead around.now.world.now.datatype_names function.now (head_in head.now)) r) }
{
    cons_fit(alloc, around, function, head.cons.as_slice())?;
    params_fit(
        alloc,
        around,
        function.params.as_slice(),
        head.params.as_slice(),
    )?;
    result_fits(alloc, around, &function.result, &head.result)?;
    Ok(())
}

/// Where the types of a head are written.
fn around_head<'a>(project: &'a Project, place: Place<'a>, scope: &'a HeadScope) -> Around<'a>
    ensures world { result.world.now ≡ project.now.world }
    ensures kinds { result.scope.cons.kinds.now ≡ scope.now.kinds }
    ensures known { result.scope.cons.known.now ≡ scope.now.known }
{
    Around {
        world: &project.world,
        scope: Scope {
            cons: Cons {
                names: place,
                kinds: scope.kinds.as_slice(),
                known: scope.known.as_slice(),
            },
            locals: Locals::Nothing,
        },
        levels: LEVELS,
    }
}

/// The head of a function, which may be written.
pub fn head_of(alloc: Global, project: &Project, function: &FunDef) -> Result<Head, Stop>
    ensures head { IfOk result (λ h. (home : ℕ) (z : Sofar) → Sees project.now home z → (w : Heading) × (heading_out most_nodes (names_at z.place) function.now ≡ Some w) × (w.head ≡ head_in h)) }
    ensures refused { IfRefused result (λ r. (home : ℕ) (z : Sofar) → Sees project.now home z → Refuses (datatype_names z) (BreaksHeading (datatype_names z) most_nodes (names_at z.place) function.now) r) }
{
    let place = project.names.in_scope();
    let head = written_head(alloc, &place, function)?;
    let scope = head_scope(alloc, head.cons.as_slice())?;
    let around = around_head(project, place, &scope);
    head_fits(alloc, &around, function, &head)?;
    Ok(head)
}
