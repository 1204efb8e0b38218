//! Queries and changes.
ghost use Rattle.std.specs.Prelude.{◌≡◌, ℕ, length, is_some, true, [], ◌∷◌, List as GhostList, OnOk, IfOk, Some, Option, map, codes};
ghost use Rattle.std.specs.Option.{option_copied};
ghost use Rattle.ur_base.specs.Stopping.{IfRefused};
ghost use Rattle.ur_syntax.specs.declared.exp.LambdaParam.TheVariants as lambda_param;
ghost use Rattle.ur_rows.specs.declared.normal.Part.{Part as GhostPart};
ghost use Rattle.ur_rows.specs.Put.{as_type};
ghost use Rattle.ur_rows.specs.Made.{record_of};
ghost use Rattle.ur_rows.specs.Made as made;
ghost use Rattle.ur_rows.specs.Types as row_types;
ghost use Rattle.ur_tree.specs.declared.exp.Exp.TheVariants as exp;
ghost use Rattle.ur_tree.specs.Typing as typing;
ghost use Rattle.ur_tree.specs.Places.{sort_of};
ghost use Rattle.ur_tree.specs.QueryRow.{query_row};
ghost use Rattle.ur_tree.specs.Text as texts;
ghost use Rattle.ur_sqltype.specs.Faults.{six_kinds};
ghost use Rattle.ur_typed_rules.specs.Scopes.{World as GhostWorld, Scope as GhostScope, Mode as GhostMode, of_transaction, within_binder};
ghost use Rattle.ur_typed_rules.specs.Faults as faults;
ghost use Rattle.ur_typed.specs.Rules as rules;
ghost use Rattle.ur_typed.specs.Rules.{Sites as GhostSites};
ghost use Rattle.ur_typed.specs.Walking.{typed};
ghost use Rattle.ur_typed.specs.Faults.{BreaksRowFunction};
ghost use Rattle.ur_check_rules.specs.Telling.{TellsBehind, TellsIn};
ghost use Rattle.ur_check_scopes.specs.Views.{Stands, Refuses, StopIs};
ghost use Rattle.ur_check_rules.specs.Views.{sites_in, out_with, args_with};
ghost use Rattle.ur_check_forms.specs.Promises.{GivesAsked, GivesWritten, TellsWritten, GivesEach, TellsEach};
ghost use Rattle.ur_check_forms.specs.Views.{antiquotes_with};
ghost use Rattle.ur_check_forms.specs.Statements.{is_kind, are_kinds, IsOtherKind, BreaksQuery, BreaksChange, IsAsked, IsRowType, BreaksRowType, only};

use crate::marked::same;
use crate::runs::transaction_of;
use std::alloc::Global;
use ur_base::{Boxed, List, Memory, Span, Stop, Text};
use ur_check_rules::{Out, Sites, each_of};
use ur_check_scopes::{Around, misfit, normal_at, not_of_type, not_so, types_differ};
use ur_rows::{Normal, NormalType, Part, as_type, boxed, unit};
use ur_sql::{Change, Query};
use ur_sqltype::column_type_kind;
use ur_sqltype_statements::{TypedChange, TypedQuery, type_change, type_query};
use ur_syntax::{Binder, Con, LambdaParam, Param, QueryWord, SqlChange, SqlQuery};
use ur_terms::AnswerForm;
use ur_tree::{Exp, type_text};
use ur_xmltype::sort_of;

/// Antiquotes that are resolved, with their types and their places in the text.
#[derive(Drop)]
pub struct Antiquotes {
    pub exps: List<Exp>,
    pub types: List<Normal>,
    pub spans: List<Span>,
}

fn number(length: usize) -> Result<u32, Memory>
    ensures { IfOk result (λ n. n ≡ length) }
{
    if length < 4294967296 {
        return Ok(length as u32);
    }
    Err(Memory)
}

/// The number of the next query.
pub fn query_slot(sites: &mut Sites) -> Result<u32, Memory>
    ensures number { IfOk result (λ at. at ≡ length sites.old.queries) }
    ensures slot { OnOk result (sites_in sites.new ≡ rules.with_query_slot (sites_in sites.old)) }
{
    let at = number(sites.queries.len())?;
    sites.queries.push(None)?;
    Ok(at)
}

/// The number of the next change.
pub fn change_slot(sites: &mut Sites) -> Result<u32, Memory>
    ensures number { IfOk result (λ at. at ≡ length sites.old.changes) }
    ensures slot { OnOk result (sites_in sites.new ≡ rules.with_change_slot (sites_in sites.old)) }
{
    let at = number(sites.changes.len())?;
    sites.changes.push(None)?;
    Ok(at)
}

fn keep_query(sites: &mut Sites, at: u32, query: Query) -> Result<(), Memory>
    ensures { OnOk result (sites_in sites.new ≡ rules.with_query at query (sites_in sites.old)) }
{
    if (at as usize) < sites.queries.len() {
        sites.queries.set(at as usize, Some(query));
        return Ok(());
    }
    Err(Memory)
}

fn keep_change(sites: &mut Sites, at: u32, change: Change) -> Result<(), Memory>
    ensures { OnOk result (sites_in sites.new ≡ rules.with_change at change (sites_in sites.old)) }
{
    if (at as usize) < sites.changes.len() {
        sites.changes.set(at as usize, Some(change));
        return Ok(());
    }
    Err(Memory)
}

fn is_kind(of: &Normal) -> bool
    ensures { result ≡ is_kind of.now }
{
    match of {
        Normal::Type(t) => column_type_kind(t).is_some(),
        Normal::Name(_) => false,
        Normal::Row(_) => false,
        Normal::Fn(_, _) => false,
    }
}

fn text_of(alloc: Global, names: &[Text], of: &Normal) -> Result<Text, Memory>
    ensures { IfOk result (λ x. x ≡ texts.type_text names.now (as_type of.now)) }
{
    match of {
        Normal::Type(t) => {
            let text = type_text(alloc, names, t)?;
            Ok(text)
        }
        _ => Err(Memory),
    }
}

fn no_kind(alloc: Global, names: &[Text], span: Option<&Span>, of: &Normal) -> Stop
    ensures { StopIs names.now (faults.misfit (texts.type_text names.now (as_type of.now)) six_kinds) result }
{
    match span {
        Some(at) => match text_of(alloc, names, of) {
            Ok(text) => misfit(
                alloc,
                *at,
                text.as_slice(),
                b"int, string, bool or an option of these",
            ),
            Err(_want) => Stop::Memory,
        },
        None => Stop::Memory,
    }
}

/// Each antiquote is int, string, bool or an option of these.
fn are_kinds(alloc: Global, names: &[Text], types: &[Normal], spans: &[Span]) -> Result<(), Stop>
    ensures ok { OnOk result (are_kinds types.now ≡ true) }
    ensures refused { IfRefused result (Refuses names.now (IsOtherKind names.now (map as_type types.now))) }
{
    for i in 0..types.len() {
        let of = &types[i];
        if !is_kind(of) {
            return Err(no_kind(alloc, names, spans.get(i), of));
        }
    }
    Ok(())
}

/// The core query at its antiquotes, and the row of its answer.
fn typed_query(
    alloc: Global,
    around: &Around,
    query: &SqlQuery,
    antiquotes: &Antiquotes,
) -> Result<TypedQuery, Stop>
    ensures typed { IfOk result (λ t. (w : GhostWorld) (s : GhostScope) (st : GhostSites) → Stands around.now w s → (rules.query_at w query.now (antiquotes_with antiquotes.now st) ≡ Some t.core) × (t.row ≡ query_row w.fields t.core)) }
    ensures refused { IfRefused result (TellsBehind around.now (λ names w s st. BreaksQuery names w query.now (antiquotes_with antiquotes.now st))) }
{
    let world = around.world;
    let names = world.datatype_names.as_slice();
    let types = antiquotes.types.as_slice();
    are_kinds(alloc, names, types, antiquotes.spans.as_slice())?;
    let typed = type_query(alloc, &world.env, &world.schema, query, types, names)?;
    Ok(typed)
}

/// The core query at its antiquotes takes its place; the row of its answer.
pub fn query_at(
    alloc: Global,
    around: &Around,
    sites: &mut Sites,
    at: u32,
    query: &SqlQuery,
    antiquotes: &Antiquotes,
) -> Result<List<Part>, Stop>
    ensures asked { IfOk result (λ row. (w : GhostWorld) (s : GhostScope) → Stands around.now w s → IsAsked w query.now (antiquotes_with antiquotes.now (sites_in sites.old)) at row (sites_in sites.new)) }
    ensures refused { IfRefused result (TellsBehind around.now (λ names w s st. BreaksQuery names w query.now (antiquotes_with antiquotes.now st))) }
{
    let typed = typed_query(alloc, around, query, antiquotes)?;
    let TypedQuery { core, row, .. } = typed;
    keep_query(sites, at, core)?;
    Ok(row)
}

fn answer_form(how: QueryWord) -> AnswerForm
    ensures { result ≡ rules.answer_of how }
{
    match how {
        QueryWord::QueryL => AnswerForm::All,
        QueryWord::OneRow => AnswerForm::One,
        QueryWord::OneOrNoRows => AnswerForm::OneOrNone,
    }
}

#[tactic(auto, using(crate::proofs::Stating::types))]
fn answer_type(alloc: Global, how: AnswerForm, row: List<Part>) -> Result<NormalType, Memory>
    ensures { IfOk result (λ t. t ≡ typing.answer_type how row) }
{
    let whole = NormalType::Record(row);
    match how {
        AnswerForm::All => {
            let item = boxed(alloc, whole)?;
            Ok(NormalType::Many(item))
        }
        AnswerForm::One => Ok(whole),
        AnswerForm::OneOrNone => {
            let item = boxed(alloc, whole)?;
            Ok(NormalType::Opt(item))
        }
    }
}

#[tactic(auto, using(crate::proofs::Stating::types))]
fn ask_of(alloc: Global, how: AnswerForm, at: u32, args: List<Exp>) -> Result<Boxed<Exp>, Memory>
    ensures { IfOk result (λ x. x ≡ exp.Ask' how at (args_with args).0 (args_with args).1) }
{
    Boxed::new(alloc, Exp::Ask(how, at, args))
}

#[tactic(auto, using(crate::proofs::Stating::types))]
fn write_of(alloc: Global, at: u32, args: List<Exp>) -> Result<Boxed<Exp>, Memory>
    ensures { IfOk result (λ x. x ≡ exp.Write' at (args_with args).0 (args_with args).1) }
{
    Boxed::new(alloc, Exp::Write(at, args))
}

/// `queryL`, `oneRow` and `oneOrNoRows`.
pub fn ask_out(
    alloc: Global,
    how: QueryWord,
    at: u32,
    row: List<Part>,
    antiquotes: Antiquotes,
) -> Result<Out, Memory>
    ensures { IfOk result (GivesAsked how at row antiquotes) }
{
    let form = answer_form(how);
    let answer = answer_type(alloc, form, row)?;
    let of = transaction_of(alloc, answer)?;
    let exp = ask_of(alloc, form, at, antiquotes.exps)?;
    Ok(Out { of, exp })
}

/// The core change at its antiquotes.
fn typed_change(
    alloc: Global,
    around: &Around,
    change: &SqlChange,
    antiquotes: &Antiquotes,
) -> Result<TypedChange, Stop>
    ensures typed { IfOk result (λ t. (w : GhostWorld) (s : GhostScope) (st : GhostSites) → Stands around.now w s → rules.change_at w change.now (antiquotes_with antiquotes.now st) ≡ Some t.core) }
    ensures refused { IfRefused result (TellsBehind around.now (λ names w s st. BreaksChange names w change.now (antiquotes_with antiquotes.now st))) }
{
    let world = around.world;
    let names = world.datatype_names.as_slice();
    let types = antiquotes.types.as_slice();
    are_kinds(alloc, names, types, antiquotes.spans.as_slice())?;
    let typed = type_change(alloc, &world.env, &world.schema, change, types, names)?;
    Ok(typed)
}

fn written(alloc: Global, at: u32, antiquotes: Antiquotes) -> Result<Out, Memory>
    ensures { IfOk result (λ o. (st : GhostSites) → rules.gives (row_types.transaction_of made.unit) (exp.Write' at (args_with antiquotes.exps).0 (args_with antiquotes.exps).1) st ≡ Some (out_with o st)) }
{
    let of = transaction_of(alloc, unit(alloc))?;
    let exp = write_of(alloc, at, antiquotes.exps)?;
    Ok(Out { of, exp })
}

/// `dml`: the core change takes its place.
pub fn write_out(
    alloc: Global,
    around: &Around,
    sites: &mut Sites,
    at: u32,
    change: &SqlChange,
    antiquotes: Antiquotes,
) -> Result<Out, Stop>
    ensures written { IfOk result (GivesWritten around.now at change.now antiquotes (sites_in sites.old) (sites_in sites.new)) }
    ensures refused { IfRefused result (TellsWritten around.now change.now antiquotes (sites_in sites.old)) }
{
    let typed = typed_change(alloc, around, change, &antiquotes)?;
    keep_change(sites, at, typed.core)?;
    let made = written(alloc, at, antiquotes)?;
    Ok(made)
}

fn other_function(alloc: Global, span: Span) -> Stop
    ensures { (names : GhostList (GhostList ℕ)) → StopIs names (faults.not_so (codes "a row function") (codes "one variable")) result }
{
    not_so(alloc, span, b"a row function", b"one variable")
}

/// The type of the row function's variable is that of the answer's records.
fn is_row_type(alloc: Global, around: &Around, con: &Con, whole: &NormalType) -> Result<(), Stop>
    ensures ok { OnOk result ((w : GhostWorld) (s : GhostScope) → Stands around.now w s → IsRowType w s con.now whole.now) }
    ensures refused { IfRefused result (TellsIn around.now (λ names w s. BreaksRowType names w s con.now whole.now)) }
{
    let form = normal_at(alloc, &around.scope.cons, con)?;
    let of = as_type(alloc, form);
    if same(&of, whole) {
        return Ok(());
    }
    let names = around.world.datatype_names.as_slice();
    Err(types_differ(alloc, names, con.span, &of, whole))
}

fn typed_variable<'e>(
    alloc: Global,
    around: &Around,
    span: Span,
    param: &'e Param,
    whole: &NormalType,
) -> Result<&'e Binder, Stop>
    ensures variable { IfOk result (λ x. (w : GhostWorld) (s : GhostScope) (r : GhostList GhostPart) → Stands around.now w s → whole.now ≡ record_of r → rules.row_param w s r (lambda_param.Typed param.now ∷ []) ≡ Some x.now) }
    ensures refused { IfRefused result (λ r. (w : GhostWorld) (s : GhostScope) (row : GhostList GhostPart) → Stands around.now w s → whole.now ≡ record_of row → Refuses around.now.world.now.datatype_names (BreaksRowFunction around.now.world.now.datatype_names w s row (lambda_param.Typed param.now ∷ [])) r) }
{
    match param {
        Param::Value(x, con) => {
            is_row_type(alloc, around, con, whole)?;
            Ok(x)
        }
        Param::Unit => Err(other_function(alloc, span)),
    }
}

fn row_variable<'e>(
    alloc: Global,
    around: &Around,
    span: Span,
    param: &'e LambdaParam,
    whole: &NormalType,
) -> Result<&'e Binder, Stop>
    ensures variable { IfOk result (λ x. (w : GhostWorld) (s : GhostScope) (r : GhostList GhostPart) → Stands around.now w s → whole.now ≡ record_of r → rules.row_param w s r (param.now ∷ []) ≡ Some x.now) }
    ensures refused { IfRefused result (λ r. (w : GhostWorld) (s : GhostScope) (row : GhostList GhostPart) → Stands around.now w s → whole.now ≡ record_of row → Refuses around.now.world.now.datatype_names (BreaksRowFunction around.now.world.now.datatype_names w s row (param.now ∷ [])) r) }
{
    match param {
        LambdaParam::Bare(x) => Ok(x),
        LambdaParam::Typed(p) => typed_variable(alloc, around, span, p, whole),
        LambdaParam::Con(_) => Err(other_function(alloc, span)),
    }
}

fn only<'e>(params: &'e [LambdaParam]) -> Option<&'e LambdaParam>
    ensures { option_copied result ≡ only params.now }
{
    match params {
        [param] => Some(param),
        _ => None,
    }
}

/// The variable of the row function of `queryX`, whose type need not be written. `whole` is the type of the answer's
/// records.
pub fn row_param<'e>(
    alloc: Global,
    around: &Around,
    span: Span,
    params: &'e [LambdaParam],
    whole: &NormalType,
) -> Result<&'e Binder, Stop>
    ensures variable { IfOk result (λ x. (w : GhostWorld) (s : GhostScope) (r : GhostList GhostPart) → Stands around.now w s → whole.now ≡ record_of r → rules.row_param w s r params.now ≡ Some x.now) }
    ensures refused { IfRefused result (λ r. (w : GhostWorld) (s : GhostScope) (row : GhostList GhostPart) → Stands around.now w s → whole.now ≡ record_of row → Refuses around.now.world.now.datatype_names (BreaksRowFunction around.now.world.now.datatype_names w s row params.now) r) }
{
    match only(params) {
        Some(param) => row_variable(alloc, around, span, param, whole),
        None => Err(other_function(alloc, span)),
    }
}

fn is_xml(of: &NormalType) -> bool
    ensures { result ≡ is_some (sort_of of.now) }
{
    sort_of(of).is_some()
}

/// `queryX`: what the row function gives is XML. The span is that of the function's body.
pub fn each_out(
    alloc: Global,
    around: &Around,
    span: Span,
    at: u32,
    antiquotes: Antiquotes,
    body: Out,
) -> Result<Out, Stop>
    ensures each { IfOk result (GivesEach at antiquotes body) }
    ensures refused { IfRefused result (TellsEach around.now at antiquotes body) }
{
    if !is_xml(&body.of) {
        let names = around.world.datatype_names.as_slice();
        return Err(not_of_type(alloc, names, span, &body.of, b"xml"));
    }
    let Out { of, exp } = body;
    let of = transaction_of(alloc, of)?;
    let exp = each_of(alloc, at, antiquotes.exps, exp)?;
    Ok(Out { of, exp })
}
