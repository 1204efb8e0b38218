//! Cookies, queries and changes.
ghost use Rattle.std.specs.Prelude.{◌≡◌, ℕ, List as GhostList, [], ◌∷◌, ◌++◌, IfOk, codes};
ghost use Rattle.std.specs.Option.{option_copied};
ghost use Rattle.ur_base.specs.Stopping.{IfRefused};
ghost use Rattle.ur_syntax.specs.declared.exp.ExpForm.TheVariants as form;
ghost use Rattle.ur_rows.specs.Made.{record_of};
ghost use Rattle.ur_rows.specs.declared.normal.Normal.TheVariants as normal;
ghost use Rattle.ur_typed_rules.specs.Scopes.{Mode as GhostMode};
ghost use Rattle.ur_typed_rules.specs.Faults as faults;
ghost use Rattle.ur_check_scopes.specs.Views.{mode_of, StopIs};
ghost use Rattle.ur_check_walk.specs.Promises.{StandsSomewhere, Gives, Tells};
ghost use Rattle.ur_check_walk.specs.Embedding.{GivesAntiquotes, TellsAntiquotes, GivesRows, TellsRows};

use crate::bound::within;
use crate::walk::typed;
use std::alloc::Global;
use std::slice;
use ur_base::{List, Memory, Span, Stop};
use ur_check_forms::{
    Antiquotes, ask_out, change_slot, cookie_at, cookie_value, each_out, query_at, query_slot,
    row_param, set_cookie_out, write_out,
};
use ur_check_rules::{Out, Sites, pushed};
use ur_check_scopes::{Around, binder_local, not_so, of_transaction};
use ur_rows::{Normal, NormalType, Part};
use ur_sqltype::kind_type;
use ur_syntax::{DeclName, Exp, ExpForm, LambdaParam, QueryWord, SqlChange, SqlQuery};

/// `setCookie c {Value = e, Expires = None, Secure = False}`.
#[cycle(walk)]
pub fn set_cookie(
    alloc: Global,
    around: &Around,
    sites: &mut Sites,
    name: &DeclName,
    value: &Exp,
) -> Result<Out, Stop>
    requires { StandsSomewhere around.now }
    ensures typed { IfOk result (λ o. (m : GhostMode) → Gives around.now sites.old (form.SetCookie name.now value.now) m o sites.new) }
    ensures refused { IfRefused result (λ r. (m : GhostMode) → Tells around.now sites.old (form.SetCookie name.now value.now) m r) }
{
    let cookie = cookie_at(alloc, around, name)?;
    let e = cookie_value(alloc, value)?;
    let of = kind_type(alloc, cookie.kind)?;
    let out = typed(alloc, around, sites, e, Some(&of))?;
    let made = set_cookie_out(alloc, cookie, out)?;
    Ok(made)
}

fn no_antiquotes(alloc: Global) -> Antiquotes
    ensures exps { result.exps ≡ [] }
    ensures types { result.types ≡ [] }
{
    Antiquotes {
        exps: List::new(alloc),
        types: List::new(alloc),
        spans: List::new(alloc),
    }
}

fn with_antiquote(list: Antiquotes, span: Span, out: Out) -> Result<Antiquotes, Memory>
    ensures exps { IfOk result (λ l. l.exps ≡ list.exps ++ out.exp ∷ []) }
    ensures types { IfOk result (λ l. l.types ≡ list.types ++ normal.Type out.of ∷ []) }
    ensures spans { IfOk result (λ l. l.spans ≡ list.spans ++ span ∷ []) }
{
    let Antiquotes {
        exps,
        mut types,
        mut spans,
    } = list;
    types.push(Normal::Type(out.of))?;
    spans.push(span)?;
    let exps = pushed(exps, out.exp)?;
    Ok(Antiquotes { exps, types, spans })
}

/// The antiquotes of a statement, whose types are found.
#[cycle(walk)]
fn all_antiquotes(
    alloc: Global,
    around: &Around,
    sites: &mut Sites,
    args: &[Exp],
) -> Result<Antiquotes, Stop>
    requires { StandsSomewhere around.now }
    ensures typed { IfOk result (λ l. GivesAntiquotes around.now sites.old args.now l sites.new) }
    ensures refused { IfRefused result (TellsAntiquotes around.now sites.old args.now) }
{
    let mut list = no_antiquotes(alloc);
    for i in 0..args.len() {
        let written = &args[i];
        let out = typed(alloc, around, sites, written, None)?;
        list = with_antiquote(list, written.span, out)?;
    }
    Ok(list)
}

/// `dml (..)`.
#[cycle(walk)]
pub fn change(
    alloc: Global,
    around: &Around,
    sites: &mut Sites,
    written: &SqlChange,
    args: &[Exp],
) -> Result<Out, Stop>
    requires { StandsSomewhere around.now }
    ensures typed { IfOk result (λ o. (m : GhostMode) → Gives around.now sites.old (form.Dml written.now args.now) m o sites.new) }
    ensures refused { IfRefused result (λ r. (m : GhostMode) → Tells around.now sites.old (form.Dml written.now args.now) m r) }
{
    let at = change_slot(sites)?;
    let list = all_antiquotes(alloc, around, sites, args)?;
    let made = write_out(alloc, around, sites, at, written, list)?;
    Ok(made)
}

/// `queryL (..)` and its like.
#[cycle(walk)]
pub fn query(
    alloc: Global,
    around: &Around,
    sites: &mut Sites,
    how: QueryWord,
    written: &SqlQuery,
    args: &[Exp],
) -> Result<Out, Stop>
    requires { StandsSomewhere around.now }
    ensures typed { IfOk result (λ o. (m : GhostMode) → Gives around.now sites.old (form.Query how written.now args.now) m o sites.new) }
    ensures refused { IfRefused result (λ r. (m : GhostMode) → Tells around.now sites.old (form.Query how written.now args.now) m r) }
{
    let at = query_slot(sites)?;
    let list = all_antiquotes(alloc, around, sites, args)?;
    let row = query_at(alloc, around, sites, at, written, &list)?;
    let made = ask_out(alloc, how, at, row, list)?;
    Ok(made)
}

fn no_lambda(alloc: Global, span: Span) -> Stop
    ensures { (names : GhostList (GhostList ℕ)) → StopIs names (faults.not_so (codes "a function") (codes "fn x => e")) result }
{
    not_so(alloc, span, b"a function", b"fn x => e")
}

/// `queryX (..) (fn x => e)`.
#[cycle(walk)]
pub fn each(
    alloc: Global,
    around: &Around,
    sites: &mut Sites,
    written: &SqlQuery,
    args: &[Exp],
    f: &Exp,
    wanted: Option<&NormalType>,
) -> Result<Out, Stop>
    requires { StandsSomewhere around.now }
    ensures typed { IfOk result (λ o. Gives around.now sites.old (form.QueryX written.now args.now f.now) (mode_of (option_copied wanted.entry)) o sites.new) }
    ensures refused { IfRefused result (Tells around.now sites.old (form.QueryX written.now args.now f.now) (mode_of (option_copied wanted.entry))) }
{
    let at = query_slot(sites)?;
    let list = all_antiquotes(alloc, around, sites, args)?;
    let row = query_at(alloc, around, sites, at, written, &list)?;
    match &f.form {
        ExpForm::Lambda(params, body) => {
            let own = params.as_slice();
            let e = body.get();
            let out = rows(alloc, around, sites, f.span, own, e, row, wanted)?;
            let made = each_out(alloc, around, e.span, at, list, out)?;
            Ok(made)
        }
        _ => Err(no_lambda(alloc, f.span)),
    }
}

#[tactic(auto, using(crate::proofs::Stated::types))]
fn row_record(row: List<Part>) -> NormalType
    ensures { result ≡ record_of row }
{
    NormalType::Record(row)
}

/// The body of the row function.
#[cycle(walk)]
fn rows(
    alloc: Global,
    around: &Around,
    sites: &mut Sites,
    span: Span,
    params: &[LambdaParam],
    body: &Exp,
    row: List<Part>,
    wanted: Option<&NormalType>,
) -> Result<Out, Stop>
    requires { StandsSomewhere around.now }
    ensures typed { IfOk result (λ o. GivesRows around.now sites.old row params.now body.now (mode_of (option_copied wanted.entry)) o sites.new) }
    ensures refused { IfRefused result (TellsRows around.now sites.old row params.now body.now (mode_of (option_copied wanted.entry))) }
{
    let whole = row_record(row);
    let x = row_param(alloc, around, span, params, &whole)?;
    let local = binder_local(alloc, x, whole)?;
    let inner = within(&*around, slice::from_ref(&local));
    let asked = of_transaction(wanted);
    let out = typed(alloc, &inner, sites, body, asked)?;
    Ok(out)
}
