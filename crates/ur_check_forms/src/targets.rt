//! The targets of links and actions.
ghost use Rattle.std.specs.Prelude.{◌≡◌, ℕ, List as GhostList, IfOk, true, false, Some, None, codes};
ghost use Rattle.ur_base.specs.Stopping.{IfRefused};
ghost use Rattle.ur_rows.specs.Made.{record_of};
ghost use Rattle.ur_tree.specs.Typing.{is_linkable, are_linkable, types_of, no_fixed};
ghost use Rattle.ur_typed_rules.specs.Tests.{is_page, is_page_type, no_cons};
ghost use Rattle.ur_typed_rules.specs.Scopes.{World as GhostWorld, Scope as GhostScope};
ghost use Rattle.ur_typed_rules.specs.Faults.{TellsType, not_so};
ghost use Rattle.ur_typed.specs.Faults as faults;
ghost use Rattle.ur_typed.specs.Markups.{page_params};
ghost use Rattle.ur_check_rules.specs.Telling.{TellsIn};
ghost use Rattle.ur_check_scopes.specs.Views.{Stands, StopIs, head_in};
ghost use Rattle.ur_check_forms.specs.Targets.{IsLink, IsAction, IsNoPage, BreaksLink, BreaksAction, Takes, is_whole_page};

use std::alloc::Global;
use ur_base::{List, Memory, Span, Stop};
use ur_check_rules::is_basic;
use ur_check_scopes::{Around, Head, function_at, not_so};
use ur_rows::{NormalType, Part, copy_type};
use ur_tree::{ConParam, Param};

/// A page function by its number, with the types that are wanted of its arguments and, of an action, the type of the
/// form's record.
#[derive(Drop)]
pub struct Target {
    pub number: u32,
    pub args: List<NormalType>,
    pub wanted: Option<NormalType>,
}

fn is_whole_page(of: &NormalType) -> bool
    ensures { result ≡ is_whole_page of.now }
{
    match of {
        NormalType::Page => true,
        _ => false,
    }
}

#[tactic(auto, using(crate::proofs::Aiming::pages))]
fn is_page_type(of: &NormalType) -> bool
    ensures { result ≡ is_page_type of.now }
{
    match of {
        NormalType::Transaction(inner) => is_whole_page(inner.get()),
        _ => false,
    }
}

fn none_fixed(params: &[Param]) -> bool
    ensures { result ≡ no_fixed params.now }
{
    for i in 0..params.len() {
        if params[i].fixed {
            return false;
        }
    }
    true
}

fn no_cons(cons: &List<ConParam>) -> bool
    ensures { result ≡ no_cons cons.now }
{
    cons.is_empty()
}

/// No constructor and no static parameters, and a page as the result.
pub fn is_page(head: &Head) -> bool
    ensures { result ≡ is_page (head_in head.now) }
{
    if !no_cons(&head.cons) {
        return false;
    }
    if !none_fixed(head.params.as_slice()) {
        return false;
    }
    is_page_type(&head.result)
}

fn is_unit(row: &List<Part>) -> bool
    ensures { result ≡ is_linkable (record_of row.now) }
{
    row.is_empty()
}

/// int, string, bool and unit.
#[tactic(auto, using(crate::proofs::Aiming::pages))]
pub fn is_linkable(of: &NormalType) -> bool
    ensures { result ≡ is_linkable of.now }
{
    match of {
        NormalType::Record(row) => is_unit(row),
        _ => is_basic(of),
    }
}

fn may_be_linked(param: &Param) -> bool
    ensures { result ≡ is_linkable param.now.of }
{
    is_linkable(&param.of)
}

pub fn are_linkable(params: &[Param]) -> bool
    ensures { result ≡ are_linkable (types_of params.now) }
{
    for i in 0..params.len() {
        if !may_be_linked(&params[i]) {
            return false;
        }
    }
    true
}

fn type_of(alloc: Global, param: &Param) -> Result<NormalType, Memory>
    ensures { IfOk result (λ t. t ≡ param.now.of) }
{
    copy_type(alloc, &param.of)
}

fn copy_types(alloc: Global, params: &[Param]) -> Result<List<NormalType>, Memory>
    ensures { IfOk result (λ ts. ts ≡ types_of params.now) }
{
    let mut types = List::new(alloc);
    for i in 0..params.len() {
        let of = type_of(alloc, &params[i])?;
        types.push(of)?;
    }
    Ok(types)
}

fn not_linkable(alloc: Global, span: Span) -> Stop
    ensures { (names : GhostList (GhostList ℕ)) → StopIs names faults.not_linkable result }
{
    not_so(alloc, span, b"a parameter", b"int, string, bool or unit")
}

fn no_page(alloc: Global, span: Span, word: &[u8]) -> Stop
    ensures { (names : GhostList (GhostList ℕ)) → StopIs names (not_so word.now (codes "a call of a page function")) result }
{
    not_so(alloc, span, word, b"a call of a page function")
}

/// The page function with that number.
fn page_of<'a>(
    alloc: Global,
    around: &Around<'a>,
    span: Span,
    word: &[u8],
    number: u32,
) -> Result<&'a Head, Stop>
    ensures page { IfOk result (λ h. (w : GhostWorld) (s : GhostScope) → Stands around.now w s → page_params w.declared number ≡ Some (types_of h.now.params)) }
    ensures refused { IfRefused result (TellsIn around.now (λ _ w s. IsNoPage w.declared number word.now)) }
{
    match function_at(around.world, number) {
        Some(head) => {
            if is_page(head) {
                return Ok(head);
            }
            Err(no_page(alloc, span, word))
        }
        None => Err(Stop::Memory),
    }
}

fn link_to(alloc: Global, around: &Around, span: Span, number: u32) -> Result<Target, Stop>
    ensures number { IfOk result (λ t. t.number ≡ number) }
    ensures target { IfOk result (λ t. (w : GhostWorld) (s : GhostScope) → Stands around.now w s → IsLink w.declared t) }
    ensures refused { IfRefused result (TellsIn around.now (λ _ w s. BreaksLink w.declared (Some number))) }
{
    let head = page_of(alloc, around, span, b"a link", number)?;
    let params = head.params.as_slice();
    if !are_linkable(params) {
        return Err(not_linkable(alloc, span));
    }
    let args = copy_types(alloc, params)?;
    Ok(Target {
        number,
        args,
        wanted: None,
    })
}

/// The page function with that number, as a target of a link.
pub fn link_types(
    alloc: Global,
    around: &Around,
    span: Span,
    found: Option<u32>,
) -> Result<Target, Stop>
    ensures number { IfOk result (λ t. found ≡ Some t.number) }
    ensures target { IfOk result (λ t. (w : GhostWorld) (s : GhostScope) → Stands around.now w s → IsLink w.declared t) }
    ensures refused { IfRefused result (TellsIn around.now (λ _ w s. BreaksLink w.declared found)) }
{
    match found {
        Some(number) => link_to(alloc, around, span, number),
        None => Err(no_page(alloc, span, b"a link")),
    }
}

/// What is wanted by an action of the parameters before the last one, and of the form's record.
fn acting(
    alloc: Global,
    span: Span,
    number: u32,
    front: &[Param],
    last: &Param,
) -> Result<Target, Stop>
    ensures target { IfOk result (λ t. Takes t number (types_of front.now) last.now.of) }
    ensures refused { IfRefused result (λ r. (are_linkable (types_of front.now) ≡ false) × ((names : GhostList (GhostList ℕ)) → TellsType names r faults.not_linkable)) }
{
    if !are_linkable(front) {
        return Err(not_linkable(alloc, span));
    }
    let args = copy_types(alloc, front)?;
    let wanted = type_of(alloc, last)?;
    Ok(Target {
        number,
        args,
        wanted: Some(wanted),
    })
}

fn action_on(alloc: Global, around: &Around, span: Span, number: u32) -> Result<Target, Stop>
    ensures number { IfOk result (λ t. t.number ≡ number) }
    ensures target { IfOk result (λ t. (w : GhostWorld) (s : GhostScope) → Stands around.now w s → IsAction w.declared t) }
    ensures refused { IfRefused result (TellsIn around.now (λ _ w s. BreaksAction w.declared (Some number))) }
{
    let head = page_of(alloc, around, span, b"an action", number)?;
    match head.params.as_slice().split_last() {
        Some((last, front)) => acting(alloc, span, number, front, last),
        None => Err(no_page(alloc, span, b"an action")),
    }
}

/// The page function with that number, as a target of an action.
pub fn action_types(
    alloc: Global,
    around: &Around,
    span: Span,
    found: Option<u32>,
) -> Result<Target, Stop>
    ensures number { IfOk result (λ t. found ≡ Some t.number) }
    ensures target { IfOk result (λ t. (w : GhostWorld) (s : GhostScope) → Stands around.now w s → IsAction w.declared t) }
    ensures refused { IfRefused result (TellsIn around.now (λ _ w s. BreaksAction w.declared found)) }
{
    match found {
        Some(number) => action_on(alloc, around, span, number),
        None => Err(no_page(alloc, span, b"an action")),
    }
}
