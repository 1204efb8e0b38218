//! The targets of links and buttons, and the values of fields.
ghost use Rattle.std.specs.Prelude.{◌≡◌, ◌≤◌, ◌<◌, ℕ, List as GhostList, true, false, [], ◌∷◌, length, slice_get, Some, IfOk, OnOk};
ghost use Rattle.std.specs.Option.{option_copied};
ghost use Rattle.ur_base.specs.Stopping.{IfRefused};
ghost use Rattle.ur_syntax.specs.declared.xml.XmlPart.{XmlPart as GhostXmlPart};
ghost use Rattle.ur_rows.specs.declared.normal.NormalType.{NormalType as GhostType};
ghost use Rattle.ur_rows.specs.Kinded.{label_is_in};
ghost use Rattle.ur_rows.specs.Types.{field as field_part};
ghost use Rattle.ur_tree.specs.Places as places;
ghost use Rattle.ur_xmltype.specs.Tags as node;
ghost use Rattle.ur_xmltype.specs.Views.{place_in};
ghost use Rattle.ur_tree.specs.declared.exp.Markup.TheVariants as markup;
ghost use Rattle.ur_tree.specs.Env.{variables};
ghost use Rattle.ur_typed_rules.specs.Scopes.{World as GhostWorld, Scope as GhostScope};
ghost use Rattle.ur_typed_rules.specs.Faults.{TellsType as TellsFault};
ghost use Rattle.ur_typed.specs.Faults as faults;
ghost use Rattle.ur_typed.specs.Rules as rules;
ghost use Rattle.ur_typed.specs.Rules.{Sites as GhostSites};
ghost use Rattle.ur_typed.specs.Markups as markups;
ghost use Rattle.ur_typed.specs.Parts.{is_applied};
ghost use Rattle.ur_check_rules.specs.Telling.{TellsIn};
ghost use Rattle.ur_check_scopes.specs.Views.{Stands, StopIs};
ghost use Rattle.ur_check_rules.specs.Views.{args_with};
ghost use Rattle.ur_check_forms.specs.Views.{marks_with, marked_with, records_in};
ghost use Rattle.ur_check_walk.specs.Promises.{StandsSomewhere};
ghost use Rattle.ur_check_walk.specs.Applying.{forms_in};
ghost use Rattle.ur_check_walk.specs.Marking.{GivesNode, TellsNode};
ghost use Rattle.ur_check_walk.specs.Aiming.{Aims, BreaksAim, GivesTarget, TellsTarget, GivesValue, TellsValue, IsStray, held_with};

use crate::applied::{arguments, unapplied};
use crate::fields::is_label;
use crate::markup::{Within, parts_out};
use crate::walk::typed;
use std::alloc::Global;
use ur_base::{Boxed, List, Memory, Span, Stop};
use ur_check_forms::{Marked, Target, Waiting, action_types, link_types, mark_of};
use ur_check_rules::{Sites, function_named, string_of};
use ur_check_scopes::{Around, not_so, unkinded};
use ur_rows::{Label, NormalType, copy_label};
use ur_syntax::{AttrValue, Exp, XmlPart};
use ur_tree::{Exp as Resolved, Markup};
use ur_values::FieldKind;
use ur_xmltype::{Place, field_row};

/// Whether a target is that of a link or of an action.
#[derive(Clone, Copy)]
pub enum Aim {
    Link,
    Action,
}

/// The expression of an attribute. The parser gives each that it numbers.
fn attribute<'a>(within: &Within<'a>, number: u32) -> Result<&'a Exp, Memory>
    ensures { IfOk result (λ e. slice_get within.now.attributes.now number ≡ Some e.now) }
{
    match within.attributes.get(number as usize) {
        Some(e) => Ok(e),
        None => Err(Memory),
    }
}

/// The page function that stands there.
fn aimed(alloc: Global, around: &Around, span: Span, e: &Exp, aim: Aim) -> Result<Target, Stop>
    ensures named { IfOk result (λ t. (w : GhostWorld) (s : GhostScope) → Stands around.now w s → rules.function_named w s e.now.form ≡ Some t.number) }
    ensures target { IfOk result (λ t. (w : GhostWorld) (s : GhostScope) → Stands around.now w s → Aims aim w.declared t) }
    ensures refused { IfRefused result (TellsIn around.now (λ _ w s. BreaksAim aim w.declared (rules.function_named w s e.now.form))) }
{
    let found = function_named(around, e)?;
    match aim {
        Aim::Link => link_types(alloc, around, span, found),
        Aim::Action => action_types(alloc, around, span, found),
    }
}

fn too_many(alloc: Global, span: Span) -> Stop
    ensures { (names : GhostList (GhostList ℕ)) → StopIs names faults.too_many_given result }
{
    not_so(
        alloc,
        span,
        b"too many arguments",
        b"the arguments of a page function",
    )
}

/// No more arguments than types: further ones make a target of another shape.
fn few_enough(alloc: Global, args: &List<&Exp>, types: &[NormalType]) -> Result<(), Stop>
    ensures ok { OnOk result (length (forms_in args.now) ≤ length types.now) }
    ensures refused { IfRefused result (λ r. (length types.now < length (forms_in args.now)) × ((names : GhostList (GhostList ℕ)) → TellsFault names r faults.too_many_given)) }
{
    let given = args.as_slice();
    if given.len() <= types.len() {
        return Ok(());
    }
    let e = given[given.len() - 1 - types.len()];
    Err(too_many(alloc, e.span))
}

/// A page function that is applied to arguments, or stands alone.
#[cycle(walk)]
fn target_at(
    alloc: Global,
    around: &Around,
    sites: &mut Sites,
    span: Span,
    e: &Exp,
    aim: Aim,
) -> Result<(Target, List<Resolved>), Stop>
    requires { StandsSomewhere around.now }
    ensures typed { IfOk result (λ o. GivesTarget around.now sites.old aim e.now.form [] o sites.new) }
    ensures refused { IfRefused result (TellsTarget around.now sites.old aim e.now.form []) }
{
    let mut args = List::new(alloc);
    let head = unapplied(e, &mut args)?;
    target_named(alloc, around, sites, span, head, args, aim)
}

/// What is no application, with the arguments behind it.
#[cycle(walk)]
fn target_named(
    alloc: Global,
    around: &Around,
    sites: &mut Sites,
    span: Span,
    e: &Exp,
    args: List<&Exp>,
    aim: Aim,
) -> Result<(Target, List<Resolved>), Stop>
    requires { StandsSomewhere around.now }
    ensures typed { IfOk result (λ o. is_applied e.now.form ≡ false → GivesTarget around.now sites.old aim e.now.form (forms_in args.entry) o sites.new) }
    ensures refused { IfRefused result (λ r. is_applied e.now.form ≡ false → TellsTarget around.now sites.old aim e.now.form (forms_in args.entry) r) }
{
    let target = aimed(alloc, around, span, e, aim)?;
    let types = target.args.as_slice();
    few_enough(alloc, &args, types)?;
    let done = arguments(alloc, around, sites, span, args, types)?;
    Ok((target, done))
}

/// The expression of a `value`.
#[cycle(walk)]
fn value_given(
    alloc: Global,
    around: &Around,
    sites: &mut Sites,
    within: &Within,
    given: &AttrValue,
) -> Result<Boxed<Resolved>, Stop>
    requires { StandsSomewhere around.now }
    ensures typed { IfOk result (λ x. GivesValue around.now sites.old within.now (Some given.now) (Some x) sites.new) }
    ensures refused { IfRefused result (TellsValue around.now sites.old within.now (Some given.now)) }
{
    match given {
        AttrValue::Text(text) => {
            let made = string_of(alloc, text)?;
            Ok(made)
        }
        AttrValue::Exp(number) => {
            let e = attribute(within, *number)?;
            let out = typed(alloc, around, sites, e, Some(&NormalType::Str))?;
            Ok(out.exp)
        }
    }
}

/// The `value` of a tag, where it has one.
#[cycle(walk)]
fn value_at(
    alloc: Global,
    around: &Around,
    sites: &mut Sites,
    within: &Within,
    value: Option<&AttrValue>,
) -> Result<Option<Boxed<Resolved>>, Stop>
    requires { StandsSomewhere around.now }
    ensures typed { IfOk result (λ held. GivesValue around.now sites.old within.now (option_copied value.entry) held sites.new) }
    ensures refused { IfRefused result (TellsValue around.now sites.old within.now (option_copied value.entry)) }
{
    match value {
        Some(given) => {
            let made = value_given(alloc, around, sites, within, given)?;
            Ok(Some(made))
        }
        None => Ok(None),
    }
}

fn link_mark(
    alloc: Global,
    number: u32,
    args: List<Resolved>,
    inner: Marked,
) -> Result<Marked, Memory>
    ensures { IfOk result (λ m. (st : GhostSites) → markups.one_mark inner.row (records_in inner.waiting) (markup.Link' number (args_with args).0 (args_with args).1 (marks_with inner.marks).0 (marks_with inner.marks).1) st ≡ Some (marked_with m st)) }
{
    let Marked {
        row,
        waiting,
        marks,
    } = inner;
    mark_of(alloc, row, waiting, Markup::Link(number, args, marks))
}

/// `<a link={f a}>..</a>`.
#[cycle(walk)]
pub fn link(
    alloc: Global,
    around: &Around,
    sites: &mut Sites,
    within: &Within,
    number: u32,
    parts: &[XmlPart],
    place: Place,
) -> Result<Marked, Stop>
    requires { StandsSomewhere around.now }
    ensures typed { IfOk result (λ m. GivesNode around.now sites.old within.now (place_in place) parts.now (node.link number) m sites.new) }
    ensures refused { IfRefused result (TellsNode around.now sites.old within.now (place_in place) parts.now (node.link number)) }
{
    let e = attribute(within, number)?;
    let (target, args) = target_at(alloc, around, sites, e.span, e, Aim::Link)?;
    let inner = parts_out(alloc, around, sites, within, parts, place)?;
    let made = link_mark(alloc, target.number, args, inner)?;
    Ok(made)
}

fn input_mark(
    alloc: Global,
    kind: FieldKind,
    name: Label,
    held: Option<Boxed<Resolved>>,
) -> Result<Marked, Memory>
    ensures { IfOk result (λ m. (st : GhostSites) → markups.one_mark (field_part name (places.field_type kind) ∷ []) [] (markup.Input' kind name (held_with held)) st ≡ Some (marked_with m st)) }
{
    let label = copy_label(alloc, &name)?;
    let row = field_row(alloc, kind, label)?;
    let waiting = List::new(alloc);
    mark_of(alloc, row, waiting, Markup::Input(kind, name, held))
}

/// The name of a field is one in scope.
fn may_name(alloc: Global, around: &Around, span: Span, name: &Label) -> Result<(), Stop>
    ensures scoped { OnOk result ((w : GhostWorld) (s : GhostScope) → Stands around.now w s → label_is_in (variables s.env) name.now ≡ true) }
    ensures refused { IfRefused result (λ r. (w : GhostWorld) (s : GhostScope) → Stands around.now w s → IsStray around.now.world.now.datatype_names s name.now r) }
{
    if is_label(around, name) {
        return Ok(());
    }
    Err(unkinded(alloc, span, b"another kind", b"Name"))
}

/// A field of a form.
#[cycle(walk)]
pub fn input(
    alloc: Global,
    around: &Around,
    sites: &mut Sites,
    within: &Within,
    span: Span,
    kind: FieldKind,
    name: Label,
    value: Option<&AttrValue>,
) -> Result<Marked, Stop>
    requires { StandsSomewhere around.now }
    ensures typed { IfOk result (λ m. (p : places.Place) (parts : GhostList GhostXmlPart) → GivesNode around.now sites.old within.now p parts (node.input kind name (option_copied value.entry)) m sites.new) }
    ensures refused { IfRefused result (λ r. (p : places.Place) (parts : GhostList GhostXmlPart) → TellsNode around.now sites.old within.now p parts (node.input kind name (option_copied value.entry)) r) }
{
    may_name(alloc, around, span, &name)?;
    let held = value_at(alloc, around, sites, within, value)?;
    let made = input_mark(alloc, kind, name, held)?;
    Ok(made)
}

fn button(alloc: Global, span: Span, wanted: NormalType) -> Result<List<Waiting>, Memory>
    ensures { IfOk result (λ l. records_in l ≡ wanted ∷ []) }
{
    let mut waiting = List::new(alloc);
    waiting.push(Waiting { span, wanted })?;
    Ok(waiting)
}

fn submit_mark(
    alloc: Global,
    span: Span,
    number: u32,
    wanted: NormalType,
    args: List<Resolved>,
    held: Option<Boxed<Resolved>>,
) -> Result<Marked, Memory>
    ensures { IfOk result (λ m. (st : GhostSites) → markups.one_mark [] (wanted ∷ []) (markup.Submit' number (args_with args).0 (args_with args).1 (held_with held)) st ≡ Some (marked_with m st)) }
{
    let waiting = button(alloc, span, wanted)?;
    let row = List::new(alloc);
    mark_of(alloc, row, waiting, Markup::Submit(number, args, held))
}

/// A button for this target. Each action has the record of a form.
fn submitted(
    alloc: Global,
    span: Span,
    target: Target,
    args: List<Resolved>,
    held: Option<Boxed<Resolved>>,
) -> Result<Marked, Memory>
    ensures { IfOk result (λ m. (u : GhostType) (st : GhostSites) → target.wanted ≡ Some u → markups.one_mark [] (u ∷ []) (markup.Submit' target.number (args_with args).0 (args_with args).1 (held_with held)) st ≡ Some (marked_with m st)) }
{
    let Target { number, wanted, .. } = target;
    match wanted {
        Some(wanted) => submit_mark(alloc, span, number, wanted, args, held),
        None => Err(Memory),
    }
}

/// A button of a form.
#[cycle(walk)]
pub fn submit(
    alloc: Global,
    around: &Around,
    sites: &mut Sites,
    within: &Within,
    span: Span,
    number: u32,
    value: Option<&AttrValue>,
) -> Result<Marked, Stop>
    requires { StandsSomewhere around.now }
    ensures typed { IfOk result (λ m. (p : places.Place) (parts : GhostList GhostXmlPart) → GivesNode around.now sites.old within.now p parts (node.submit number (option_copied value.entry)) m sites.new) }
    ensures refused { IfRefused result (λ r. (p : places.Place) (parts : GhostList GhostXmlPart) → TellsNode around.now sites.old within.now p parts (node.submit number (option_copied value.entry)) r) }
{
    let e = attribute(within, number)?;
    let (target, args) = target_at(alloc, around, sites, e.span, e, Aim::Action)?;
    let held = value_at(alloc, around, sites, within, value)?;
    let made = submitted(alloc, span, target, args, held)?;
    Ok(made)
}
