//! Records.
ghost use Rattle.std.specs.Prelude.{◌≡◌, true, [], ◌∷◌, ◌++◌, IfOk};
ghost use Rattle.std.specs.Option.{option_copied};
ghost use Rattle.ur_base.specs.Stopping.{IfRefused};
ghost use Rattle.ur_syntax.specs.declared.exp.ExpForm.TheVariants as form;
ghost use Rattle.ur_rows.specs.Kinded.{label_is_in};
ghost use Rattle.ur_rows.specs.Types as types;
ghost use Rattle.ur_tree.specs.Env.{variables};
ghost use Rattle.ur_typed_rules.specs.Scopes.{World as GhostWorld, Scope as GhostScope, Mode as GhostMode};
ghost use Rattle.ur_typed_rules.specs.Rules.{label_at};
ghost use Rattle.ur_check_rules.specs.Telling.{TellsIn};
ghost use Rattle.ur_check_scopes.specs.Views.{Stands, mode_of};
ghost use Rattle.ur_check_walk.specs.Promises.{StandsSomewhere, Gives, Tells};
ghost use Rattle.ur_check_walk.specs.Records.{BreaksLabel, TakesField, TellsField, GivesFields};

use crate::walk::typed;
use std::alloc::Global;
use ur_base::{List, Memory, Span, Stop};
use ur_check_rules::{Out, Sites, record_out, with_field};
use ur_check_scopes::{Around, label_at, of_field, unkinded};
use ur_rows::{Label, NormalType, Part, boxed, copy_label};
use ur_rows_normal::label_is_in;
use ur_syntax::{Field, FieldName};
use ur_tree::FieldExp;

/// The fields of a record so far, in written order: their types and their values.
#[derive(Drop)]
pub struct Fields {
    pub parts: List<Part>,
    pub values: List<FieldExp>,
}

fn no_fields(alloc: Global) -> Fields
    ensures parts { result.parts ≡ [] }
    ensures values { result.values ≡ [] }
{
    Fields {
        parts: List::new(alloc),
        values: List::new(alloc),
    }
}

/// A field of a row.
#[tactic(auto, using(crate::proofs::Records::made))]
fn field_part(alloc: Global, label: &Label, of: NormalType) -> Result<Part, Memory>
    ensures { IfOk result (λ p. p ≡ types.field label.now of) }
{
    let name = copy_label(alloc, label)?;
    let item = boxed(alloc, of)?;
    Ok(Part::Field(name, item))
}

/// The fields with one more.
fn with_value(alloc: Global, fields: Fields, label: Label, out: Out) -> Result<Fields, Memory>
    ensures parts { IfOk result (λ f. f.parts ≡ fields.parts ++ types.field label out.of ∷ []) }
    ensures values { IfOk result (λ f. f.values ≡ fields.values ++ record { name = label; of = out.exp } ∷ []) }
{
    let Fields { mut parts, values } = fields;
    let Out { of, exp } = out;
    let part = field_part(alloc, &label, of)?;
    parts.push(part)?;
    let values = with_field(values, label, exp)?;
    Ok(Fields { parts, values })
}

/// Whether the name is one in scope.
pub fn is_label(around: &Around, label: &Label) -> bool
    ensures { (w : GhostWorld) (s : GhostScope) → Stands around.now w s → result ≡ label_is_in (variables s.env) label.now }
{
    label_is_in(label, around.scope.cons.kinds)
}

/// The name of a field, which is one in scope.
fn field_label(alloc: Global, around: &Around, span: Span, name: &FieldName) -> Result<Label, Stop>
    ensures label { IfOk result (λ l. (w : GhostWorld) (s : GhostScope) → Stands around.now w s → l ≡ label_at s name.now) }
    ensures scoped { IfOk result (λ l. (w : GhostWorld) (s : GhostScope) → Stands around.now w s → label_is_in (variables s.env) (label_at s name.now) ≡ true) }
    ensures refused { IfRefused result (TellsIn around.now (λ _ w s. BreaksLabel s name.now)) }
{
    let label = label_at(alloc, &around.scope.cons, name)?;
    if is_label(around, &label) {
        return Ok(label);
    }
    Err(unkinded(alloc, span, b"another kind", b"Name"))
}

/// `{A = e, ..}`.
#[cycle(walk)]
pub fn record(
    alloc: Global,
    around: &Around,
    sites: &mut Sites,
    span: Span,
    written: &[Field],
    wanted: Option<&NormalType>,
) -> Result<Out, Stop>
    requires { StandsSomewhere around.now }
    ensures typed { IfOk result (λ o. Gives around.now sites.old (form.Record written.now) (mode_of (option_copied wanted.entry)) o sites.new) }
    ensures refused { IfRefused result (Tells around.now sites.old (form.Record written.now) (mode_of (option_copied wanted.entry))) }
{
    let fields = fields_of(alloc, around, sites, written, wanted)?;
    let made = record_out(alloc, around, span, written, fields.parts, fields.values)?;
    Ok(made)
}

/// The fields of a record, in written order.
#[cycle(walk)]
fn fields_of(
    alloc: Global,
    around: &Around,
    sites: &mut Sites,
    written: &[Field],
    wanted: Option<&NormalType>,
) -> Result<Fields, Stop>
    requires { StandsSomewhere around.now }
    ensures typed { IfOk result (λ f. GivesFields around.now sites.old written.now (mode_of (option_copied wanted.entry)) f sites.new) }
    ensures refused { IfRefused result (Tells around.now sites.old (form.Record written.now) (mode_of (option_copied wanted.entry))) }
{
    let mut fields = no_fields(alloc);
    let mut left = written;
    while let Some((first, rest)) = left.split_first() {
        fields = one_more(alloc, around, sites, fields, first, wanted)?;
        left = rest;
    }
    Ok(fields)
}

/// The fields so far with a further one.
#[cycle(walk)]
fn one_more(
    alloc: Global,
    around: &Around,
    sites: &mut Sites,
    fields: Fields,
    written: &Field,
    wanted: Option<&NormalType>,
) -> Result<Fields, Stop>
    requires { StandsSomewhere around.now }
    ensures typed { IfOk result (λ f. TakesField around.now sites.old written.now (mode_of (option_copied wanted.entry)) fields f sites.new) }
    ensures refused { IfRefused result (TellsField around.now sites.old written.now (mode_of (option_copied wanted.entry))) }
{
    let label = field_label(alloc, around, written.value.span, &written.name)?;
    let asked = of_field(&label, wanted);
    let out = typed(alloc, around, sites, &written.value, asked)?;
    let made = with_value(alloc, fields, label, out)?;
    Ok(made)
}
