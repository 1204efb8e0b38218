//! Nodes of closed static expressions.
ghost use Rattle.std.specs.Prelude.{map, Option, Some, option_map, IfOk};
ghost use Rattle.std.specs.Option.{option_copied};
ghost use Rattle.ur_terms.specs.Values.{without_field};
ghost use Rattle.ur_values.specs.declared.value.Value.TheVariants as v;
ghost use Rattle.ur_rows.specs.Put.{instance};
ghost use Rattle.ur_tree.specs.declared.closed.Static.{Static};
ghost use Rattle.ur_tree.specs.declared.closed.Static.TheVariants as st;
ghost use Rattle.ur_source.specs.Reading.{label_number};
ghost use Rattle.ur_source.specs.Static.{as_static_fields, static_project, static_cut, static_join};
ghost use Rattle.ur_unfold_static.specs.Held.{Grows, static_of_node};
ghost use Rattle.ur_unfold_static.specs.Scopes.{IsAt, MayBeAt, cons_of};
ghost use Rattle.ur_unfold_pieces.specs.Closes.{FieldsMayBe, fields_joined};

use crate::constructors::instances_of;
use crate::lambdas::added;
use crate::reading::name_of;
use crate::records::{all_fields, field_at, push_others};
use std::alloc::Global;
use ur_base::{List, Memory, Name, Text};
use ur_rows::{Label, Normal};
use ur_unfold_static::{Closing, Field, Node, Scope};

/// The number of a node, which is there.
pub fn some_added(closing: &mut Closing<'_>, node: Node) -> Result<Option<u32>, Memory>
    ensures made { IfOk result (λ j. MayBeAt closing.new.statics j (Some (static_of_node closing.old node))) }
    ensures grows { Grows closing.old closing.new }
{
    let number = added(closing, node)?;
    Ok(Some(number))
}

pub fn text_node(
    alloc: Global,
    closing: &mut Closing<'_>,
    text: &Text,
) -> Result<Option<u32>, Memory>
    ensures made { IfOk result (λ j. MayBeAt closing.new.statics j (Some (st.Literal (v.Str text.now)))) }
    ensures grows { Grows closing.old closing.new }
{
    let text = List::from_slice(alloc, text.as_slice())?;
    some_added(closing, Node::Str(text))
}

/// A named function. There is no memory for one with a constructor that has too many nodes.
pub fn function_node(
    alloc: Global,
    closing: &mut Closing<'_>,
    scope: &Scope,
    k: u32,
    args: &List<Normal>,
) -> Result<Option<u32>, Memory>
    ensures made { IfOk result (λ j. MayBeAt closing.new.statics j (Some (st.Function k (map (instance (cons_of closing.old scope.now)) args.now)))) }
    ensures grows { Grows closing.old closing.new }
{
    let cons = instances_of(alloc, closing, scope, args)?;
    some_added(closing, Node::Function(k, cons))
}

/// A field of a static record.
fn field_in(closing: &Closing<'_>, number: u32, name: Name) -> Option<u32>
    ensures { (s : Static) → IsAt closing.now.statics number s → MayBeAt closing.now.statics result (static_project (Some name) (Some s)) }
{
    match fields_of(closing, number) {
        Some(fields) => field_at(name, fields),
        None => None,
    }
}

/// The fields of the record with this number.
fn fields_of<'b>(closing: &'b Closing<'_>, number: u32) -> Option<&'b List<Field>>
    ensures { (s : Static) → IsAt closing.now.statics number s → FieldsMayBe closing.now.statics (option_copied result) (as_static_fields s) }
{
    match closing.node(number) {
        Some(node) => match node {
            Node::Record(fields) => Some(fields),
            Node::Int(_) => None,
            Node::Str(_) => None,
            Node::Bool(_) => None,
            Node::Function(_, _) => None,
            Node::Lambda { .. } => None,
        },
        None => None,
    }
}

/// A static record without a field.
fn cut_node(
    alloc: Global,
    closing: &mut Closing<'_>,
    number: u32,
    name: Name,
) -> Result<Option<u32>, Memory>
    ensures made { IfOk result (λ j. (s : Static) → IsAt closing.old.statics number s → MayBeAt closing.new.statics j (static_cut (Some name) (Some s))) }
    ensures grows { Grows closing.old closing.new }
{
    match others_of(alloc, closing, number, name)? {
        None => Ok(None),
        Some(fields) => some_added(closing, Node::Record(fields)),
    }
}

/// The fields of the record with this number, but those of this name.
fn others_of(
    alloc: Global,
    closing: &Closing<'_>,
    number: u32,
    name: Name,
) -> Result<Option<List<Field>>, Memory>
    ensures { IfOk result (λ f. (s : Static) → IsAt closing.now.statics number s → FieldsMayBe closing.now.statics f (option_map (without_field name) (as_static_fields s))) }
{
    match fields_of(closing, number) {
        None => Ok(None),
        Some(fields) => {
            let mut others = List::new(alloc);
            push_others(name, fields, &mut others)?;
            Ok(Some(others))
        }
    }
}

/// The fields of two static records together.
fn join_nodes(
    alloc: Global,
    closing: &mut Closing<'_>,
    left: u32,
    right: u32,
) -> Result<Option<u32>, Memory>
    ensures made { IfOk result (λ j. (s t : Static) → IsAt closing.old.statics left s → IsAt closing.old.statics right t → MayBeAt closing.new.statics j (static_join (Some s) (Some t))) }
    ensures grows { Grows closing.old closing.new }
{
    match joined_fields(alloc, closing, left, right)? {
        None => Ok(None),
        Some(fields) => some_added(closing, Node::Record(fields)),
    }
}

fn joined_fields(
    alloc: Global,
    closing: &Closing<'_>,
    left: u32,
    right: u32,
) -> Result<Option<List<Field>>, Memory>
    ensures { IfOk result (λ f. (s t : Static) → IsAt closing.now.statics left s → IsAt closing.now.statics right t → FieldsMayBe closing.now.statics f (fields_joined s t)) }
{
    match fields_of(closing, left) {
        None => Ok(None),
        Some(more) => match fields_of(closing, right) {
            None => Ok(None),
            Some(fields) => {
                let fields = List::from_slice(alloc, fields.as_slice())?;
                let fields = all_fields(more, fields)?;
                Ok(Some(fields))
            }
        },
    }
}

/// A field of what may be a static record.
pub fn projected(
    names: &List<Text>,
    closing: &Closing<'_>,
    scope: &Scope,
    label: &Label,
    of: Option<u32>,
) -> Result<Option<u32>, Memory>
    ensures { IfOk result (λ j. (s : Option Static) → MayBeAt closing.now.statics of s → MayBeAt closing.now.statics j (static_project (label_number names.now (cons_of closing.now scope.now) label.now) s)) }
{
    match of {
        None => Ok(None),
        Some(number) => match name_of(names, closing, scope, label)? {
            None => Ok(None),
            Some(name) => Ok(field_in(closing, number, name)),
        },
    }
}

/// What may be a static record, without a field.
pub fn cut(
    alloc: Global,
    names: &List<Text>,
    closing: &mut Closing<'_>,
    scope: &Scope,
    label: &Label,
    of: Option<u32>,
) -> Result<Option<u32>, Memory>
    ensures made { IfOk result (λ j. (s : Option Static) → MayBeAt closing.old.statics of s → MayBeAt closing.new.statics j (static_cut (label_number names.now (cons_of closing.old scope.now) label.now) s)) }
    ensures grows { Grows closing.old closing.new }
{
    match of {
        None => Ok(None),
        Some(number) => match name_of(names, closing, scope, label)? {
            None => Ok(None),
            Some(name) => cut_node(alloc, closing, number, name),
        },
    }
}

/// The fields of what may be two static records together.
pub fn joined(
    alloc: Global,
    closing: &mut Closing<'_>,
    left: Option<u32>,
    right: Option<u32>,
) -> Result<Option<u32>, Memory>
    ensures made { IfOk result (λ j. (s t : Option Static) → MayBeAt closing.old.statics left s → MayBeAt closing.old.statics right t → MayBeAt closing.new.statics j (static_join s t)) }
    ensures grows { Grows closing.old closing.new }
{
    match left {
        None => Ok(None),
        Some(left) => match right {
            None => Ok(None),
            Some(right) => join_nodes(alloc, closing, left, right),
        },
    }
}
