//! Constructors under a scope.
ghost use Rattle.std.specs.Prelude.{◌≡◌, ◌<◌, true, map, slice_get, IfOk, Err};
ghost use Rattle.std.specs.Option.{option_copied};
ghost use Rattle.ur_rows.specs.declared.normal.Normal.TheVariants as normal;
ghost use Rattle.ur_rows.specs.IsNormal.{is_normal, is_normal_type, is_normal_row};
ghost use Rattle.ur_rows.specs.Nodes.{most_nodes, nodes};
ghost use Rattle.ur_rows.specs.Put.{as_label, instance, instance_row, instance_type};
ghost use Rattle.ur_rows_reduce.specs.declared.count.Halt.TheVariants as halt;
ghost use Rattle.ur_rows_normal.specs.Arguments.{are_normal};
ghost use Rattle.ur_source.specs.Items.{text_of};
ghost use Rattle.ur_unfold_static.specs.Held.{Grows, con_at};
ghost use Rattle.ur_unfold_static.specs.Scopes.{AreAt, IsAt, cons_of};
ghost use Rattle.ur_unfold_pieces.specs.Labels.{text_in, text_of_con};
ghost use Rattle.ur_unfold_pieces.specs.Sizes.{SomeLarge};

use std::alloc::Global;
use ur_base::{List, Memory};
use ur_rows::{
    Label, Normal, NormalType, Part, Var, boxed_normal, copy_kind, copy_label, copy_row, copy_type,
    unit,
};
use ur_rows_normal::{instance, instance_row, instance_type};
use ur_rows_reduce::Halt;
use ur_unfold_static::{Closing, Scope};

/// A constructor of its own that equals this one.
fn copy_normal(alloc: Global, n: &Normal) -> Result<Normal, Memory>
    ensures { IfOk result (λ x. x ≡ n.now) }
{
    match n {
        Normal::Type(t) => Ok(Normal::Type(copy_type(alloc, t)?)),
        Normal::Name(l) => Ok(Normal::Name(copy_label(alloc, l)?)),
        Normal::Row(r) => Ok(Normal::Row(copy_row(alloc, r)?)),
        Normal::Fn(k, c) => {
            let kind = copy_kind(alloc, k)?;
            let body = copy_normal(alloc, c.get())?;
            Ok(Normal::Fn(kind, boxed_normal(alloc, body)?))
        }
    }
}

/// The closed constructor with this number; unit where there is none.
fn con_at(alloc: Global, closing: &Closing<'_>, number: u32) -> Result<Normal, Memory>
    ensures of { IfOk result (λ x. x ≡ con_at closing.now.cons number) }
    ensures in_order { IfOk result (λ x. is_normal x ≡ true) }
{
    match closing.con(number) {
        Some(con) => copy_normal(alloc, con),
        None => Ok(Normal::Type(unit(alloc))),
    }
}

/// What stands for the constructor variables.
pub fn arguments(
    alloc: Global,
    closing: &Closing<'_>,
    scope: &Scope,
) -> Result<List<Normal>, Memory>
    ensures are { IfOk result (λ args. args ≡ cons_of closing.now scope.now) }
    ensures in_order { IfOk result (λ args. are_normal args ≡ true) }
{
    let numbers = scope.cons.as_slice();
    let mut args = List::new(alloc);
    for i in 0..numbers.len() {
        let con = con_at(alloc, closing, numbers[i])?;
        args.push(con)?;
    }
    Ok(args)
}

/// The name that a label stands for; none where it stands for a variable. A variable that stands for no name has the
/// empty one.
pub fn closed_label<'b>(
    closing: &'b Closing<'_>,
    scope: &Scope,
    label: &'b Label,
) -> Option<&'b [u8]>
    ensures { option_copied result ≡ text_of (as_label (instance (cons_of closing.now scope.now) (normal.Name label.now))) }
{
    match label {
        Label::Literal(name) => Some(name.as_slice()),
        Label::Variable(v) => match v {
            Var::Free(n) => name_at(closing, scope, *n),
            Var::Bound(_) => None,
        },
    }
}

/// The name that a constructor variable stands for.
fn name_at<'b>(closing: &'b Closing<'_>, scope: &Scope, n: u32) -> Option<&'b [u8]>
    ensures { option_copied result ≡ text_in (slice_get (cons_of closing.now scope.now) n) }
{
    match scope.cons.get(n as usize) {
        None => Some(b""),
        Some(number) => match closing.con(*number) {
            None => Some(b""),
            Some(con) => name_in(con),
        },
    }
}

/// The name that a closed constructor is.
fn name_in(con: &Normal) -> Option<&[u8]>
    ensures { option_copied result ≡ text_of_con con.now }
{
    match con {
        Normal::Name(label) => match label {
            Label::Literal(name) => Some(name.as_slice()),
            Label::Variable(_) => None,
        },
        Normal::Type(_) => Some(b""),
        Normal::Row(_) => Some(b""),
        Normal::Fn(_, _) => Some(b""),
    }
}

/// A type under the scope. There is no memory for one that has too many nodes or is too high.
pub fn type_under(
    alloc: Global,
    closing: &Closing<'_>,
    scope: &Scope,
    t: &NormalType,
) -> Result<NormalType, Memory>
    ensures of { IfOk result (λ x. x ≡ instance_type (cons_of closing.now scope.now) t.now) }
    ensures in_order { IfOk result (λ x. is_normal_type x ≡ true) }
{
    let args = arguments(alloc, closing, scope)?;
    match instance_type(alloc, args.as_slice(), t) {
        Ok(of) => Ok(of),
        Err(_halt) => Err(Memory),
    }
}

/// A row under the scope. There is no memory for one that has too many nodes or is too high.
pub fn row_under(
    alloc: Global,
    closing: &Closing<'_>,
    scope: &Scope,
    row: &List<Part>,
) -> Result<List<Part>, Memory>
    ensures of { IfOk result (λ x. x ≡ instance_row (cons_of closing.now scope.now) row.now) }
    ensures in_order { IfOk result (λ x. is_normal_row x ≡ true) }
{
    let args = arguments(alloc, closing, scope)?;
    match instance_row(alloc, args.as_slice(), row) {
        Ok(row) => Ok(row),
        Err(_halt) => Err(Memory),
    }
}

/// The number of a constructor under the scope. There is no memory for one that is too high.
fn instance_number(
    alloc: Global,
    closing: &mut Closing<'_>,
    args: &List<Normal>,
    con: &Normal,
) -> Result<u32, Halt>
    requires { are_normal args.now ≡ true }
    ensures number { IfOk result (λ j. IsAt closing.new.cons j (instance args.now con.now)) }
    ensures over { result ≡ Err halt.TooLarge → most_nodes < nodes (instance args.now con.now) }
    ensures grows { Grows closing.old closing.new }
{
    match instance(alloc, args.as_slice(), con) {
        Ok(made) => Ok(closing.add_con(made)?),
        Err(halt) => Err(halt),
    }
}

/// The numbers of constructors with these arguments in place of their variables.
fn numbers_of(
    alloc: Global,
    closing: &mut Closing<'_>,
    args: &List<Normal>,
    cons: &List<Normal>,
) -> Result<List<u32>, Halt>
    requires { are_normal args.now ≡ true }
    ensures made { IfOk result (λ js. AreAt closing.new.cons js (map (instance args.now) cons.now)) }
    ensures over { result ≡ Err halt.TooLarge → SomeLarge (map (instance args.now) cons.now) }
    ensures grows { Grows closing.old closing.new }
{
    let all = cons.as_slice();
    let mut numbers = List::new(alloc);
    for i in 0..all.len() {
        let number = instance_number(alloc, closing, args, &all[i])?;
        numbers.push(number)?;
    }
    Ok(numbers)
}

/// The numbers of constructors under the scope, or that one of them has too many nodes. There is no memory for one that is
/// too high.
pub fn instances_under(
    alloc: Global,
    closing: &mut Closing<'_>,
    scope: &Scope,
    cons: &List<Normal>,
) -> Result<List<u32>, Halt>
    ensures made { IfOk result (λ js. AreAt closing.new.cons js (map (instance (cons_of closing.old scope.now)) cons.now)) }
    ensures over { result ≡ Err halt.TooLarge → SomeLarge (map (instance (cons_of closing.old scope.now)) cons.now) }
    ensures grows { Grows closing.old closing.new }
{
    let args = arguments(alloc, closing, scope)?;
    numbers_of(alloc, closing, &args, cons)
}

/// The numbers of constructors under the scope. There is no memory for one that has too many nodes or is too high.
pub fn instances_of(
    alloc: Global,
    closing: &mut Closing<'_>,
    scope: &Scope,
    cons: &List<Normal>,
) -> Result<List<u32>, Memory>
    ensures made { IfOk result (λ js. AreAt closing.new.cons js (map (instance (cons_of closing.old scope.now)) cons.now)) }
    ensures grows { Grows closing.old closing.new }
{
    match instances_under(alloc, closing, scope, cons) {
        Ok(numbers) => Ok(numbers),
        Err(_halt) => Err(Memory),
    }
}
