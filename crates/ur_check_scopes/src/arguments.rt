//! Constructor arguments of functions.
ghost use Rattle.std.specs.Prelude.{◌≡◌, ◌≤◌, ◌<◌, ◌+◌, ◌||◌, ℕ, suc, not, nat_le, true, [], map, IfOk, OnOk};
ghost use Rattle.ur_base.specs.Stopping.{IfRefused};
ghost use Rattle.ur_rows.specs.IsNormal.{is_normal_type};
ghost use Rattle.ur_rows.specs.Nodes.{type_nodes, most_nodes};
ghost use Rattle.ur_rows.specs.Put.{instance_type, instance_row};
ghost use Rattle.ur_rows.specs.Types.{holds_arrow};
ghost use Rattle.ur_rows_normal.specs.Arguments.{are_normal};
ghost use Rattle.ur_tree.specs.declared.typed.ConParam.TheVariants as con_param;
ghost use Rattle.ur_tree.specs.Env.{con_is_plain, kinds_of, rows_apart};
ghost use Rattle.ur_tree.specs.Heads.{function_type};
ghost use Rattle.ur_tree.specs.Typing.{keeps_arrows};
ghost use Rattle.ur_typed_rules.specs.Tests.{con_rows_are_apart, have_kinds, obligations_met, are_arguments, is_apart};
ghost use Rattle.ur_typed_rules.specs.Arguments.{BreaksCon, BreaksGiven};
ghost use Rattle.ur_check_scopes.specs.Views.{Refuses, IsLarge, env_in, head_in};
ghost use Rattle.ur_check_scopes.specs.Arguments.{StopsBy, IsArgument, BreaksArgument, IsPastKind, BreaksKind, IsPast, BreaksParam, BreaksHaving, Leads, IsMet, BreaksMet, BreaksObligations, IsLeft, arrow_nodes, types_at};

use crate::{
    Around, Head, mismatch, not_apart, not_so, row_apart, too_large, type_apart, unkinded,
};
use std::alloc::Global;
use ur_base::{List, Memory, Span, Stop};
use ur_disjoint::prove;
use ur_rows::{Normal, NormalType, Part, left_of_type};
use ur_rows_normal::{
    holds_arrow, instance_row, instance_type, is_of_kind, is_value_type, row_of_values,
};
use ur_rows_reduce::Halt;
use ur_syntax::{Con, Kind};
use ur_tree::{ConParam, Param};

/// What halts a substitution is a refusal where it is too large.
fn halted(alloc: Global, span: Span, halt: Halt) -> Stop
    ensures { StopsBy halt result }
{
    match halt {
        Halt::Memory => Stop::Memory,
        Halt::TooLarge => too_large(alloc, span),
    }
}

/// A type at constructor arguments.
pub fn instance_of(
    alloc: Global,
    span: Span,
    args: &[Normal],
    of: &NormalType,
) -> Result<NormalType, Stop>
    requires { are_normal args.now ≡ true }
    ensures form { IfOk result (λ t. t ≡ instance_type args.now of.now) }
    ensures small { IfOk result (λ t. type_nodes t ≤ most_nodes) }
    ensures in_order { IfOk result (λ t. is_normal_type t ≡ true) }
    ensures refused { IfRefused result (λ r. IsLarge r × (most_nodes < type_nodes (instance_type args.now of.now))) }
{
    match instance_type(alloc, args, of) {
        Ok(made) => Ok(made),
        Err(halt) => Err(halted(alloc, span, halt)),
    }
}

/// The row at constructor arguments; a too large one is want of memory.
fn row_instance(alloc: Global, args: &[Normal], row: &List<Part>) -> Result<List<Part>, Memory>
    requires { are_normal args.now ≡ true }
    ensures { IfOk result (λ r. r ≡ instance_row args.now row.now) }
{
    match instance_row(alloc, args, row) {
        Ok(made) => Ok(made),
        Err(_large) => Err(Memory),
    }
}

/// Whether neither an arrow nor a transaction stands in the constructor.
fn is_plain(of: &Normal) -> bool
    ensures { result ≡ con_is_plain of.now }
{
    match of {
        Normal::Type(t) => is_value_type(t),
        Normal::Row(r) => row_of_values(r),
        Normal::Name(_) => true,
        Normal::Fn(_, _) => true,
    }
}

/// Whether the rows in a constructor, written so, have parts that are apart.
pub fn con_apart(alloc: Global, around: &Around, con: &Con, of: &Normal) -> Result<(), Stop>
    ensures ok { OnOk result (con_rows_are_apart (env_in around.now.scope.cons) of.now ≡ true) }
    ensures refused { IfRefused result (Refuses around.now.world.now.datatype_names (BreaksCon (env_in around.now.scope.cons).known con.now of.now)) }
{
    match of {
        Normal::Type(t) => type_apart(alloc, around, con, t),
        Normal::Row(r) => row_apart(alloc, around, con, r),
        Normal::Name(_) => Ok(()),
        Normal::Fn(_, _) => Ok(()),
    }
}

/// One argument, written so, for a parameter of this kind.
fn is_argument(
    alloc: Global,
    around: &Around,
    con: &Con,
    of: &Normal,
    kind: &Kind,
) -> Result<(), Stop>
    ensures ok { OnOk result (IsArgument (env_in around.now.scope.cons) of.now kind.now) }
    ensures refused { IfRefused result (Refuses around.now.world.now.datatype_names (BreaksArgument (env_in around.now.scope.cons) con.now of.now kind.now)) }
{
    let has_kind = is_of_kind(of, kind, around.scope.cons.kinds)?;
    if !has_kind {
        return Err(unkinded(
            alloc,
            con.span,
            b"another kind",
            b"the kind of the parameter",
        ));
    }
    con_apart(alloc, around, con, of)?;
    if is_plain(of) {
        return Ok(());
    }
    Err(not_so(
        alloc,
        con.span,
        b"a constructor argument",
        b"no arrow and no transaction",
    ))
}

/// Constructor arguments with what is written of them.
#[derive(Clone, Copy)]
struct Given<'a, 'e> {
    written: &'a [&'e Con],
    args: &'a [Normal],
}

/// The arguments behind the one of this kind.
fn past_kind<'a, 'e>(
    alloc: Global,
    around: &Around,
    span: Span,
    given: Given<'a, 'e>,
    kind: &Kind,
) -> Result<Given<'a, 'e>, Stop>
    ensures ok { IfOk result (IsPastKind (env_in around.now.scope.cons) given.entry kind.now) }
    ensures refused { IfRefused result (Refuses around.now.world.now.datatype_names (BreaksKind (env_in around.now.scope.cons) given.entry kind.now)) }
{
    match given.args.split_first() {
        Some((of, args)) => match given.written.split_first() {
            Some((con, written)) => {
                is_argument(alloc, around, con, of, kind)?;
                Ok(Given { written, args })
            }
            None => Err(Stop::Memory),
        },
        None => Err(not_so(
            alloc,
            span,
            b"too few constructor arguments",
            b"all arguments",
        )),
    }
}

/// The arguments behind that of the parameter, if it has one.
fn past_parameter<'a, 'e>(
    alloc: Global,
    around: &Around,
    span: Span,
    given: Given<'a, 'e>,
    con: &ConParam,
) -> Result<Given<'a, 'e>, Stop>
    ensures ok { IfOk result (IsPast (env_in around.now.scope.cons) given.entry con.now) }
    ensures refused { IfRefused result (Refuses around.now.world.now.datatype_names (BreaksParam (env_in around.now.scope.cons) given.entry con.now)) }
{
    match con {
        ConParam::Kinded(kind) => past_kind(alloc, around, span, given, kind),
        ConParam::Apart(_, _) => Ok(given),
    }
}

/// The arguments behind those of all parameters.
fn past_parameters<'a, 'e>(
    alloc: Global,
    around: &Around,
    span: Span,
    given: Given<'a, 'e>,
    cons: &[ConParam],
) -> Result<Given<'a, 'e>, Stop>
    ensures ok { IfOk result (λ left. Leads (env_in around.now.scope.cons) given.entry cons.now left []) }
    ensures refused { IfRefused result (Refuses around.now.world.now.datatype_names (BreaksHaving (env_in around.now.scope.cons) given.entry cons.now)) }
{
    let mut left = given;
    for i in 0..cons.len() {
        left = past_parameter(alloc, around, span, left, &cons[i])?;
    }
    Ok(left)
}

/// The arguments are of the kinds of the parameters, one for each.
fn have_kinds<'a, 'e>(
    alloc: Global,
    around: &Around,
    span: Span,
    given: Given<'a, 'e>,
    cons: &[ConParam],
) -> Result<(), Stop>
    ensures ok { OnOk result (have_kinds (env_in around.now.scope.cons) given.entry.args.now (kinds_of cons.now) ≡ true) }
    ensures refused { IfRefused result (Refuses around.now.world.now.datatype_names (BreaksHaving (env_in around.now.scope.cons) given.entry cons.now)) }
{
    let left = past_parameters(alloc, around, span, given, cons)?;
    match left.args.split_first() {
        Some((_of, _args)) => Err(mismatch(
            alloc,
            span,
            b"a constructor argument",
            b"no further argument",
        )),
        None => Ok(()),
    }
}

/// Two rows that are wanted apart are so at the arguments.
fn are_apart(
    alloc: Global,
    around: &Around,
    span: Span,
    args: &[Normal],
    left: &List<Part>,
    right: &List<Part>,
) -> Result<(), Stop>
    requires { are_normal args.now ≡ true }
    ensures ok { OnOk result (is_apart (env_in around.now.scope.cons).known (instance_row args.now left.now) (instance_row args.now right.now) ≡ true) }
    ensures refused { IfRefused result (Refuses around.now.world.now.datatype_names (BreaksMet (env_in around.now.scope.cons).known args.now (con_param.Apart left.now right.now))) }
{
    let left = row_instance(alloc, args, left)?;
    let right = row_instance(alloc, args, right)?;
    let first = left.as_slice();
    let second = right.as_slice();
    if prove(around.scope.cons.known, first, second) {
        return Ok(());
    }
    let names = around.world.datatype_names.as_slice();
    Err(not_apart(alloc, names, span, first, second))
}

/// The same where the parameter wants rows apart.
fn is_met(
    alloc: Global,
    around: &Around,
    span: Span,
    args: &[Normal],
    con: &ConParam,
) -> Result<(), Stop>
    requires { are_normal args.now ≡ true }
    ensures ok { OnOk result (IsMet (env_in around.now.scope.cons).known args.now con.now) }
    ensures refused { IfRefused result (Refuses around.now.world.now.datatype_names (BreaksMet (env_in around.now.scope.cons).known args.now con.now)) }
{
    match con {
        ConParam::Kinded(_) => Ok(()),
        ConParam::Apart(left, right) => are_apart(alloc, around, span, args, left, right),
    }
}

/// The rows that are wanted apart are so at the arguments.
fn obligations_met(
    alloc: Global,
    around: &Around,
    span: Span,
    args: &[Normal],
    cons: &[ConParam],
) -> Result<(), Stop>
    requires { are_normal args.now ≡ true }
    ensures ok { OnOk result (obligations_met (env_in around.now.scope.cons) args.now (rows_apart cons.now) ≡ true) }
    ensures refused { IfRefused result (Refuses around.now.world.now.datatype_names (BreaksObligations (env_in around.now.scope.cons).known args.now cons.now)) }
{
    for i in 0..cons.len() {
        is_met(alloc, around, span, args, &cons[i])?;
    }
    Ok(())
}

/// The constructor arguments of a function with these parameters: one for each, of its kind, the wanted rows being apart.
/// `given` are the written ones.
pub fn are_arguments(
    alloc: Global,
    around: &Around,
    span: Span,
    given: &[&Con],
    args: &[Normal],
    cons: &[ConParam],
) -> Result<(), Stop>
    requires { are_normal args.now ≡ true }
    ensures ok { OnOk result (are_arguments (env_in around.now.scope.cons) cons.now args.now ≡ true) }
    ensures refused { IfRefused result (Refuses around.now.world.now.datatype_names (BreaksGiven (env_in around.now.scope.cons) (map (λ x. x.now) given.now) args.now cons.now)) }
{
    let written = Given {
        written: given,
        args,
    };
    have_kinds(alloc, around, span, written, cons)?;
    obligations_met(alloc, around, span, args, cons)
}

/// Whether the parameter's type, if it is static, holds an arrow at the arguments too. A too large one is want of memory.
fn keeps_arrow(alloc: Global, args: &[Normal], param: &Param) -> Result<bool, Memory>
    requires { are_normal args.now ≡ true }
    ensures { IfOk result (λ b. b ≡ (not param.now.fixed || holds_arrow (instance_type args.now param.now.of))) }
{
    if !param.fixed {
        return Ok(true);
    }
    match instance_type(alloc, args, &param.of) {
        Ok(of) => Ok(holds_arrow(&of)),
        Err(_large) => Err(Memory),
    }
}

/// What is static by its parameter's type is so at the arguments too.
pub fn keeps_arrows(alloc: Global, args: &[Normal], params: &[Param]) -> Result<bool, Memory>
    requires { are_normal args.now ≡ true }
    ensures { IfOk result (λ b. b ≡ keeps_arrows args.now params.now) }
{
    for i in 0..params.len() {
        let keeps = keeps_arrow(alloc, args, &params[i])?;
        if !keeps {
            return Ok(false);
        }
    }
    Ok(true)
}

/// How many nodes are left of so many, behind a parameter of this type.
fn left_after(left: Option<u32>, of: &NormalType) -> Option<u32>
    ensures { (used : ℕ) → IsLeft used left → IsLeft (used + suc (type_nodes of.now)) result }
{
    match left {
        Some(nodes) => match left_of_type(of, nodes) {
            Some(rest) => rest.checked_sub(1),
            None => None,
        },
        None => None,
    }
}

/// Whether a type has no more nodes than are left.
fn fits(left: Option<u32>, of: &NormalType) -> bool
    ensures { (used : ℕ) → IsLeft used left → result ≡ nat_le (used + type_nodes of.now) most_nodes }
{
    match left {
        Some(nodes) => left_of_type(of, nodes).is_some(),
        None => false,
    }
}

/// The types of parameters at constructor arguments, and how many nodes they leave.
fn types_of(
    alloc: Global,
    span: Span,
    args: &[Normal],
    params: &[Param],
) -> Result<(List<NormalType>, Option<u32>), Stop>
    requires { are_normal args.now ≡ true }
    ensures types { IfOk result (λ o. o.0 ≡ types_at args.now params.now) }
    ensures left { IfOk result (λ o. IsLeft (arrow_nodes (types_at args.now params.now)) o.1) }
    ensures refused { IfRefused result (λ r. IsLarge r × (most_nodes < arrow_nodes (types_at args.now params.now))) }
{
    let mut types = List::new(alloc);
    let mut left = Some(65536);
    for i in 0..params.len() {
        let of = instance_of(alloc, span, args, &params[i].of)?;
        left = left_after(left, &of);
        types.push(of)?;
    }
    Ok((types, left))
}

/// The types of a function's parameters and of its result at constructor arguments. The whole type has at most 65,536
/// nodes.
pub fn instances_of(
    alloc: Global,
    span: Span,
    args: &[Normal],
    head: &Head,
) -> Result<(List<NormalType>, NormalType), Stop>
    requires { are_normal args.now ≡ true }
    ensures types { IfOk result (λ o. o.0 ≡ types_at args.now head.now.params) }
    ensures of { IfOk result (λ o. o.1 ≡ instance_type args.now head.now.result) }
    ensures small { IfOk result (λ o. type_nodes (instance_type args.now (function_type (head_in head.now))) ≤ most_nodes) }
    ensures refused { IfRefused result (λ r. IsLarge r × (most_nodes < type_nodes (instance_type args.now (function_type (head_in head.now))))) }
{
    let (types, left) = types_of(alloc, span, args, head.params.as_slice())?;
    let of = instance_of(alloc, span, args, &head.result)?;
    if fits(left, &of) {
        return Ok((types, of));
    }
    Err(too_large(alloc, span))
}
