//! Applications.
ghost use Rattle.std.specs.Prelude.{◌≡◌, ◌&&◌, nat_le, true, false, [], ◌∷◌, ◌++◌, map, Some, None, IfOk, slice_get};
ghost use Rattle.ur_base.specs.Stopping.{IfRefused};
ghost use Rattle.ur_syntax.specs.declared.exp.ExpForm.{ExpForm as GhostForm};
ghost use Rattle.ur_syntax.specs.declared.exp.ExpForm.TheVariants as form;
ghost use Rattle.ur_rows.specs.Nodes.{type_nodes};
ghost use Rattle.ur_rows.specs.Put as put;
ghost use Rattle.ur_rows.specs.declared.normal.NormalType.TheVariants as ty;
ghost use Rattle.ur_rows_normal.specs.Arguments.{are_normal};
ghost use Rattle.ur_check_scopes.specs.Arguments.{types_at};
ghost use Rattle.ur_tree.specs.declared.exp.Exp.TheVariants as exp;
ghost use Rattle.ur_tree.specs.Make as make;
ghost use Rattle.ur_tree.specs.Heads as heads;
ghost use Rattle.ur_tree.specs.Typing as typing;
ghost use Rattle.ur_typed_rules.specs.Scopes.{World as GhostWorld, Scope as GhostScope, Mode as GhostMode};
ghost use Rattle.ur_typed_rules.specs.Tests as tests;
ghost use Rattle.ur_typed.specs.Parts.{is_applied};
ghost use Rattle.ur_typed.specs.Resolves.{is_head};
ghost use Rattle.ur_typed.specs.Rules as rules;
ghost use Rattle.ur_check_scopes.specs.Views.{Stands, Refuses, head_in};
ghost use Rattle.ur_check_rules.specs.Views.{args_with};
ghost use Rattle.ur_check_rules.specs.Callees.{IsApplied};
ghost use Rattle.ur_check_walk.specs.Promises.{StandsSomewhere, Gives, Tells};
ghost use Rattle.ur_check_walk.specs.Applying.{forms_in, Unapplied, SpineGives, SpineTells, CallGives, CallTells, GivesArgs, TellsArgs, HeadBreaks, BreaksStatic, TellsMany};

use crate::walk::typed;
use std::alloc::Global;
use ur_base::{Boxed, List, Memory, Span, Stop};
use ur_check_rules::{
    Applied, Callee, Out, Sites, applied_to, are_static, called, callee_of, extra_argument,
    missing_argument, parameters, pushed, result_behind,
};
use ur_check_scopes::{Around, Head, are_arguments, instances_of};
use ur_rows::{Normal, NormalType, copy_type};
use ur_syntax::{Exp, ExpForm};
use ur_tree::{Exp as Resolved, Variant};

/// More than there are tokens in a source, so that no expression has as many arguments.
const MOST: usize = 4_194_304;

/// What is applied in an expression: its arguments are put behind those that stand behind it, so that the first comes last.
pub fn unapplied<'a>(e: &'a Exp, args: &mut List<&'a Exp>) -> Result<&'a Exp, Memory>
    ensures head { IfOk result (λ f. is_applied f.now.form ≡ false) }
    ensures applied { IfOk result (λ f. Unapplied e.now.form (forms_in args.old) f.now.form (forms_in args.new)) }
{
    let mut at = e;
    for _argument in 0..MOST {
        match &at.form {
            ExpForm::App(f, a) => {
                args.push(a.get())?;
                at = f.get();
            }
            _ => return Ok(at),
        }
    }
    Err(Memory)
}

/// `f a`, which with the applications in f is one of what is applied there to all arguments.
#[cycle(walk)]
pub fn application(
    alloc: Global,
    around: &Around,
    sites: &mut Sites,
    span: Span,
    f: &Exp,
    a: &Exp,
) -> Result<Out, Stop>
    requires { StandsSomewhere around.now }
    ensures typed { IfOk result (λ o. (m : GhostMode) → Gives around.now sites.old (form.App f.now a.now) m o sites.new) }
    ensures refused { IfRefused result (λ r. (m : GhostMode) → Tells around.now sites.old (form.App f.now a.now) m r) }
{
    let mut args = List::new(alloc);
    args.push(&*a)?;
    let head = unapplied(f, &mut args)?;
    at_head(alloc, around, sites, span, head, args)
}

/// What is no application, with the arguments behind it.
#[cycle(walk)]
fn at_head(
    alloc: Global,
    around: &Around,
    sites: &mut Sites,
    span: Span,
    e: &Exp,
    args: List<&Exp>,
) -> Result<Out, Stop>
    requires { StandsSomewhere around.now }
    ensures typed { IfOk result (λ o. is_applied e.now.form ≡ false → SpineGives around.now sites.old e.now.form (forms_in args.entry) o sites.new) }
    ensures refused { IfRefused result (λ r. is_applied e.now.form ≡ false → SpineTells around.now sites.old e.now.form (forms_in args.entry) r) }
{
    let callee = callee_of(alloc, around, e)?;
    match callee {
        Callee::Function(function) => named(alloc, around, sites, span, function, args),
        Callee::Tag(number) => build(alloc, around, sites, span, number, args),
        Callee::Other => other(alloc, around, sites, span, e, args),
    }
}

/// The resolved arguments with one more.
fn with_argument(done: List<Resolved>, out: Out) -> Result<List<Resolved>, Memory>
    ensures { IfOk result (λ more. more ≡ done ++ out.exp ∷ []) }
{
    let more = pushed(done, out.exp)?;
    Ok(more)
}

/// Arguments against types, in order.
#[cycle(walk)]
pub fn arguments(
    alloc: Global,
    around: &Around,
    sites: &mut Sites,
    span: Span,
    args: List<&Exp>,
    types: &[NormalType],
) -> Result<List<Resolved>, Stop>
    requires { StandsSomewhere around.now }
    ensures typed { IfOk result (λ done. GivesArgs around.now sites.old (forms_in args.entry) types.now done sites.new) }
    ensures refused { IfRefused result (TellsArgs around.now sites.old (forms_in args.entry) types.now) }
{
    let mut done = List::new(alloc);
    let mut left = args;
    let mut wanted = types;
    while let Some(e) = left.pop() {
        match wanted.split_first() {
            Some((of, behind)) => {
                let out = typed(alloc, around, sites, e, Some(of))?;
                done = with_argument(done, out)?;
                wanted = behind;
            }
            None => return Err(extra_argument(alloc, e.span)),
        }
    }
    match wanted.split_first() {
        None => Ok(done),
        Some(_) => Err(missing_argument(alloc, span)),
    }
}

/// A named function at its arguments.
#[cycle(walk)]
fn named(
    alloc: Global,
    around: &Around,
    sites: &mut Sites,
    span: Span,
    function: Applied,
    args: List<&Exp>,
) -> Result<Out, Stop>
    requires stands { StandsSomewhere around.now }
    requires ordered { are_normal function.args ≡ true }
    ensures typed { IfOk result (λ o. (w : GhostWorld) (s : GhostScope) (x : GhostForm) → Stands around.now w s → IsApplied w s x function.entry → CallGives w s sites.old x (forms_in args.entry) o sites.new) }
    ensures refused { IfRefused result (λ r. (w : GhostWorld) (s : GhostScope) (x : GhostForm) → Stands around.now w s → IsApplied w s x function.entry → CallTells around.now.world.now.datatype_names w s sites.old x (forms_in args.entry) r) }
{
    let number = function.number;
    match around.world.functions.get(number as usize) {
        Some(found) => {
            let head = &found.head;
            call(alloc, around, sites, span, function, head, args)
        }
        None => Err(Stop::Memory),
    }
}

/// The types of the parameters and of the result of a call.
fn call_types(
    alloc: Global,
    around: &Around,
    span: Span,
    function: &Applied,
    head: &Head,
) -> Result<(List<NormalType>, NormalType), Stop>
    requires { are_normal function.now.args ≡ true }
    ensures types { IfOk result (λ o. o.0 ≡ types_at function.now.args head.now.params) }
    ensures of { IfOk result (λ o. o.1 ≡ put.instance_type function.now.args head.now.result) }
    ensures met { IfOk result (λ o. (w : GhostWorld) (s : GhostScope) → Stands around.now w s → (tests.are_arguments s.env head.now.cons function.now.args && nat_le (type_nodes (put.instance_type function.now.args (heads.function_type (head_in head.now)))) w.most) ≡ true) }
    ensures refused { IfRefused result (λ r. (w : GhostWorld) (s : GhostScope) (x : GhostForm) → Stands around.now w s → IsApplied w s x function.now → slice_get w.declared.functions function.now.number ≡ Some (head_in head.now) → Refuses around.now.world.now.datatype_names (HeadBreaks around.now.world.now.datatype_names w s x) r) }
{
    let cons = function.args.as_slice();
    let given = function.given.as_slice();
    let params = head.cons.as_slice();
    are_arguments(alloc, around, span, given, cons, params)?;
    instances_of(alloc, span, cons, head)
}

/// The constructor arguments of what is applied, in normal form.
fn cons_of(function: Applied) -> List<Normal>
    ensures { result ≡ function.entry.args }
{
    function.args
}

/// A call whose arguments are resolved.
fn call_out(
    alloc: Global,
    span: Span,
    number: u32,
    cons: List<Normal>,
    head: &Head,
    done: List<Resolved>,
    of: NormalType,
) -> Result<Out, Stop>
    ensures of { IfOk result (λ o. o.of ≡ of) }
    ensures exp { IfOk result (λ o. o.exp ≡ make.apply (exp.Function number cons) (args_with done).0 (args_with done).1) }
    ensures fixed { IfOk result (λ o. typing.are_static_at head.now.params (args_with done).1 ≡ true) }
    ensures refused { IfRefused result (BreaksStatic head.now.params (args_with done).1) }
{
    are_static(alloc, span, head.params.as_slice(), done.as_slice())?;
    let made = called(alloc, number, cons, done, of)?;
    Ok(made)
}

/// A call of a named function with this head.
#[cycle(walk)]
fn call(
    alloc: Global,
    around: &Around,
    sites: &mut Sites,
    span: Span,
    function: Applied,
    head: &Head,
    args: List<&Exp>,
) -> Result<Out, Stop>
    requires stands { StandsSomewhere around.now }
    requires ordered { are_normal function.args ≡ true }
    ensures typed { IfOk result (λ o. (w : GhostWorld) (s : GhostScope) (x : GhostForm) → Stands around.now w s → IsApplied w s x function.entry → slice_get w.declared.functions function.entry.number ≡ Some (head_in head.now) → CallGives w s sites.old x (forms_in args.entry) o sites.new) }
    ensures refused { IfRefused result (λ r. (w : GhostWorld) (s : GhostScope) (x : GhostForm) → Stands around.now w s → IsApplied w s x function.entry → slice_get w.declared.functions function.entry.number ≡ Some (head_in head.now) → CallTells around.now.world.now.datatype_names w s sites.old x (forms_in args.entry) r) }
{
    let number = function.number;
    let (types, of) = call_types(alloc, around, span, &function, head)?;
    let done = arguments(alloc, around, sites, span, args, types.as_slice())?;
    let cons = cons_of(function);
    let made = call_out(alloc, span, number, cons, head, done, of)?;
    Ok(made)
}

/// A constructor of a datatype at its argument.
#[cycle(walk)]
fn build(
    alloc: Global,
    around: &Around,
    sites: &mut Sites,
    span: Span,
    number: u32,
    args: List<&Exp>,
) -> Result<Out, Stop>
    requires { StandsSomewhere around.now }
    ensures typed { IfOk result (λ o. (w : GhostWorld) (s : GhostScope) (x : GhostForm) → Stands around.now w s → rules.function_at w s x ≡ None → rules.tag_named w x ≡ Some number → CallGives w s sites.old x (forms_in args.entry) o sites.new) }
    ensures refused { IfRefused result (λ r. (w : GhostWorld) (s : GhostScope) (x : GhostForm) → Stands around.now w s → rules.function_at w s x ≡ None → rules.tag_named w x ≡ Some number → CallTells around.now.world.now.datatype_names w s sites.old x (forms_in args.entry) r) }
{
    match around.world.variants.get(number as usize) {
        Some(variant) => built(alloc, around, sites, span, number, variant, args),
        None => Err(Stop::Memory),
    }
}

/// This constructor of a datatype at its argument.
#[cycle(walk)]
fn built(
    alloc: Global,
    around: &Around,
    sites: &mut Sites,
    span: Span,
    number: u32,
    variant: &Variant,
    args: List<&Exp>,
) -> Result<Out, Stop>
    requires { StandsSomewhere around.now }
    ensures typed { IfOk result (λ o. (w : GhostWorld) (s : GhostScope) (x : GhostForm) → Stands around.now w s → rules.function_at w s x ≡ None → rules.tag_named w x ≡ Some number → slice_get w.declared.variants number ≡ Some (variant.now.datatype, variant.now.arg) → CallGives w s sites.old x (forms_in args.entry) o sites.new) }
    ensures refused { IfRefused result (λ r. (w : GhostWorld) (s : GhostScope) (x : GhostForm) → Stands around.now w s → rules.function_at w s x ≡ None → rules.tag_named w x ≡ Some number → slice_get w.declared.variants number ≡ Some (variant.now.datatype, variant.now.arg) → CallTells around.now.world.now.datatype_names w s sites.old x (forms_in args.entry) r) }
{
    match &variant.arg {
        Some(of) => {
            let e = sole(alloc, args)?;
            let out = typed(alloc, around, sites, e, Some(of))?;
            let made = tagged(alloc, variant.datatype, number, out)?;
            Ok(made)
        }
        None => Err(extra_argument(alloc, span)),
    }
}

fn tagged(alloc: Global, datatype: u32, number: u32, out: Out) -> Result<Out, Memory>
    ensures of { IfOk result (λ o. o.of ≡ ty.Datatype datatype) }
    ensures exp { IfOk result (λ o. o.exp ≡ exp.Tagged number (Some out.exp)) }
{
    let exp = Boxed::new(alloc, Resolved::Tagged(number, Some(out.exp)))?;
    Ok(Out {
        of: NormalType::Datatype(datatype),
        exp,
    })
}

/// The only argument. There is one in each application.
fn sole<'a>(alloc: Global, args: List<&'a Exp>) -> Result<&'a Exp, Stop>
    ensures sole { IfOk result (λ e. forms_in args.entry ≡ e.now.form ∷ []) }
    ensures refused { IfRefused result (TellsMany (forms_in args.entry)) }
{
    let mut left = args;
    match left.pop() {
        Some(e) => match left.pop() {
            None => Ok(e),
            Some(second) => Err(extra_argument(alloc, second.span)),
        },
        None => Err(Stop::Memory),
    }
}

fn parameter_types(alloc: Global, of: &NormalType) -> Result<List<NormalType>, Memory>
    ensures { IfOk result (λ ts. ts ≡ (typing.parameters of.now).0) }
{
    let params = parameters(alloc, of)?;
    let made = copy_types(alloc, params.as_slice())?;
    Ok(made)
}

fn copy_types(alloc: Global, types: &[&NormalType]) -> Result<List<NormalType>, Memory>
    ensures { IfOk result (λ ts. ts ≡ map (λ t. t.now) types.now) }
{
    let mut copies = List::new(alloc);
    for i in 0..types.len() {
        let of = types[i];
        let copy = copy_type(alloc, of)?;
        copies.push(copy)?;
    }
    Ok(copies)
}

fn value_applied(alloc: Global, function: Out, done: List<Resolved>) -> Result<Out, Memory>
    ensures of { IfOk result (λ o. o.of ≡ (typing.parameters function.of).1) }
    ensures exp { IfOk result (λ o. o.exp ≡ make.apply function.exp (args_with done).0 (args_with done).1) }
{
    let of = result_behind(alloc, &function.of)?;
    let made = applied_to(alloc, function.exp, done, of)?;
    Ok(made)
}

/// What is static otherwise, at all its arguments.
#[cycle(walk)]
fn other(
    alloc: Global,
    around: &Around,
    sites: &mut Sites,
    span: Span,
    e: &Exp,
    args: List<&Exp>,
) -> Result<Out, Stop>
    requires { StandsSomewhere around.now }
    ensures typed { IfOk result (λ o. (w : GhostWorld) (s : GhostScope) → Stands around.now w s → rules.function_at w s e.now.form ≡ None → rules.tag_named w e.now.form ≡ None → is_head e.now.form ≡ true → CallGives w s sites.old e.now.form (forms_in args.entry) o sites.new) }
    ensures refused { IfRefused result (λ r. (w : GhostWorld) (s : GhostScope) → Stands around.now w s → rules.function_at w s e.now.form ≡ None → rules.tag_named w e.now.form ≡ None → CallTells around.now.world.now.datatype_names w s sites.old e.now.form (forms_in args.entry) r) }
{
    let function = typed(alloc, around, sites, e, None)?;
    let types = parameter_types(alloc, &function.of)?;
    let done = arguments(alloc, around, sites, span, args, types.as_slice())?;
    let made = value_applied(alloc, function, done)?;
    Ok(made)
}
