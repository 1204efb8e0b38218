//! What an expression is where it is static.
ghost use Rattle.std.specs.Prelude.{◌≡◌, [], ◌∷◌, ◌++◌, List as Items, Option, IfOk};
ghost use Rattle.std.specs.List.{AllZip};
ghost use Rattle.ur_tree.specs.declared.closed.Static.{Static};
ghost use Rattle.ur_tree.specs.declared.exp.Exp.TheVariants as x;
ghost use Rattle.ur_source.specs.Reading.{Cons};
ghost use Rattle.ur_source.specs.Static.{static_of, static_steps};
ghost use Rattle.ur_unfold_static.specs.Held.{Grows};
ghost use Rattle.ur_unfold_static.specs.Scopes.{MayBeAt, StepIs};
ghost use Rattle.ur_unfold_pieces.specs.Closes.{Closes, FieldMayBe, Under, static_field_of};

use crate::lambdas::closed_lambda;
use crate::nodes::{cut, function_node, joined, projected, some_added, text_node};
use crate::reading::name_of;
use crate::records::with_field;
use crate::steps::{fold_steps, in_step};
use std::alloc::Global;
use ur_base::{List, Memory, Text};
use ur_tree::{Binary, Exp, FieldExp};
use ur_unfold_static::{Closing, Field, Node, Scope, Step, number_at};

/// The number of what an expression is under the scope, in a project with these names of fields and modules' `val`s; none
/// where it is not static.
#[cycle(statics)]
#[tactic(auto, using(crate::proofs::Equations::nones))]
pub fn static_of<'a>(
    alloc: Global,
    e: &'a Exp,
    names: &List<Text>,
    vals: &List<u32>,
    closing: &mut Closing<'a>,
    scope: &Scope,
) -> Result<Option<u32>, Memory>
    ensures made { IfOk result (λ j. Closes closing.old scope.now vals.now closing.new j (λ vs cs fs. static_of names.now vs cs fs e.now)) }
    ensures grows { Grows closing.old closing.new }
{
    match e {
        Exp::Int(n) => some_added(closing, Node::Int(*n)),
        Exp::Str(s) => text_node(alloc, closing, s),
        Exp::Bool(b) => some_added(closing, Node::Bool(*b)),
        Exp::Unit => some_added(closing, Node::Record(List::new(alloc))),
        Exp::Fixed(i) => Ok(number_at(&scope.fixed, *i)),
        Exp::Val(k) => Ok(number_at(vals, *k)),
        Exp::Function(k, args) => function_node(alloc, closing, scope, *k, args),
        Exp::Lambda(params, body) => {
            let number = closed_lambda(alloc, params, body.get(), closing, scope)?;
            Ok(Some(number))
        }
        Exp::Record(fields) => static_record(alloc, fields, names, vals, closing, scope),
        Exp::Project(e, label) => {
            let of = static_of(alloc, e.get(), names, vals, closing, scope)?;
            projected(names, closing, scope, label, of)
        }
        Exp::Cut(e, label) => {
            let of = static_of(alloc, e.get(), names, vals, closing, scope)?;
            cut(alloc, names, closing, scope, label, of)
        }
        Exp::Binary(op, a, b) => {
            if *op != Binary::Join {
                return Ok(None);
            }
            let left = static_of(alloc, a.get(), names, vals, closing, scope)?;
            let right = static_of(alloc, b.get(), names, vals, closing, scope)?;
            joined(alloc, closing, left, right)
        }
        Exp::Fold {
            of: _,
            acc,
            step,
            start,
            row,
        } => {
            if !acc.fixed {
                return Ok(None);
            }
            let steps = fold_steps(alloc, closing, scope, row)?;
            let start = static_of(alloc, start.get(), names, vals, closing, scope)?;
            match steps {
                None => Ok(None),
                Some(steps) => folded(
                    alloc,
                    step.get(),
                    &steps,
                    start,
                    names,
                    vals,
                    closing,
                    scope,
                ),
            }
        }
        Exp::Variable(_) => Ok(None),
        Exp::Apply(_, _) => Ok(None),
        Exp::Unary(_, _) => Ok(None),
        Exp::Absent(_) => Ok(None),
        Exp::Empty(_) => Ok(None),
        Exp::Fail(_, _) => Ok(None),
        Exp::Tagged(_, _) => Ok(None),
        Exp::If(_, _, _) => Ok(None),
        Exp::Case(_, _) => Ok(None),
        Exp::Let(_, _, _) => Ok(None),
        Exp::Bind(_, _) => Ok(None),
        Exp::Next(_) => Ok(None),
        Exp::GetCookie(_) => Ok(None),
        Exp::SetCookie(_, _) => Ok(None),
        Exp::Write(_, _) => Ok(None),
        Exp::Ask(_, _, _) => Ok(None),
        Exp::Each(_, _, _) => Ok(None),
        Exp::Xml(_, _) => Ok(None),
    }
}

/// The fields of a record, from the last one on.
#[cycle(statics)]
fn static_record<'a>(
    alloc: Global,
    fields: &'a List<FieldExp>,
    names: &List<Text>,
    vals: &List<u32>,
    closing: &mut Closing<'a>,
    scope: &Scope,
) -> Result<Option<u32>, Memory>
    ensures made { IfOk result (λ j. Closes closing.old scope.now vals.now closing.new j (λ vs cs fs. static_of names.now vs cs fs (x.Record fields.now))) }
    ensures grows { Grows closing.old closing.new }
{
    let all = fields.as_slice();
    let count = all.len();
    let mut made = List::new(alloc);
    for i in 0..count {
        let at = count - 1 - i;
        match static_field(alloc, &all[at], names, vals, closing, scope)? {
            None => return Ok(None),
            Some(field) => made = with_field(field, made)?,
        }
    }
    some_added(closing, Node::Record(made))
}

#[cycle(statics)]
fn static_field<'a>(
    alloc: Global,
    field: &'a FieldExp,
    names: &List<Text>,
    vals: &List<u32>,
    closing: &mut Closing<'a>,
    scope: &Scope,
) -> Result<Option<Field>, Memory>
    ensures made { IfOk result (λ f. Under closing.old scope.now vals.now (λ vs cs fs. FieldMayBe closing.new.statics f (static_field_of names.now vs cs fs field.now))) }
    ensures grows { Grows closing.old closing.new }
{
    match name_of(names, closing, scope, &field.name)? {
        None => Ok(None),
        Some(name) => match static_of(alloc, &field.of, names, vals, closing, scope)? {
            None => Ok(None),
            Some(of) => Ok(Some(Field { name, of })),
        },
    }
}

/// The steps of a function fold, the last field's first, from its start on.
#[cycle(statics)]
fn folded<'a>(
    alloc: Global,
    step: &'a Exp,
    steps: &List<Step>,
    start: Option<u32>,
    names: &List<Text>,
    vals: &List<u32>,
    closing: &mut Closing<'a>,
    scope: &Scope,
) -> Result<Option<u32>, Memory>
    ensures made { IfOk result (λ j. (ks : Items Cons) (s : Option Static) → AllZip (StepIs closing.old) steps.now ks → MayBeAt closing.old.statics start s → Closes closing.old scope.now vals.now closing.new j (λ vs cs fs. static_steps (λ k t. static_of names.now vs (cs ++ k) (t ∷ fs) step.now) ks s)) }
    ensures grows { Grows closing.old closing.new }
{
    let all = steps.as_slice();
    let mut made = start;
    for i in 0..all.len() {
        match made {
            None => return Ok(None),
            Some(acc) => {
                let within = step_scope(alloc, scope, all[i], acc)?;
                made = static_of(alloc, step, names, vals, closing, &within)?;
            }
        }
    }
    Ok(made)
}

/// The scope of a function fold's step, which binds three constructors and the fold of the fields behind.
fn step_scope(alloc: Global, scope: &Scope, step: Step, acc: u32) -> Result<Scope, Memory>
    ensures cons { IfOk result (λ made. made.cons ≡ scope.now.cons ++ step.name ∷ step.of ∷ step.rest ∷ []) }
    ensures fixed { IfOk result (λ made. made.fixed ≡ acc ∷ scope.now.fixed) }
{
    let cons = in_step(alloc, &scope.cons, step)?;
    let mut fixed = List::new(alloc);
    fixed.push(acc)?;
    fixed.extend_from_slice(scope.fixed.as_slice())?;
    Ok(Scope { cons, fixed })
}
