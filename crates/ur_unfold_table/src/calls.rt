//! The forms of applications.
ghost use Rattle.std.specs.Prelude.{◌≡◌, ◌++◌, map, slice_get};
ghost use Rattle.ur_tree.specs.declared.exp.Exp.TheVariants as x;
ghost use Rattle.ur_tree.specs.declared.closed.Static.{Static, out-Static};
ghost use Rattle.ur_tree.specs.declared.closed.Static.TheVariants as st;
ghost use Rattle.ur_source.specs.Reading.{Cons};
ghost use Rattle.ur_source.specs.Items.{Scope as Around, applied_form, fixed_args, static_in, value_args};
ghost use Rattle.ur_source.specs.Source.{source_of};
ghost use Rattle.ur_unfold_static.specs.Held.{Written};
ghost use Rattle.ur_unfold_static.specs.Scopes.{IsAt, AreAt, Stands, Statics};
ghost use Rattle.ur_unfold_pieces.specs.Forming.{FormedAs, OpensExp};
ghost use Rattle.ur_unfold_pieces.specs.Keys.{Gives};
ghost use Rattle.ur_unfold_pieces.specs.Moving.{Moves, Stays};
ghost use Rattle.ur_unfold_pieces.specs.Standing.{IsWhole, ScopeIs};
ghost use Rattle.ur_unfold_pieces.specs.Told.{told, exps_told};
ghost use Rattle.ur_unfold_table.specs.Applying.{AreMayBeAt, IsApplied, IsPushed, one_value};

use crate::parts::nothing;
use std::alloc::Global;
use ur_base::{Boxed, List};
use ur_meaning::{Halt, Head, Opened};
use ur_tree::{Exp, Param};
use ur_unfold_pieces::{Key, Opening, Piece, add_scope, static_in};
use ur_unfold_static::{Closing, Lambda, Node, Scope};

/// What is applied: a function with closed constructors, a lambda with what its free names stand for, or what cannot be.
#[derive(Drop)]
pub enum Applied<'a> {
    Function(u32, List<u32>),
    Lambda(Lambda<'a>, Scope),
    Nothing,
}

/// The form of an application.
pub fn applied_form<'a>(
    alloc: Global,
    table: &mut Opening<'a>,
    scope: u32,
    g: &'a Boxed<Exp>,
    args: &'a List<Exp>,
) -> Result<Opened<Piece<'a>>, Halt>
    ensures form { OpensExp table.old table.new scope (x.Apply g.now args.now) result }
    ensures moves { Moves table.old table.new }
{
    match static_in(alloc, table, scope, g.get())? {
        None => nothing(alloc),
        Some(at) => match applied_at(alloc, &table.closing, at)? {
            Applied::Function(k, cons) => call_form(alloc, table, scope, k, cons, args),
            Applied::Lambda(lambda, known) => {
                lambda_form(alloc, table, scope, lambda, known, args)
            }
            Applied::Nothing => nothing(alloc),
        },
    }
}

/// What the closed static expression with this number is where it is applied.
fn applied_at<'a>(alloc: Global, closing: &Closing<'a>, at: u32) -> Result<Applied<'a>, Halt>
    ensures { (s : Static) → IsAt closing.now.statics at s → Gives (λ what. IsApplied closing.now what s) result }
{
    match closing.node(at) {
        None => Err(Halt::Memory),
        Some(node) => match node {
            Node::Function(k, cons) => {
                let cons = List::from_slice(alloc, cons.as_slice())?;
                Ok(Applied::Function(*k, cons))
            }
            Node::Lambda { of, cons, fixed } => lambda_at(alloc, closing, *of, cons, fixed),
            Node::Int(_) => Ok(Applied::Nothing),
            Node::Str(_) => Ok(Applied::Nothing),
            Node::Bool(_) => Ok(Applied::Nothing),
            Node::Record(_) => Ok(Applied::Nothing),
        },
    }
}

fn lambda_at<'a>(
    alloc: Global,
    closing: &Closing<'a>,
    of: u32,
    cons: &List<u32>,
    fixed: &List<u32>,
) -> Result<Applied<'a>, Halt>
    ensures { (l : Written) (cs : Cons) (fs : Statics) → IsAt closing.now.lambdas of l → AreAt closing.now.cons cons.now cs → AreAt closing.now.statics fixed.now fs → Gives (λ what. IsApplied closing.now what (st.Lambda l.0 l.1 cs fs)) result }
{
    let cons = List::from_slice(alloc, cons.as_slice())?;
    let fixed = List::from_slice(alloc, fixed.as_slice())?;
    match closing.lambda(of) {
        None => Err(Halt::Memory),
        Some(lambda) => Ok(Applied::Lambda(lambda, Scope { cons, fixed })),
    }
}

/// The static arguments; none where one is not static, or where there are not as many arguments as parameters.
pub fn fixed_args<'a>(
    alloc: Global,
    table: &mut Opening<'a>,
    scope: u32,
    params: &List<Param>,
    args: &'a List<Exp>,
) -> Result<Option<List<u32>>, Halt>
    ensures made { (around : Around) → ScopeIs table.old scope around → IsWhole table.old → Gives (λ js. AreMayBeAt table.new.closing.statics js (fixed_args (static_in (source_of table.old.typed.now) around) params.now args.now)) result }
    ensures stays { Stays table.old table.new }
{
    let ps = params.as_slice();
    let es = args.as_slice();
    if ps.len() != es.len() {
        return Ok(None);
    }
    let mut fixed = List::new(alloc);
    for i in 0..ps.len() {
        let pushed = push_fixed(alloc, table, scope, &ps[i], &es[i], &mut fixed)?;
        if !pushed {
            return Ok(None);
        }
    }
    Ok(Some(fixed))
}

/// Adds an argument of a static parameter. No where it is not static.
fn push_fixed<'a>(
    alloc: Global,
    table: &mut Opening<'a>,
    scope: u32,
    param: &Param,
    arg: &'a Exp,
    fixed: &mut List<u32>,
) -> Result<bool, Halt>
    ensures made { (around : Around) → ScopeIs table.old scope around → IsWhole table.old → Gives (λ is. IsPushed table.new.closing.statics param.now.fixed (static_in (source_of table.old.typed.now) around arg.now) fixed.old fixed.new is) result }
    ensures stays { Stays table.old table.new }
{
    if !param.fixed {
        return Ok(true);
    }
    match static_in(alloc, table, scope, arg)? {
        None => Ok(false),
        Some(at) => {
            fixed.push(at)?;
            Ok(true)
        }
    }
}

/// Adds the arguments that are values to the parts.
pub fn push_values<'a>(
    parts: &mut List<Piece<'a>>,
    scope: u32,
    params: &List<Param>,
    args: &'a List<Exp>,
) -> Result<(), Halt>
    ensures { Gives (λ done. map told parts.new ≡ map told parts.old ++ exps_told scope (value_args params.now args.now)) result }
{
    let ps = params.as_slice();
    for i in 0..ps.len() {
        push_value(parts, scope, &ps[i], args, i)?;
    }
    Ok(())
}

/// Adds the argument at this place, where the parameter is one for values.
fn push_value<'a>(
    parts: &mut List<Piece<'a>>,
    scope: u32,
    param: &Param,
    args: &'a List<Exp>,
    place: usize,
) -> Result<(), Halt>
    ensures { Gives (λ done. map told parts.new ≡ map told parts.old ++ exps_told scope (one_value param.now (slice_get args.now place))) result }
{
    if param.fixed {
        return Ok(());
    }
    match args.get(place) {
        None => Ok(()),
        Some(e) => {
            parts.push(Piece::Exp(scope, e))?;
            Ok(())
        }
    }
}

/// The form of a call of a named function.
fn call_form<'a>(
    alloc: Global,
    table: &mut Opening<'a>,
    scope: u32,
    k: u32,
    cons: List<u32>,
    args: &'a List<Exp>,
) -> Result<Opened<Piece<'a>>, Halt>
    ensures form { (around : Around) (cs : Cons) → ScopeIs table.old scope around → IsWhole table.old → AreAt table.old.closing.cons cons cs → FormedAs table.old table.new (applied_form (source_of table.old.typed.now) around args.now (out-Static (st.Function k cs))) result }
    ensures moves { Moves table.old table.new }
{
    let typed = table.typed;
    match typed.functions.get(k as usize) {
        None => nothing(alloc),
        Some(function) => match fixed_args(alloc, table, scope, &function.params, args)? {
            None => nothing(alloc),
            Some(fixed) => {
                let key = Key {
                    function: k,
                    cons,
                    fixed,
                };
                let j = table.number(key)?;
                let mut parts = List::new(alloc);
                push_values(&mut parts, scope, &function.params, args)?;
                let head = Head::Call(j);
                Ok(Opened { head, parts })
            }
        },
    }
}

/// The scope of a lambda's body.
fn body_scope(table: &mut Opening<'_>, known: Scope, fixed: List<u32>) -> Result<u32, Halt>
    ensures scope { (cs : Cons) (fs gs : Statics) → Stands table.old.closing known cs fs → AreAt table.old.closing.statics fixed gs → Gives (λ n. ScopeIs table.new n (record { cons = cs; fixed = gs ++ fs })) result }
    ensures stays { Stays table.old table.new }
{
    let Scope { cons, fixed: outer } = known;
    let mut all = fixed;
    all.append(outer)?;
    add_scope(&mut table.scopes, Scope { cons, fixed: all })
}

/// The form of a lambda's application: a `let` of its value arguments.
fn lambda_form<'a>(
    alloc: Global,
    table: &mut Opening<'a>,
    scope: u32,
    lambda: Lambda<'a>,
    known: Scope,
    args: &'a List<Exp>,
) -> Result<Opened<Piece<'a>>, Halt>
    ensures form { (around : Around) (cs : Cons) (fs : Statics) → ScopeIs table.old scope around → IsWhole table.old → Stands table.old.closing known cs fs → FormedAs table.old table.new (applied_form (source_of table.old.typed.now) around args.now (out-Static (st.Lambda lambda.entry.params.now lambda.entry.body.now cs fs))) result }
    ensures stays { Stays table.old table.new }
{
    match fixed_args(alloc, table, scope, lambda.params, args)? {
        None => nothing(alloc),
        Some(fixed) => {
            let within = body_scope(table, known, fixed)?;
            let mut parts = List::new(alloc);
            push_values(&mut parts, scope, lambda.params, args)?;
            parts.push(Piece::Exp(within, lambda.body))?;
            let head = Head::Let;
            Ok(Opened { head, parts })
        }
    }
}
