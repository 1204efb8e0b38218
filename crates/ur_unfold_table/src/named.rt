//! The forms of functions by their names, which tell where a constructor is too large.
ghost use Rattle.std.specs.Prelude.{◌≡◌, [], Some, slice_get};
ghost use Rattle.ur_tree.specs.declared.exp.Exp.TheVariants as x;
ghost use Rattle.ur_tree.specs.declared.typed.Function.{Function};
ghost use Rattle.ur_meaning.specs.Form.{call_form};
ghost use Rattle.ur_source.specs.Items.{Scope as Around, exps, value_args};
ghost use Rattle.ur_unfold_pieces.specs.Forming.{FormedAs, OpensExp};
ghost use Rattle.ur_unfold_pieces.specs.Keys.{instance_of};
ghost use Rattle.ur_unfold_pieces.specs.Moving.{Moves, Stays};
ghost use Rattle.ur_unfold_pieces.specs.Standing.{IsWhole, ScopeIs};

use crate::calls::{applied_form, fixed_args, push_values};
use crate::computed::static_form;
use crate::parts::nothing;
use std::alloc::Global;
use ur_base::{Boxed, List};
use ur_meaning::{Halt, Head, Opened};
use ur_rows::Normal;
use ur_tree::{Exp, Param};
use ur_unfold_pieces::{Key, Opening, Piece, cons_in};

/// The call of an instance with its arguments that are values.
pub fn called<'a>(
    alloc: Global,
    table: &mut Opening<'a>,
    scope: u32,
    key: Key,
    params: &List<Param>,
    args: &'a List<Exp>,
) -> Result<Opened<Piece<'a>>, Halt>
    ensures form { (around : Around) → ScopeIs table.old scope around → IsWhole table.old → FormedAs table.old table.new (call_form (instance_of table.old.closing key) (exps around (value_args params.now args.now))) result }
    ensures moves { Moves table.old table.new }
{
    let number = table.number(key)?;
    let mut parts = List::new(alloc);
    push_values(&mut parts, scope, params, args)?;
    let head = Head::Call(number);
    Ok(Opened { head, parts })
}

/// The form of a call of a function by its name.
pub fn named_form<'a>(
    alloc: Global,
    table: &mut Opening<'a>,
    scope: u32,
    k: u32,
    cons: &List<Normal>,
    args: &'a List<Exp>,
) -> Result<Opened<Piece<'a>>, Halt>
    ensures form { OpensExp table.old table.new scope (x.Apply (x.Function k cons.now) args.now) result }
    ensures moves { Moves table.old table.new }
{
    let typed = table.typed;
    match typed.functions.get(k as usize) {
        None => nothing(alloc),
        Some(function) => match fixed_args(alloc, table, scope, &function.params, args)? {
            None => nothing(alloc),
            Some(fixed) => {
                let cons = cons_in(alloc, table, scope, cons)?;
                let key = Key {
                    function: k,
                    cons,
                    fixed,
                };
                called(alloc, table, scope, key, &function.params, args)
            }
        },
    }
}

/// The form of an application.
pub fn apply_form<'a>(
    alloc: Global,
    table: &mut Opening<'a>,
    scope: u32,
    g: &'a Boxed<Exp>,
    args: &'a List<Exp>,
) -> Result<Opened<Piece<'a>>, Halt>
    ensures form { OpensExp table.old table.new scope (x.Apply g.now args.now) result }
    ensures moves { Moves table.old table.new }
{
    match g.get() {
        Exp::Function(k, cons) => named_form(alloc, table, scope, *k, cons, args),
        _ => applied_form(alloc, table, scope, g, args),
    }
}

/// The form of a function's name `e` as a value.
pub fn name_form<'a>(
    alloc: Global,
    table: &mut Opening<'a>,
    scope: u32,
    e: &'a Exp,
    k: u32,
    cons: &List<Normal>,
) -> Result<Opened<Piece<'a>>, Halt>
    ensures form { e.now ≡ x.Function k cons.now → OpensExp table.old table.new scope e.now result }
    ensures stays { Stays table.old table.new }
{
    let typed = table.typed;
    match typed.functions.get(k as usize) {
        None => static_form(alloc, table, scope, e),
        Some(function) => {
            if !function.params.is_empty() {
                return static_form(alloc, table, scope, e);
            }
            constant_name(alloc, table, scope, e, k, cons)
        }
    }
}

/// The name of a function without parameters, which is called at each use.
fn constant_name<'a>(
    alloc: Global,
    table: &mut Opening<'a>,
    scope: u32,
    e: &'a Exp,
    k: u32,
    cons: &List<Normal>,
) -> Result<Opened<Piece<'a>>, Halt>
    ensures form { (f : Function) → slice_get table.old.typed.now.functions k ≡ Some f → f.params ≡ [] → e.now ≡ x.Function k cons.now → OpensExp table.old table.new scope e.now result }
    ensures stays { Stays table.old table.new }
{
    let _numbers = cons_in(alloc, table, scope, cons)?;
    static_form(alloc, table, scope, e)
}
