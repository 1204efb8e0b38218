//! Expressions without parts.
ghost use Rattle.std.specs.Prelude.{◌≡◌, pos, Some, IfOk};
ghost use Rattle.std.specs.Option.{option_copied};
ghost use Rattle.ur_base.specs.Stopping.{IfRefused};
ghost use Rattle.ur_rows.specs.declared.normal.NormalType.TheVariants as ty;
ghost use Rattle.ur_rows.specs.Made as made;
ghost use Rattle.ur_tree.specs.declared.exp.Exp.TheVariants as exp;
ghost use Rattle.ur_typed.specs.Rules as rules;
ghost use Rattle.ur_typed.specs.Rules.{Sites as GhostSites};
ghost use Rattle.ur_check_scopes.specs.Views.{mode_of};
ghost use Rattle.ur_check_rules.specs.Views.{out_with};
ghost use Rattle.ur_check_walk.specs.Promises.{StandsSomewhere, GivesLeaf, TellsLeaf};

use crate::instances::instance;
use std::alloc::Global;
use ur_base::{Memory, Stop, Text};
use ur_check_forms::{get_cookie_out, next_out};
use ur_check_rules::{
    Out, constructor_out, empty_out, gives, member_constructor_out, member_out, var_out,
};
use ur_check_scopes::Around;
use ur_rows::{NormalType, copy_text, unit};
use ur_syntax::{Exp, ExpForm};
use ur_tree::Exp as Resolved;

/// An expression without parts. Any other is not asked for here.
pub fn leaf(
    alloc: Global,
    around: &Around,
    e: &Exp,
    wanted: Option<&NormalType>,
) -> Result<Out, Stop>
    requires { StandsSomewhere around.now }
    ensures typed { IfOk result (GivesLeaf around.now e.now.form (mode_of (option_copied wanted.entry))) }
    ensures refused { IfRefused result (TellsLeaf around.now e.now.form (mode_of (option_copied wanted.entry))) }
{
    match &e.form {
        ExpForm::Int(n) => {
            let made = int(alloc, *n)?;
            Ok(made)
        }
        ExpForm::Str(text) => {
            let made = string(alloc, text)?;
            Ok(made)
        }
        ExpForm::Unit => {
            let made = unit_out(alloc)?;
            Ok(made)
        }
        ExpForm::Nil => empty_out(alloc, around, e.span, wanted),
        _ => name(alloc, around, e, wanted),
    }
}

/// A name. Any other expression is not asked for here.
fn name(alloc: Global, around: &Around, e: &Exp, wanted: Option<&NormalType>) -> Result<Out, Stop>
    requires { StandsSomewhere around.now }
    ensures typed { IfOk result (GivesLeaf around.now e.now.form (mode_of (option_copied wanted.entry))) }
    ensures refused { IfRefused result (TellsLeaf around.now e.now.form (mode_of (option_copied wanted.entry))) }
{
    match &e.form {
        ExpForm::ConApp(_, _) => instance(alloc, around, e),
        ExpForm::Var(x) => {
            let own = x.as_slice();
            var_out(alloc, around, e.span, own)
        }
        ExpForm::Constructor(x) => {
            let own = x.as_slice();
            constructor_out(alloc, around, e.span, own, wanted)
        }
        ExpForm::Member(m, x) => {
            let home = m.as_slice();
            let own = x.as_slice();
            member_out(alloc, around, e.span, home, own)
        }
        ExpForm::MemberConstructor(m, x) => {
            let home = m.as_slice();
            let own = x.as_slice();
            member_constructor_out(alloc, around, e.span, home, own)
        }
        ExpForm::Nextval(name) => next_out(alloc, around, name),
        ExpForm::GetCookie(name) => get_cookie_out(alloc, around, name),
        _ => Err(Stop::Memory),
    }
}

fn int(alloc: Global, n: u64) -> Result<Out, Memory>
    ensures { IfOk result (λ o. (st : GhostSites) → rules.gives ty.Int (exp.Int (pos n)) st ≡ Some (out_with o st)) }
{
    if n < 9223372036854775808 {
        let made = gives(alloc, NormalType::Int, Resolved::Int(n as i64))?;
        return Ok(made);
    }
    Err(Memory)
}

fn string(alloc: Global, text: &Text) -> Result<Out, Memory>
    ensures { IfOk result (λ o. (st : GhostSites) → rules.gives ty.Str (exp.Str text.now) st ≡ Some (out_with o st)) }
{
    let text = copy_text(alloc, text)?;
    let made = gives(alloc, NormalType::Str, Resolved::Str(text))?;
    Ok(made)
}

fn unit_out(alloc: Global) -> Result<Out, Memory>
    ensures { IfOk result (λ o. (st : GhostSites) → rules.gives made.unit exp.Unit st ≡ Some (out_with o st)) }
{
    let of = unit(alloc);
    let made = gives(alloc, of, Resolved::Unit)?;
    Ok(made)
}
