//! Names with a capital.
ghost use Rattle.std.specs.Prelude.{◌≡◌, ℕ, List as GhostList, IfOk, Some, codes, option_and_then};
ghost use Rattle.std.specs.Option.{option_copied};
ghost use Rattle.ur_base.specs.Stopping.{IfRefused};
ghost use Rattle.ur_syntax.specs.declared.exp.ExpForm.TheVariants as e;
ghost use Rattle.ur_rows.specs.declared.normal.NormalType.{NormalType as GhostType};
ghost use Rattle.ur_rows.specs.declared.normal.NormalType.TheVariants as ty;
ghost use Rattle.ur_tree.specs.declared.exp.Exp.TheVariants as exp;
ghost use Rattle.ur_typed_rules.specs.Names.{declared};
ghost use Rattle.ur_typed_rules.specs.Scopes.{World as GhostWorld, Scope as GhostScope};
ghost use Rattle.ur_typed_rules.specs.Faults as faults;
ghost use Rattle.ur_typed_rules.specs.Faults.{TellsType};
ghost use Rattle.ur_tree.specs.Text as texts;
ghost use Rattle.ur_typed.specs.Rules as rules;
ghost use Rattle.ur_typed.specs.Rules.{Sites as GhostSites};
ghost use Rattle.ur_typed.specs.Faults.{missing_argument, no_further, BreaksHead};
ghost use Rattle.ur_typed.specs.Causes.{Breaks};
ghost use Rattle.ur_check_rules.specs.Telling.{TellsAnywhere, TellsBehind, TellsIn};
ghost use Rattle.ur_check_scopes.specs.Views.{Stands, Refuses, StopIs, key_in, mode_of};
ghost use Rattle.ur_check_rules.specs.Views.{out_with};
ghost use Rattle.ur_check_rules.specs.Capitals.{capital_in};
ghost use Rattle.ur_check_rules.specs.Callees.{IsNoTag, BreaksTag, MayBeTag};

use crate::{Out, gives};
use std::alloc::Global;
use ur_base::{Span, Stop};
use ur_check_scopes::{Around, Key, key_text, mismatch, not_so, seen, unknown};
use ur_rows::{NormalType, copy_type};
use ur_syntax::{Exp as Written, ExpForm};
use ur_tree::{Exp, Variant, type_text};

/// What a bare name with a capital is.
#[derive(Clone, Copy)]
pub enum Capital {
    True,
    False,
    None,
    Other,
}

fn capital_of(x: &[u8]) -> Capital
    ensures { capital_in result ≡ rules.capital_of x.now }
{
    if x == b"True".as_slice() {
        return Capital::True;
    }
    if x == b"False".as_slice() {
        return Capital::False;
    }
    if x == b"None".as_slice() {
        return Capital::None;
    }
    Capital::Other
}

/// The number of the constructor of a datatype that is named so.
fn number_of(alloc: Global, around: &Around, span: Span, key: &Key) -> Result<u32, Stop>
    ensures number { IfOk result (λ n. (w : GhostWorld) (s : GhostScope) → Stands around.now w s → declared w.globals (key_in key.now) w.globals.constructors ≡ Some n) }
    ensures refused { IfRefused result (TellsIn around.now (λ _ w s. IsNoTag w (key_in key.now))) }
{
    let home = around.world.env.home.as_slice();
    match seen(home, around.world.constructors.as_slice(), key) {
        Some(number) => Ok(number),
        None => {
            let name = key_text(alloc, key)?;
            let text = name.as_slice();
            Err(unknown(alloc, span, text))
        }
    }
}

/// A constructor of a datatype that stands alone.
fn variant_out(alloc: Global, span: Span, number: u32, variant: &Variant) -> Result<Out, Stop>
    ensures plain { IfOk result (λ o. (st : GhostSites) → rules.plain_tag variant.now.datatype number st variant.now.arg ≡ Some (out_with o st)) }
    ensures refused { IfRefused result (λ r. (t : GhostType) × (variant.now.arg ≡ Some t) × ((names : GhostList (GhostList ℕ)) → TellsType names r missing_argument)) }
{
    match &variant.arg {
        None => {
            let of = NormalType::Datatype(variant.datatype);
            let made = gives(alloc, of, Exp::Tagged(number, None))?;
            Ok(made)
        }
        Some(_) => Err(not_so(alloc, span, b"too few arguments", b"all arguments")),
    }
}

/// A constructor that stands alone has no argument.
fn tagged_out(alloc: Global, around: &Around, span: Span, key: &Key) -> Result<Out, Stop>
    ensures tagged { IfOk result (λ o. (w : GhostWorld) (s : GhostScope) (st : GhostSites) → Stands around.now w s → option_and_then (rules.tagged_out w st) (declared w.globals (key_in key.now) w.globals.constructors) ≡ Some (out_with o st)) }
    ensures refused { IfRefused result (TellsIn around.now (λ _ w s. BreaksTag w (key_in key.now))) }
{
    let number = number_of(alloc, around, span, key)?;
    match around.world.variants.get(number as usize) {
        Some(variant) => variant_out(alloc, span, number, variant),
        None => Err(Stop::Memory),
    }
}

fn is_option(of: &NormalType) -> bool
    ensures { result ≡ rules.is_option of.now }
{
    match of {
        NormalType::Opt(_) => true,
        _ => false,
    }
}

fn is_list(of: &NormalType) -> bool
    ensures { result ≡ rules.is_list of.now }
{
    match of {
        NormalType::Many(_) => true,
        _ => false,
    }
}

/// What is wanted is of another form.
fn not_wanted(alloc: Global, around: &Around, span: Span, found: &[u8], wanted: &NormalType) -> Stop
    ensures { StopIs around.now.world.now.datatype_names (faults.mismatch found.now (texts.type_text around.now.world.now.datatype_names wanted.now)) result }
{
    match type_text(alloc, around.world.datatype_names.as_slice(), wanted) {
        Ok(text) => {
            let name = text.as_slice();
            mismatch(alloc, span, found, name)
        }
        Err(_want) => Stop::Memory,
    }
}

/// `None`, at an option that is wanted.
pub fn absent_out(
    alloc: Global,
    around: &Around,
    span: Span,
    wanted: Option<&NormalType>,
) -> Result<Out, Stop>
    ensures absent { IfOk result (λ o. (st : GhostSites) → rules.absent_out st (mode_of (option_copied wanted.entry)) ≡ Some (out_with o st)) }
    ensures refused { IfRefused result (λ r. (w : GhostWorld) (s : GhostScope) (st : GhostSites) → Refuses around.now.world.now.datatype_names (Breaks around.now.world.now.datatype_names w s st (e.Constructor (codes "None")) (mode_of (option_copied wanted.entry))) r) }
{
    match wanted {
        None => Err(mismatch(alloc, span, b"None", b"annotation")),
        Some(t) => {
            if !is_option(t) {
                return Err(not_wanted(alloc, around, span, b"option", t));
            }
            let of = copy_type(alloc, t)?;
            let at = copy_type(alloc, t)?;
            let made = gives(alloc, of, Exp::Absent(at))?;
            Ok(made)
        }
    }
}

/// `[]`, at a list that is wanted.
pub fn empty_out(
    alloc: Global,
    around: &Around,
    span: Span,
    wanted: Option<&NormalType>,
) -> Result<Out, Stop>
    ensures empty { IfOk result (λ o. (st : GhostSites) → rules.empty_out st (mode_of (option_copied wanted.entry)) ≡ Some (out_with o st)) }
    ensures refused { IfRefused result (λ r. (w : GhostWorld) (s : GhostScope) (st : GhostSites) → Refuses around.now.world.now.datatype_names (Breaks around.now.world.now.datatype_names w s st e.Nil (mode_of (option_copied wanted.entry))) r) }
{
    match wanted {
        None => Err(mismatch(alloc, span, b"[]", b"annotation")),
        Some(t) => {
            if !is_list(t) {
                return Err(not_wanted(alloc, around, span, b"list", t));
            }
            let of = copy_type(alloc, t)?;
            let at = copy_type(alloc, t)?;
            let made = gives(alloc, of, Exp::Empty(at))?;
            Ok(made)
        }
    }
}

fn bool_out(alloc: Global, b: bool) -> Result<Out, Stop>
    ensures truth { IfOk result (λ o. (st : GhostSites) → rules.gives ty.Bool (exp.Bool b) st ≡ Some (out_with o st)) }
    ensures refused { IfRefused result (λ r. ⊥) }
{
    let made = gives(alloc, NormalType::Bool, Exp::Bool(b))?;
    Ok(made)
}

/// `A`.
pub fn constructor_out(
    alloc: Global,
    around: &Around,
    span: Span,
    x: &[u8],
    wanted: Option<&NormalType>,
) -> Result<Out, Stop>
    ensures named { IfOk result (λ o. (w : GhostWorld) (s : GhostScope) (st : GhostSites) → Stands around.now w s → rules.constructor_out w st (mode_of (option_copied wanted.entry)) x.now ≡ Some (out_with o st)) }
    ensures refused { IfRefused result (TellsBehind around.now (λ names w s st. Breaks names w s st (e.Constructor x.now) (mode_of (option_copied wanted.entry)))) }
{
    match capital_of(x) {
        Capital::True => bool_out(alloc, true),
        Capital::False => bool_out(alloc, false),
        Capital::None => absent_out(alloc, around, span, wanted),
        Capital::Other => tagged_out(alloc, around, span, &Key::Own(x)),
    }
}

/// `M.A`.
pub fn member_constructor_out(
    alloc: Global,
    around: &Around,
    span: Span,
    m: &[u8],
    x: &[u8],
) -> Result<Out, Stop>
    ensures named { IfOk result (λ o. (w : GhostWorld) (s : GhostScope) (st : GhostSites) → Stands around.now w s → rules.member_constructor_out w st m.now x.now ≡ Some (out_with o st)) }
    ensures refused { IfRefused result (TellsAnywhere around.now (λ names w s st mode. Breaks names w s st (e.MemberConstructor m.now x.now) mode)) }
{
    tagged_out(alloc, around, span, &Key::Member(m, x))
}

/// The constructor of a datatype that a bare name is. A word that takes no argument may not stand there.
fn own_tag(alloc: Global, around: &Around, span: Span, x: &[u8]) -> Result<Option<u32>, Stop>
    ensures tag { IfOk result (λ n. (w : GhostWorld) (s : GhostScope) → Stands around.now w s → MayBeTag w (e.Constructor x.now) n) }
    ensures refused { IfRefused result (TellsIn around.now (λ _ w s. BreaksHead w (e.Constructor x.now))) }
{
    match capital_of(x) {
        Capital::Other => {
            let number = number_of(alloc, around, span, &Key::Own(x))?;
            Ok(Some(number))
        }
        Capital::True => Err(no_argument(alloc, span)),
        Capital::False => Err(no_argument(alloc, span)),
        Capital::None => Err(no_argument(alloc, span)),
    }
}

fn no_argument(alloc: Global, span: Span) -> Stop
    ensures { (names : GhostList (GhostList ℕ)) → StopIs names no_further result }
{
    mismatch(alloc, span, b"an argument", b"no further argument")
}

fn member_tag(
    alloc: Global,
    around: &Around,
    span: Span,
    m: &[u8],
    x: &[u8],
) -> Result<Option<u32>, Stop>
    ensures tag { IfOk result (λ n. (w : GhostWorld) (s : GhostScope) → Stands around.now w s → MayBeTag w (e.MemberConstructor m.now x.now) n) }
    ensures refused { IfRefused result (TellsIn around.now (λ _ w s. BreaksHead w (e.MemberConstructor m.now x.now))) }
{
    let number = number_of(alloc, around, span, &Key::Member(m, x))?;
    Ok(Some(number))
}

/// The constructor of a datatype that stands at the head of an application, if one does.
pub fn tag_of(alloc: Global, around: &Around, e: &Written) -> Result<Option<u32>, Stop>
    ensures tag { IfOk result (λ n. (w : GhostWorld) (s : GhostScope) → Stands around.now w s → MayBeTag w e.now.form n) }
    ensures refused { IfRefused result (TellsIn around.now (λ _ w s. BreaksHead w e.now.form)) }
{
    match &e.form {
        ExpForm::Constructor(x) => {
            let own = x.as_slice();
            own_tag(alloc, around, e.span, own)
        }
        ExpForm::MemberConstructor(m, x) => {
            let home = m.as_slice();
            let name = x.as_slice();
            member_tag(alloc, around, e.span, home, name)
        }
        _ => Ok(None),
    }
}
