//! Names of variables, functions and `val`s.
ghost use Rattle.std.specs.Prelude.{◌≡◌, ℕ, nat_le, ◌++◌, [], ◌∷◌, true, false, map, IfOk, Some, None, option_map, option_and_then, slice_get, List as GhostList, reverse};
ghost use Rattle.ur_base.specs.Stopping.{IfRefused};
ghost use Rattle.ur_syntax.specs.declared.exp.ExpForm.{ExpForm as GhostForm};
ghost use Rattle.ur_syntax.specs.declared.exp.ExpForm.TheVariants as e;
ghost use Rattle.ur_rows.specs.declared.normal.NormalType.TheVariants as ty;
ghost use Rattle.ur_rows.specs.declared.normal.NormalType.{NormalType as GhostType};
ghost use Rattle.ur_rows.specs.Nodes.{nodes};
ghost use Rattle.ur_rows.specs.Normal.{nf};
ghost use Rattle.ur_rows.specs.Types.{arrows_of, arrow_of};
ghost use Rattle.ur_rows_normal.specs.Arguments.{are_normal};
ghost use Rattle.ur_tree.specs.declared.exp.Exp.TheVariants as exp;
ghost use Rattle.ur_tree.specs.Heads.{function_type};
ghost use Rattle.ur_tree.specs.Typing.{types_of};
ghost use Rattle.ur_typed_rules.specs.Names.{declared, local_at, function, val};
ghost use Rattle.ur_typed_rules.specs.Scopes.{World as GhostWorld, Scope as GhostScope, Mode as GhostMode};
ghost use Rattle.ur_typed_rules.specs.Faults.{too_large};
ghost use Rattle.ur_typed.specs.Rules as rules;
ghost use Rattle.ur_typed.specs.Rules.{Sites as GhostSites};
ghost use Rattle.ur_typed.specs.Faults.{given_to, is_given};
ghost use Rattle.ur_typed.specs.Causes.{Breaks};
ghost use Rattle.ur_check_rules.specs.Telling.{TellsAnywhere, TellsIn};
ghost use Rattle.ur_check_scopes.specs.Views.{Stands, StandsFor, Refuses, means_in, key_in, head_in};
ghost use Rattle.ur_check_rules.specs.Views.{out_with};
ghost use Rattle.ur_check_rules.specs.Peeling.{Peels};
ghost use Rattle.ur_check_rules.specs.Callees.{named_by, IsFree, with_back, BreaksBack, IsApplied, MayBeApplied, BreaksGivenTo, IsCallee, BreaksCallee};

use crate::tags::tag_of;
use crate::{Out, gives};
use std::alloc::Global;
use ur_base::{List, Memory, Span, Stop};
use ur_check_scopes::{
    Around, Head, Key, Means, Place, are_arguments, instance_of, keeps_arrows, key_text, local_at,
    normal_at, not_so, seen, unknown,
};
use ur_rows::{Normal, NormalType, boxed, copy_type};
use ur_syntax::{Con, Exp as Written, ExpForm};
use ur_tree::{Exp, Param};

/// A named function with its constructor arguments, as they are written and in normal form.
#[derive(Drop)]
pub struct Applied<'e> {
    pub number: u32,
    pub given: List<&'e Con>,
    pub args: List<Normal>,
}

/// What is applied: a named function, a constructor of a datatype, or anything else.
#[derive(Drop)]
pub enum Callee<'e> {
    Function(Applied<'e>),
    Tag(u32),
    Other,
}

/// What the name of a local gives, which stands for this.
fn local_out(alloc: Global, span: Span, name: &[u8], place: Place) -> Result<Out, Stop>
    ensures local { IfOk result (λ o. (w : GhostWorld) (s : GhostScope) (st : GhostSites) → StandsFor name.now 0 0 s.names.locals s.env.values s.env.fixed (Some place.entry) → rules.var_out w s st name.now ≡ Some (out_with o st)) }
    ensures refused { IfRefused result (λ r. (names : GhostList (GhostList ℕ)) (w : GhostWorld) (s : GhostScope) (st : GhostSites) (m : GhostMode) → StandsFor name.now 0 0 s.names.locals s.env.values s.env.fixed (Some place.entry) → Refuses names (Breaks names w s st (e.Var name.now) m) r) }
{
    match place {
        Place::Variable(at, of) => {
            let of = copy_type(alloc, of)?;
            let made = gives(alloc, of, Exp::Variable(at))?;
            Ok(made)
        }
        Place::Fixed(at, of) => {
            let of = copy_type(alloc, of)?;
            let made = gives(alloc, of, Exp::Fixed(at))?;
            Ok(made)
        }
        Place::Hidden => Err(not_so(alloc, span, name, b"no value from outside")),
    }
}

/// The type of a function: its parameters' and then its result's.
fn function_type(
    alloc: Global,
    params: &[Param],
    last_of: &NormalType,
) -> Result<NormalType, Memory>
    ensures { IfOk result (λ t. t ≡ arrows_of (types_of params.now) last_of.now) }
{
    let mut of = copy_type(alloc, last_of)?;
    let mut left = params;
    while let Some((last, rest)) = left.split_last() {
        let from = copy_type(alloc, &last.of)?;
        let made = arrow(alloc, from, of)?;
        of = made;
        left = rest;
    }
    Ok(of)
}

#[tactic(auto, using(crate::proofs::CalleesCalled::arrows))]
fn arrow(alloc: Global, a: NormalType, b: NormalType) -> Result<NormalType, Memory>
    ensures { IfOk result (λ t. t ≡ arrow_of a b) }
{
    let a = boxed(alloc, a)?;
    let b = boxed(alloc, b)?;
    Ok(NormalType::Arrow(a, b))
}

fn function_with(alloc: Global, of: NormalType, applied: Applied) -> Result<Out, Memory>
    ensures { IfOk result (λ o. (st : GhostSites) → rules.gives of (exp.Function applied.entry.number applied.entry.args) st ≡ Some (out_with o st)) }
{
    gives(alloc, of, Exp::Function(applied.number, applied.args))
}

/// The type of a function that is not applied, at its constructor arguments.
fn passed_type(
    alloc: Global,
    around: &Around,
    span: Span,
    applied: &Applied,
    head: &Head,
) -> Result<NormalType, Stop>
    requires ordered { are_normal applied.now.args ≡ true }
    ensures passed { IfOk result (λ t. (w : GhostWorld) (s : GhostScope) (st : GhostSites) → Stands around.now w s → slice_get w.declared.functions applied.now.number ≡ Some (head_in head.now) → rules.function_out w s st (applied.now.number, applied.now.args) ≡ rules.gives t (exp.Function applied.now.number applied.now.args) st) }
    ensures refused { IfRefused result (λ r. (w : GhostWorld) (s : GhostScope) (st : GhostSites) (x : GhostForm) (m : GhostMode) → Stands around.now w s → slice_get w.declared.functions applied.now.number ≡ Some (head_in head.now) → IsApplied w s x applied.now → Refuses around.now.world.now.datatype_names (Breaks around.now.world.now.datatype_names w s st x m) r) }
{
    let given = applied.given.as_slice();
    let args = applied.args.as_slice();
    let cons = head.cons.as_slice();
    let params = head.params.as_slice();
    are_arguments(alloc, around, span, given, args, cons)?;
    let keeps = keeps_arrows(alloc, args, params)?;
    if !keeps {
        return Err(not_so(
            alloc,
            span,
            b"a function with static parameters",
            b"all arguments",
        ));
    }
    let whole = function_type(alloc, params, &head.result)?;
    instance_of(alloc, span, args, &whole)
}

/// A function with this head that is not applied.
fn passed(
    alloc: Global,
    around: &Around,
    span: Span,
    applied: Applied,
    head: &Head,
) -> Result<Out, Stop>
    requires ordered { are_normal applied.args ≡ true }
    ensures passed { IfOk result (λ o. (w : GhostWorld) (s : GhostScope) (st : GhostSites) → Stands around.now w s → slice_get w.declared.functions applied.entry.number ≡ Some (head_in head.now) → rules.function_out w s st (applied.entry.number, applied.entry.args) ≡ Some (out_with o st)) }
    ensures refused { IfRefused result (λ r. (w : GhostWorld) (s : GhostScope) (st : GhostSites) (x : GhostForm) (m : GhostMode) → Stands around.now w s → slice_get w.declared.functions applied.entry.number ≡ Some (head_in head.now) → IsApplied w s x applied.entry → Refuses around.now.world.now.datatype_names (Breaks around.now.world.now.datatype_names w s st x m) r) }
{
    let of = passed_type(alloc, around, span, &applied, head)?;
    let made = function_with(alloc, of, applied)?;
    Ok(made)
}

/// A function that is not applied, with its constructor arguments.
pub fn passed_out(alloc: Global, around: &Around, span: Span, applied: Applied) -> Result<Out, Stop>
    requires ordered { are_normal applied.args ≡ true }
    ensures passed { IfOk result (λ o. (w : GhostWorld) (s : GhostScope) (st : GhostSites) → Stands around.now w s → rules.function_out w s st (applied.entry.number, applied.entry.args) ≡ Some (out_with o st)) }
    ensures refused { IfRefused result (λ r. (w : GhostWorld) (s : GhostScope) (st : GhostSites) (x : GhostForm) (m : GhostMode) → Stands around.now w s → IsApplied w s x applied.entry → Refuses around.now.world.now.datatype_names (Breaks around.now.world.now.datatype_names w s st x m) r) }
{
    let number = applied.number;
    match around.world.functions.get(number as usize) {
        Some(function) => passed(alloc, around, span, applied, &function.head),
        None => Err(Stop::Memory),
    }
}

fn val_out(alloc: Global, around: &Around, number: u32) -> Result<Out, Memory>
    ensures { IfOk result (λ o. (w : GhostWorld) (s : GhostScope) (st : GhostSites) → Stands around.now w s → rules.declared_out w s st (val number) ≡ Some (out_with o st)) }
{
    match around.world.vals.get(number as usize) {
        Some(of) => {
            let of = copy_type(alloc, of)?;
            gives(alloc, of, Exp::Val(number))
        }
        None => Err(Memory),
    }
}

fn without_arguments<'e>(alloc: Global, number: u32) -> Applied<'e>
    ensures number { result.number ≡ number }
    ensures given { result.given ≡ [] }
    ensures args { result.args ≡ [] }
{
    Applied {
        number,
        given: List::new(alloc),
        args: List::new(alloc),
    }
}

/// What a name gives that no local hides.
fn declared_out(alloc: Global, around: &Around, span: Span, key: &Key) -> Result<Out, Stop>
    ensures declared { IfOk result (λ o. (w : GhostWorld) (s : GhostScope) (st : GhostSites) → Stands around.now w s → option_and_then (rules.declared_out w s st) (declared w.globals (key_in key.now) w.globals.values) ≡ Some (out_with o st)) }
    ensures refused { IfRefused result (λ r. (w : GhostWorld) (s : GhostScope) (st : GhostSites) (m : GhostMode) → Stands around.now w s → IsFree key.now s → Refuses around.now.world.now.datatype_names (Breaks around.now.world.now.datatype_names w s st (named_by key.now) m) r) }
{
    let home = around.world.env.home.as_slice();
    match seen(home, around.world.values.as_slice(), key) {
        Some(means) => meant_out(alloc, around, span, means),
        None => {
            let name = key_text(alloc, key)?;
            let text = name.as_slice();
            Err(unknown(alloc, span, text))
        }
    }
}

/// What a declared name gives that means this.
fn meant_out(alloc: Global, around: &Around, span: Span, means: Means) -> Result<Out, Stop>
    ensures meant { IfOk result (λ o. (w : GhostWorld) (s : GhostScope) (st : GhostSites) → Stands around.now w s → rules.declared_out w s st (means_in means) ≡ Some (out_with o st)) }
    ensures refused { IfRefused result (λ r. (k : ℕ) × (means_in means ≡ function k) × ((w : GhostWorld) (s : GhostScope) (st : GhostSites) (x : GhostForm) (m : GhostMode) → Stands around.now w s → rules.function_at w s x ≡ Some (k, []) → given_to x ≡ [] → Refuses around.now.world.now.datatype_names (Breaks around.now.world.now.datatype_names w s st x m) r)) }
{
    match means {
        Means::Function(number) => {
            passed_out(alloc, around, span, without_arguments(alloc, number))
        }
        Means::Val(number) => {
            let made = val_out(alloc, around, number)?;
            Ok(made)
        }
    }
}

/// `x`: the nearest local of that name, or else the module's own declaration.
pub fn var_out(alloc: Global, around: &Around, span: Span, x: &[u8]) -> Result<Out, Stop>
    ensures named { IfOk result (λ o. (w : GhostWorld) (s : GhostScope) (st : GhostSites) → Stands around.now w s → rules.var_out w s st x.now ≡ Some (out_with o st)) }
    ensures refused { IfRefused result (TellsAnywhere around.now (λ names w s st m. Breaks names w s st (e.Var x.now) m)) }
{
    let found = local_at(&around.scope.locals, x)?;
    match found {
        Some(place) => local_out(alloc, span, x, place),
        None => declared_out(alloc, around, span, &Key::Own(x)),
    }
}

/// `M.x`.
pub fn member_out(
    alloc: Global,
    around: &Around,
    span: Span,
    m: &[u8],
    x: &[u8],
) -> Result<Out, Stop>
    ensures named { IfOk result (λ o. (w : GhostWorld) (s : GhostScope) (st : GhostSites) → Stands around.now w s → rules.member_out w s st m.now x.now ≡ Some (out_with o st)) }
    ensures refused { IfRefused result (TellsAnywhere around.now (λ names w s st mode. Breaks names w s st (e.Member m.now x.now) mode)) }
{
    declared_out(alloc, around, span, &Key::Member(m, x))
}

fn as_function(means: Option<Means>) -> Option<u32>
    ensures { result ≡ option_and_then rules.as_function_number (option_map means_in means) }
{
    match means {
        Some(Means::Function(number)) => Some(number),
        Some(Means::Val(_)) => None,
        None => None,
    }
}

fn function_of(around: &Around, key: &Key) -> Option<u32>
    ensures { (w : GhostWorld) (s : GhostScope) → Stands around.now w s → result ≡ option_and_then rules.as_function_number (declared w.globals (key_in key.now) w.globals.values) }
{
    let home = around.world.env.home.as_slice();
    as_function(seen(home, around.world.values.as_slice(), key))
}

fn own_function(around: &Around, x: &[u8]) -> Result<Option<u32>, Memory>
    ensures { IfOk result (λ f. (w : GhostWorld) (s : GhostScope) → Stands around.now w s → f ≡ rules.function_named w s (e.Var x.now)) }
{
    let found = local_at(&around.scope.locals, x)?;
    match found {
        Some(_place) => Ok(None),
        None => Ok(function_of(around, &Key::Own(x))),
    }
}

/// The function that is named so, where no local hides it.
pub fn function_named(around: &Around, e: &Written) -> Result<Option<u32>, Memory>
    ensures { IfOk result (λ f. (w : GhostWorld) (s : GhostScope) → Stands around.now w s → f ≡ rules.function_named w s e.now.form) }
{
    match &e.form {
        ExpForm::Var(x) => {
            let own = x.as_slice();
            own_function(around, own)
        }
        ExpForm::Member(m, x) => {
            let home = m.as_slice();
            let name = x.as_slice();
            Ok(function_of(around, &Key::Member(home, name)))
        }
        _ => Ok(None),
    }
}

/// What has constructor arguments, with these, the last one first.
fn given_to<'e>(alloc: Global, e: &'e Written) -> Result<(&'e Written, List<&'e Con>), Memory>
    ensures head { IfOk result (λ o. is_given o.0.now.form ≡ false) }
    ensures peels { IfOk result (λ o. Peels e.now.form (map (λ c. c.now) o.1) o.0.now.form) }
{
    let mut given = List::new(alloc);
    let mut head = e;
    while let ExpForm::ConApp(inner, con) = &head.form {
        given.push(con)?;
        head = inner.get();
    }
    Ok((head, given))
}

/// One constructor argument more, in normal form.
fn with_argument<'e>(
    alloc: Global,
    around: &Around,
    applied: Applied<'e>,
    con: &'e Con,
) -> Result<Applied<'e>, Stop>
    ensures at { IfOk result (λ a. (w : GhostWorld) (s : GhostScope) → Stands around.now w s → rules.with_argument w s con.now (applied.entry.number, applied.entry.args) ≡ Some (a.number, a.args)) }
    ensures given { IfOk result (λ a. map (λ c. c.now) a.given ≡ map (λ c. c.now) applied.entry.given ++ con.now ∷ []) }
    ensures ordered { IfOk result (λ a. (w : GhostWorld) (s : GhostScope) → Stands around.now w s → are_normal applied.entry.args ≡ true → are_normal a.args ≡ true) }
    ensures refused { IfRefused result (TellsIn around.now (λ _ w s. λ x. (x ≡ too_large) × (nat_le (nodes (nf s.names.cons con.now)) w.most ≡ false))) }
{
    let form = normal_at(alloc, &around.scope.cons, con)?;
    let mut applied = applied;
    applied.given.push(con)?;
    applied.args.push(form)?;
    Ok(applied)
}

/// The constructor arguments, the first one first, and in normal form.
fn with_arguments<'e>(
    alloc: Global,
    around: &Around,
    number: u32,
    back: List<&'e Con>,
) -> Result<Applied<'e>, Stop>
    ensures at { IfOk result (λ a. (w : GhostWorld) (s : GhostScope) → Stands around.now w s → with_back w s (map (λ c. c.now) back.entry) (Some (number, [])) ≡ Some (a.number, a.args)) }
    ensures given { IfOk result (λ a. map (λ c. c.now) a.given ≡ reverse (map (λ c. c.now) back.entry)) }
    ensures ordered { IfOk result (λ a. (w : GhostWorld) (s : GhostScope) → Stands around.now w s → are_normal a.args ≡ true) }
    ensures refused { IfRefused result (TellsIn around.now (λ _ w s. BreaksBack w s (Some (number, [])) (map (λ c. c.now) back.entry))) }
{
    let mut applied = without_arguments(alloc, number);
    let mut back = back;
    while let Some(con) = back.pop() {
        applied = with_argument(alloc, around, applied, con)?;
    }
    Ok(applied)
}

/// A named function with its constructor arguments, as it is written, if it is one.
pub fn applied_at<'e>(
    alloc: Global,
    around: &Around,
    e: &'e Written,
) -> Result<Option<Applied<'e>>, Stop>
    ensures applied { IfOk result (λ a. (w : GhostWorld) (s : GhostScope) → Stands around.now w s → MayBeApplied w s e.now.form a) }
    ensures refused { IfRefused result (TellsIn around.now (λ _ w s. BreaksGivenTo w s e.now.form)) }
{
    let (head, back) = given_to(alloc, e)?;
    let named = function_named(around, head)?;
    match named {
        Some(number) => {
            let applied = with_arguments(alloc, around, number, back)?;
            Ok(Some(applied))
        }
        None => Ok(None),
    }
}

/// What is applied.
pub fn callee_of<'e>(alloc: Global, around: &Around, e: &'e Written) -> Result<Callee<'e>, Stop>
    ensures callee { IfOk result (λ c. (w : GhostWorld) (s : GhostScope) → Stands around.now w s → IsCallee w s e.now.form c) }
    ensures refused { IfRefused result (TellsIn around.now (λ _ w s. BreaksCallee w s e.now.form)) }
{
    let function = applied_at(alloc, around, e)?;
    match function {
        Some(applied) => Ok(Callee::Function(applied)),
        None => {
            let tag = tag_of(alloc, around, e)?;
            match tag {
                Some(number) => Ok(Callee::Tag(number)),
                None => Ok(Callee::Other),
            }
        }
    }
}
