//! Sequences and cookies.
ghost use Rattle.std.specs.Prelude.{◌≡◌, ℕ, nat_lt, length, List as GhostList, IfOk, Some, Option};
ghost use Rattle.std.specs.Option.{option_copied};
ghost use Rattle.ur_base.specs.Stopping.{IfRefused};
ghost use Rattle.ur_base.specs.declared.refusal.Span.{Span as GhostSpan};
ghost use Rattle.ur_syntax.specs.Names.{name_text};
ghost use Rattle.ur_syntax.specs.declared.sql.DeclName.{DeclName as GhostName};
ghost use Rattle.ur_syntax.specs.declared.exp.ExpForm.{end_of-Exp as alone, more_of-Exp as its};
ghost use Rattle.ur_syntax.specs.declared.exp.ExpForm.TheVariants as form;
ghost use Rattle.ur_rows.specs.Types as types;
ghost use Rattle.ur_tree.specs.Make as make;
ghost use Rattle.ur_tree.specs.Scalars as scalars;
ghost use Rattle.ur_typed_rules.specs.Names.{declared, name_of};
ghost use Rattle.ur_typed_rules.specs.Scopes.{World as GhostWorld, Scope as GhostScope, Mode as GhostMode};
ghost use Rattle.ur_typed_rules.specs.Faults as faults;
ghost use Rattle.ur_typed.specs.Rules as rules;
ghost use Rattle.ur_typed.specs.Rules.{Sites as GhostSites};
ghost use Rattle.ur_typed.specs.Causes.{Breaks, is_record};
ghost use Rattle.ur_check_rules.specs.Telling.{TellsAnywhere, TellsIn};
ghost use Rattle.ur_check_scopes.specs.Views.{Stands, Refuses, StopIs};
ghost use Rattle.ur_check_rules.specs.Views.{out_with};
ghost use Rattle.ur_check_forms.specs.Promises.{GivesCookieSet};
ghost use Rattle.ur_check_forms.specs.Runs.{IsUnknown, IsCookieValue, value_in, are_of_cookie};

use std::alloc::Global;
use ur_base::{Boxed, Memory, Stop};
use ur_check_rules::{Out, gives};
use ur_check_scopes::{Around, key_of, key_text, not_so, seen, unknown};
use ur_rows::{NormalType, boxed, unit};
use ur_sqltype::kind_type;
use ur_syntax::{DeclName, Exp as Written, ExpForm, Field, FieldName};
use ur_tree::Exp;
use ur_values::ColumnKind;

/// A cookie by its number, with its kind.
#[derive(Clone, Copy)]
pub struct CookieAt {
    pub number: u32,
    pub kind: ColumnKind,
}

#[tactic(auto, using(crate::proofs::Running::types))]
pub fn transaction_of(alloc: Global, of: NormalType) -> Result<NormalType, Memory>
    ensures { IfOk result (λ t. t ≡ types.transaction_of of) }
{
    let inner = boxed(alloc, of)?;
    Ok(NormalType::Transaction(inner))
}

#[tactic(auto, using(crate::proofs::Running::types))]
fn option_of(alloc: Global, of: NormalType) -> Result<NormalType, Memory>
    ensures { IfOk result (λ t. t ≡ types.option_of of) }
{
    let inner = boxed(alloc, of)?;
    Ok(NormalType::Opt(inner))
}

fn no_name(alloc: Global, name: &DeclName) -> Stop
    ensures { (names : GhostList (GhostList ℕ)) → StopIs names (faults.unknown (name_text name.now.«module» name.now.name)) result }
{
    let key = key_of(name);
    match key_text(alloc, &key) {
        Ok(text) => unknown(alloc, name.span, text.as_slice()),
        Err(_want) => Stop::Memory,
    }
}

/// The number of the sequence that is named so.
fn sequence_named(alloc: Global, around: &Around, name: &DeclName) -> Result<u32, Stop>
    ensures number { IfOk result (λ n. (w : GhostWorld) (s : GhostScope) → Stands around.now w s → declared w.globals (name_of name.now) w.globals.sequences ≡ Some n) }
    ensures refused { IfRefused result (TellsIn around.now (λ _ w s. IsUnknown w w.globals.sequences name.now)) }
{
    let key = key_of(name);
    let home = around.world.env.home.as_slice();
    match seen(home, around.world.sequences.as_slice(), &key) {
        Some(number) => Ok(number),
        None => Err(no_name(alloc, name)),
    }
}

/// The number of the cookie that is named so.
fn cookie_named(alloc: Global, around: &Around, name: &DeclName) -> Result<u32, Stop>
    ensures number { IfOk result (λ n. (w : GhostWorld) (s : GhostScope) → Stands around.now w s → declared w.globals (name_of name.now) w.globals.cookies ≡ Some n) }
    ensures refused { IfRefused result (TellsIn around.now (λ _ w s. IsUnknown w w.globals.cookies name.now)) }
{
    let key = key_of(name);
    let home = around.world.env.home.as_slice();
    match seen(home, around.world.cookies.as_slice(), &key) {
        Some(number) => Ok(number),
        None => Err(no_name(alloc, name)),
    }
}

/// Whether the schema has a sequence of that number.
fn has_sequence(around: &Around, number: u32) -> bool
    ensures { result ≡ nat_lt number (length around.now.world.now.schema.sequences) }
{
    (number as usize) < around.world.schema.sequences.len()
}

/// `nextval s`.
pub fn next_out(alloc: Global, around: &Around, name: &DeclName) -> Result<Out, Stop>
    ensures next { IfOk result (λ o. (w : GhostWorld) (s : GhostScope) (st : GhostSites) → Stands around.now w s → rules.next_out w st name.now ≡ Some (out_with o st)) }
    ensures refused { IfRefused result (TellsAnywhere around.now (λ names w s st m. Breaks names w s st (form.Nextval name.now) m)) }
{
    let number = sequence_named(alloc, around, name)?;
    if !has_sequence(around, number) {
        return Err(Stop::Memory);
    }
    let of = transaction_of(alloc, NormalType::Int)?;
    let made = gives(alloc, of, Exp::Next(number))?;
    Ok(made)
}

/// The cookie that is named so.
pub fn cookie_at(alloc: Global, around: &Around, name: &DeclName) -> Result<CookieAt, Stop>
    ensures cookie { IfOk result (λ c. (w : GhostWorld) (s : GhostScope) → Stands around.now w s → rules.cookie_at w name.now ≡ Some (c.number, c.kind)) }
    ensures refused { IfRefused result (TellsIn around.now (λ _ w s. IsUnknown w w.globals.cookies name.now)) }
{
    let number = cookie_named(alloc, around, name)?;
    match around.world.cookie_kinds.get(number as usize) {
        Some(cookie) => Ok(CookieAt {
            number,
            kind: cookie.1,
        }),
        None => Err(Stop::Memory),
    }
}

/// `getCookie c`.
pub fn get_cookie_out(alloc: Global, around: &Around, name: &DeclName) -> Result<Out, Stop>
    ensures cookie { IfOk result (λ o. (w : GhostWorld) (s : GhostScope) (st : GhostSites) → Stands around.now w s → rules.get_cookie_out w st name.now ≡ Some (out_with o st)) }
    ensures refused { IfRefused result (TellsAnywhere around.now (λ names w s st m. Breaks names w s st (form.GetCookie name.now) m)) }
{
    let cookie = cookie_at(alloc, around, name)?;
    let inner = kind_type(alloc, cookie.kind)?;
    let option = option_of(alloc, inner)?;
    let of = transaction_of(alloc, option)?;
    let made = gives(alloc, of, Exp::GetCookie(cookie.number))?;
    Ok(made)
}

#[tactic(auto, using(crate::proofs::Running::types))]
fn set_cookie_of(alloc: Global, number: u32, value: Boxed<Exp>) -> Result<Boxed<Exp>, Memory>
    ensures { IfOk result (λ x. x ≡ make.set_cookie number value) }
{
    Boxed::new(alloc, Exp::SetCookie(number, value))
}

/// `setCookie c {Value = e, Expires = None, Secure = False}`.
pub fn set_cookie_out(alloc: Global, cookie: CookieAt, value: Out) -> Result<Out, Memory>
    ensures { IfOk result (GivesCookieSet cookie value) }
{
    let of = transaction_of(alloc, unit(alloc))?;
    let exp = set_cookie_of(alloc, cookie.number, value.exp)?;
    Ok(Out { of, exp })
}

fn is_literally(field: &Field, text: &[u8]) -> bool
    ensures { result ≡ rules.is_literally field.now.name text.now }
{
    match &field.name {
        FieldName::Literal(a) => a.as_slice() == text,
        FieldName::Variable(_) => false,
    }
}

fn is_word(field: &Field, text: &[u8]) -> bool
    ensures { result ≡ rules.is_constructor_named field.now.value.form text.now }
{
    match &field.value.form {
        ExpForm::Constructor(x) => x.as_slice() == text,
        _ => false,
    }
}

/// Whether the fields of a record are those of `setCookie`.
fn are_of_cookie(value: &Field, expires: &Field, secure: &Field) -> bool
    ensures { result ≡ are_of_cookie value.now expires.now secure.now }
{
    if !is_literally(value, b"Value") {
        return false;
    }
    if !is_literally(expires, b"Expires") {
        return false;
    }
    if !is_word(expires, b"None") {
        return false;
    }
    if !is_literally(secure, b"Secure") {
        return false;
    }
    is_word(secure, b"False")
}

fn value_in<'e>(fields: &'e [Field]) -> Option<&'e Written>
    ensures { option_copied result ≡ value_in fields.now }
{
    match fields {
        [value, expires, secure] => {
            if are_of_cookie(value, expires, secure) {
                return Some(&value.value);
            }
            None
        }
        _ => None,
    }
}

fn is_record(e: &Written) -> bool
    ensures { result ≡ is_record e.now.form }
{
    match &e.form {
        ExpForm::Record(_) => true,
        _ => false,
    }
}

/// The value in the literal record of `setCookie`.
pub fn cookie_value<'e>(alloc: Global, e: &'e Written) -> Result<&'e Written, Stop>
    ensures value { IfOk result (λ x. IsCookieValue e.now.form x.now.form) }
    ensures refused { IfRefused result (λ r. (names : GhostList (GhostList ℕ)) (w : GhostWorld) (s : GhostScope) (st : GhostSites) (m : GhostMode) (x : GhostName) (p : GhostSpan) → Refuses names (Breaks names w s st (form.SetCookie' x tt (its p e.now.form alone)) m) r) }
{
    let wanted = b"{Value = .., Expires = None, Secure = False}";
    if !is_record(e) {
        return Err(not_so(alloc, e.span, b"a value", wanted));
    }
    match &e.form {
        ExpForm::Record(fields) => match value_in(fields.as_slice()) {
            Some(value) => Ok(value),
            None => Err(not_so(alloc, e.span, b"a record", wanted)),
        },
        _ => Err(Stop::Memory),
    }
}
