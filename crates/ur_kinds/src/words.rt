//! Words and names, their kinds and the refusals where they have none.
ghost use Rattle.std.specs.Prelude.{◌≡◌, [], codes, bytes_eq, IfOk, Some, None};
ghost use Rattle.ur_base.specs.Stopping.{Says, IfRefused};
ghost use Rattle.ur_syntax.specs.HasKind.{HasKind, kind_known};
ghost use Rattle.ur_syntax.specs.declared.con.ConForm.TheVariants as con;
ghost use Rattle.ur_syntax.specs.Names.{own, name_text};
ghost use Rattle.ur_kinds.specs.Faults.{HasFault};
ghost use Rattle.ur_kinds.specs.Walk.{scope_of, is_type_word, is_maker_word};
ghost use Rattle.ur_kinds.specs.Words.{is_word, is_map, is_xml_form, is_form, is_empty_row};

use crate::kinds::arrow;
use crate::names::{Key, Names, seen};
use std::alloc::Global;
use ur_base::{List, Memory, Refusal, Span, Stop, Text};
use ur_syntax::{Con, ConForm, Kind, copy_kind};

fn is(x: &Text, word: &[u8]) -> bool
    ensures { result ≡ bytes_eq x.now word.now }
{
    x.as_slice() == word
}

/// Whether a word is a type.
pub fn is_type_word(x: &Text) -> bool
    ensures { result ≡ is_type_word x.now }
{
    is(x, b"int")
        || is(x, b"string")
        || is(x, b"bool")
        || is(x, b"unit")
        || is(x, b"page")
        || is(x, b"xbody")
        || is(x, b"xtable")
        || is(x, b"xtr")
        || is(x, b"xform")
}

/// Whether a word makes types of types.
pub fn is_maker_word(x: &Text) -> bool
    ensures { result ≡ is_maker_word x.now }
{
    is(x, b"option") || is(x, b"list") || is(x, b"transaction")
}

/// Whether a constructor is this word, which no name in scope hides.
fn is_word(names: &Names, con: &Con, word: &[u8]) -> bool
    ensures { result ≡ is_word word.now (scope_of names.now) con.now.form }
{
    match &con.form {
        ConForm::Var(x) => is(x, word) && seen(names, &Key::Own(x)).is_none(),
        _ => false,
    }
}

fn is_empty_row(con: &Con) -> bool
    ensures { result ≡ is_empty_row con.now.form }
{
    match &con.form {
        ConForm::Row(fields) => fields.is_empty(),
        _ => false,
    }
}

/// Whether a constructor is `map f`.
pub fn is_map(names: &Names, con: &Con) -> bool
    ensures { result ≡ is_map (scope_of names.now) con.now.form }
{
    match &con.form {
        ConForm::App(h, _) => is_word(names, h.get(), b"map"),
        _ => false,
    }
}

fn is_xml_form(names: &Names, con: &Con) -> bool
    ensures { result ≡ is_xml_form (scope_of names.now) con.now.form }
{
    match &con.form {
        ConForm::App(h, f) => is_word(names, h.get(), b"xml") && is_word(names, f.get(), b"form"),
        _ => false,
    }
}

/// Whether a constructor is `xml form []`.
pub fn is_form(names: &Names, con: &Con) -> bool
    ensures { result ≡ is_form (scope_of names.now) con.now.form }
{
    match &con.form {
        ConForm::App(h, e) => is_xml_form(names, h.get()) && is_empty_row(e.get()),
        _ => false,
    }
}

/// No such name is in scope.
pub fn unknown(alloc: Global, span: Span, x: &Text) -> Result<Refusal, Memory>
    ensures { IfOk result (λ r. Says r 7 x.now []) }
{
    let left = List::from_slice(alloc, x.as_slice())?;
    Ok(Refusal {
        code: 7,
        span,
        left,
        right: List::new(alloc),
    })
}

/// No such name is in scope of that module.
pub fn unknown_member(alloc: Global, span: Span, m: &Text, x: &Text) -> Result<Refusal, Memory>
    ensures { IfOk result (λ r. Says r 7 (name_text (Some m.now) x.now) []) }
{
    let mut rest = List::from_slice(alloc, b".")?;
    rest.extend_from_slice(x.as_slice())?;
    let mut left = List::from_slice(alloc, m.as_slice())?;
    left.append(rest)?;
    Ok(Refusal {
        code: 7,
        span,
        left,
        right: List::new(alloc),
    })
}

/// The kind of a word that no name in scope hides.
fn word(alloc: Global, names: &Names, span: Span, x: &Text) -> Result<Kind, Stop>
    requires hidden { kind_known (own x.now) (scope_of names.now) ≡ None }
    ensures kind { IfOk result (λ k. HasKind (scope_of names.now) (con.Var x.now) k) }
    ensures refused { IfRefused result (HasFault (scope_of names.now) (con.Var x.now)) }
{
    if is_type_word(x) {
        return Ok(Kind::Star);
    }
    if is_maker_word(x) {
        return Ok(arrow(alloc, Kind::Star, Kind::Star)?);
    }
    Err(Stop::Refused(unknown(alloc, span, x)?))
}

/// The kind of a bare name.
pub fn named(alloc: Global, names: &Names, span: Span, x: &Text) -> Result<Kind, Stop>
    ensures kind { IfOk result (λ k. HasKind (scope_of names.now) (con.Var x.now) k) }
    ensures refused { IfRefused result (HasFault (scope_of names.now) (con.Var x.now)) }
{
    match seen(names, &Key::Own(x)) {
        Some(kind) => Ok(copy_kind(alloc, kind)?),
        None => word(alloc, names, span, x),
    }
}

/// The kind of another module's name.
pub fn member(alloc: Global, names: &Names, span: Span, m: &Text, x: &Text) -> Result<Kind, Stop>
    ensures kind { IfOk result (λ k. HasKind (scope_of names.now) (con.Member m.now x.now) k) }
    ensures refused { IfRefused result (HasFault (scope_of names.now) (con.Member m.now x.now)) }
{
    match seen(names, &Key::Member(m, x)) {
        Some(kind) => Ok(copy_kind(alloc, kind)?),
        None => Err(Stop::Refused(unknown_member(alloc, span, m, x)?)),
    }
}
