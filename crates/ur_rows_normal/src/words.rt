//! Words and names applied to arguments.
ghost use Rattle.std.specs.Prelude.{◌≡◌, List as GhostList, IfOk, bytes_eq};
ghost use Rattle.ur_syntax.specs.declared.kind.Kind.TheVariants as kind;
ghost use Rattle.ur_rows.specs.declared.normal.Normal.{Normal as GhostNormal};
ghost use Rattle.ur_rows.specs.declared.normal.Normal.TheVariants as normal;
ghost use Rattle.ur_rows.specs.declared.normal.Normal.TheBlock.{end_of-Normal as sole, more_of-Normal as the};
ghost use Rattle.ur_rows.specs.declared.normal.NormalType.TheVariants as ty;
ghost use Rattle.ur_rows.specs.declared.normal.Var.TheVariants as var;
ghost use Rattle.ur_rows.specs.Put.{as_row, as_label, raised};
ghost use Rattle.ur_rows.specs.Normal.{Known as GhostKnown, known_as, label_of, map_of, xml_of, word, word_with, name_with, type_function, variable};
ghost use Rattle.ur_rows.specs.Made.{option_of, list_of, transaction_of};
ghost use Rattle.ur_rows_reduce.specs.Held.{Holds, RowIs};
ghost use Rattle.ur_rows_reduce.specs.Arguments.{Given, args_of};
ghost use Rattle.ur_rows_normal.specs.Walk.{Tells, key_of, later_word};

use crate::names::{Key, Scope, seen};
use std::alloc::Global;
use ur_base::{List, Memory, Text};
use ur_rows::{
    Label, Normal, NormalType, Part, Raising, Var, boxed, boxed_normal, copy_row, copy_text, one,
    put_label, unit,
};
use ur_rows_reduce::{
    Args, Fields, Held, Large, applied, form_of, mapped, measured, raised_held, row_of, sized,
};
use ur_syntax::{FieldName, Kind};

/// A variable of a kind.
pub fn variable(alloc: Global, kind: &Kind, v: Var) -> Result<Normal, Memory>
    ensures { IfOk result (λ n. n ≡ variable kind.now v) }
{
    match kind {
        Kind::Name => Ok(Normal::Name(Label::Variable(v))),
        Kind::Row => Ok(Normal::Row(one(alloc, Part::Piece(v))?)),
        Kind::Star => Ok(Normal::Type(NormalType::Variable(v))),
        Kind::Arrow(_, _) => Ok(Normal::Type(NormalType::Variable(v))),
    }
}

/// The word `map` applied to arguments.
fn map_of(alloc: Global, args: &Args) -> Result<Held, Memory>
    ensures { IfOk result (λ h. (ns : GhostList GhostNormal) → Given (args_of args.now) ns → Holds h (map_of ns)) }
{
    match args {
        Args::More(f, rest) => match rest {
            Args::More(r, last) => match last {
                Args::Empty => Ok(row_of(mapped(alloc, f, r)?)),
                Args::More(_, _) => Ok(Held::Form(Normal::Row(List::new(alloc)))),
            },
            Args::Empty => Ok(Held::Form(Normal::Row(List::new(alloc)))),
        },
        Args::Empty => Ok(Held::Form(Normal::Row(List::new(alloc)))),
    }
}

/// The row that is held, copied.
fn copied(alloc: Global, h: &Held) -> Result<Fields, Memory>
    ensures { IfOk result (λ f. (n : GhostNormal) → Holds h.now n → RowIs f (as_row n)) }
{
    match h {
        Held::Form(n) => match n {
            Normal::Row(r) => sized(alloc, copy_row(alloc, r)?),
            Normal::Type(_) => Ok(Fields::Small(List::new(alloc), 65535)),
            Normal::Name(_) => Ok(Fields::Small(List::new(alloc), 65535)),
            Normal::Fn(_, _) => Ok(Fields::Small(List::new(alloc), 65535)),
        },
        Held::Large(large) => match large {
            Large::Row(_) => Ok(Fields::Large(None)),
            Large::Type => Err(Memory),
            Large::TypeFunction => Err(Memory),
            Large::Function => Err(Memory),
        },
    }
}

/// The word `xml` applied to arguments.
fn xml_of(alloc: Global, args: &Args) -> Result<Held, Memory>
    ensures { IfOk result (λ h. (ns : GhostList GhostNormal) → Given (args_of args.now) ns → Holds h (xml_of ns)) }
{
    match args {
        Args::More(_, rest) => match rest {
            Args::More(_, more) => match more {
                Args::More(r, last) => match last {
                    Args::Empty => Ok(form_of(copied(alloc, r)?)),
                    Args::More(_, _) => Ok(Held::Form(Normal::Type(unit(alloc)))),
                },
                Args::Empty => Ok(Held::Form(Normal::Type(unit(alloc)))),
            },
            Args::Empty => Ok(Held::Form(Normal::Type(unit(alloc)))),
        },
        Args::Empty => Ok(Held::Form(Normal::Type(unit(alloc)))),
    }
}

fn is(x: &Text, word: &[u8]) -> bool
    ensures { result ≡ bytes_eq x.now word.now }
{
    x.as_slice() == word
}

fn last_variable() -> NormalType
    ensures { result ≡ ty.Variable (var.Bound 0) }
{
    NormalType::Variable(Var::Bound(0))
}

/// A word that is a function of types, given by its body.
fn function(alloc: Global, body: NormalType) -> Result<Normal, Memory>
    ensures { IfOk result (λ n. n ≡ normal.Fn' kind.Star tt (the (normal.Type body) sole)) }
{
    Ok(Normal::Fn(Kind::Star, boxed_normal(alloc, Normal::Type(body))?))
}

fn of_option(alloc: Global) -> Result<Normal, Memory>
    ensures { IfOk result (λ n. n ≡ type_function option_of) }
{
    function(alloc, NormalType::Opt(boxed(alloc, last_variable())?))
}

fn of_list(alloc: Global) -> Result<Normal, Memory>
    ensures { IfOk result (λ n. n ≡ type_function list_of) }
{
    function(alloc, NormalType::Many(boxed(alloc, last_variable())?))
}

fn of_transaction(alloc: Global) -> Result<Normal, Memory>
    ensures { IfOk result (λ n. n ≡ type_function transaction_of) }
{
    function(
        alloc,
        NormalType::Transaction(boxed(alloc, last_variable())?),
    )
}

/// What a word of types stands for.
fn word(alloc: Global, x: &Text) -> Result<Normal, Memory>
    ensures { IfOk result (λ n. n ≡ word x.now) }
{
    if is(x, b"int") {
        return Ok(Normal::Type(NormalType::Int));
    }
    if is(x, b"string") {
        return Ok(Normal::Type(NormalType::Str));
    }
    if is(x, b"bool") {
        return Ok(Normal::Type(NormalType::Bool));
    }
    if is(x, b"unit") {
        return Ok(Normal::Type(unit(alloc)));
    }
    if is(x, b"page") {
        return Ok(Normal::Type(NormalType::Page));
    }
    if is(x, b"xbody") {
        return Ok(Normal::Type(NormalType::Xbody));
    }
    later_word(alloc, x)
}

fn later_word(alloc: Global, x: &Text) -> Result<Normal, Memory>
    ensures { IfOk result (λ n. n ≡ later_word x.now) }
{
    if is(x, b"xtable") {
        return Ok(Normal::Type(NormalType::Xtable));
    }
    if is(x, b"xtr") {
        return Ok(Normal::Type(NormalType::Xtr));
    }
    if is(x, b"xform") {
        return Ok(Normal::Type(NormalType::Form(List::new(alloc))));
    }
    if is(x, b"option") {
        return of_option(alloc);
    }
    if is(x, b"list") {
        return of_list(alloc);
    }
    if is(x, b"transaction") {
        return of_transaction(alloc);
    }
    Ok(Normal::Type(unit(alloc)))
}

fn word_with(alloc: Global, x: &Text, args: &Args) -> Result<Held, Memory>
    ensures { IfOk result (λ h. (ns : GhostList GhostNormal) → Given (args_of args.now) ns → Holds h (word_with x.now ns)) }
{
    if is(x, b"map") {
        return map_of(alloc, args);
    }
    if is(x, b"xml") {
        return xml_of(alloc, args);
    }
    let form = measured(alloc, word(alloc, x)?)?;
    applied(alloc, args, form)
}

/// A name applied to arguments: a declared one, or else a word.
pub fn named(alloc: Global, scope: &Scope, key: &Key, x: &Text, args: &Args) -> Result<Held, Memory>
    ensures { IfOk result (λ h. (known : GhostKnown) (ns : GhostList GhostNormal) → Tells scope.now known → Given (args_of args.now) ns →
        Holds h (name_with (known_as (key_of key.now) known) x.now ns)) }
{
    match seen(scope.home, scope.names, key) {
        Some(found) => {
            let form = raised_held(alloc, scope.depth.saturating_sub(found.depth), found.held)?;
            applied(alloc, args, form)
        }
        None => word_with(alloc, x, args),
    }
}

/// The name of a field.
pub fn label(alloc: Global, scope: &Scope, name: &FieldName) -> Result<Label, Memory>
    ensures { IfOk result (λ l. (known : GhostKnown) → Tells scope.now known → l ≡ label_of known name.now) }
{
    match name {
        FieldName::Literal(a) => Ok(Label::Literal(copy_text(alloc, a)?)),
        FieldName::Variable(x) => match seen(scope.home, scope.names, &Key::Own(x)) {
            Some(found) => {
                let by = scope.depth.saturating_sub(found.depth);
                label_in(alloc, by, found.held)
            }
            None => Ok(Label::Literal(List::new(alloc))),
        },
    }
}

fn label_in(alloc: Global, by: u32, held: &Held) -> Result<Label, Memory>
    ensures { IfOk result (λ l. (n : GhostNormal) → Holds held.now n → l ≡ as_label (raised by n)) }
{
    match held {
        Held::Form(form) => match form {
            Normal::Name(l) => put_label(alloc, &Raising { by }, 0, l),
            Normal::Type(_) => Ok(Label::Literal(List::new(alloc))),
            Normal::Row(_) => Ok(Label::Literal(List::new(alloc))),
            Normal::Fn(_, _) => Ok(Label::Literal(List::new(alloc))),
        },
        Held::Large(_) => Err(Memory),
    }
}
