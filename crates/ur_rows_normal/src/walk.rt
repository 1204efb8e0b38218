//! The walk over a constructor to its normal form.
ghost use Rattle.std.specs.Prelude.{◌≡◌, ◌++◌, suc, [], ◌∷◌, List as GhostList, IfOk};
ghost use Rattle.ur_syntax.specs.declared.kind.Kind.{Kind as GhostKind};
ghost use Rattle.ur_syntax.specs.Forms.{fn_con};
ghost use Rattle.ur_rows.specs.declared.normal.Label.TheVariants as label;
ghost use Rattle.ur_rows.specs.declared.normal.Normal.{Normal as GhostNormal};
ghost use Rattle.ur_rows.specs.declared.normal.Normal.TheVariants as normal;
ghost use Rattle.ur_rows.specs.declared.normal.Normal.TheBlock.{end_of-Normal as sole, more_of-Normal as the};
ghost use Rattle.ur_rows.specs.declared.normal.Part.{Part as GhostPart};
ghost use Rattle.ur_rows.specs.Put.{as_type, as_row};
ghost use Rattle.ur_rows.specs.Normal.{Known as GhostKnown, with_argument, nf_with, nf_field};
ghost use Rattle.ur_rows_reduce.specs.Held.{Means, Holds, TypeIs, RowIs};
ghost use Rattle.ur_rows_reduce.specs.Arguments.{Given, args_of};
ghost use Rattle.ur_rows_normal.specs.Listed.{ListedAs};
ghost use Rattle.ur_rows_normal.specs.Walk.{Tells, IsForm, parts_of, record_part, record_parts_of};

use crate::names::{Key, Names, Scope};
use crate::normal_fields::{Listed, one_more, row_of_listed};
use crate::words::{label, named, variable};
use std::alloc::Global;
use ur_base::{List, Memory, Text};
use ur_rows::{Label, Normal, NormalType, Var, boxed_normal, copy_kind, copy_text, unit};
use ur_rows_reduce::{
    Args, Fields, Held, Large, arrow, fields_of, measured, record_of, row_of, type_of, union,
};
use ur_syntax::{CField, Con, ConForm, Kind, RecordField};

fn deeper(depth: u32) -> Result<u32, Memory>
    ensures { IfOk result (λ d. d ≡ suc depth) }
{
    match depth.checked_add(1) {
        Some(d) => Ok(d),
        None => Err(Memory),
    }
}

/// What is known of a function with a body that is too large.
fn function_of(body: &Large) -> Large
    ensures { (k : GhostKind) (n : GhostNormal) → Means body.now n → Means result (normal.Fn' k tt (the n sole)) }
{
    match body {
        Large::Type => Large::TypeFunction,
        Large::Row(_) => Large::Function,
        Large::TypeFunction => Large::Function,
        Large::Function => Large::Function,
    }
}

/// A function with what is held for its body.
#[inline(never)]
fn function(alloc: Global, kind: &Kind, body: Held) -> Result<Held, Memory>
    ensures { IfOk result (λ h. (n : GhostNormal) → Holds body n → Holds h (normal.Fn' kind.now tt (the n sole))) }
{
    match body {
        Held::Form(n) => {
            let kind = copy_kind(alloc, kind)?;
            measured(alloc, Normal::Fn(kind, boxed_normal(alloc, n)?))
        }
        Held::Large(large) => Ok(Held::Large(function_of(&large))),
    }
}

/// A literal name.
#[inline(never)]
fn literal(alloc: Global, a: &Text) -> Result<Held, Memory>
    ensures { IfOk result (λ h. Holds h (normal.Name (label.Literal a.now))) }
{
    Ok(Held::Form(Normal::Name(Label::Literal(copy_text(alloc, a)?))))
}

/// The normal form of a constructor that is applied to arguments.
#[cycle(walking)]
pub fn walk(alloc: Global, scope: &Scope, con: &ConForm, args: &Args) -> Result<Held, Memory>
    ensures { IfOk result (λ h. IsForm h scope.now con.now (args_of args.now)) }
{
    match con {
        ConForm::Lambda(x, kind, body) => match args {
            Args::Empty => walk_function(alloc, scope, body.get(), x, kind),
            Args::More(a, rest) => walk_given(alloc, scope, body.get(), x, a, rest),
        },
        ConForm::Arrow(a, b) => {
            let a = walk_type(alloc, scope, a.get())?;
            let b = walk_type(alloc, scope, b.get())?;
            arrow(alloc, a, b)
        }
        ConForm::Concat(a, b) => {
            let a = walk_fields(alloc, scope, a.get())?;
            let b = walk_fields(alloc, scope, b.get())?;
            Ok(row_of(union(alloc, a, b)?))
        }
        ConForm::App(f, a) => {
            let a = walk(alloc, scope, &a.get().form, &Args::Empty)?;
            walk(alloc, scope, &f.get().form, &Args::More(&a, &*args))
        }
        ConForm::Var(x) => named(alloc, scope, &Key::Own(x), x, args),
        ConForm::Member(m, x) => named(alloc, scope, &Key::Member(m, x), x, args),
        ConForm::Name(a) => literal(alloc, a),
        ConForm::Row(fields) => Ok(row_of(walk_row(alloc, scope, fields)?)),
        ConForm::Record(fields) => Ok(record_of(walk_record(alloc, scope, fields)?)),
        ConForm::RecordOf(r) => Ok(record_of(walk_fields(alloc, scope, r.get())?)),
    }
}

#[cycle(walking)]
fn walk_type(alloc: Global, scope: &Scope, con: &Con) -> Result<Option<NormalType>, Memory>
    ensures { IfOk result (λ t. (known : GhostKnown) → Tells scope.now known → TypeIs t (as_type (nf_with known con.now.form []))) }
{
    type_of(alloc, walk(alloc, scope, &con.form, &Args::Empty)?)
}

#[cycle(walking)]
fn walk_fields(alloc: Global, scope: &Scope, con: &Con) -> Result<Fields, Memory>
    ensures { IfOk result (λ f. (known : GhostKnown) → Tells scope.now known → RowIs f (as_row (nf_with known con.now.form []))) }
{
    fields_of(alloc, walk(alloc, scope, &con.form, &Args::Empty)?)
}

/// A function that is not applied.
#[cycle(walking)]
#[inline(never)]
fn walk_function(
    alloc: Global,
    scope: &Scope,
    body: &Con,
    x: &Text,
    kind: &Kind,
) -> Result<Held, Memory>
    ensures { IfOk result (λ h. IsForm h scope.now (fn_con x.now kind.now body.now.span body.now.form) []) }
{
    let depth = deeper(scope.depth)?;
    let form = Held::Form(variable(alloc, kind, Var::Bound(0))?);
    let names = Names::Bound(x, depth, &form, scope.names);
    let inner = Scope {
        home: scope.home,
        depth,
        names: &names,
    };
    let body = walk(alloc, &inner, &body.form, &Args::Empty)?;
    function(alloc, kind, body)
}

/// A function applied to an argument and others.
#[cycle(walking)]
#[inline(never)]
fn walk_given(
    alloc: Global,
    scope: &Scope,
    body: &Con,
    x: &Text,
    a: &Held,
    rest: &Args,
) -> Result<Held, Memory>
    ensures { IfOk result (λ h. (known : GhostKnown) (n : GhostNormal) (ns : GhostList GhostNormal) → Tells scope.now known → Given (a.now ∷ args_of rest.now) (n ∷ ns) →
        Holds h (nf_with (with_argument x.now n known) body.now.form ns)) }
{
    let names = Names::Bound(x, scope.depth, a, scope.names);
    let inner = Scope {
        home: scope.home,
        depth: scope.depth,
        names: &names,
    };
    walk(alloc, &inner, &body.form, rest)
}

/// A row of fields.
#[cycle(walking)]
#[inline(never)]
fn walk_row(alloc: Global, scope: &Scope, fields: &List<CField>) -> Result<Fields, Memory>
    ensures { IfOk result (λ f. (known : GhostKnown) → Tells scope.now known → RowIs f (parts_of known fields.now)) }
{
    let fields = fields.as_slice();
    let mut row = Listed::Small(List::new(alloc), 65535);
    for i in 0..fields.len() {
        row = walk_field(alloc, scope, &fields[i], row)?;
    }
    row_of_listed(alloc, row)
}

/// One field more, behind the others.
#[cycle(walking)]
#[inline(never)]
fn walk_field(alloc: Global, scope: &Scope, field: &CField, row: Listed) -> Result<Listed, Memory>
    ensures { IfOk result (λ f. (known : GhostKnown) (r : GhostList GhostPart) → Tells scope.now known → ListedAs row r → ListedAs f (r ++ (nf_field known field.now ∷ []))) }
{
    match field {
        CField::Bare(name) => {
            let l = label(alloc, scope, name)?;
            one_more(alloc, row, l, Some(unit(alloc)))
        }
        CField::Given(name, con) => {
            let t = walk_type(alloc, scope, con)?;
            let l = label(alloc, scope, name)?;
            one_more(alloc, row, l, t)
        }
    }
}

/// The row of a record of fields.
#[cycle(walking)]
#[inline(never)]
fn walk_record(alloc: Global, scope: &Scope, fields: &List<RecordField>) -> Result<Fields, Memory>
    ensures { IfOk result (λ f. (known : GhostKnown) → Tells scope.now known → RowIs f (record_parts_of known fields.now)) }
{
    let fields = fields.as_slice();
    let mut row = Listed::Small(List::new(alloc), 65535);
    for i in 0..fields.len() {
        row = walk_record_field(alloc, scope, &fields[i], row)?;
    }
    row_of_listed(alloc, row)
}

#[cycle(walking)]
#[inline(never)]
fn walk_record_field(
    alloc: Global,
    scope: &Scope,
    field: &RecordField,
    row: Listed,
) -> Result<Listed, Memory>
    ensures { IfOk result (λ f. (known : GhostKnown) (r : GhostList GhostPart) → Tells scope.now known → ListedAs row r → ListedAs f (r ++ (record_part known field.now ∷ []))) }
{
    let t = walk_type(alloc, scope, &field.con)?;
    let l = label(alloc, scope, &field.name)?;
    one_more(alloc, row, l, t)
}
