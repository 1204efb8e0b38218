//! The type of a term.
ghost use Rattle.std.specs.Prelude.{◌≡◌, ◌↔◌, [], ◌∷◌, IsTrue, IsUtf8, Some, slice_get};
ghost use Rattle.ur_values.specs.declared.types.ValueType.{ValueType};
ghost use Rattle.ur_values.specs.declared.types.ValueType.TheVariants as ty;
ghost use Rattle.ur_terms.specs.declared.term.Term.TheVariants as t;
ghost use Rattle.ur_terms.specs.Types.{HasType, IsXml};
ghost use Rattle.ur_values.specs.Values.{IsInt};
ghost use Rattle.ur_code.specs.Fits.{signature};
ghost use Rattle.ur_verify_operations.specs.Answering.{Answers, Says};
ghost use Rattle.ur_verify_operations.specs.Misfits.{NoText};
ghost use Rattle.ur_verify.specs.Misfits.{BranchMisfit, BranchesMisfit, NoList, NoVariable, TermMisfit, TermsMisfit, UnlikeBranch, UnlikeCall, UnlikeTerm, UnlikeXml};
ghost use Rattle.ur_verify.specs.VerifyScope.{types_in};
ghost use Rattle.ur_verify.specs.Terms.{HaveAll, BranchFits, BranchesFit};

use crate::environment::{Environment, variable};
use std::alloc::Global;
use std::str;
use ur_base::{List, Text};
use ur_code::Code;
use ur_terms::{Branch, Op, Term};
use ur_values::{ValueType, copy_type, same_type, same_types};
use ur_verify_operations::{
    Untyped, bound_by, covers, mismatch, no_type, operation_type, unlike, unlike_these,
};

/// The type of a term under variables of these types.
#[cycle(inferring)]
pub fn type_of(
    alloc: Global,
    code: &Code,
    env: &Environment,
    term: &Term,
) -> Result<ValueType, Untyped>
    ensures fits { Answers (HasType (signature code.now) (types_in env.now) term.now) result }
    ensures told { Says (TermMisfit (signature code.now) (types_in env.now) term.now) result }
{
    match term {
        Term::Variable(place) => variable_type(alloc, env, *place),
        Term::Int(value) => int_type(*value),
        Term::Str(text) => text_type(alloc, text),
        Term::Bool(_) => Ok(ValueType::Bool),
        Term::Make(op, args) => make_type(alloc, code, env, args, op),
        Term::Call(number, args) => call_type(alloc, code, env, args, *number),
        Term::Let(args, body) => let_type(alloc, code, env, args, body.get()),
        Term::If(test, yes, no) => if_type(alloc, code, env, test.get(), yes.get(), no.get()),
        Term::Case(of, branches) => case_type(alloc, code, env, of.get(), branches),
        Term::Each(rows, body) => each_type(alloc, code, env, rows.get(), body.get()),
    }
}

fn variable_type(alloc: Global, env: &Environment, place: u32) -> Result<ValueType, Untyped>
    ensures fits { Answers (λ r. slice_get (types_in env.now) place ≡ Some r) result }
    ensures told { Says (NoVariable (types_in env.now) place) result }
{
    match variable(env, place as usize) {
        None => Err(Untyped::Misfit(no_type(alloc, b"a variable")?)),
        Some(of) => Ok(copy_type(alloc, of)?),
    }
}

fn int_type(_value: i64) -> Result<ValueType, Untyped>
    ensures fits { Answers (λ r. (r ≡ ty.Int) × IsInt _value) result }
    ensures told { Says (λ said. ⊥) result }
{
    Ok(ValueType::Int)
}

fn text_type(alloc: Global, text: &Text) -> Result<ValueType, Untyped>
    ensures fits { Answers (λ r. (r ≡ ty.Str) × IsUtf8 text.now) result }
    ensures told { Says (NoText text.now) result }
{
    match str::from_utf8(text.as_slice()) {
        Err(_) => Err(Untyped::Misfit(no_type(alloc, b"text")?)),
        Ok(_) => Ok(ValueType::Str),
    }
}

/// The types of terms, one after the other.
#[cycle(inferring)]
fn types_of(
    alloc: Global,
    code: &Code,
    env: &Environment,
    terms: &List<Term>,
) -> Result<List<ValueType>, Untyped>
    ensures fits { Answers (HaveAll (signature code.now) (types_in env.now) terms.now) result }
    ensures told { Says (TermsMisfit (signature code.now) (types_in env.now) terms.now) result }
{
    let mut types = List::new(alloc);
    let terms = terms.as_slice();
    for i in 0..terms.len() {
        let of = type_of(alloc, code, env, &terms[i])?;
        types.push(of)?;
    }
    Ok(types)
}

#[cycle(inferring)]
fn make_type(
    alloc: Global,
    code: &Code,
    env: &Environment,
    args: &List<Term>,
    op: &Op,
) -> Result<ValueType, Untyped>
    ensures fits { Answers (HasType (signature code.now) (types_in env.now) (t.Make op.now args.now)) result }
    ensures told { Says (TermMisfit (signature code.now) (types_in env.now) (t.Make op.now args.now)) result }
{
    let types = types_of(alloc, code, env, args)?;
    operation_type(alloc, code, op, types.as_slice())
}

/// A function's result, if it is there and has these parameters.
fn called(
    alloc: Global,
    code: &Code,
    types: &[ValueType],
    number: u32,
) -> Result<ValueType, Untyped>
    ensures fits { Answers (λ r. slice_get (signature code.now).functions number ≡ Some (types.now, r)) result }
    ensures told { Says (UnlikeCall (signature code.now) number types.now) result }
{
    let Some(function) = code.functions.get(number as usize) else {
        return Err(Untyped::Misfit(no_type(alloc, b"a function")?));
    };
    if !same_types(types, function.params.as_slice()) {
        return Err(Untyped::Misfit(unlike_these(alloc, code, types, function.params.as_slice())?));
    }
    Ok(copy_type(alloc, &function.result)?)
}

#[cycle(inferring)]
fn call_type(
    alloc: Global,
    code: &Code,
    env: &Environment,
    args: &List<Term>,
    number: u32,
) -> Result<ValueType, Untyped>
    ensures fits { Answers (HasType (signature code.now) (types_in env.now) (t.Call number args.now)) result }
    ensures told { Says (TermMisfit (signature code.now) (types_in env.now) (t.Call number args.now)) result }
{
    let types = types_of(alloc, code, env, args)?;
    called(alloc, code, types.as_slice(), number)
}

#[cycle(inferring)]
fn let_type(
    alloc: Global,
    code: &Code,
    env: &Environment,
    args: &List<Term>,
    body: &Term,
) -> Result<ValueType, Untyped>
    ensures fits { Answers (HasType (signature code.now) (types_in env.now) (t.Let args.now body.now)) result }
    ensures told { Says (TermMisfit (signature code.now) (types_in env.now) (t.Let args.now body.now)) result }
{
    let types = types_of(alloc, code, env, args)?;
    type_of(
        alloc,
        code,
        &Environment::Bound(types.as_slice(), &*env),
        body,
    )
}

/// A term is of this type.
#[cycle(inferring)]
fn of_type(
    alloc: Global,
    code: &Code,
    env: &Environment,
    term: &Term,
    wanted: &ValueType,
) -> Result<(), Untyped>
    ensures fits { Answers (λ u. HasType (signature code.now) (types_in env.now) term.now wanted.now) result }
    ensures told { Says (UnlikeTerm (signature code.now) (types_in env.now) term.now wanted.now) result }
{
    let found = type_of(alloc, code, env, term)?;
    if same_type(&found, wanted) {
        return Ok(());
    }
    Err(Untyped::Misfit(mismatch(alloc, code, &found, wanted)?))
}

#[cycle(inferring)]
fn if_type(
    alloc: Global,
    code: &Code,
    env: &Environment,
    test: &Term,
    yes: &Term,
    no: &Term,
) -> Result<ValueType, Untyped>
    ensures fits { Answers (HasType (signature code.now) (types_in env.now) (t.If test.now yes.now no.now)) result }
    ensures told { Says (TermMisfit (signature code.now) (types_in env.now) (t.If test.now yes.now no.now)) result }
{
    of_type(alloc, code, env, test, &ValueType::Bool)?;
    let of = type_of(alloc, code, env, yes)?;
    of_type(alloc, code, env, no, &of)?;
    Ok(of)
}

/// The type of a branch's body, where its pattern matches what has this type.
#[cycle(inferring)]
fn branch_type(
    alloc: Global,
    code: &Code,
    env: &Environment,
    branch: &Branch,
    of: &ValueType,
) -> Result<ValueType, Untyped>
    ensures fits { Answers (BranchFits (signature code.now) (types_in env.now) of.now branch.now) result }
    ensures told { Says (BranchMisfit (signature code.now) (types_in env.now) of.now branch.now) result }
{
    let bound = bound_by(alloc, code, &branch.pattern, of)?;
    type_of(
        alloc,
        code,
        &Environment::Bound(bound.as_slice(), &*env),
        &branch.body,
    )
}

#[cycle(inferring)]
fn branches_type(
    alloc: Global,
    code: &Code,
    env: &Environment,
    branches: &List<Branch>,
    of: &ValueType,
) -> Result<ValueType, Untyped>
    ensures fits { Answers (BranchesFit (signature code.now) (types_in env.now) of.now branches.now) result }
    ensures told { Says (BranchesMisfit (signature code.now) (types_in env.now) of.now branches.now) result }
{
    let branches = branches.as_slice();
    if branches.is_empty() {
        return Err(Untyped::Misfit(unlike(alloc, code, of, b"a branch for each value")?));
    }
    let made = branch_type(alloc, code, env, &branches[0], of)?;
    for i in 1..branches.len() {
        branch_is(alloc, code, env, &branches[i], of, &made)?;
    }
    Ok(made)
}

/// A branch's body is of this type.
#[cycle(inferring)]
fn branch_is(
    alloc: Global,
    code: &Code,
    env: &Environment,
    branch: &Branch,
    of: &ValueType,
    wanted: &ValueType,
) -> Result<(), Untyped>
    ensures fits { Answers (λ u. BranchFits (signature code.now) (types_in env.now) of.now branch.now wanted.now) result }
    ensures told { Says (UnlikeBranch (signature code.now) (types_in env.now) of.now branch.now wanted.now) result }
{
    let made = branch_type(alloc, code, env, branch, of)?;
    if same_type(&made, wanted) {
        return Ok(());
    }
    Err(Untyped::Misfit(mismatch(alloc, code, &made, wanted)?))
}

#[cycle(inferring)]
fn case_type(
    alloc: Global,
    code: &Code,
    env: &Environment,
    of: &Term,
    branches: &List<Branch>,
) -> Result<ValueType, Untyped>
    ensures fits { Answers (HasType (signature code.now) (types_in env.now) (t.Case of.now branches.now)) result }
    ensures told { Says (TermMisfit (signature code.now) (types_in env.now) (t.Case of.now branches.now)) result }
{
    let found = type_of(alloc, code, env, of)?;
    if !covers(code, branches.as_slice(), &found) {
        return Err(Untyped::Misfit(unlike(alloc, code, &found, b"a branch for each value")?));
    }
    branches_type(alloc, code, env, branches, &found)
}

fn is_xml(of: &ValueType) -> bool
    ensures { IsTrue result ↔ IsXml of.now }
{
    match of {
        ValueType::Int => false,
        ValueType::Str => false,
        ValueType::Bool => false,
        ValueType::Record(_) => false,
        ValueType::Opt(_) => false,
        ValueType::Many(_) => false,
        ValueType::Datatype(_) => false,
        ValueType::Page => true,
        ValueType::Xbody => true,
        ValueType::Xtable => true,
        ValueType::Xtr => true,
        ValueType::Form(_) => true,
    }
}

/// The item of a list's type.
fn item_of(alloc: Global, code: &Code, rows: &ValueType) -> Result<List<ValueType>, Untyped>
    ensures fits { Answers (λ ts. (a : ValueType) × (rows.now ≡ ty.Many a) × (ts ≡ a ∷ [])) result }
    ensures told { Says (NoList (signature code.now) rows.now) result }
{
    match rows {
        ValueType::Many(item) => {
            let mut types = List::new(alloc);
            types.push(copy_type(alloc, item.get())?)?;
            Ok(types)
        }
        _ => Err(Untyped::Misfit(unlike(alloc, code, rows, b"a list")?)),
    }
}

/// XML is given for each item.
#[cycle(inferring)]
fn xml_type(
    alloc: Global,
    code: &Code,
    env: &Environment,
    body: &Term,
) -> Result<ValueType, Untyped>
    ensures fits { Answers (λ r. HasType (signature code.now) (types_in env.now) body.now r × IsXml r) result }
    ensures told { Says (UnlikeXml (signature code.now) (types_in env.now) body.now) result }
{
    let of = type_of(alloc, code, env, body)?;
    if is_xml(&of) {
        return Ok(of);
    }
    Err(Untyped::Misfit(unlike(alloc, code, &of, b"xml")?))
}

#[cycle(inferring)]
fn each_type(
    alloc: Global,
    code: &Code,
    env: &Environment,
    rows: &Term,
    body: &Term,
) -> Result<ValueType, Untyped>
    ensures fits { Answers (HasType (signature code.now) (types_in env.now) (t.Each rows.now body.now)) result }
    ensures told { Says (TermMisfit (signature code.now) (types_in env.now) (t.Each rows.now body.now)) result }
{
    let found = type_of(alloc, code, env, rows)?;
    let item = item_of(alloc, code, &found)?;
    xml_type(
        alloc,
        code,
        &Environment::Bound(item.as_slice(), &*env),
        body,
    )
}
