//! First-order functions.
ghost use Rattle.std.specs.Prelude.{◌≡◌, map, length, IfOk, OnOk};
ghost use Rattle.ur_source.specs.Reading.{result_type};
ghost use Rattle.ur_unfold_static.specs.Scopes.{cons_of};
ghost use Rattle.ur_unfold_pieces.specs.Keys.{instance_of};
ghost use Rattle.ur_unfold_pieces.specs.Standing.{instances_in};
ghost use Rattle.ur_unfold.specs.Heads.{HeadAt, HeadsAre, IsFullName, IsHeadOf, IsPushed};
ghost use Rattle.ur_unfold.specs.Typing.{HasTypes, IsHead};

use crate::params::params_of;
use std::alloc::Global;
use ur_base::{List, Memory, Text};
use ur_rows::NormalType;
use ur_terms::{Function, Term};
use ur_tree::{Function as Source, Typed};
use ur_unfold_pieces::{Key, Opening, result_type};
use ur_unfold_static::{Closing, Scope};
use ur_values::ValueType;

/// The first-order functions of the instances, in order of their numbers, with these bodies.
pub fn functions_of(
    alloc: Global,
    typed: &Typed,
    table: &Opening<'_>,
    bodies: List<Term>,
) -> Result<List<Function>, Memory>
    ensures bodies { IfOk result (λ fs. map (λ f. f.body) fs ≡ bodies) }
    ensures heads { IfOk result (HeadsAre typed.now (instances_in table.now)) }
{
    let mut functions = List::new(alloc);
    for body in bodies.into_vec() {
        push_function(alloc, typed, table, body, &mut functions)?;
    }
    Ok(functions)
}

/// One function more.
fn push_function(
    alloc: Global,
    typed: &Typed,
    table: &Opening<'_>,
    body: Term,
    functions: &mut List<Function>,
) -> Result<(), Memory>
    ensures { OnOk result (IsPushed typed.now (instances_in table.now) body functions.old functions.new) }
{
    let function = function_at(alloc, typed, table, functions.len(), body)?;
    functions.push(function)
}

/// The function of the instance with this number. There is no memory where there is no such instance.
fn function_at(
    alloc: Global,
    typed: &Typed,
    table: &Opening<'_>,
    number: usize,
    body: Term,
) -> Result<Function, Memory>
    ensures head { IfOk result (HeadAt typed.now (instances_in table.now) number) }
    ensures body { IfOk result (λ f. f.body ≡ body) }
{
    match table.instances.get_index(number) {
        None => Err(Memory),
        Some(key) => match typed.functions.get(key.function as usize) {
            None => Err(Memory),
            Some(source) => function_of(alloc, typed, table, key, source, body),
        },
    }
}

/// The function of an instance, whose source is this. There is no memory where it is in no module.
fn function_of(
    alloc: Global,
    typed: &Typed,
    table: &Opening<'_>,
    key: &Key,
    source: &Source,
    body: Term,
) -> Result<Function, Memory>
    ensures head { IfOk result (IsHeadOf typed.now source.now (instance_of table.now.closing key.now).cons) }
    ensures body { IfOk result (λ f. f.body ≡ body) }
{
    match head_of(alloc, typed, table, key, source) {
        Err(want) => Err(want),
        Ok(head) => Ok(with_body(head, body)),
    }
}

/// A first-order function but for its body.
#[derive(Drop)]
struct Head {
    name: Text,
    types: Types,
}

/// The types of a first-order function, and whether its result is a transaction.
#[derive(Drop)]
struct Types {
    params: List<ValueType>,
    result: ValueType,
    runs: bool,
}

fn with_body(head: Head, body: Term) -> Function
    ensures name { result.name ≡ head.name }
    ensures params { result.params ≡ head.types.params }
    ensures result { result.result ≡ head.types.result }
    ensures runs { result.runs ≡ head.types.runs }
    ensures body { result.body ≡ body }
{
    let Head { name, types } = head;
    Function {
        name,
        params: types.params,
        result: types.result,
        runs: types.runs,
        body,
    }
}

/// The name and the types of an instance's function.
fn head_of(
    alloc: Global,
    typed: &Typed,
    table: &Opening<'_>,
    key: &Key,
    source: &Source,
) -> Result<Head, Memory>
    ensures { IfOk result (IsHead typed.now source.now (instance_of table.now.closing key.now).cons) }
{
    let name = full_name(alloc, typed, source)?;
    let types = types_of(alloc, &typed.names, &table.closing, key, source)?;
    Ok(Head { name, types })
}

/// The types of an instance's function.
fn types_of(
    alloc: Global,
    names: &List<Text>,
    closing: &Closing<'_>,
    key: &Key,
    source: &Source,
) -> Result<Types, Memory>
    ensures { IfOk result (HasTypes names.now source.now (instance_of closing.now key.now).cons) }
{
    let scope = scope_of(alloc, key)?;
    types_under(alloc, names, closing, &scope, source)
}

/// The types of a function under the scope.
fn types_under(
    alloc: Global,
    names: &List<Text>,
    closing: &Closing<'_>,
    scope: &Scope,
    source: &Source,
) -> Result<Types, Memory>
    ensures { IfOk result (HasTypes names.now source.now (cons_of closing.now scope.now)) }
{
    let params = params_of(alloc, names, closing, scope, &source.params)?;
    let result = result_type(alloc, names, closing, scope, &source.result)?;
    Ok(Types {
        params,
        result,
        runs: is_transaction(&source.result),
    })
}

/// The scope of an instance's constructors.
fn scope_of(alloc: Global, key: &Key) -> Result<Scope, Memory>
    ensures { IfOk result (λ scope. scope.cons ≡ key.now.cons) }
{
    let cons = List::from_slice(alloc, key.cons.as_slice())?;
    Ok(Scope {
        cons,
        fixed: List::new(alloc),
    })
}

fn is_transaction(t: &NormalType) -> bool
    ensures { (names : _) (cons : _) → result ≡ (result_type names cons t.now).0 }
{
    match t {
        NormalType::Transaction(_) => true,
        _ => false,
    }
}

/// The full name of a function: its module's name, a dot and its own.
pub fn full_name(alloc: Global, typed: &Typed, function: &Source) -> Result<Text, Memory>
    ensures { IfOk result (IsFullName typed.now function.now) }
{
    match typed.modules.get(function.module as usize) {
        None => Err(Memory),
        Some(unit_name) => {
            let mut name = List::from_slice(alloc, unit_name.as_slice())?;
            name.extend_from_slice(b".")?;
            name.extend_from_slice(function.name.as_slice())?;
            Ok(name)
        }
    }
}
