//! The step of a fold by its parameters.
ghost use Rattle.std.specs.Prelude.{◌≡◌, ℕ, List as GhostList, option_map, bytes_eq, IfOk, Some, None};
ghost use Rattle.std.specs.Option.{option_copied};
ghost use Rattle.ur_base.specs.Stopping.{IfRefused};
ghost use Rattle.ur_typed_rules.specs.Faults.{TellsType};
ghost use Rattle.ur_typed.specs.Faults as faults;
ghost use Rattle.ur_typed.specs.Folds as folds;
ghost use Rattle.ur_check_scopes.specs.Views.{StopIs};
ghost use Rattle.ur_check_cases.specs.Steps.{is_name, is_star, is_row, con_of, variable_of, is_field_variable, is_bare, one_bare, with_acc, con_apart, is_apart, written_of, differ, acc_last, behind_row, behind_type, behind_name, read_step, step_in};

use std::alloc::Global;
use ur_base::{Span, Stop, Text};
use ur_check_scopes::not_so;
use ur_syntax::{CField, Con, ConForm, ConParam, FieldName, Kind, LambdaParam, Param};

/// What is written of the step of a fold: the names of its three variables, and its parameter.
#[derive(Clone, Copy)]
pub struct Step<'e> {
    pub nm: &'e Text,
    pub t: &'e Text,
    pub rest: &'e Text,
    pub acc: &'e Param,
}

fn same(a: &Text, b: &Text) -> bool
    ensures { result ≡ bytes_eq a.now b.now }
{
    a.as_slice() == b.as_slice()
}

fn is_field_variable(name: &Text, field: &FieldName) -> bool
    ensures { result ≡ is_field_variable name.now field.now }
{
    match field {
        FieldName::Variable(x) => same(name, x),
        FieldName::Literal(_) => false,
    }
}

fn is_bare(name: &Text, field: &CField) -> bool
    ensures { result ≡ is_bare name.now field.now }
{
    match field {
        CField::Bare(x) => is_field_variable(name, x),
        _ => false,
    }
}

fn one_bare(name: &Text, fields: &[CField]) -> bool
    ensures { result ≡ one_bare name.now fields.now }
{
    match fields {
        [field] => is_bare(name, field),
        _ => false,
    }
}

fn is_bare_row(name: &Text, con: &Con) -> bool
    ensures { result ≡ folds.is_bare_row name.now con.now.form }
{
    match &con.form {
        ConForm::Row(fields) => one_bare(name, fields.as_slice()),
        _ => false,
    }
}

fn is_variable(name: &Text, con: &Con) -> bool
    ensures { result ≡ folds.is_variable name.now con.now.form }
{
    match &con.form {
        ConForm::Var(x) => same(name, x),
        _ => false,
    }
}

fn is_name(kind: &Kind) -> bool
    ensures { result ≡ is_name kind.now }
{
    match kind {
        Kind::Name => true,
        _ => false,
    }
}

fn is_star(kind: &Kind) -> bool
    ensures { result ≡ is_star kind.now }
{
    match kind {
        Kind::Star => true,
        _ => false,
    }
}

fn is_row(kind: &Kind) -> bool
    ensures { result ≡ is_row kind.now }
{
    match kind {
        Kind::Row => true,
        _ => false,
    }
}

fn name_in<'e>(param: &'e ConParam) -> Option<&'e Text>
    ensures { option_copied result ≡ con_of is_name param.now }
{
    match param {
        ConParam::Kinded(x, kind) => {
            if is_name(kind) {
                return Some(x);
            }
            None
        }
        ConParam::Disjoint(_, _) => None,
    }
}

fn star_in<'e>(param: &'e ConParam) -> Option<&'e Text>
    ensures { option_copied result ≡ con_of is_star param.now }
{
    match param {
        ConParam::Kinded(x, kind) => {
            if is_star(kind) {
                return Some(x);
            }
            None
        }
        ConParam::Disjoint(_, _) => None,
    }
}

fn row_in<'e>(param: &'e ConParam) -> Option<&'e Text>
    ensures { option_copied result ≡ con_of is_row param.now }
{
    match param {
        ConParam::Kinded(x, kind) => {
            if is_row(kind) {
                return Some(x);
            }
            None
        }
        ConParam::Disjoint(_, _) => None,
    }
}

fn name_variable<'e>(param: &'e LambdaParam) -> Option<&'e Text>
    ensures { option_copied result ≡ variable_of is_name param.now }
{
    match param {
        LambdaParam::Con(p) => name_in(p),
        _ => None,
    }
}

fn type_variable<'e>(param: &'e LambdaParam) -> Option<&'e Text>
    ensures { option_copied result ≡ variable_of is_star param.now }
{
    match param {
        LambdaParam::Con(p) => star_in(p),
        _ => None,
    }
}

fn row_variable<'e>(param: &'e LambdaParam) -> Option<&'e Text>
    ensures { option_copied result ≡ variable_of is_row param.now }
{
    match param {
        LambdaParam::Con(p) => row_in(p),
        _ => None,
    }
}

fn con_apart(nm: &Text, rest: &Text, param: &ConParam) -> bool
    ensures { result ≡ con_apart nm.now rest.now param.now }
{
    match param {
        ConParam::Disjoint(one, other) => is_bare_row(nm, one) && is_variable(rest, other),
        ConParam::Kinded(_, _) => false,
    }
}

fn are_apart(nm: &Text, rest: &Text, param: &LambdaParam) -> bool
    ensures { result ≡ is_apart nm.now rest.now param.now }
{
    match param {
        LambdaParam::Con(p) => con_apart(nm, rest, p),
        _ => false,
    }
}

fn accumulator<'e>(param: &'e LambdaParam) -> Option<&'e Param>
    ensures { option_copied result ≡ written_of param.now }
{
    match param {
        LambdaParam::Typed(p) => Some(p),
        _ => None,
    }
}

fn differ(nm: &Text, t: &Text, rest: &Text) -> bool
    ensures { result ≡ differ nm.now t.now rest.now }
{
    !same(nm, t) && !same(nm, rest) && !same(t, rest)
}

fn acc_last<'e>(params: &'e [LambdaParam]) -> Option<&'e Param>
    ensures { option_copied result ≡ acc_last params.now }
{
    match params {
        [param] => accumulator(param),
        _ => None,
    }
}

fn with_acc<'e>(
    nm: &'e Text,
    t: &'e Text,
    rest: &'e Text,
    params: &'e [LambdaParam],
) -> Option<Step<'e>>
    ensures { option_map step_in result ≡ with_acc nm.now t.now rest.now (acc_last params.now) }
{
    match acc_last(params) {
        Some(acc) => Some(Step { nm, t, rest, acc }),
        None => None,
    }
}

fn behind_row<'e>(
    nm: &'e Text,
    t: &'e Text,
    rest: &'e Text,
    params: &'e [LambdaParam],
) -> Option<Step<'e>>
    ensures { option_map step_in result ≡ behind_row nm.now t.now rest.now params.now }
{
    match params.split_first() {
        Some((param, further)) => {
            if !differ(nm, t, rest) {
                return None;
            }
            if !are_apart(nm, rest, param) {
                return None;
            }
            with_acc(nm, t, rest, further)
        }
        None => None,
    }
}

fn behind_type<'e>(nm: &'e Text, t: &'e Text, params: &'e [LambdaParam]) -> Option<Step<'e>>
    ensures { option_map step_in result ≡ behind_type nm.now t.now params.now }
{
    match params.split_first() {
        Some((param, further)) => match row_variable(param) {
            Some(rest) => behind_row(nm, t, rest, further),
            None => None,
        },
        None => None,
    }
}

fn behind_name<'e>(nm: &'e Text, params: &'e [LambdaParam]) -> Option<Step<'e>>
    ensures { option_map step_in result ≡ behind_name nm.now params.now }
{
    match params.split_first() {
        Some((param, further)) => match type_variable(param) {
            Some(t) => behind_type(nm, t, further),
            None => None,
        },
        None => None,
    }
}

fn read_step<'e>(params: &'e [LambdaParam]) -> Option<Step<'e>>
    ensures { option_map step_in result ≡ read_step params.now }
{
    match params.split_first() {
        Some((param, further)) => match name_variable(param) {
            Some(nm) => behind_name(nm, further),
            None => None,
        },
        None => None,
    }
}

/// What the step of a fold has to be like.
pub fn no_step(alloc: Global, span: Span) -> Stop
    ensures { (names : GhostList (GhostList ℕ)) → StopIs names faults.no_step result }
{
    not_so(
        alloc,
        span,
        b"the step of a fold",
        b"fn [nm :: Name] [t :: Type] [rest :: {Type}] [[nm] ~ rest] (acc : c) => e",
    )
}

/// The step of a fold by its parameters.
pub fn step_form<'e>(alloc: Global, span: Span, params: &'e [LambdaParam]) -> Result<Step<'e>, Stop>
    ensures form { IfOk result (λ p. folds.step_form params.now ≡ Some (step_in p)) }
    ensures refused { IfRefused result (λ r. (folds.step_form params.now ≡ None) × ((names : GhostList (GhostList ℕ)) → TellsType names r faults.no_step)) }
{
    match read_step(params) {
        Some(step) => Ok(step),
        None => Err(no_step(alloc, span)),
    }
}
