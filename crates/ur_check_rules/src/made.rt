//! Trees made of their parts, each in a function of its own.
ghost use Rattle.std.specs.Prelude.{◌≡◌, ◌++◌, ◌∷◌, [], IfOk};
ghost use Rattle.ur_tree.specs.Make as make;
ghost use Rattle.ur_tree.specs.declared.exp.Exp.TheVariants as exp;
ghost use Rattle.ur_check_rules.specs.Views.{args_with, branches_with};

use std::alloc::Global;
use ur_base::{Boxed, List, Memory, Text};
use ur_rows::{Label, NormalType, Part, copy_text};
use ur_terms::Pattern;
use ur_tree::{Binary, Branch, Exp, FieldExp, Param, Unary};

pub fn unary_of(alloc: Global, op: Unary, e: Boxed<Exp>) -> Result<Boxed<Exp>, Memory>
    ensures { IfOk result (λ x. x ≡ make.unary op e) }
{
    Boxed::new(alloc, Exp::Unary(op, e))
}

pub fn binary_of(
    alloc: Global,
    op: Binary,
    a: Boxed<Exp>,
    b: Boxed<Exp>,
) -> Result<Boxed<Exp>, Memory>
    ensures { IfOk result (λ x. x ≡ make.binary op a b) }
{
    Boxed::new(alloc, Exp::Binary(op, a, b))
}

pub fn fail_of(alloc: Global, of: NormalType, e: Boxed<Exp>) -> Result<Boxed<Exp>, Memory>
    ensures { IfOk result (λ x. x ≡ make.fail of e) }
{
    Boxed::new(alloc, Exp::Fail(of, e))
}

#[tactic(auto, using(crate::proofs::Trees::trees))]
pub fn if_of(
    alloc: Global,
    c: Boxed<Exp>,
    a: Boxed<Exp>,
    b: Boxed<Exp>,
) -> Result<Boxed<Exp>, Memory>
    ensures { IfOk result (λ x. x ≡ make.choice c a b) }
{
    Boxed::new(alloc, Exp::If(c, a, b))
}

#[tactic(auto, using(crate::proofs::Trees::trees))]
pub fn case_of(alloc: Global, e: Boxed<Exp>, branches: List<Branch>) -> Result<Boxed<Exp>, Memory>
    ensures { IfOk result (λ x. x ≡ make.cases e (branches_with branches).0 (branches_with branches).1) }
{
    Boxed::new(alloc, Exp::Case(e, branches))
}

pub fn let_of(
    alloc: Global,
    of: NormalType,
    e: Boxed<Exp>,
    body: Boxed<Exp>,
) -> Result<Boxed<Exp>, Memory>
    ensures { IfOk result (λ x. x ≡ make.local of e body) }
{
    Boxed::new(alloc, Exp::Let(of, e, body))
}

#[tactic(auto, using(crate::proofs::Trees::trees))]
pub fn bind_of(alloc: Global, a: Boxed<Exp>, b: Boxed<Exp>) -> Result<Boxed<Exp>, Memory>
    ensures { IfOk result (λ x. x ≡ make.bind a b) }
{
    Boxed::new(alloc, Exp::Bind(a, b))
}

pub fn lambda_of(alloc: Global, params: List<Param>, body: Boxed<Exp>) -> Result<Boxed<Exp>, Memory>
    ensures { IfOk result (λ x. x ≡ make.lambda params body) }
{
    Boxed::new(alloc, Exp::Lambda(params, body))
}

#[tactic(auto, using(crate::proofs::Trees::trees))]
pub fn apply_of(alloc: Global, f: Boxed<Exp>, args: List<Exp>) -> Result<Boxed<Exp>, Memory>
    ensures { IfOk result (λ x. x ≡ make.apply f (args_with args).0 (args_with args).1) }
{
    Boxed::new(alloc, Exp::Apply(f, args))
}

pub fn each_of(
    alloc: Global,
    number: u32,
    args: List<Exp>,
    body: Boxed<Exp>,
) -> Result<Boxed<Exp>, Memory>
    ensures { IfOk result (λ x. x ≡ make.each number (args_with args).0 (args_with args).1 body) }
{
    Boxed::new(alloc, Exp::Each(number, args, body))
}

pub fn string_of(alloc: Global, text: &Text) -> Result<Boxed<Exp>, Memory>
    ensures { IfOk result (λ x. x ≡ exp.Str text.now) }
{
    Boxed::new(alloc, Exp::Str(copy_text(alloc, text)?))
}

pub fn fold_of(
    alloc: Global,
    of: NormalType,
    acc: Param,
    step: Boxed<Exp>,
    start: Boxed<Exp>,
    row: List<Part>,
) -> Result<Boxed<Exp>, Memory>
    ensures { IfOk result (λ x. x ≡ make.folded of acc step start row) }
{
    Boxed::new(
        alloc,
        Exp::Fold {
            of,
            acc,
            step,
            start,
            row,
        },
    )
}

/// A list of expressions with one more.
pub fn pushed(mut list: List<Exp>, e: Boxed<Exp>) -> Result<List<Exp>, Memory>
    ensures { IfOk result (λ l. l ≡ list ++ e ∷ []) }
{
    list.push(e.into_inner())?;
    Ok(list)
}

/// A record's fields with one more.
pub fn with_field(
    mut list: List<FieldExp>,
    name: Label,
    e: Boxed<Exp>,
) -> Result<List<FieldExp>, Memory>
    ensures { IfOk result (λ l. l ≡ list ++ record { name = name; of = e } ∷ []) }
{
    list.push(FieldExp {
        name,
        of: e.into_inner(),
    })?;
    Ok(list)
}

/// Branches with one more.
pub fn with_branch(
    mut list: List<Branch>,
    pattern: Pattern,
    body: Boxed<Exp>,
) -> Result<List<Branch>, Memory>
    ensures { IfOk result (λ l. l ≡ list ++ record { pattern = pattern; body = body } ∷ []) }
{
    list.push(Branch {
        pattern,
        body: body.into_inner(),
    })?;
    Ok(list)
}
