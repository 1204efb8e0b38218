//! What is computed statically where it stands for a value.
ghost use Rattle.std.specs.Prelude.{◌≡◌};
ghost use Rattle.ur_unfold_static.specs.Words.{constant_at, is_computed, is_one_computed};

use crate::sought::either;
use ur_base::List;
use ur_tree::{Exp, FieldExp, Function};

/// Whether there is a function with this number, and it has no parameters.
#[tactic(auto, unfolding(crate::specs::Words::constant_at))]
fn is_constant(functions: &List<Function>, k: u32) -> bool
    ensures { result ≡ constant_at functions.now k }
{
    match functions.get(k as usize) {
        None => false,
        Some(function) => function.params.is_empty(),
    }
}

/// Whether a static parameter, the name of a module's `val`, or what is no value stands in a static expression. Takes no
/// memory.
#[cycle(computed)]
#[tactic(auto, using(crate::proofs::Statics::computed))]
pub fn names_static(e: &Exp, functions: &List<Function>) -> bool
    ensures { result ≡ is_computed functions.now e.now }
{
    match e {
        Exp::Fixed(_) => true,
        Exp::Val(_) => true,
        Exp::Function(k, _) => !is_constant(functions, *k),
        Exp::Lambda(_, _) => true,
        Exp::Fold { .. } => true,
        Exp::Record(fields) => some_names_static(fields, functions),
        Exp::Project(e, _) => names_static(e.get(), functions),
        Exp::Cut(e, _) => names_static(e.get(), functions),
        Exp::Binary(_, a, b) => {
            let first = names_static(a.get(), functions);
            let second = names_static(b.get(), functions);
            either(first, second)
        }
        Exp::Int(_) => false,
        Exp::Str(_) => false,
        Exp::Bool(_) => false,
        Exp::Unit => false,
        Exp::Variable(_) => false,
        Exp::Apply(_, _) => false,
        Exp::Unary(_, _) => false,
        Exp::Absent(_) => false,
        Exp::Empty(_) => false,
        Exp::Fail(_, _) => false,
        Exp::Tagged(_, _) => false,
        Exp::If(_, _, _) => false,
        Exp::Case(_, _) => false,
        Exp::Let(_, _, _) => false,
        Exp::Bind(_, _) => false,
        Exp::Next(_) => false,
        Exp::GetCookie(_) => false,
        Exp::SetCookie(_, _) => false,
        Exp::Write(_, _) => false,
        Exp::Ask(_, _, _) => false,
        Exp::Each(_, _, _) => false,
        Exp::Xml(_, _) => false,
    }
}

#[cycle(computed)]
#[tactic(auto, using(crate::proofs::Statics::computed))]
fn some_names_static(fields: &List<FieldExp>, functions: &List<Function>) -> bool
    ensures { result ≡ is_one_computed functions.now fields.now }
{
    let all = fields.as_slice();
    for i in 0..all.len() {
        if field_names_static(&all[i], functions) {
            return true;
        }
    }
    false
}

#[cycle(computed)]
fn field_names_static(field: &FieldExp, functions: &List<Function>) -> bool
    ensures { result ≡ is_computed functions.now field.now.of }
{
    names_static(&field.of, functions)
}
