//! Static expressions.
ghost use Rattle.std.specs.Prelude.{◌≡◌};
ghost use Rattle.ur_tree.specs.IsStatic as statics;
ghost use Rattle.ur_check_rules.specs.Views.{exps_with};

use ur_rows_normal::is_arrow;
use ur_tree::{Binary, Exp, FieldExp};

fn is_join(op: Binary) -> bool
    ensures { result ≡ statics.is_join op }
{
    match op {
        Binary::Join => true,
        _ => false,
    }
}

/// A literal, a named function with its constructor arguments, the name of a module's `val`, a static parameter, a
/// lambda, a function fold whose step and start are static, and a record, projection, `++` or `--` of static
/// expressions.
#[cycle(fixed)]
#[tactic(auto, using(crate::proofs::Statics::statics))]
pub fn is_static(exp: &Exp) -> bool
    ensures { result ≡ statics.is_static exp.now }
{
    match exp {
        Exp::Int(_) => true,
        Exp::Str(_) => true,
        Exp::Bool(_) => true,
        Exp::Unit => true,
        Exp::Function(_, _) => true,
        Exp::Val(_) => true,
        Exp::Fixed(_) => true,
        Exp::Lambda(_, _) => true,
        Exp::Fold {
            of,
            step,
            start,
            ..
        } => {
            if !is_arrow(of) {
                return false;
            }
            if !is_static(step.get()) {
                return false;
            }
            is_static(start.get())
        }
        Exp::Record(fields) => are_static(fields.as_slice()),
        Exp::Project(e, _) => is_static(e.get()),
        Exp::Cut(e, _) => is_static(e.get()),
        Exp::Binary(op, a, b) => {
            if !is_join(*op) {
                return false;
            }
            if !is_static(a.get()) {
                return false;
            }
            is_static(b.get())
        }
        _ => false,
    }
}

#[cycle(fixed)]
#[tactic(auto, using(crate::proofs::Statics::statics))]
fn are_static(fields: &[FieldExp]) -> bool
    ensures { result ≡ statics.are_static (exps_with fields.now).1 }
{
    for i in 0..fields.len() {
        if !is_static(&fields[i].of) {
            return false;
        }
    }
    true
}
