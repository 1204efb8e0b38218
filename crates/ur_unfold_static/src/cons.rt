//! Names in constructors.
ghost use Rattle.std.specs.Prelude.{◌≡◌};
ghost use Rattle.ur_unfold_static.specs.Words.{var_names, label_names, type_names, part_names, row_names, con_names, cons_name, params_name};

use crate::sought::{Sought, either, is_con};
use ur_base::List;
use ur_rows::{Label, Normal, NormalType, Part, Var};
use ur_tree::Param;

#[tactic(auto, using(crate::proofs::Words::in_types))]
fn in_var(v: &Var, of: Sought) -> bool
    ensures { result ≡ var_names of v.now }
{
    match v {
        Var::Free(n) => is_con(of, *n),
        Var::Bound(_) => false,
    }
}

#[tactic(auto, using(crate::proofs::Words::in_types))]
pub fn in_label(l: &Label, of: Sought) -> bool
    ensures { result ≡ label_names of l.now }
{
    match l {
        Label::Literal(_) => false,
        Label::Variable(v) => in_var(v, of),
    }
}

/// Whether a type names the variable. Takes no memory.
#[cycle(types)]
#[tactic(auto, using(crate::proofs::Words::in_types))]
pub fn in_type(t: &NormalType, of: Sought) -> bool
    ensures { result ≡ type_names of t.now }
{
    match t {
        NormalType::Variable(v) => in_var(v, of),
        NormalType::Opt(t) => in_type(t.get(), of),
        NormalType::Many(t) => in_type(t.get(), of),
        NormalType::Transaction(t) => in_type(t.get(), of),
        NormalType::Arrow(a, b) => {
            let first = in_type(a.get(), of);
            let second = in_type(b.get(), of);
            either(first, second)
        }
        NormalType::Record(r) => in_row(r, of),
        NormalType::Form(r) => in_row(r, of),
        NormalType::Int => false,
        NormalType::Str => false,
        NormalType::Bool => false,
        NormalType::Page => false,
        NormalType::Xbody => false,
        NormalType::Xtable => false,
        NormalType::Xtr => false,
        NormalType::Datatype(_) => false,
    }
}

/// Whether a row names the variable. Takes no memory.
#[cycle(types)]
#[tactic(auto, using(crate::proofs::Words::in_types))]
pub fn in_row(r: &List<Part>, of: Sought) -> bool
    ensures { result ≡ row_names of r.now }
{
    let parts = r.as_slice();
    for i in 0..parts.len() {
        if in_part(&parts[i], of) {
            return true;
        }
    }
    false
}

#[cycle(types)]
#[tactic(auto, using(crate::proofs::Words::in_types))]
fn in_part(p: &Part, of: Sought) -> bool
    ensures { result ≡ part_names of p.now }
{
    match p {
        Part::Field(l, t) => {
            let first = in_label(l, of);
            let second = in_type(t.get(), of);
            either(first, second)
        }
        Part::Piece(v) => in_var(v, of),
        Part::Mapped(v, f) => {
            let first = in_var(v, of);
            let second = in_type(f.get(), of);
            either(first, second)
        }
    }
}

/// Whether a constructor names the variable. Takes no memory.
#[tactic(auto, using(crate::proofs::Words::in_types))]
pub fn in_con(n: &Normal, of: Sought) -> bool
    ensures { result ≡ con_names of n.now }
{
    match n {
        Normal::Type(t) => in_type(t, of),
        Normal::Name(l) => in_label(l, of),
        Normal::Row(r) => in_row(r, of),
        Normal::Fn(_, c) => in_con(c.get(), of),
    }
}

#[tactic(auto, using(crate::proofs::Words::in_types))]
pub fn in_cons(cons: &List<Normal>, of: Sought) -> bool
    ensures { result ≡ cons_name of cons.now }
{
    let all = cons.as_slice();
    for i in 0..all.len() {
        if in_con(&all[i], of) {
            return true;
        }
    }
    false
}

fn in_param(param: &Param, of: Sought) -> bool
    ensures { result ≡ type_names of param.now.of }
{
    in_type(&param.of, of)
}

/// Whether the type of a parameter names the variable. Takes no memory.
#[tactic(auto, using(crate::proofs::Words::in_types))]
pub fn in_params(params: &List<Param>, of: Sought) -> bool
    ensures { result ≡ params_name of params.now }
{
    let all = params.as_slice();
    for i in 0..all.len() {
        if in_param(&all[i], of) {
            return true;
        }
    }
    false
}
