//! Written expressions of which no type is found: `None`, `[]` or `error` stands where their type would come from.
ghost use Rattle.std.specs.Prelude.{◌≡◌, true};
ghost use Rattle.ur_typed_rules.specs.Lacking.{lacks_type, if_cons};
ghost use Rattle.ur_check_rules.specs.Written.{some_of_fields, first_of_branches};

use ur_syntax::{Binary, Branch, Exp, ExpForm, Field};

fn is_cons(op: Binary) -> bool
    ensures { result ≡ if_cons op true }
{
    match op {
        Binary::Cons => true,
        _ => false,
    }
}

#[cycle(lacking)]
#[tactic(auto, using(crate::proofs::Lacks::lacking))]
pub fn lacks_type(e: &Exp) -> bool
    ensures { result ≡ lacks_type e.now.form }
{
    match &e.form {
        ExpForm::Constructor(x) => x.as_slice() == b"None".as_slice(),
        ExpForm::Nil => true,
        ExpForm::Error(_) => true,
        ExpForm::Some(x) => lacks_type(x.get()),
        ExpForm::Return(x) => lacks_type(x.get()),
        ExpForm::Binary(op, x, _) => is_cons(*op) && lacks_type(x.get()),
        ExpForm::Record(fields) => some_lacks_type(fields.as_slice()),
        ExpForm::Lambda(_, x) => lacks_type(x.get()),
        ExpForm::If(_, x, _) => lacks_type(x.get()),
        ExpForm::Case(_, branches) => first_lacks_type(branches.as_slice()),
        ExpForm::Let(_, x) => lacks_type(x.get()),
        ExpForm::Bind(_, _, x) => lacks_type(x.get()),
        ExpForm::Seq(_, x) => lacks_type(x.get()),
        ExpForm::QueryX(_, _, f) => lacks_type(f.get()),
        _ => false,
    }
}

#[cycle(lacking)]
#[tactic(auto, using(crate::proofs::Lacks::lacking))]
fn some_lacks_type(fields: &[Field]) -> bool
    ensures { result ≡ some_of_fields fields.now }
{
    for i in 0..fields.len() {
        if lacks_type(&fields[i].value) {
            return true;
        }
    }
    false
}

#[cycle(lacking)]
#[tactic(auto, using(crate::proofs::Lacks::lacking))]
fn first_lacks_type(branches: &[Branch]) -> bool
    ensures { result ≡ first_of_branches branches.now }
{
    match branches.first() {
        Some(branch) => lacks_type(&branch.body),
        None => true,
    }
}
