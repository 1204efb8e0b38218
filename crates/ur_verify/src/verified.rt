//! Verified code.
ghost use Rattle.std.specs.Prelude.{◌≡◌, ◌≢◌, IfOk};
ghost use Rattle.ur_base.specs.Stopping.{IfRefused};
ghost use Rattle.ur_code.specs.Fits.{Fits};
ghost use Rattle.ur_verify_operations.specs.Answering.{Answers, Says};
ghost use Rattle.ur_verify.specs.Misfits.{CodeMisfit};
ghost use Rattle.ur_verify_operations.specs.Saying.{IsFound};
ghost use Rattle.ur_verify.specs.Verifying.{ExplainsUnfit};

use crate::functions::{changes_fit, cookies_fit, functions_fit, queries_fit, tables_fit};
use crate::routes::routes_fit;
use std::alloc::Global;
use std::marker::Model;
use ur_base::{Refusal, Span, Stop};
use ur_code::Code;
use ur_verify_operations::{Misfit, Untyped};

/// Code that fits its types: the first-order typing table holds of it. It is made by `verify` alone. Contracts see it as
/// the code.
#[derive(Drop)]
pub struct Verified {
    code: Code,
}

impl Model for Verified {
    ghost use Rattle.std.specs.Coded.{codes};
    ghost use Rattle.ur_code.specs.declared.code.Code.{Code};
    ghost use Rattle.ur_code.specs.Fits.{Fits};
    ghost use Rattle.ur_values.specs.contracts.value.Value as value;
    ghost use Rattle.ur_values.specs.contracts.types.ValueType as value_type;
    ghost use Rattle.ur_sql.specs.contracts.scalar.Scalar as scalar;
    ghost use Rattle.ur_terms.specs.contracts.term.Term as term;

    ghost Value = { Code };

    ghost coded = { Prim.hlevel (codes, value.the_row.coded, value_type.the_row.coded, scalar.the_row.coded, term.the_row.coded) };

    ghost view = { λ v. v.code };

    ghost invariant = { λ v. Fits v.code };
}

impl Verified {
    /// The code. Takes no memory.
    pub fn code(&self) -> &Code
        ensures same { result.now ≡ self.now }
        ensures fits { Fits result.now }
    {
        &self.code
    }
}

/// Gives the code back exactly where it fits its types. Code that does not is E19, with what was found and what was
/// wanted.
pub fn verify(alloc: Global, code: Code) -> Result<Verified, Stop>
    ensures same { IfOk result (λ verified. verified ≡ code) }
    ensures fits { IfOk result Fits }
    ensures refused { IfRefused result (ExplainsUnfit code) }
{
    match code_fits(alloc, &code) {
        Ok(()) => Ok(Verified { code }),
        Err(untyped) => match untyped {
            Untyped::Memory => Err(Stop::Memory),
            Untyped::Misfit(misfit) => Err(Stop::Refused(refusal(misfit))),
        },
    }
}

fn code_fits(alloc: Global, code: &Code) -> Result<(), Untyped>
    ensures fits { Answers (λ u. Fits code.now) result }
    ensures told { Says (CodeMisfit code.now) result }
{
    functions_fit(alloc, code)?;
    queries_fit(alloc, code)?;
    changes_fit(alloc, code)?;
    routes_fit(alloc, code)?;
    tables_fit(alloc, code)?;
    cookies_fit(alloc, code)
}

/// The refusal of code stands at no place of the source.
fn refusal(misfit: Misfit) -> Refusal
    ensures code { result.code ≡ 19 }
    ensures left { result.left ≡ misfit.left }
    ensures right { result.right ≡ misfit.right }
    ensures differ { result.left ≢ result.right }
    ensures found { ∥ IsFound result.left ∥₁ }
    ensures no_place { result.span ≡ record { file = 0; from = 0; to = 0 } }
{
    let Misfit { left, right } = misfit;
    Refusal {
        code: 19,
        span: Span {
            file: 0,
            from: 0,
            to: 0,
        },
        left,
        right,
    }
}
