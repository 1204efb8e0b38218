//! Laws of projects.
ghost use Rattle.ur_code.specs.Fits.{Fits};
ghost use Rattle.ur_effects.specs.Refused.{GetNeverWrites};
ghost use Rattle.ur_compile.specs.Accepts.{OneApplication};
ghost use Rattle.ur_compile.specs.OneStep.{OneStep};
ghost use Rattle.ur_compile.specs.Passes.{IsOfEach};

use ur_check::caused_is_none;
use ur_kinds::{faulty_is_not_kinded, one_fault_of_kinds};
use ur_load::{one_project, one_refusal, refused_is_not_loaded};
use ur_typed_laws::one_typed_source;

/// The files of a project are one application at most.
pub fn one_application()
    ensures { OneApplication }
{
    one_project();
    one_typed_source();
}

/// Two refusals of the same files are of one step of the compiler. Of files, tokens, grammar and names they are one refusal, but for
/// E05 beside E06; of kinds they have one code and one place.
pub fn one_step()
    ensures { OneStep }
{
    one_refusal();
    one_fault_of_kinds();
    faulty_is_not_kinded();
    caused_is_none();
    refused_is_not_loaded();
    one_project();
    one_application();
}

/// What the compiler asks of code is so of each numbering of the instances, where it is so of one: that it fits its types, and
/// that no route that answers GET leads to a write.
pub fn each_numbering()
    ensures fit { IsOfEach Fits }
    ensures gets { IsOfEach GetNeverWrites }
{}
