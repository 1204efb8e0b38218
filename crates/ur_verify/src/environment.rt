//! The types of the variables in scope.
ghost use Rattle.std.specs.Prelude.{◌≡◌, slice_get};
ghost use Rattle.std.specs.Option.{option_copied};
ghost use Rattle.ur_verify.specs.VerifyScope.{types_in};

use ur_values::ValueType;

/// The parameters of a function, and the variables that a binder binds, over those around it.
#[derive(Clone, Copy)]
pub enum Environment<'a> {
    Parameters(&'a [ValueType]),
    Bound(&'a [ValueType], &'a Environment<'a>),
}

/// The type of the variable at a place.
pub fn variable<'a>(env: &Environment<'a>, place: usize) -> Option<&'a ValueType>
    ensures { option_copied result ≡ slice_get (types_in env.now) place }
{
    match env {
        Environment::Parameters(types) => types.get(place),
        Environment::Bound(types, rest) => {
            if place < types.len() {
                return Some(&types[place]);
            }
            variable(rest, place - types.len())
        }
    }
}
