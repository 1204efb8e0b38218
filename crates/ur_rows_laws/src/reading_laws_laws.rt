ghost use Rattle.ur_rows_laws.specs.Reading.{FormOfApplied, FormOfInstance, MapOfWritten};

use ur_syntax::ConEnv;

/// A constructor of a kind that is read where the variables stand for closed constructors of their kinds has the instance
/// of its form.
pub fn form_of_instance(env: &ConEnv)
    ensures { FormOfInstance env.now }
{}

/// An applied function has the form of the application; of a written one that is the form of its body with the argument's form in
/// place of its variable.
pub fn form_of_applied(env: &ConEnv)
    ensures { FormOfApplied env.now }
{}

/// A map of a map has the form of the map of the written function that does one after the other.
pub fn map_of_written(env: &ConEnv)
    ensures { MapOfWritten env.now }
{}
