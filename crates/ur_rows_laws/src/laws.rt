//! Laws of the definition of normal forms.
ghost use Rattle.ur_rows_laws.specs.Forms.{AreNormal, HaveKinds, DefinitionsStand, AppliedIsDefined};

use ur_syntax::ConEnv;

/// Forms are in order.
pub fn forms_are_normal(env: &ConEnv)
    ensures { AreNormal env.now }
{}

/// Forms hold their kinds.
pub fn forms_have_kinds(env: &ConEnv)
    ensures { HaveKinds env.now }
{}

/// A definition's form does not depend on what else is in scope.
pub fn definitions_stand(env: &ConEnv)
    ensures { DefinitionsStand env.now }
{}

/// A function that is applied to an argument has the form of its body where the variable is defined as the argument.
pub fn applied_is_defined(env: &ConEnv)
    ensures { AppliedIsDefined env.now }
{}
