//! What is wanted of a part, where a type is wanted of the whole.
ghost use Rattle.std.specs.Prelude.{◌≡◌};
ghost use Rattle.std.specs.Option.{option_copied};
ghost use Rattle.ur_typed_rules.specs.Scopes as scopes;
ghost use Rattle.ur_typed_rules.specs.Scopes.{wants};
ghost use Rattle.ur_check_scopes.specs.Views.{mode_of, behind_one};
ghost use Rattle.ur_typed_rules.specs.Rules as rules;

use crate::locals::Local;
use ur_base::List;
use ur_rows::{Label, NormalType, Part};
use ur_rows_normal::field_type;

/// Of the value of `Some`.
#[tactic(auto, using(crate::proofs::Wanting::modes))]
pub fn of_option<'a>(wanted: Option<&'a NormalType>) -> Option<&'a NormalType>
    ensures { mode_of (option_copied result) ≡ scopes.of_option (mode_of (option_copied wanted.entry)) }
{
    match wanted? {
        NormalType::Opt(inner) => Some(inner.get()),
        _ => None,
    }
}

/// Of the elements of a list.
#[tactic(auto, using(crate::proofs::Wanting::modes))]
pub fn of_list<'a>(wanted: Option<&'a NormalType>) -> Option<&'a NormalType>
    ensures { mode_of (option_copied result) ≡ scopes.of_list (mode_of (option_copied wanted.entry)) }
{
    match wanted? {
        NormalType::Many(inner) => Some(inner.get()),
        _ => None,
    }
}

/// Of what a transaction gives.
#[tactic(auto, using(crate::proofs::Wanting::modes))]
pub fn of_transaction<'a>(wanted: Option<&'a NormalType>) -> Option<&'a NormalType>
    ensures { mode_of (option_copied result) ≡ scopes.of_transaction (mode_of (option_copied wanted.entry)) }
{
    match wanted? {
        NormalType::Transaction(inner) => Some(inner.get()),
        _ => None,
    }
}

/// Of the field with this name.
#[tactic(auto, using(crate::proofs::Wanting::modes))]
pub fn of_field<'a>(label: &Label, wanted: Option<&'a NormalType>) -> Option<&'a NormalType>
    ensures { mode_of (option_copied result) ≡ scopes.of_field label.now (mode_of (option_copied wanted.entry)) }
{
    field_type(label, row_of(wanted?)?)
}

#[tactic(auto, using(crate::proofs::Wanting::modes))]
fn behind<'a>(of: &'a NormalType) -> Option<&'a NormalType>
    ensures { mode_of (option_copied result) ≡ behind_one (wants of.now) }
{
    match of {
        NormalType::Arrow(_, to) => Some(to.get()),
        _ => None,
    }
}

#[tactic(auto, using(crate::proofs::Wanting::modes))]
fn behind_one<'a>(of: Option<&'a NormalType>) -> Option<&'a NormalType>
    ensures { mode_of (option_copied result) ≡ behind_one (mode_of (option_copied of.entry)) }
{
    match of {
        Some(t) => behind(t),
        None => None,
    }
}

/// Behind these parameters.
#[tactic(auto, using(crate::proofs::Wanting::modes))]
pub fn of_result<'a>(params: &[Local], wanted: Option<&'a NormalType>) -> Option<&'a NormalType>
    ensures { mode_of (option_copied result) ≡ scopes.of_result params.now (mode_of (option_copied wanted.entry)) }
{
    let mut of = wanted;
    let mut left = params;
    while let Some((_first, rest)) = left.split_first() {
        of = behind_one(of);
        left = rest;
    }
    of
}

/// The row of a record's type.
#[tactic(auto, using(crate::proofs::Wanting::modes))]
pub fn row_of<'a>(of: &'a NormalType) -> Option<&'a List<Part>>
    ensures { option_copied result ≡ rules.row_of of.now }
{
    match of {
        NormalType::Record(row) => Some(row),
        _ => None,
    }
}

/// What a transaction gives.
#[tactic(auto, using(crate::proofs::Wanting::modes))]
pub fn value_of<'a>(of: &'a NormalType) -> Option<&'a NormalType>
    ensures { option_copied result ≡ rules.value_of of.now }
{
    match of {
        NormalType::Transaction(inner) => Some(inner.get()),
        _ => None,
    }
}
