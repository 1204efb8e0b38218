//! Where a constructor stands, and whether it may stand there.
ghost use Rattle.std.specs.Prelude.{◌≡◌, OnOk, ◌||◌, true, false, []};
ghost use Rattle.std.specs.List.{list_all};
ghost use Rattle.ur_base.specs.Stopping.{Says};
ghost use Rattle.ur_parse_rules.specs.Places.{IfRefused};
ghost use Rattle.ur_parse_rules.specs.Constructors.{is_whole, is_beside, keys_of, within, has_con};

use std::alloc::Global;
use ur_base::Stop;
use ur_lex::Tokens;
use ur_parse_rules::{ConPlace, unexpected};
use ur_syntax::{CField, Con, ConForm};

/// Whether the keys of a table may stand behind a constructor.
pub fn keys_of(place: ConPlace) -> bool
    ensures { result ≡ keys_of place }
{
    matches!(place, ConPlace::BeforeKeys)
}

/// The place of the body of a `fn`.
pub fn within(place: ConPlace) -> ConPlace
    ensures { result ≡ within place }
{
    match place {
        ConPlace::BeforeKeys => ConPlace::BeforeKeys,
        ConPlace::Plain => ConPlace::Plain,
        ConPlace::Beside => ConPlace::Plain,
    }
}

/// Whether a field may stand without its constructor.
pub fn is_beside(place: ConPlace) -> bool
    ensures { result ≡ is_beside place }
{
    matches!(place, ConPlace::Beside)
}

fn has_con(field: &CField) -> bool
    ensures { result ≡ has_con field.now }
{
    match field {
        CField::Bare(_) => false,
        CField::Given(_, _) => true,
    }
}

fn all_have_con(fields: &[CField]) -> bool
    ensures { result ≡ list_all has_con fields.now }
{
    fields.iter().all(|field| has_con(field))
}

/// Whether a constructor is no row with a field that lacks its constructor.
pub fn is_whole(con: &Con) -> bool
    ensures { result ≡ is_whole con.now }
{
    match &con.form {
        ConForm::Row(fields) => all_have_con(fields.as_slice()),
        _ => true,
    }
}

/// Passes where a constructor is whole, or need not be.
pub fn fitting(alloc: Global, tokens: &Tokens, at: usize, free: bool, con: &Con) -> Result<(), Stop>
    ensures found { OnOk result ((free || is_whole con.now) ≡ true) }
    ensures refused { IfRefused result (λ r. Says r 5 [] [] × ((free || is_whole con.now) ≡ false)) }
{
    if free || is_whole(con) {
        Ok(())
    } else {
        Err(unexpected(alloc, tokens, at))
    }
}
