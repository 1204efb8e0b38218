//! What forms have behind their words.
ghost use Rattle.std.specs.Prelude.{◌≡◌};
ghost use Rattle.ur_parse_exp_parts.specs.Shapes.{shape_of};

use crate::{FormWord, Single};
use ur_syntax::QueryWord;

/// What a form has behind its word: an expression, a query, or what the word itself tells.
#[derive(Clone, Copy)]
pub enum Shape {
    One(Single),
    Query(QueryWord),
    Fold,
    Nextval,
    GetCookie,
    SetCookie,
    Dml,
    QueryX,
}

/// The shape of a word's form.
pub fn shape_of(word: FormWord) -> Shape
    ensures { result ≡ shape_of word }
{
    match word {
        FormWord::Return => Shape::One(Single::Return),
        FormWord::Show => Shape::One(Single::Show),
        FormWord::Not => Shape::One(Single::Not),
        FormWord::Error => Shape::One(Single::Error),
        FormWord::Some => Shape::One(Single::Some),
        FormWord::Fold => Shape::Fold,
        FormWord::Nextval => Shape::Nextval,
        FormWord::GetCookie => Shape::GetCookie,
        FormWord::SetCookie => Shape::SetCookie,
        FormWord::Dml => Shape::Dml,
        FormWord::QueryL => Shape::Query(QueryWord::QueryL),
        FormWord::OneRow => Shape::Query(QueryWord::OneRow),
        FormWord::OneOrNoRows => Shape::Query(QueryWord::OneOrNoRows),
        FormWord::QueryX => Shape::QueryX,
    }
}
