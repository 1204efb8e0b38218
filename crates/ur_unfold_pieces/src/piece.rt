//! What stands for an expression under its scope.
use ur_base::List;
use ur_tree::{Exp, Markup};

/// An expression, a part of XML, a truth value, a closed static expression by its number, the value of a fold over the
/// last fields of a row, so many being left, or all rows of a query. Scopes and the steps of folds are numbers.
#[derive(Drop)]
pub enum Piece<'a> {
    Exp(u32, &'a Exp),
    Part(u32, &'a Markup),
    Bool(u32, bool),
    Closed(u32),
    Folding {
        scope: u32,
        step: &'a Exp,
        start: &'a Exp,
        steps: u32,
        left: u32,
    },
    Asking(u32, u32, &'a List<Exp>),
}
