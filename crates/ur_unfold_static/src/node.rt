//! What is closed, one level deep, its parts by number.
ghost use Rattle.std.specs.Prelude.{◌≡◌, slice_get};

use ur_base::{List, Name, Text};
use ur_tree::{Exp, Param};

/// A field of a record, its static expression by number.
#[derive(Debug, Clone, Copy, PartialEq, Eq, Hash)]
pub struct Field {
    pub name: Name,
    pub of: u32,
}

/// A closed static expression: a literal, a function with constructors, a lambda with what stands for the constructor
/// variables and the static names around it, or a record. Constructors, lambdas and static expressions are numbers.
#[derive(Debug, Drop, PartialEq, Eq, Hash)]
pub enum Node {
    Int(i64),
    Str(Text),
    Bool(bool),
    Function(u32, List<u32>),
    Lambda {
        of: u32,
        cons: List<u32>,
        fixed: List<u32>,
    },
    Record(List<Field>),
}

/// A lambda of the source.
#[derive(Clone, Copy)]
pub struct Lambda<'a> {
    pub params: &'a List<Param>,
    pub body: &'a Exp,
}

/// What stands for the constructor variables, in order of binding, and for the static names, the nearest first.
#[derive(Debug, Drop)]
pub struct Scope {
    pub cons: List<u32>,
    pub fixed: List<u32>,
}

/// The constructors that a fold's step binds: the name of a field, its type, and the fields behind it.
#[derive(Debug, Clone, Copy)]
pub struct Step {
    pub name: u32,
    pub of: u32,
    pub rest: u32,
}

/// What a number stands for in a list of numbers.
pub fn number_at(numbers: &List<u32>, place: u32) -> Option<u32>
    ensures { result ≡ slice_get numbers.now place }
{
    match numbers.get(place as usize) {
        None => None,
        Some(number) => Some(*number),
    }
}
