use ur_base::{List, Span, Text};
use ur_syntax::{Con, ConParam, Exp, Kind};

/// What a source does with constructors, with a scope, or with the name of a function.
#[derive(Drop)]
pub enum Event<'a> {
    Open,
    Close,
    /// a module begins
    Enter(&'a Text),
    /// from here on the name is a constructor variable of this kind
    Variable(&'a Text, &'a Kind),
    /// from here on the module has a constructor of this kind
    Defined(&'a Text, &'a Kind),
    /// from here on the module has a type
    Named(&'a Text),
    /// from here on the name is a variable
    Local(&'a Text),
    /// from here on the module has a `val`
    Val(&'a Text),
    /// from here on the module has a function with these parameters
    Function(&'a Text, &'a List<ConParam>),
    /// the kind of a parameter
    Plain(Span, &'a Kind),
    /// a variable that stands as the name of a field
    Label(Span, Text),
    /// a constructor is written where a type is wanted
    Type(&'a Con),
    /// a constructor is written where a row is wanted
    Row(&'a Con),
    /// a constructor is written as the function of a fold
    Fold(&'a Con),
    /// a constructor is written where this kind is wanted
    Of(&'a Con, &'a Kind),
    /// a constructor is written as the argument of what stands before it
    Argument(&'a Exp, &'a Con),
}
