//! First-order terms.
use ur_base::{Boxed, List, Name, Text};
use ur_values::{FieldKind, Tag, ValueType};

/// What a query gives: all rows, the only row, at most one row.
#[derive(Clone, Copy, Debug, PartialEq, Eq)]
pub enum AnswerForm {
    All,
    One,
    OneOrNone,
}

/// What is done with evaluated arguments. A call of a route in a link or submit button takes the first `args`
/// arguments, and a unit last where `unit` is true.
#[derive(Drop)]
pub enum Op {
    Add,
    Sub,
    Mul,
    Div,
    Rem,
    Neg,
    Append,
    Not,
    Equal,
    Unequal,
    Less,
    LessEqual,
    Greater,
    GreaterEqual,
    Show,
    /// A record with these names, one for each argument.
    Record(List<Name>),
    Project(Name),
    Join,
    Cut(Name),
    Absent(ValueType),
    Present,
    Empty(ValueType),
    Cons,
    Tagged(u32),
    /// `error`, at the type that it stands for.
    Fail(ValueType),
    /// A literal of XML, at its type: the nodes of its arguments, one after the other.
    Markup(ValueType),
    Text(Text),
    Shown,
    Element(Tag),
    Link {
        route: u32,
        args: u32,
    },
    /// A form's field, with its name's number and text.
    Input {
        kind: FieldKind,
        name: Name,
        text: Text,
    },
    Submit {
        route: u32,
        args: u32,
        unit: bool,
    },
    Ask(AnswerForm, u32),
    Write(u32),
    Next(u32),
    GetCookie(u32),
    SetCookie(u32),
}

/// What a branch matches, and how many variables it binds.
#[derive(Drop)]
pub enum Pattern {
    /// Anything, which it binds.
    Any,
    Int(i64),
    Str(Text),
    Bool(bool),
    Absent,
    /// Binds what is present.
    Present,
    Empty,
    /// Binds the first item and the list of the others.
    Cons,
    /// A datatype's constructor; binds its argument where it has one.
    Tagged(u32),
}

/// A first-order term. A variable is known by its place: the variables of the nearest binder come first, in
/// written order, and then those around it.
#[cycle(term)]
#[derive(Drop)]
pub enum Term {
    Variable(u32),
    Int(i64),
    Str(Text),
    Bool(bool),
    /// The arguments from left to right, and then what is done with them.
    Make(Op, List<Term>),
    /// The arguments from left to right, and then the function with this number.
    Call(u32, List<Term>),
    /// The values from left to right, and then the body, which has them as its nearest variables.
    Let(List<Term>, Boxed<Term>),
    If(Boxed<Term>, Boxed<Term>, Boxed<Term>),
    /// The first branch whose pattern matches.
    Case(Boxed<Term>, List<Branch>),
    /// The body for each item of a list, which it has as its nearest variable; the XML of all of them.
    Each(Boxed<Term>, Boxed<Term>),
}

#[cycle(term)]
#[derive(Drop)]
pub struct Branch {
    pub pattern: Pattern,
    pub body: Term,
}

/// A first-order function. `runs` tells whether its result is a transaction.
#[derive(Drop)]
pub struct Function {
    pub name: Text,
    pub params: List<ValueType>,
    pub result: ValueType,
    pub runs: bool,
    pub body: Term,
}
