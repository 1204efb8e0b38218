//! Expressions with their names resolved and their constructors in normal form.
//!
//! There are three kinds of variables. A variable for a value, and a name for a static expression, is known by its
//! place: those of the nearest binder come first, in written order, and then those around it. A variable for a
//! constructor is the n-th that is bound around it, in order of binding.
use ur_base::{Boxed, List, Text};
use ur_rows::{Label, Normal, NormalType, Part};
use ur_terms::{AnswerForm, Pattern};
use ur_values::{FieldKind, Tag};

#[derive(Clone, Copy, Debug, PartialEq, Eq)]
pub enum Unary {
    Neg,
    Not,
    Show,
    Present,
    /// `return`, which runs its expression and does nothing more.
    Return,
}

#[derive(Clone, Copy, Debug, PartialEq, Eq)]
pub enum Binary {
    Add,
    Sub,
    Mul,
    Div,
    Rem,
    Append,
    Equal,
    Unequal,
    Less,
    LessEqual,
    Greater,
    GreaterEqual,
    And,
    Or,
    Cons,
    /// `++` of records.
    Join,
}

/// A parameter with its written type. It is static where its type holds an arrow.
#[derive(Drop)]
pub struct Param {
    pub fixed: bool,
    pub of: NormalType,
}

/// An expression. What has no type of its own carries the type at which it was checked.
#[cycle(exp)]
#[derive(Drop)]
pub enum Exp {
    Int(i64),
    Str(Text),
    Bool(bool),
    Unit,
    Variable(u32),
    /// A static parameter, or `acc` in the step of a function fold.
    Fixed(u32),
    /// The name of a module's `val`, by its number.
    Val(u32),
    /// A named function with its constructor arguments.
    Function(u32, List<Normal>),
    /// An application to all arguments.
    Apply(Boxed<Exp>, List<Exp>),
    /// `fn`, whose body has no type with an arrow.
    Lambda(List<Param>, Boxed<Exp>),
    Record(List<FieldExp>),
    Project(Boxed<Exp>, Label),
    Cut(Boxed<Exp>, Label),
    Unary(Unary, Boxed<Exp>),
    Binary(Binary, Boxed<Exp>, Boxed<Exp>),
    /// `None`, at its option type.
    Absent(NormalType),
    /// `[]`, at its list type.
    Empty(NormalType),
    /// `error`, at its type.
    Fail(NormalType, Boxed<Exp>),
    /// A datatype's constructor, by its number in the project, with its argument.
    Tagged(u32, Option<Boxed<Exp>>),
    If(Boxed<Exp>, Boxed<Exp>, Boxed<Exp>),
    Case(Boxed<Exp>, List<Branch>),
    /// `let val x : c = e in e end`.
    Let(NormalType, Boxed<Exp>, Boxed<Exp>),
    /// `x <- e; e`. Where the value has no name it has a place all the same.
    Bind(Boxed<Exp>, Boxed<Exp>),
    Next(u32),
    GetCookie(u32),
    SetCookie(u32, Boxed<Exp>),
    /// A change, by its number, with its antiquotes.
    Write(u32, List<Exp>),
    /// A query, by its number, with its antiquotes.
    Ask(AnswerForm, u32, List<Exp>),
    /// `queryX`: a query with its antiquotes, and the body of the row function.
    Each(u32, List<Exp>, Boxed<Exp>),
    /// `fold [of] step start [row]`, `of` being the body of `fn x :: {Type} => of`, with `Bound(0)` for the row.
    /// The step binds three constructors, its name, type and rest, and `acc`, which is static where the fold is a
    /// function fold. `acc` has its written type.
    Fold {
        of: NormalType,
        acc: Param,
        step: Boxed<Exp>,
        start: Boxed<Exp>,
        row: List<Part>,
    },
    /// A literal of XML, at its type.
    Xml(NormalType, List<Markup>),
}

#[cycle(exp)]
#[derive(Drop)]
pub struct FieldExp {
    pub name: Label,
    pub of: Exp,
}

#[cycle(exp)]
#[derive(Drop)]
pub struct Branch {
    pub pattern: Pattern,
    pub body: Exp,
}

/// A part of a literal of XML. Text that is dropped at its place is not there.
#[cycle(exp)]
#[derive(Drop)]
pub enum Markup {
    Text(Text),
    /// `{[e]}`, shown as text.
    Shown(Exp),
    /// `{e}`, spliced.
    Splice(Exp),
    Element(Tag, List<Markup>),
    /// A link to a page function, by its number among the functions, with the arguments of its call.
    Link(u32, List<Exp>, List<Markup>),
    Input(FieldKind, Label, Option<Boxed<Exp>>),
    /// A submit button for a page function, by its number among the functions, with all arguments of its call but the
    /// last.
    Submit(u32, List<Exp>, Option<Boxed<Exp>>),
}
