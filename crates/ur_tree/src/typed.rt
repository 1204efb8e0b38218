//! The checked source of a project.
ghost use Rattle.std.specs.Prelude.{◌≡◌, length};

use crate::exp::{Exp, Param};
use ur_base::{List, Text};
use ur_rows::{NormalType, Part};
use ur_sql::{Change, Query};
use ur_syntax::Kind;
use ur_tags::Handlers;
use ur_values::{ColumnKind, Schema};

#[derive(Drop)]
pub struct Datatype {
    pub module: u32,
    pub name: Text,
}

/// A constructor of a datatype, with the type of its argument. All constructors of the project stand in one list.
#[derive(Drop)]
pub struct Variant {
    pub datatype: u32,
    pub name: Text,
    pub arg: Option<NormalType>,
}

/// A module's `val`, whose right side is static.
#[derive(Drop)]
pub struct ModuleVal {
    pub of: NormalType,
    pub body: Exp,
}

/// A constructor parameter with its kind, or two rows that are to be apart.
#[derive(Drop)]
pub enum ConParam {
    Kinded(Kind),
    Apart(List<Part>, List<Part>),
}

/// A function. Its types have its constructor parameters as free variables, in order. Its routed name is that of
/// its module and its own.
#[derive(Drop)]
pub struct Function {
    pub module: u32,
    pub name: Text,
    pub cons: List<ConParam>,
    pub params: List<Param>,
    pub result: NormalType,
    pub body: Exp,
}

/// The checked source of a project. `names` are the names of fields in byte order, each once; a name's number is
/// its place there. `handlers` are the routes, and `targets` the function of each, by rising number: a link or submit
/// button has the route whose place is that of its function among the targets. Queries and changes stand in the order
/// of modules and place.
#[derive(Drop)]
pub struct Typed {
    pub modules: List<Text>,
    pub names: List<Text>,
    pub datatypes: List<Datatype>,
    pub variants: List<Variant>,
    pub schema: Schema,
    pub cookies: List<(Text, ColumnKind)>,
    pub vals: List<ModuleVal>,
    pub functions: List<Function>,
    pub queries: List<Query>,
    pub changes: List<Change>,
    pub handlers: Handlers,
    pub targets: List<u32>,
}

impl Typed {
    /// How many functions the source has. Takes no memory.
    pub fn functions(&self) -> usize
        ensures count { result ≡ length self.now.functions }
    {
        self.functions.len()
    }
}
