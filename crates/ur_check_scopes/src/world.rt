//! What a project declares, by name and by type, which its written heads alone tell.
ghost use Rattle.std.specs.Prelude.{◌≡◌, option_map, slice_get};
ghost use Rattle.ur_check_scopes.specs.Views.{head_in, declared_in};

use crate::names::{Means, Named};
use ur_base::{List, Text};
use ur_rows::NormalType;
use ur_syntax::ConEnv;
use ur_tree::{ConParam, Datatype, Param, Variant};
use ur_values::{ColumnKind, Schema};

/// The written head of a function; its types have its constructor parameters as free variables, in order.
#[derive(Drop)]
pub struct Head {
    pub cons: List<ConParam>,
    pub params: List<Param>,
    pub result: NormalType,
}

/// A function's head with the number of its module and its name.
#[derive(Drop)]
pub struct FunctionHead {
    pub module: u32,
    pub name: Text,
    pub head: Head,
}

/// What is declared before a place in the project, each in order of declaration, and the module that sees it, by its
/// number, and with the names of the project's fields in `env`, whose entries are prepared elsewhere.
#[derive(Drop)]
pub struct World {
    pub env: ConEnv,
    pub module: u32,
    pub values: List<Named<Means>>,
    pub constructors: List<Named<u32>>,
    pub sequences: List<Named<u32>>,
    pub cookies: List<Named<u32>>,
    pub schema: Schema,
    pub datatypes: List<Datatype>,
    pub datatype_names: List<Text>,
    pub variants: List<Variant>,
    pub cookie_kinds: List<(Text, ColumnKind)>,
    pub vals: List<NormalType>,
    pub functions: List<FunctionHead>,
}

/// The head of the function with this number.
pub fn function_at<'a>(world: &'a World, number: u32) -> Option<&'a Head>
    ensures { option_map (λ head. head_in head.now) result ≡ slice_get (declared_in world.now).functions number }
{
    match world.functions.get(number as usize) {
        Some(function) => Some(&function.head),
        None => None,
    }
}
