//! What is declared so far.
ghost use Rattle.std.specs.Prelude.{◌≡◌, ℕ, [], Some, IfOk, OnOk};
ghost use Rattle.ur_rows.specs.Nodes.{most_nodes};
ghost use Rattle.ur_syntax.specs.Names.{member, name_text};
ghost use Rattle.ur_tree.specs.App.{nothing_in_scope};
ghost use Rattle.ur_typed.specs.Declaring.{Sofar, Checked, world_behind, top_scope, entered, nothing_yet};
ghost use Rattle.ur_typed.specs.Typed.{nothing_declared};
ghost use Rattle.ur_check_scopes.specs.Views.{Stands, env_in, name_in};
ghost use Rattle.ur_check_heads.specs.Views.{Sees};

use std::alloc::Global;
use ur_base::{List, Memory, Text};
use ur_check_scopes::{Around, Cons, Locals, Named, Scope, World};
use ur_rows::copy_text;
use ur_rows_normal::Prepared;
use ur_syntax::ConEnv;
use ur_values::Schema;

/// What a project declares before a place, and what its types' names stand for.
#[derive(Drop)]
pub struct Project {
    pub world: World,
    pub names: Prepared,
}

fn no_names(alloc: Global) -> Prepared
    ensures { result ≡ record { home = []; known = []; variables = 0 } }
{
    Prepared {
        home: List::new(alloc),
        known: List::new(alloc),
        variables: 0,
    }
}

/// Before the first module.
pub fn nothing_declared(alloc: Global, fields: List<Text>) -> Project
    ensures { Sees result 0 (nothing_yet (nothing_declared fields)).0 }
{
    let env = ConEnv {
        home: List::new(alloc),
        fields,
        entries: List::new(alloc),
    };
    let schema = Schema {
        tables: List::new(alloc),
        sequences: List::new(alloc),
    };
    let world = World {
        env,
        module: 0,
        values: List::new(alloc),
        constructors: List::new(alloc),
        sequences: List::new(alloc),
        cookies: List::new(alloc),
        schema,
        datatypes: List::new(alloc),
        datatype_names: List::new(alloc),
        variants: List::new(alloc),
        cookie_kinds: List::new(alloc),
        vals: List::new(alloc),
        functions: List::new(alloc),
    };
    Project {
        world,
        names: no_names(alloc),
    }
}

/// The module sees all names, each with its home.
pub fn enter(alloc: Global, project: &mut Project, number: u32, name: &Text) -> Result<(), Memory>
    ensures { OnOk result ((home : ℕ) (before : Checked) → Sees project.old home before.0 → Sees project.new number (entered name.now before).0) }
{
    let home = copy_text(alloc, name)?;
    let of_names = copy_text(alloc, name)?;
    project.world.env.home = home;
    project.world.module = number;
    project.names.home = of_names;
    Ok(())
}

/// How many levels of four KiB an expression may take of the stack, of which 8 MiB are there; what is deeper is want of memory.
/// The rest is for trees of 4,096 levels that are copied, compared, asked and let go within.
pub const LEVELS: u32 = 1200;

/// Outside all functions.
pub fn top<'a>(project: &'a Project) -> Around<'a>
    ensures stands { (home : ℕ) (z : Sofar) → Sees project.now home z → Stands result (world_behind most_nodes z) (top_scope z) }
    ensures world { result.world.now ≡ project.now.world }
    ensures cons { env_in result.scope.cons ≡ nothing_in_scope }
{
    Around {
        world: &project.world,
        scope: Scope {
            cons: Cons {
                names: project.names.in_scope(),
                kinds: &[],
                known: &[],
            },
            locals: Locals::Nothing,
        },
        levels: LEVELS,
    }
}

/// A declared name of the current module.
pub fn named<T: Drop>(
    alloc: Global,
    project: &Project,
    name: &Text,
    of: T,
) -> Result<Named<T>, Memory>
    ensures name { IfOk result (λ n. name_in n ≡ member project.now.world.env.home name.now) }
    ensures of { IfOk result (λ n. n.of ≡ of) }
{
    let home = copy_text(alloc, &project.world.env.home)?;
    let name = copy_text(alloc, name)?;
    Ok(Named { home, name, of })
}

/// The name with its module, as it stands in the store.
pub fn full_name(alloc: Global, project: &Project, name: &Text) -> Result<Text, Memory>
    ensures { IfOk result (λ text. text ≡ name_text (Some project.now.world.env.home) name.now) }
{
    let mut text = copy_text(alloc, &project.world.env.home)?;
    text.extend_from_slice(b".")?;
    text.extend_from_slice(name.as_slice())?;
    Ok(text)
}

/// The number of what stands behind so many.
pub fn number(length: usize) -> Result<u32, Memory>
    ensures { IfOk result (λ n. n ≡ length) }
{
    match u32::try_from(length) {
        Ok(n) => Ok(n),
        Err(_large) => Err(Memory),
    }
}
