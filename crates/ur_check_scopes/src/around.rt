//! Where an expression stands.
ghost use Rattle.std.specs.Prelude.{◌≡◌, ◌+◌, IfOk};

use crate::locals::Locals;
use crate::world::World;
use ur_base::Memory;
use ur_disjoint::Assumed;
use ur_rows_normal::Place;
use ur_syntax::Kind;

/// The constructors in scope: their names with what they stand for, the kinds of the variables among them in order of
/// binding, and the rows that are taken to be apart.
#[derive(Clone, Copy)]
pub struct Cons<'a> {
    pub names: Place<'a>,
    pub kinds: &'a [Kind],
    pub known: &'a [Assumed],
}

/// The names in scope, and the types of what they stand for.
#[derive(Clone, Copy)]
pub struct Scope<'a> {
    pub cons: Cons<'a>,
    pub locals: Locals<'a>,
}

/// An expression stands in a project and a scope, and may have so many levels.
#[derive(Clone, Copy)]
pub struct Around<'a> {
    pub world: &'a World,
    pub scope: Scope<'a>,
    pub levels: u32,
}

/// Where a part of the expression stands, which so many levels are taken for.
pub fn deeper<'a>(around: &Around<'a>, by: u32) -> Result<Around<'a>, Memory>
    ensures { IfOk result (λ inner. (inner.world ≡ around.now.world) × (inner.scope ≡ around.now.scope) × (around.now.levels ≡ inner.levels + by)) }
{
    match around.levels.checked_sub(by) {
        Some(levels) => Ok(Around {
            world: around.world,
            scope: around.scope,
            levels,
        }),
        None => Err(Memory),
    }
}

impl<'a> Around<'a> {
    /// The same with these names.
    pub fn within(&self, locals: Locals<'a>) -> Around<'a>
        ensures world { result.world ≡ self.now.world }
        ensures cons { result.scope.cons ≡ self.now.scope.cons }
        ensures locals { result.scope.locals ≡ locals.entry }
        ensures levels { result.levels ≡ self.now.levels }
    {
        Around {
            world: self.world,
            scope: Scope {
                cons: self.scope.cons,
                locals,
            },
            levels: self.levels,
        }
    }
}
