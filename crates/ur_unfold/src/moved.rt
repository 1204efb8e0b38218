//! What a source declares, moved.
ghost use Rattle.std.specs.Prelude.{◌≡◌};

use ur_base::List;
use ur_terms::Function;
use ur_tree::{Closed, Typed};
use ur_values::ValueType;

/// The instances of a source, with what it declares.
pub fn closed_of(
    typed: Typed,
    targets: List<u32>,
    variants: List<(u32, Option<ValueType>)>,
    functions: List<Function>,
) -> Closed
    ensures schema { result.schema ≡ typed.schema }
    ensures handlers { result.handlers ≡ typed.handlers }
    ensures names { result.names ≡ typed.names }
    ensures cookies { result.cookies ≡ typed.cookies }
    ensures queries { result.queries ≡ typed.queries }
    ensures changes { result.changes ≡ typed.changes }
    ensures targets { result.targets ≡ targets }
    ensures variants { result.variants ≡ variants }
    ensures functions { result.functions ≡ functions }
{
    Closed {
        schema: typed.schema,
        handlers: typed.handlers,
        targets,
        names: typed.names,
        variants,
        cookies: typed.cookies,
        functions,
        queries: typed.queries,
        changes: typed.changes,
    }
}
