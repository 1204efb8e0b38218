//! Values that are built, and program errors.
ghost use Rattle.std.specs.Prelude.{◌≡◌, [], ◌∷◌, IfOk};
ghost use Rattle.ur_terms.specs.State.{built, error_text};
ghost use Rattle.ur_values.specs.Size.{is_small};
ghost use Rattle.ur_machine_operations.specs.Comes.{Comes};

use std::alloc::Global;
use ur_base::{List, Memory};
use ur_machine_frames::Performed;
use ur_values::{GREATEST_SIZE, Node, Value};

/// The greatest nesting of a value that a request builds.
const GREATEST_NESTING: u32 = 1024;

/// The value, or a spent budget where it is too large or too deep.
pub(crate) fn built(value: Value) -> Performed
    ensures { Comes (built value) result }
{
    if is_small(&value) {
        Performed::Done(value)
    } else {
        Performed::Spent
    }
}

/// Whether a request may build the value.
pub fn is_small(value: &Value) -> bool
    ensures { result ≡ is_small value.now }
{
    value.size() <= GREATEST_SIZE && value.nesting() <= GREATEST_NESTING
}

/// A program error that is shown as this text.
pub(crate) fn failed(alloc: Global, text: &[u8]) -> Performed
    ensures { Comes (error_text text.now) result }
{
    match error_body(alloc, text) {
        Ok(body) => Performed::Failed(body),
        Err(_) => Performed::Memory,
    }
}

/// The body of a program error that is shown as this text.
pub fn error_body(alloc: Global, text: &[u8]) -> Result<Value, Memory>
    ensures { IfOk result (λ body. body ≡ Value.Markup (Node.Text text.now ∷ [])) }
{
    let mut nodes = List::new(alloc);
    nodes.push(Node::Text(List::from_slice(alloc, text)?))?;
    Ok(Value::Markup(nodes))
}
