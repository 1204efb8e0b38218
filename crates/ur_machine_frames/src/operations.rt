//! What a machine does with values.
ghost use Rattle.std.specs.Prelude.{◌≡◌, ◌≢◌, ℕ, [], IfOk};
ghost use Rattle.ur_terms.specs.State.{State, Stuck};
ghost use Rattle.ur_terms.specs.Run.{joined};
ghost use Rattle.ur_machine_frames.specs.Plays.{until, Performs, Joins, IsMatched, held, no_store};

use crate::control::{Matched, Performed};
use ur_base::{List, Memory, Text};
use ur_terms::{Op, Pattern};
use ur_values::Value;

/// The operations on values, table by table as they are said of `does`.
pub trait Operations {
    /// An operation with its arguments.
    fn perform(
        &self,
        op: &Op,
        args: List<Value>,
        carried: &List<Value>,
        sent: &mut List<(u32, Value)>,
    ) -> Performed
        requires { (left : ℕ) × (until op.now args (held carried.now sent.old no_store [] left) ≢ Stuck) }
        ensures { Performs op.now args carried.now sent.old sent.new result };

    /// The XML of all parts.
    fn join(&self, parts: List<Value>) -> Performed
        requires { (s : State) × (joined parts s ≢ Stuck) }
        ensures { Joins parts result };

    /// What a pattern binds.
    fn bind(&self, pattern: &Pattern, value: Value) -> Matched
        ensures { IsMatched pattern.now value result };

    fn copy(&self, value: &Value) -> Result<Value, Memory>
        ensures { IfOk result (λ x. x ≡ value.now) };

    fn copy_text(&self, text: &Text) -> Result<Text, Memory>
        ensures { IfOk result (λ x. x ≡ text.now) };
}
