//! What operations on tables give.
ghost use Rattle.std.specs.Prelude.{◌≡◌, IfOk};
ghost use Rattle.ur_values.specs.declared.value.Value.TheVariants as v;
ghost use Rattle.ur_values.specs.Size.{is_small};
ghost use Rattle.ur_emit.specs.Slots.{IsSlot};
ghost use Rattle.ur_tags.specs.declared.routes.Handlers.{Handlers};

use std::alloc::Global;
use std::marker::Model;
use ur_base::{List, Memory, Shared};
use ur_emit::Slot;
use ur_values::{Value, copy_values};

/// A value that an operation on tables gave: one of its own, or the list of all rows of an answer, which the cache may have too.
/// Contracts see the value.
#[derive(Drop)]
pub struct Given {
    held: Gift,
}

#[derive(Drop)]
pub(crate) enum Gift {
    Value(Value),
    Rows(Shared<List<Value>>),
}

impl Model for Given {
    ghost use Rattle.ur_values.specs.declared.value.Value.{Value as Held};
    ghost use Rattle.ur_values.specs.contracts.value.Value as value;
    ghost use Rattle.ur_machine.specs.Gifts.{value_given};

    ghost Value = { Held };

    ghost coded = { (value.the_row).coded };

    ghost view = { λ given. value_given given.held };
}

impl Given {
    pub fn value(value: Value) -> Given
        ensures { result ≡ value }
    {
        Given {
            held: Gift::Value(value),
        }
    }

    pub fn rows(rows: Shared<List<Value>>) -> Given
        ensures { result ≡ v.Many rows }
    {
        Given {
            held: Gift::Rows(rows),
        }
    }

    /// The value where it stands.
    pub fn slot(&self) -> Slot<'_>
        ensures { (h : Handlers) → IsSlot h result self.now }
    {
        match &self.held {
            Gift::Value(value) => Slot::Value(value),
            Gift::Rows(rows) => Slot::Rows(rows.get().as_slice()),
        }
    }

    /// The value, of its own.
    pub fn into_value(self, alloc: Global) -> Result<Value, Memory>
        ensures { IfOk result (λ value. value ≡ self) }
    {
        let Given { held } = self;
        match held {
            Gift::Value(value) => Ok(value),
            Gift::Rows(rows) => {
                let copy = copy_values(alloc, rows.get())?;
                Ok(Value::Many(copy))
            }
        }
    }
}

/// Whether a list of these values may be built.
pub(crate) fn are_small(values: &[Value]) -> bool
    ensures { result ≡ is_small (v.Many values.now) }
{
    let mut size: u64 = 32;
    let mut nesting: u32 = 0;
    for value in values {
        size = size.saturating_add(value.size());
        nesting = nesting.max(value.nesting());
    }
    size <= 16_777_216 && nesting <= 1023
}
