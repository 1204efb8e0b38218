//! The machine's frames.
use crate::stack::Stack;
use ur_base::List;
use ur_values::Value;

/// Which part of a term is being evaluated, with what is done of it so far. The term itself is found from the
/// function's body by the frames above the nearest `Body`; frames hold no terms.
#[derive(Drop)]
pub enum Frame {
    /// A function's body, with the variables of its caller.
    Body {
        function: u32,
        caller: Stack<Value>,
    },
    /// The next argument of an operation, call or `let`, after these.
    Args(List<Value>),
    /// The body of a `let` that binds so many variables.
    LetBody(usize),
    Condition,
    /// The side of a choice that its condition took.
    Side(bool),
    Subject,
    /// The body of the branch with this number, which binds so many variables.
    Branch {
        number: usize,
        bound: usize,
    },
    Rows,
    /// The body for an item, after these results, and the items that come after it.
    Item {
        done: List<Value>,
        rest: Stack<Value>,
    },
}

/// A run of one request: what it stands in, its variables, what its cookies hold, the cookies set, and the units left.
#[derive(Drop)]
pub struct Frames {
    pub frames: Stack<Frame>,
    pub values: Stack<Value>,
    pub carried: List<Value>,
    pub sent: List<(u32, Value)>,
    pub units: u32,
}
