//! Forms in the code: what stands above the parts.
ghost use Rattle.std.specs.Prelude.{◌≡◌, ◌↔◌, IsTrue};
ghost use Rattle.ur_meaning.specs.declared.head.Head.TheVariants as head;

use ur_base::{List, Text};
use ur_terms::{Op, Pattern};

/// A form without its parts. A call has the number of what is called.
#[derive(Drop)]
pub enum Head {
    Int(i64),
    Text(Text),
    Bool(bool),
    Variable(u32),
    Strict(Op),
    Same,
    Choice,
    Let,
    Case(List<Pattern>),
    Each,
    Call(u32),
    Nothing,
}

/// A form with its parts, in the order in which they are evaluated.
#[derive(Drop)]
pub struct Opened<P> {
    pub head: Head,
    pub parts: List<P>,
}

impl Head {
    pub fn is_same(&self) -> bool
        ensures { IsTrue result ↔ (self.now ≡ head.Same) }
    {
        match self {
            Head::Same => true,
            _ => false,
        }
    }

    pub fn is_nothing(&self) -> bool
        ensures { IsTrue result ↔ (self.now ≡ head.Nothing) }
    {
        match self {
            Head::Nothing => true,
            _ => false,
        }
    }
}
