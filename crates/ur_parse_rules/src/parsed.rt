//! What a reader answers.
ghost use Rattle.std.specs.Prelude.{IfOk, ◌≤◌};
ghost use Rattle.ur_parse_rules.specs.Places.{IfRefused};

use ur_base::Stop;

/// The greatest height of a tree, in levels, and of calls that are not bounded by the nesting of the source: the stack
/// is memory, and more is want of memory.
pub const MAX_LEVELS: usize = 4096;

/// A tree that was read, the place behind its tokens, and a bound on its height in levels.
#[derive(Drop)]
pub struct Parsed<T> {
    pub tree: T,
    pub end: usize,
    pub height: usize,
}

/// The height of a tree whose parts have these heights.
pub fn above(left: usize, right: usize) -> Result<usize, Stop>
    ensures bounded { IfOk result (λ height. height ≤ MAX_LEVELS) }
    ensures refused { IfRefused result (λ r. ⊥) }
{
    let high = if left < right { right } else { left };
    if high < MAX_LEVELS {
        Ok(high + 1)
    } else {
        Err(Stop::Memory)
    }
}

/// One level less, where one is left.
pub fn below(levels: usize) -> Result<usize, Stop>
    ensures refused { IfRefused result (λ r. ⊥) }
{
    if levels == 0 {
        Err(Stop::Memory)
    } else {
        Ok(levels - 1)
    }
}
