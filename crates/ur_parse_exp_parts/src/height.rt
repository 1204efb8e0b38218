//! How high the tree of an expression may be.
ghost use Rattle.std.specs.Prelude.{◌≡◌, ◌<◌, ◌*◌, ◌-◌, OnOk};
ghost use Rattle.ur_parse_rules.specs.Places.{IfRefused};

use ur_base::Stop;
use ur_parse_con::MAX_NESTING;
use ur_parse_rules::MAX_LEVELS;

/// The levels of a tree for which there is no stack while an expression around it is read.
const OPEN_LEVELS: usize = 12;

/// The greatest height of an expression in which `depth` more may nest: what is read around it has its part of the stack,
/// which a tree needs when it is let go.
pub fn greatest_height(depth: usize) -> usize
    ensures { result ≡ MAX_LEVELS - OPEN_LEVELS * (MAX_NESTING - 1 - depth) }
{
    let open = (MAX_NESTING - 1).saturating_sub(depth);
    MAX_LEVELS.saturating_sub(OPEN_LEVELS * open)
}

/// Passes where a tree of a height may get one level more, up to the greatest height.
pub fn may_grow(height: usize, greatest: usize) -> Result<(), Stop>
    ensures below { OnOk result (height < greatest) }
    ensures refused { IfRefused result (λ r. ⊥) }
{
    if height < greatest {
        Ok(())
    } else {
        Err(Stop::Memory)
    }
}
