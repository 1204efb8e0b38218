//! The list of nodes, each once.
ghost use Rattle.std.specs.Prelude.{◌≡◌, ◌≤◌, ◌∷◌, [], ◌++◌, length, Some, slice_get, IfOk, OnOk, OnErr, MatchOption};
ghost use Rattle.ur_unfold_static.specs.Lists.{IsAbsent, most_entries};

use crate::entries::ENTRIES;
use crate::node::Node;
use indexmap::IndexSet;
use ur_base::Memory;

/// The number of a node.
pub fn number_of(nodes: &IndexSet<Node>, node: &Node) -> Option<u32>
    requires few { length nodes.now.keys ≤ most_entries }
    ensures { MatchOption result (IsAbsent nodes.now.keys node.now) (λ j. slice_get nodes.now.keys j ≡ Some node.now) }
{
    match nodes.get_index_of(node) {
        Some(place) => Some(place as u32),
        None => None,
    }
}

/// Puts a node that is new at the end, and gives its number. There is no memory for more than there may be.
pub fn push_node(nodes: &mut IndexSet<Node>, node: Node) -> Result<u32, Memory>
    requires new { IsAbsent nodes.old.keys node }
    ensures number { IfOk result (λ j. j ≡ length nodes.old.keys) }
    ensures few { length nodes.old.keys ≤ most_entries → length nodes.new.keys ≤ most_entries }
    ensures ok { OnOk result (nodes.new.keys ≡ nodes.old.keys ++ node ∷ []) }
    ensures err { OnErr result (nodes.new.keys ≡ nodes.old.keys) }
{
    let count = nodes.len();
    if count >= ENTRIES {
        return Err(Memory);
    }
    nodes.insert(node)?;
    Ok(count as u32)
}
