//! The patterns of code.
ghost use Rattle.std.specs.Prelude.{◌≡◌, ◌<◌, ◌↔◌, [], IsTrue, IfOk, All, Some, map, length, slice_get, slice_index_or};
ghost use Rattle.ur_values.specs.Atom.{IsAtomic};
ghost use Rattle.ur_cacheindex.specs.Matching.{read_mask};
ghost use Rattle.ur_conditions.specs.Masks.{PatternReads, update_masks};

use crate::masking::update_masks;
use std::alloc::Global;
use ur_base::{List, Memory};
use ur_cacheindex::Mask;
use ur_sql::Pattern;
use ur_values::Value;

/// For each update, in order, the patterns of each site, in order.
#[derive(Drop)]
pub struct Patterns {
    pub updates: List<List<List<Pattern>>>,
}

impl Patterns {
    /// Whether there is an update of this number. Takes no memory.
    pub fn has(&self, update: u32) -> bool
        ensures { IsTrue result ↔ (update < length self.now.updates) }
    {
        (update as usize) < self.updates.len()
    }

    /// The patterns of an update and a site. Takes no memory.
    pub fn list(&self, update: u32, site: u32) -> &List<Pattern>
        requires update { update < length self.now.updates }
        requires site { site < length (slice_index_or self.now.updates update []) }
        ensures { slice_get (slice_index_or self.now.updates update []) site ≡ Some result.now }
    {
        let sites = &self.updates.as_slice()[update as usize];
        &sites.as_slice()[site as usize]
    }

    /// The masks of an update that is run on these arguments: those of its patterns whose guards hold, in order, each
    /// argument replaced by its value. Patterns of typed statements read no further than the arguments of the update.
    pub fn masks(&self, alloc: Global, update: u32, args: &[Value]) -> Result<List<Mask>, Memory>
        requires update { update < length self.now.updates }
        requires kinds { All IsAtomic args.now }
        requires reads { All (All (PatternReads (length args.now))) (slice_index_or self.now.updates update []) }
        ensures { IfOk result (λ masks. map read_mask masks ≡ update_masks args.now (slice_index_or self.now.updates update [])) }
    {
        update_masks(alloc, args, &self.updates.as_slice()[update as usize])
    }
}
