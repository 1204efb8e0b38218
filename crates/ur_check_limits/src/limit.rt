//! What is limited.
ghost use Rattle.std.specs.Prelude.{◌≡◌, IfOk};
ghost use Rattle.ur_base.specs.Stopping.{Says};
ghost use Rattle.ur_check_limits.specs.Limits as limits;

use std::alloc::Global;
use ur_base::{List, Memory, Refusal, Span};

/// What a project's store and code may not have too much of.
#[derive(Clone, Copy, Debug, PartialEq, Eq)]
pub enum Limit {
    Tables,
    Columns,
    Sequences,
    Routes,
    Sites,
    Updates,
    Items,
    Antiquotes,
    Parameters,
    Nodes,
}

impl Limit {
    /// The words that name the limit.
    pub fn name(self) -> &'static [u8]
        ensures { result.now ≡ limits.name_of self }
    {
        match self {
            Limit::Tables => b"tables",
            Limit::Columns => b"columns per table",
            Limit::Sequences => b"sequences",
            Limit::Routes => b"routes",
            Limit::Sites => b"sites",
            Limit::Updates => b"updates",
            Limit::Items => b"items of FROM",
            Limit::Antiquotes => b"antiquotes per statement",
            Limit::Parameters => b"parameters per function",
            Limit::Nodes => b"sql nodes",
        }
    }

    /// The most that there may be, in digits.
    pub fn text(self) -> &'static [u8]
        ensures { result.now ≡ limits.text_of self }
    {
        match self {
            Limit::Tables => b"256",
            Limit::Columns => b"64",
            Limit::Sequences => b"256",
            Limit::Routes => b"1024",
            Limit::Sites => b"256",
            Limit::Updates => b"256",
            Limit::Items => b"3",
            Limit::Antiquotes => b"16",
            Limit::Parameters => b"16",
            Limit::Nodes => b"16384",
        }
    }

    /// The refusal of a project that has more. It stands at no place of the source.
    pub fn refusal(self, alloc: Global) -> Result<Refusal, Memory>
        ensures says { IfOk result (λ r. Says r 20 (limits.name_of self) (limits.text_of self)) }
    {
        let left = List::from_slice(alloc, self.name())?;
        let right = List::from_slice(alloc, self.text())?;
        Ok(Refusal {
            code: 20,
            span: Span {
                file: 0,
                from: 0,
                to: 0,
            },
            left,
            right,
        })
    }
}
