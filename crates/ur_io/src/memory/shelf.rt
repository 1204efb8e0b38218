//! Files in memory.
ghost use Rattle.std.specs.Prelude.{◌≡◌, ◌↔◌, ℕ, Option, Some, IfOk, OnOk, IsErrOf};
ghost use Rattle.std.specs.Option.{option_copied};
ghost use Rattle.ur_base.specs.Counts.{HasCause};
ghost use Rattle.ur_base.specs.Told.{WhereTold};
ghost use Rattle.ur_io.specs.Files.{fetched, IsWithin};
ghost use Rattle.ur_base.specs.FaultPlans.{new_plan, Fails, after_ok, after_failed};
ghost use Rattle.ur_io.specs.Memory.{file_of};

use crate::{FetchEnd, Fetched, Shelf};
use std::alloc::Global;
use std::marker::Model;
use ur_base::{Bytes, FaultPlan, List, Text};

/// Files in memory.
#[derive(Debug, Drop)]
pub struct MemoryShelf {
    alloc: Global,
    files: List<(Text, Bytes)>,
    plan: FaultPlan,
}

impl Model for MemoryShelf {
    ghost use Rattle.ur_io.specs.Memory.{ShelfState};

    ghost Value = { ShelfState };

    ghost view = { λ s. record { files = s.files; plan = s.plan } };
}

impl MemoryShelf {
    /// These files, of which the first of a name counts. Takes no memory.
    pub fn new(alloc: Global, files: List<(Text, Bytes)>, fail: List<u64>) -> MemoryShelf
        ensures { result ≡ record { files = files; plan = new_plan fail } }
    {
        MemoryShelf {
            alloc,
            files,
            plan: FaultPlan::new(fail),
        }
    }
}

impl Shelf for MemoryShelf {
    ghost told = { λ s. Some (file_of s.files) };

    ghost faults = { λ s. s.plan.faults };

    /// Fails exactly at the calls that are to fail. The bytes are copied.
    fn fetch(&mut self, name: &str, most: usize) -> Result<Fetched, FetchEnd>
        ensures contents { IfOk result (λ r. r ≡ fetched most (file_of self.old.files name.now)) }
        ensures within { IfOk result (IsWithin most) }
        ensures ok { OnOk result (self.new ≡ record self.old { plan = after_ok self.old.plan }) }
        ensures failed { IsErrOf result FetchEnd.Failed ↔ Fails self.old.plan }
        ensures memory { IsErrOf result FetchEnd.Memory → self.new ≡ record self.old { plan = after_ok self.old.plan } }
        ensures fault { IsErrOf result FetchEnd.Failed → self.new ≡ record self.old { plan = after_failed self.old.plan } }
        ensures kept { self.new.files ≡ self.old.files }
        ensures cause { HasCause FetchEnd.Failed self.old.plan.faults self.new.plan.faults result }
    {
        if self.plan.fails() {
            self.plan.fail();
            return Err(FetchEnd::Failed);
        }
        self.plan.pass();
        let Some(bytes) = file(self.files.as_slice(), name.as_bytes()) else {
            return Ok(Fetched::Missing);
        };
        if bytes.len() > most {
            return Ok(Fetched::Longer);
        }
        Ok(Fetched::Whole(List::from_slice(self.alloc, bytes)?))
    }
}

/// The bytes of the first file of the name.
fn file<'a>(files: &'a [(Text, Bytes)], name: &[u8]) -> Option<&'a [u8]>
    ensures { option_copied result ≡ file_of files.now name.now }
{
    for file in files {
        if file.0.as_slice() == name {
            return Some(file.1.as_slice());
        }
    }
    None
}
