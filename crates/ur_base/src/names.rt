//! Names as numbers.
ghost use Rattle.std.specs.Prelude.{◌≡◌, ◌<◌, [], ◌∷◌, ◌++◌, length, IfOk, OnErr, Contains, Some, slice_get, false, OnOk, MatchOption, bytes_eq};
ghost use Rattle.std.specs.List.{list_any};

use crate::Memory;
use indexmap::IndexSet;
use std::alloc::Global;
use std::marker::Model;

/// The number of a name, from 0.
#[derive(Debug, Clone, Copy, PartialEq, Eq, PartialOrd, Ord, Hash)]
pub struct Name(pub u32);

/// Names by number, in the order of their first appearance. Contracts see the list of their texts.
#[derive(Debug, Drop)]
pub struct Names {
    alloc: Global,
    texts: IndexSet<String>,
}

impl Model for Names {
    ghost use Rattle.std.specs.Prelude.{◌≤◌, ◌^◌, List, ℕ, length, map, string_bytes};
    ghost use Rattle.std.specs.Coded.{coded_list, coded_ℕ};

    ghost Value = { List (List ℕ) };

    ghost coded = { coded_list (coded_list coded_ℕ) };

    ghost view = { λ names. map string_bytes names.texts.keys };

    ghost invariant = { λ names. length names.texts.keys ≤ 2 ^ 32 };
}

impl Names {
    /// No names. Takes no memory.
    pub fn new(alloc: Global) -> Names
        ensures { result ≡ [] }
    {
        Names {
            alloc,
            texts: IndexSet::new(alloc),
        }
    }

    /// The text's number, which is the number of texts before it where it is new.
    #[tactic(auto, using(crate::proofs::Texts::absent_text))]
    pub fn number(&mut self, text: &str) -> Result<Name, Memory>
        ensures number { IfOk result (λ name. slice_get self.new name.0 ≡ Some text.now) }
        ensures known { IfOk result (λ name. Contains self.old text.now → self.new ≡ self.old) }
        ensures added { IfOk result (λ name. (Contains self.old text.now → ⊥) → self.new ≡ self.old ++ text.now ∷ []) }
        ensures err { OnErr result (self.new ≡ self.old) }
    {
        match self.find(text) {
            Some(name) => Ok(name),
            None => self.add(text),
        }
    }

    /// The number of a text that is there.
    fn find(&self, text: &str) -> Option<Name>
        ensures { MatchOption result (list_any (bytes_eq text.now) self.now ≡ false) (λ name. slice_get self.now name.0 ≡ Some text.now) }
    {
        match self.texts.get_index_of(text) {
            Some(index) => Some(Name(index as u32)),
            None => None,
        }
    }

    /// Adds a text that is new.
    fn add(&mut self, text: &str) -> Result<Name, Memory>
        requires new { list_any (bytes_eq text.now) self.old ≡ false }
        ensures number { IfOk result (λ name. name.0 ≡ length self.old) }
        ensures ok { OnOk result (self.new ≡ self.old ++ text.now ∷ []) }
        ensures err { OnErr result (self.new ≡ self.old) }
    {
        let number = self.texts.len();
        if number > u32::MAX as usize {
            return Err(Memory);
        }
        let owned = String::from_str(self.alloc, text)?;
        self.texts.insert(owned)?;
        Ok(Name(number as u32))
    }

    /// The text of a name that was given before.
    pub fn text(&self, name: Name) -> &str
        requires { name.0 < length self.now }
        ensures { slice_get self.now name.0 ≡ Some result.now }
    {
        match self.texts.get_index(name.0 as usize) {
            Some(text) => text.as_str(),
            None => unreachable!(),
        }
    }
}
