//! The heads of lists, by site, slot and atom.
ghost use Rattle.std.specs.Prelude.{◌≡◌, IfOk, OnOk, OnErr, [], IsSome};
ghost use Rattle.std.specs.BTreeMap.{get};
ghost use Rattle.ur_values.specs.AtomLaws.{atom_cmp};
ghost use Rattle.ur_cacheindex.specs.Lists.{kept_at, head_at, head_of, empty_head, KeepsHead, KeepsAmong, SameKept, SameHeads, SameAmong, StaysAmong, TidiesHead, TidiesAmong};

use std::alloc::Global;
use std::collections::BTreeMap;
use ur_base::{List, Memory};
use ur_values::Atom;

/// The first number of a list, and its length.
#[derive(Clone, Copy)]
pub(crate) struct Head {
    pub first: Option<usize>,
    pub len: usize,
}

/// The heads of the lists that are not empty; a list without a head is empty.
#[derive(Drop)]
pub(crate) struct Heads {
    alloc: Global,
    places: BTreeMap<(u32, usize), BTreeMap<Atom, Head>>,
}

impl Heads {
    /// No lists. Takes no memory.
    pub fn new(alloc: Global) -> Heads
        ensures { result.places.entries ≡ [] }
    {
        Heads {
            alloc,
            places: BTreeMap::new(alloc),
        }
    }

    pub fn alloc(&self) -> Global {
        self.alloc
    }

    /// The head of a list. Takes no memory.
    pub fn at(&self, site: u32, slot: usize, atom: &Atom) -> Head
        ensures { result ≡ head_at self.now site slot atom.now }
    {
        match self.places.get(&(site, slot)) {
            None => no_head(),
            Some(atoms) => at_among(atoms, atom),
        }
    }

    /// Keeps a head for a list, which stays as it is.
    pub fn keep(&mut self, site: u32, slot: usize, atom: &Atom) -> Result<(), Memory>
        ensures ok { OnOk result (KeepsHead site slot atom.now (head_at self.old site slot atom.now) self.old self.new) }
        ensures err { OnErr result (SameKept self.old self.new) }
    {
        let alloc = self.alloc;
        match self.places.get_mut(&(site, slot)) {
            Some(atoms) => keep_among(alloc, atoms, atom),
            None => {
                let mut atoms = BTreeMap::new(alloc);
                keep_among(alloc, &mut atoms, atom)?;
                self.places.insert((site, slot), atoms)?;
                Ok(())
            }
        }
    }

    /// Writes a head that is kept. Takes no memory.
    pub fn set(&mut self, site: u32, slot: usize, atom: &Atom, head: Head)
        requires { IsSome (kept_at self.old site slot atom.now) }
        ensures { KeepsHead site slot atom.now head self.old self.new }
    {
        match self.places.get_mut(&(site, slot)) {
            None => {}
            Some(atoms) => set_among(atoms, atom, head),
        }
    }

    /// Lets the head of an empty list go. Takes no memory.
    pub fn tidy(&mut self, site: u32, slot: usize, atom: &Atom)
        ensures same { SameHeads self.old self.new }
        ensures gone { TidiesHead site slot atom.now self.old self.new }
    {
        match self.places.get_mut(&(site, slot)) {
            None => {}
            Some(atoms) => {
                tidy_among(atoms, atom);
                if atoms.is_empty() {
                    self.places.remove(&(site, slot));
                }
            }
        }
    }
}

fn no_head() -> Head
    ensures { result ≡ empty_head }
{
    Head {
        first: None,
        len: 0,
    }
}

fn at_among(atoms: &BTreeMap<Atom, Head>, atom: &Atom) -> Head
    ensures { result ≡ head_of (get atom_cmp atoms.now atom.now) }
{
    match atoms.get(atom) {
        None => no_head(),
        Some(head) => *head,
    }
}

fn keep_among(alloc: Global, atoms: &mut BTreeMap<Atom, Head>, atom: &Atom) -> Result<(), Memory>
    ensures ok { OnOk result (KeepsAmong atom.now (head_of (get atom_cmp atoms.old atom.now)) atoms.old atoms.new) }
    ensures err { OnErr result (StaysAmong atoms.old atoms.new) }
{
    match atoms.get(atom) {
        Some(_) => Ok(()),
        None => {
            let copy = copy_atom(alloc, atom)?;
            atoms.insert(copy, no_head())?;
            Ok(())
        }
    }
}

fn set_among(atoms: &mut BTreeMap<Atom, Head>, atom: &Atom, head: Head)
    requires { IsSome (get atom_cmp atoms.old atom.now) }
    ensures { KeepsAmong atom.now head atoms.old atoms.new }
{
    match atoms.get_mut(atom) {
        None => {}
        Some(kept) => *kept = head,
    }
}

fn tidy_among(atoms: &mut BTreeMap<Atom, Head>, atom: &Atom)
    ensures same { SameAmong atoms.old atoms.new }
    ensures gone { TidiesAmong atom.now atoms.old atoms.new }
{
    let head = at_among(atoms, atom);
    match head.first {
        Some(_) => {}
        None => {
            if head.len == 0 {
                atoms.remove(atom);
            }
        }
    }
}

fn copy_atom(alloc: Global, atom: &Atom) -> Result<Atom, Memory>
    ensures { IfOk result (λ copy. copy ≡ atom.now) }
{
    match atom {
        Atom::Int(n) => Ok(Atom::Int(*n)),
        Atom::Bool(b) => Ok(Atom::Bool(*b)),
        Atom::Str(text) => Ok(Atom::Str(List::from_slice(alloc, text.as_slice())?)),
        Atom::Null => Ok(Atom::Null),
        Atom::SomeInt(n) => Ok(Atom::SomeInt(*n)),
        Atom::SomeBool(b) => Ok(Atom::SomeBool(*b)),
        Atom::SomeStr(text) => Ok(Atom::SomeStr(List::from_slice(alloc, text.as_slice())?)),
    }
}
