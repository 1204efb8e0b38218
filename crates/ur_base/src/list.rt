//! Lists: the growable array of this project.
ghost use Rattle.std.specs.Prelude.{◌≡◌, ◌<◌, ◌↔◌, [], ◌∷◌, ◌++◌, length, slice_get, slice_set, remove, IsTrue, IfOk, MatchOption, OnOk, OnErr, OnSome, Some};
ghost use Rattle.std.specs.Option.{option_copied};
ghost use Rattle.std.specs.Prelude.{◌^◌};
ghost use Rattle.std.specs.Slice.Iter.{iter_rest};
ghost use Rattle.std.specs.Iterator.Adapters.{IterYieldsInOrder, IterYieldsInReverse};

use crate::Memory;
use std::alloc::Global;
use std::marker::Model;
use std::slice::Iter;

/// A growable list. Contracts see the list of its elements and nothing of its capacity, so that a tree of lists is
/// plain data and equal trees are equal.
#[derive(Debug, Drop)]
pub struct List<T> {
    elements: Vec<T>,
}

impl<T> Model for List<T> {
    ghost use Rattle.std.specs.Prelude.{List};
    ghost use Rattle.std.specs.Coded.{coded_list};

    ghost Value = { List T };

    ghost coded = { coded_list T.code };

    ghost view = { λ list. list.elements.items };
}

impl<'a, T> IntoIterator for &'a List<T> {
    ghost use Rattle.std.specs.Prelude.{◌≡◌, ◌<◌, ◌^◌, length};
    ghost use Rattle.std.specs.Slice.Iter.{iter_rest, iter_steps};
    ghost use Rattle.std.specs.Iterator.Runs.{EveryRun, ItemsMapTo};

    type Item = &'a T;

    type IntoIter = Iter<'a, T>;

    ghost into_iter_gives = { λ list made. (iter_rest made ≡ list.now) × (length (iter_rest made) < 2 ^ 64) × EveryRun (iter_steps {A = T}) (λ p. ItemsMapTo p (λ y. y.now) (iter_rest p.from)) };

    fn into_iter(self) -> Iter<'a, T> {
        self.iter()
    }
}

impl<T> List<T> {
    /// No elements. Takes no memory.
    pub fn new(alloc: Global) -> List<T>
        ensures { result ≡ [] }
    {
        List {
            elements: Vec::new(alloc),
        }
    }

    /// The elements of a `Vec`. Takes no memory.
    pub fn from_vec(elements: Vec<T>) -> List<T>
        ensures { result ≡ elements.items }
    {
        List { elements }
    }

    /// The elements as a `Vec`. Takes no memory.
    pub fn into_vec(self) -> Vec<T>
        ensures { result.items ≡ self }
    {
        let List { elements } = self;
        elements
    }

    pub fn as_slice(&self) -> &[T]
        ensures { result.now ≡ self.now }
    {
        self.elements.as_slice()
    }

    pub fn len(&self) -> usize
        ensures { result ≡ length self.now }
    {
        self.elements.len()
    }

    pub fn is_empty(&self) -> bool
        ensures { IsTrue result ↔ (self.now ≡ []) }
    {
        self.elements.is_empty()
    }

    /// The element at this index, from 0.
    pub fn get(&self, index: usize) -> Option<&T>
        ensures value { option_copied result ≡ slice_get self.now index }
        ensures within { OnSome result (index < length self.now) }
    {
        self.elements.get(index)
    }

    /// The elements by reference, in order.
    pub fn iter(&self) -> Iter<'_, T>
        ensures rest { iter_rest result ≡ self.now }
        ensures bound { length (iter_rest result) < 2 ^ 64 }
        ensures runs { IterYieldsInOrder T }
        ensures runs_back { IterYieldsInReverse T }
    {
        self.elements.iter()
    }

    /// Takes the last element out.
    pub fn pop(&mut self) -> Option<T>
        ensures { MatchOption result ((self.old ≡ []) × (self.new ≡ [])) (λ last. self.old ≡ self.new ++ last ∷ []) }
    {
        self.elements.pop()
    }
}

impl<T: Drop> List<T> {
    /// Adds an element last.
    pub fn push(&mut self, element: T) -> Result<(), Memory>
        ensures ok { OnOk result (self.new ≡ self.old ++ element ∷ []) }
        ensures err { OnErr result (self.new ≡ self.old) }
    {
        self.elements.push(element)?;
        Ok(())
    }

    /// Moves the elements of `more` to the end. Without memory they are dropped.
    pub fn append(&mut self, more: List<T>) -> Result<(), Memory>
        ensures ok { OnOk result (self.new ≡ self.old ++ more) }
        ensures err { OnErr result (self.new ≡ self.old) }
    {
        let List { mut elements } = more;
        self.elements.append(&mut elements)?;
        Ok(())
    }

    /// Replaces the element at this index, from 0.
    pub fn set(&mut self, index: usize, element: T)
        requires { index < length self.old }
        ensures { self.new ≡ slice_set self.old index element }
    {
        self.elements[index] = element;
    }

    /// Takes the element at this index, from 0, out; those after it move up.
    pub fn remove(&mut self, index: usize) -> T
        requires { index < length self.old }
        ensures element { slice_get self.old index ≡ Some result }
        ensures rest { self.new ≡ remove self.old index }
    {
        self.elements.remove(index)
    }
}

impl<T: Copy> List<T> {
    /// A copy of a slice.
    pub fn from_slice(alloc: Global, elements: &[T]) -> Result<List<T>, Memory>
        ensures { IfOk result (λ list. list ≡ elements.now) }
    {
        let elements = Vec::from_slice(alloc, elements)?;
        Ok(List { elements })
    }

    /// Adds copies of the elements of a slice at the end.
    pub fn extend_from_slice(&mut self, more: &[T]) -> Result<(), Memory>
        ensures ok { OnOk result (self.new ≡ self.old ++ more.now) }
        ensures err { OnErr result (self.new ≡ self.old) }
    {
        self.elements.extend_from_slice(more)?;
        Ok(())
    }
}
