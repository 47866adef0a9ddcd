ghost use Rattle.std.specs.Prelude.{◌≡◌, ◌++◌, [], ◌∷◌, ◌<◌, ◌↔◌, IsTrue, length, slice_get, slice_set, OnOk, OnErr, OnSome, IfOk, MatchOption};
ghost use Rattle.std.specs.Option.{option_copied};

use crate::memory::NoMemory;
use std::alloc::Global;
use std::marker::Model;
use std::ops::DerefSlice;

/// A `Vec` that contracts see as the list of its elements, so that two of the same elements are equal. A type may
/// hold itself through it.
#[derive(Debug)]
pub struct Items<T> {
    elements: Vec<T>,
}

// A `drop` is written out, so that it is proved once, here: a derived one is proved again by each crate that lets a value go.
impl<T: Drop> Drop for Items<T> {
    fn drop(self) {
        let Items { elements: _ } = self;
    }
}

impl<T> Model for Items<T> {
    ghost use Rattle.std.specs.Prelude.{List};
    ghost use Rattle.std.specs.Coded.{coded_list};

    ghost Value = { List T };

    ghost coded = { coded_list T.code };

    ghost view = { λ list. list.elements.items };
}

impl<T> Items<T> {
    /// The empty list. It takes no memory.
    pub fn new(alloc: Global) -> Items<T>
        ensures { result ≡ [] }
    {
        Items {
            elements: Vec::new(alloc),
        }
    }

    /// The list of a vector's elements. It takes no memory.
    pub fn from_vec(elements: Vec<T>) -> Items<T>
        ensures { result ≡ elements.items }
    {
        Items { elements }
    }

    /// The vector of the elements. It takes no memory.
    pub fn into_vec(self) -> Vec<T>
        ensures { result.items ≡ self }
    {
        let Items { elements } = self;
        elements
    }

    pub fn len(&self) -> usize
        ensures { result ≡ length self.now }
    {
        self.elements.len()
    }

    pub fn is_empty(&self) -> bool
        ensures { IsTrue result ↔ (self.now ≡ []) }
    {
        self.elements.is_empty()
    }

    pub fn as_slice(&self) -> &[T]
        ensures { result.now ≡ self.now }
    {
        self.elements.as_slice()
    }

    /// The element at that place, counted from 0, and `None` past the last.
    pub fn get(&self, place: usize) -> Option<&T>
        ensures value { option_copied result ≡ slice_get self.now place }
        ensures within { OnSome result (place < length self.now) }
    {
        self.elements.get(place)
    }

    /// Takes the last element off, and answers `None` where there is none.
    pub fn pop(&mut self) -> Option<T>
        ensures { MatchOption result ((self.old ≡ []) × (self.new ≡ [])) (λ last. self.old ≡ self.new ++ last ∷ []) }
    {
        self.elements.pop()
    }
}

impl<T: Drop> Items<T> {
    /// Appends one element. Unchanged after `NoMemory`.
    pub fn push(&mut self, element: T) -> Result<(), NoMemory>
        ensures ok { OnOk result (self.new ≡ self.old ++ element ∷ []) }
        ensures err { OnErr result (self.new ≡ self.old) }
    {
        self.elements.push(element)?;
        Ok(())
    }

    /// Puts an element in the place of the one that stands there.
    pub fn set(&mut self, place: usize, element: T)
        requires { place < length self.old }
        ensures { self.new ≡ slice_set self.old place element }
    {
        self.elements[place] = element;
    }
}

impl<T: Copy> Items<T> {
    /// A copy of a slice.
    pub fn copy_of(alloc: Global, elements: &[T]) -> Result<Items<T>, NoMemory>
        ensures { IfOk result (λ copy. copy ≡ elements.now) }
    {
        let elements = Vec::from_slice(alloc, elements)?;
        Ok(Items { elements })
    }

    /// Appends a slice. Unchanged after `NoMemory`.
    pub fn append(&mut self, elements: &[T]) -> Result<(), NoMemory>
        ensures ok { OnOk result (self.new ≡ self.old ++ elements.now) }
        ensures err { OnErr result (self.new ≡ self.old) }
    {
        self.elements.extend_from_slice(elements)?;
        Ok(())
    }
}

impl<T> DerefSlice for Items<T> {
    type Elem = T;

    ghost deref_gives = { λ list elements. elements ≡ list };

    fn deref(&self) -> &[T] {
        self.elements.as_slice()
    }
}

/// A list of bytes that owns them.
pub type Bytes = Items<u8>;
