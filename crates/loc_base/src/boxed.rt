ghost use Rattle.std.specs.Prelude.{◌≡◌, IfOk};

use crate::memory::NoMemory;
use std::alloc::Global;
use std::marker::Model;
use std::ops::Deref;

/// A `Box` that contracts see as its value. A type may hold itself through it.
#[derive(Debug)]
pub struct Boxed<T> {
    place: Box<T>,
}

// A `drop` is written out, so that it is proved once, here: a derived one is proved again by each crate that lets a value go.
impl<T: Drop> Drop for Boxed<T> {
    fn drop(self) {
        let Boxed { place: _ } = self;
    }
}

impl<T> Model for Boxed<T> {
    ghost Value = { T };

    ghost coded = { T.code };

    ghost view = { λ b. b.place.value };
}

impl<T: Drop> Boxed<T> {
    /// The value in a place of its own.
    pub fn new(alloc: Global, value: T) -> Result<Boxed<T>, NoMemory>
        ensures { IfOk result (λ boxed. boxed ≡ value) }
    {
        let place = Box::new(alloc, value)?;
        Ok(Boxed { place })
    }
}

impl<T> Boxed<T> {
    pub fn get(&self) -> &T
        ensures { result.now ≡ self.now }
    {
        &self.place
    }

    /// The value, its place given back.
    pub fn into_inner(self) -> T
        ensures { result ≡ self }
    {
        let Boxed { place } = self;
        Box::into_inner(place)
    }
}

impl<T> Deref for Boxed<T> {
    type Target = T;

    ghost deref_gives = { λ boxed value. value ≡ boxed };

    fn deref(&self) -> &T {
        &self.place
    }
}
