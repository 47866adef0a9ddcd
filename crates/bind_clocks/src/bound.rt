//! What is bound so far: the lists of the design, and what the rules want to know beside them.
ghost use Rattle.std.specs.Prelude.{◌≡◌, [], ◌∷◌, ◌++◌, IfOk, OnOk};
ghost use Rattle.v_binding.specs.Binding.{nothing_bound};
ghost use Rattle.v_binding.specs.Bound.{with_places, with_driver, with_clocked, with_words, with_declared, with_initial, with_root, with_misclocked, with_clock_read};
ghost use Rattle.v_binding.specs.Clocks.{root_of, root_named, signal_of};
ghost use Rattle.v_binding.specs.Seen.{names_in};
ghost use Rattle.bind_clocks.specs.Lists.{AreLists};

use crate::looked::Looked;
use crate::roots::Roots;
use design_core::{Clocked, Driver, Place};
use loc_base::{Items, Name, NoMemory, Span};
use std::alloc::Global;
use std::marker::Model;
use std::mem;
use v_binding::{Initial, Names, Root, StartValue, Use};
use v_sizes::Meaning;

/// What is bound so far. Contracts see it as the record of the definitions.
pub struct Bound {
    places: Items<Place>,
    drivers: Items<Driver>,
    clocked: Items<Clocked>,
    words: u32,
    declared: Items<StartValue>,
    initial: Items<Initial>,
    pub(crate) roots: Roots,
    misclocked: Option<Span>,
    clock_read: Option<Span>,
    pub(crate) looked: Looked,
    pub(crate) alloc: Global,
}

impl Model for Bound {
    ghost use Rattle.v_binding.specs.Bound.{Bound as Plain};
    ghost use Rattle.std.specs.Coded.{codes};
    ghost use Rattle.design_core.specs.contracts.expression.Node as node;
    ghost use Rattle.design_core.specs.contracts.statement.Stmt as stmt;

    ghost Value = { Plain };

    ghost coded = { Prim.hlevel (codes, node.the_row.coded, stmt.the_row.coded) };

    ghost use Rattle.bind_clocks.specs.Fields.{bound_of};
    ghost use Rattle.bind_clocks.specs.Looks.{AreZero};

    ghost view = { bound_of };

    ghost invariant = { λ b. AreZero b.looked.none.items };
}

// A `drop` is written out, so that it is proved once, here: a derived one is proved again by each crate that lets a value go.
impl Drop for Bound {
    fn drop(self) {
        let Bound {
            places: _,
            drivers: _,
            clocked: _,
            words: _,
            declared: _,
            initial: _,
            roots: _,
            misclocked: _,
            clock_read: _,
            looked: _,
            alloc: _,
        } = self;
    }
}

/// The lists of what is bound, and what breaks the rule of the clock: the first block that waits for another edge than the clock's, or
/// has a reset of another form, and the first driver or block that reads the clock.
#[derive(Drop)]
pub struct BoundLists {
    pub places: Items<Place>,
    pub drivers: Items<Driver>,
    pub clocked: Items<Clocked>,
    pub declared: Items<StartValue>,
    pub initial: Items<Initial>,
    pub misclocked: Option<Span>,
    pub clock_read: Option<Span>,
}

/// The signal of a name.
fn signal_of(own: Option<Use>) -> Option<u32>
    ensures { result ≡ signal_of own }
{
    match own {
        Some(Use::Stands(Meaning::Signal { signal, .. })) => Some(signal),
        _ => None,
    }
}

impl Bound {
    /// Nothing is bound. What it keeps by the numbers of signals is for so many, and grows where that is too few.
    pub fn new(alloc: Global, signals: usize) -> Result<Bound, NoMemory>
        ensures { IfOk result (λ b. b ≡ nothing_bound []) }
    {
        Ok(Bound {
            places: Items::new(alloc),
            drivers: Items::new(alloc),
            clocked: Items::new(alloc),
            words: 0,
            declared: Items::new(alloc),
            initial: Items::new(alloc),
            roots: Roots::new(signals, alloc)?,
            misclocked: None,
            clock_read: None,
            looked: Looked::new(signals, alloc)?,
            alloc,
        })
    }

    pub fn places(&self) -> &[Place]
        ensures { result.now ≡ self.now.places }
    {
        self.places.as_slice()
    }

    pub fn drivers(&self) -> &[Driver]
        ensures { result.now ≡ self.now.drivers }
    {
        self.drivers.as_slice()
    }

    pub fn clocked(&self) -> &[Clocked]
        ensures { result.now ≡ self.now.clocked }
    {
        self.clocked.as_slice()
    }

    /// The start values of declarations.
    pub fn declared(&self) -> &[StartValue]
        ensures { result.now ≡ self.now.declared }
    {
        self.declared.as_slice()
    }

    /// The start values of initial blocks.
    pub fn initial(&self) -> &[Initial]
        ensures { result.now ≡ self.now.initial }
    {
        self.initial.as_slice()
    }

    /// The words of all arrays.
    pub fn words(&self) -> u32
        ensures { result ≡ self.now.words }
    {
        self.words
    }

    /// The inputs of the top with the input ports that plain names connect to them.
    pub fn roots(&self) -> &[Root]
        ensures { result.now ≡ self.now.roots }
    {
        self.roots.list()
    }

    /// The input of the top that a signal is, or is connected to by plain names.
    pub fn root_of(&self, signal: u32) -> Option<u32>
        ensures { result ≡ root_of self.now.roots signal }
    {
        self.roots.input_of(signal)
    }

    /// The input of the top that a name stands for, or whose signal is connected to it by plain names.
    pub fn root_named(&self, names: &Names<'_>, text: &Name) -> Option<u32>
        ensures { result ≡ root_named self.now.roots (names_in names.now) text.now }
    {
        match signal_of(names.find(text)) {
            Some(signal) => self.root_of(signal),
            None => None,
        }
    }

    /// Takes the places out, for what adds to them.
    pub fn take_places(&mut self) -> Items<Place>
        ensures places { result ≡ self.old.places }
        ensures rest { self.new ≡ with_places [] self.old }
    {
        mem::replace(&mut self.places, Items::new(self.alloc))
    }

    /// Puts places in.
    pub fn put_places(&mut self, places: Items<Place>)
        ensures { self.new ≡ with_places places self.old }
    {
        self.places = places;
    }

    pub fn set_words(&mut self, words: u32)
        ensures { self.new ≡ with_words words self.old }
    {
        self.words = words;
    }

    pub fn add_place(&mut self, place: Place) -> Result<(), NoMemory>
        ensures { OnOk result (self.new ≡ with_places (self.old.places ++ place ∷ []) self.old) }
    {
        self.places.push(place)
    }

    pub fn add_driver(&mut self, driver: Driver) -> Result<(), NoMemory>
        ensures { OnOk result (self.new ≡ with_driver driver self.old) }
    {
        self.drivers.push(driver)
    }

    pub fn add_clocked(&mut self, block: Clocked) -> Result<(), NoMemory>
        ensures { OnOk result (self.new ≡ with_clocked block self.old) }
    {
        self.clocked.push(block)
    }

    /// Adds the start value of a declaration.
    pub fn add_declared(&mut self, start: StartValue) -> Result<(), NoMemory>
        ensures { OnOk result (self.new ≡ with_declared start self.old) }
    {
        self.declared.push(start)
    }

    /// Adds the start value of an initial block.
    pub fn add_initial(&mut self, start: Initial) -> Result<(), NoMemory>
        ensures { OnOk result (self.new ≡ with_initial start self.old) }
    {
        self.initial.push(start)
    }

    pub fn add_root(&mut self, root: Root) -> Result<(), NoMemory>
        ensures { OnOk result (self.new ≡ with_root root self.old) }
    {
        self.roots.push(root)
    }

    /// Notes a block that breaks the rule of the clock, where it does, and none did before.
    pub fn note_misclocked(&mut self, breaks: bool, span: Span)
        ensures { self.new ≡ with_misclocked breaks span self.old }
    {
        if breaks && self.misclocked.is_none() {
            self.misclocked = Some(span);
        }
    }

    /// Notes a driver or block that reads the clock, where it does, and none did before.
    pub fn note_clock_read(&mut self, reads: bool, span: Span)
        ensures { self.new ≡ with_clock_read reads span self.old }
    {
        if reads && self.clock_read.is_none() {
            self.clock_read = Some(span);
        }
    }

    /// The lists, and what breaks the rule of the clock.
    pub fn into_lists(self) -> BoundLists
        ensures { AreLists self result }
    {
        let Bound {
            places,
            drivers,
            clocked,
            words: _,
            declared,
            initial,
            roots: _,
            misclocked,
            clock_read,
            looked: _,
            alloc: _,
        } = self;
        BoundLists {
            places,
            drivers,
            clocked,
            declared,
            initial,
            misclocked,
            clock_read,
        }
    }
}
