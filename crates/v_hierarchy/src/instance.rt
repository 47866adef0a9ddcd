//! The instances of a design, as they borrow the tree of its text.
ghost use Rattle.std.specs.Prelude.{◌≡◌, IfOk};
ghost use Rattle.v_hierarchy.specs.Views.{child_of};

use crate::signal::Signal;
use crate::standing::Entry;
use crate::steps::Steps;
use loc_base::{Items, Name, NoMemory};
use std::alloc::Global;
use v_sizes::Const;
use v_syntax::{Connections, Expr, Identifier, Item, Module, Sensitivity, Site};

/// A value that an instance gives to a parameter.
#[derive(Clone, Copy)]
pub struct Given<'t> {
    pub name: &'t Name,
    pub value: Const,
}

/// A port of an instance, with the start value that its header gives it.
#[derive(Clone, Copy)]
pub struct Port<'t> {
    pub name: &'t Identifier,
    pub signal: Signal,
    pub start: Option<&'t Expr>,
}

/// A module instance: its module with the values that it gives, its path, and what it is connected to.
pub struct Child<'t> {
    pub module: &'t Module,
    pub values: Items<Given<'t>>,
    pub path: Name,
    /// Nothing for the top.
    pub connections: Option<&'t Connections>,
}

/// What an item makes.
#[cycle(scope)]
#[derive(Drop)]
pub enum Copied<'t> {
    /// An item as it is written.
    Written(&'t Item),
    /// An always block with its loops unrolled.
    Always {
        site: Site,
        sensitivity: &'t Sensitivity,
        body: Steps<'t>,
    },
    /// A module instance, with the site of its item.
    Child {
        site: Site,
        child: Child<'t>,
    },
    Inner(Block<'t>),
    /// A turn of a generate loop, with its variable's value.
    Turn {
        variable: &'t Identifier,
        value: Const,
        block: Block<'t>,
    },
}

/// A scope: its path, its names in the order of their declarations, and what its items make.
#[cycle(scope)]
#[derive(Drop)]
pub struct Block<'t> {
    pub path: Name,
    pub names: Items<Entry<'t>>,
    pub copies: Items<Copied<'t>>,
}

/// An instance of a module.
pub struct Instance<'t> {
    pub path: Name,
    pub module: &'t Module,
    /// The number of the instance that it stands in; nothing for the top.
    pub parent: Option<usize>,
    /// Nothing for the top.
    pub connections: Option<&'t Connections>,
    /// In the order of the header.
    pub ports: Items<Port<'t>>,
    pub body: Block<'t>,
}

/// The instances of a design: the top, then the children that each makes, depth first, in the order of their items.
pub struct Instances<'t> {
    pub list: Items<Instance<'t>>,
}

// A `drop` is written out where that can be, so that it is proved once, here: a derived one is proved again by each crate that lets
// a value go.
impl<'t> Drop for Child<'t> {
    fn drop(self) {
        let Child {
            module: _,
            values: _,
            path: _,
            connections: _,
        } = self;
    }
}

impl<'t> Drop for Instance<'t> {
    fn drop(self) {
        let Instance {
            path: _,
            module: _,
            parent: _,
            connections: _,
            ports: _,
            body: _,
        } = self;
    }
}

impl<'t> Drop for Instances<'t> {
    fn drop(self) {
        let Instances { list: _ } = self;
    }
}

impl<'t> Child<'t> {
    /// A copy.
    pub fn copied(&self, alloc: Global) -> Result<Child<'t>, NoMemory>
        ensures { IfOk result (λ copy. child_of copy ≡ child_of self.now) }
    {
        let values = Items::copy_of(alloc, self.values.as_slice())?;
        let path = self.path.copied(alloc)?;
        Ok(Child {
            module: self.module,
            values,
            path,
            connections: self.connections,
        })
    }
}
