//! The names of scopes (IEEE 1364-2005, 12.7).
use crate::numbered::Numbered;
use loc_base::Items;
use v_binding::Known;

/// A scope: its names with what they stand for, and the scopes that stand in it, both in the order of the text.
#[cycle(scope)]
#[derive(Drop)]
pub struct Scope<'t> {
    pub names: Items<Known<'t>>,
    pub inside: Items<Scope<'t>>,
}

/// The scope of each instance, in the order of the instances, and all signals of the design.
pub struct Whole<'t> {
    pub scopes: Items<Scope<'t>>,
    pub signals: Items<Numbered>,
}

// A `drop` is written out, so that it is proved once, here.
impl<'t> Drop for Whole<'t> {
    fn drop(self) {
        let Whole {
            scopes: _,
            signals: _,
        } = self;
    }
}
