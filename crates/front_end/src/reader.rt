//! A front end: what reads the texts of designs, in one language.
ghost use Rattle.std.specs.Prelude.{◌≡◌, ℕ, List, IfOk, IfErr};
ghost use Rattle.design_core.specs.declared.design.Design.{Design as SomeDesign};
ghost use Rattle.refusal.specs.declared.code.Code.{Code as SomeCode};
ghost use Rattle.front_end.specs.By.{By, by_of};
ghost use Rattle.front_end.specs.Means.{IsReady, IsRead, Refuses};

use crate::read_by::ReadBy;
use design_core::Design;
use design_core::types::Order;
use refusal::Refusal;
use std::alloc::Global;

/// A design with the order of its drivers.
pub struct Ordered {
    pub design: Design,
    pub order: Order,
}

// A `drop` is written out, so that it is proved once, here: a derived one is proved again by each crate that lets a value go.
impl Drop for Ordered {
    fn drop(self) {
        let Ordered {
            design: _,
            order: _,
        } = self;
    }
}

/// What reads the texts of designs, in one language.
///
/// Its meaning: `means` says which design a text means, by what it is read by; `refuses` says why it means none, by the code.
pub trait FrontEnd {
    ghost means: { List ℕ → By → SomeDesign → Type 0 };

    ghost refuses: { List ℕ → By → SomeCode → Type 0 };

    /// The design that a text means, with the order of its drivers.
    fn read(&self, alloc: Global, text: &[u8], by: &ReadBy<'_>) -> Result<Ordered, Refusal>
        ensures means { IfOk result (λ o. means text.now (by_of by.now) o.design) }
        ensures ready { IfOk result (λ o. IsReady o.design o.order) }
        ensures refused { IfErr result (Refuses (refuses text.now (by_of by.now))) }
        ensures only { (d : SomeDesign) → means text.now (by_of by.now) d → IsRead result };
}
