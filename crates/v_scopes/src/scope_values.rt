//! Constants, ranges, types and parameters at a place of a text (IEEE 1364-2005, clause 5 and 12.2).
ghost use Rattle.std.specs.Prelude.{◌≡◌, ◌≤◌, Ok, IfOk, IfErr, OnOk, option_map};
ghost use Rattle.loc_base.specs.Bits.{width_of};
ghost use Rattle.v_syntax.specs.Tree.{tree_of};
ghost use Rattle.v_syntax.specs.PartTree.{range_of};
ghost use Rattle.v_syntax.specs.ItemTree.{parameter_type_of};
ghost use Rattle.v_sizes.specs.Context.{IsMeaning};
ghost use Rattle.v_scopes.specs.Around.{names_in, outer_of, frames_of};
ghost use Rattle.v_hierarchy.specs.Constants.{constant_at, bounds_if};
ghost use Rattle.v_hierarchy.specs.Frames.{Refuses};
ghost use Rattle.v_hierarchy.specs.Names.{look_in, fresh, meaning_of};
ghost use Rattle.v_hierarchy.specs.Parameters.{kind_at, value_at, parameter};
ghost use Rattle.v_hierarchy.specs.Stands.{IsKind, IsRangeIf};
ghost use Rattle.v_hierarchy.specs.Unrolled.{counted_at, holds_at};
ghost use Rattle.v_hierarchy.specs.Views.{standing_of};

use crate::scope_stack::Scopes;
use v_hierarchy::{Bounds, ElabErr, Entry, Kind, Standing, assigned};
use v_sizes::Const;
use v_syntax::{Expr, Identifier, ParameterType, Range};

impl<'t> Scopes<'t> {
    /// The constant that an expression is in an assignment of a width, 0 for none.
    pub fn constant_at(&self, context: u8, e: &Expr) -> Result<Const, ElabErr>
        requires { context ≤ 128 }
        ensures ok { IfOk result (λ c. constant_at (look_in (frames_of self.now)) context (tree_of e.now) ≡ Ok c) }
        ensures err { IfErr result (λ fault. Refuses (constant_at (look_in (frames_of self.now)) context (tree_of e.now)) fault) }
    {
        crate::constants::constant_at(self.allocator(), self.meanings(), context, e)
    }

    /// The bounds of a range that may be left out.
    pub fn bounds_if(&self, range: &Option<Range>) -> Result<Option<Bounds>, ElabErr>
        ensures ok { IfOk result (λ b. bounds_if (look_in (frames_of self.now)) (option_map range_of range.now) ≡ Ok b) }
        ensures err { IfErr result (λ fault. Refuses (bounds_if (look_in (frames_of self.now)) (option_map range_of range.now)) fault) }
        ensures fits { IfOk result IsRangeIf }
    {
        crate::ranges::bounds_if(self.allocator(), self.meanings(), range)
    }

    /// The type that is written of a parameter.
    pub fn kind_at(&self, type_of: &ParameterType) -> Result<Kind, ElabErr>
        ensures ok { IfOk result (λ kind. kind_at (look_in (frames_of self.now)) (parameter_type_of type_of.now) ≡ Ok kind) }
        ensures err { IfErr result (λ fault. Refuses (kind_at (look_in (frames_of self.now)) (parameter_type_of type_of.now)) fault) }
        ensures fits { IfOk result IsKind }
    {
        crate::kinds::kind_at(self.allocator(), self.meanings(), type_of)
    }

    /// A value of a loop's variable, which has 32 bits and a sign.
    pub fn counted_at(&self, e: &Expr) -> Result<Const, ElabErr>
        ensures ok { IfOk result (λ c. counted_at (frames_of self.now) (tree_of e.now) ≡ Ok c) }
        ensures err { IfErr result (λ fault. Refuses (counted_at (frames_of self.now) (tree_of e.now)) fault) }
        ensures fits { IfOk result (λ c. width_of c.bits ≡ 32) }
    {
        let value = self.constant_at(32, e)?;
        Ok(assigned(32, true, value))
    }

    /// Whether a condition holds: it is a constant that isn't 0.
    pub fn holds_at(&self, e: &Expr) -> Result<bool, ElabErr>
        ensures ok { IfOk result (λ holds. holds_at (frames_of self.now) (tree_of e.now) ≡ Ok holds) }
        ensures err { IfErr result (λ fault. Refuses (holds_at (frames_of self.now) (tree_of e.now)) fault) }
    {
        let value = self.constant_at(0, e)?;
        Ok(value.bits.value() != 0)
    }

    /// What a parameter is declared as: the value that is given to it counts, else its own.
    fn value_at(&self, kind: Kind, value: Option<Const>, e: &Expr) -> Result<Standing<'t>, ElabErr>
        requires { IsKind kind }
        ensures ok { IfOk result (λ s. value_at (look_in (frames_of self.now)) kind value (tree_of e.now) ≡ Ok (standing_of s)) }
        ensures err { IfErr result (λ fault. Refuses (value_at (look_in (frames_of self.now)) kind value (tree_of e.now)) fault) }
        ensures stands { IfOk result (λ s. IsMeaning (meaning_of (standing_of s))) }
    {
        match value {
            Some(value) => Ok(kind.valued(value)),
            None => {
                let own = self.constant_at(kind.context(), e)?;
                Ok(kind.valued(own))
            }
        }
    }

    /// Refuses a name that the innermost scope has.
    fn fresh(&self, name: &Identifier) -> Result<(), ElabErr>
        ensures { result ≡ fresh name.now (names_in self.now) }
    {
        if self.find_here(&name.name).is_some() {
            return Err(ElabErr::DoubleName(name.site.span));
        }
        Ok(())
    }

    /// Declares a parameter in the innermost scope, with the value that is given to it, else its own.
    pub fn parameter(
        &mut self,
        kind: Kind,
        value: Option<Const>,
        name: &'t Identifier,
        e: &Expr,
    ) -> Result<(), ElabErr>
        requires { IsKind kind }
        ensures ok { OnOk result (parameter (outer_of self.old) kind value name.now (tree_of e.now) (names_in self.old) ≡ Ok (names_in self.new)) }
        ensures err { IfErr result (λ fault. Refuses (parameter (outer_of self.old) kind value name.now (tree_of e.now) (names_in self.old)) fault) }
        ensures around { outer_of self.new ≡ outer_of self.old }
    {
        self.fresh(name)?;
        let standing = self.value_at(kind, value, e)?;
        self.append(Entry { name, standing })?;
        Ok(())
    }
}
