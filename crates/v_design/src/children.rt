//! The ports of the children of an instance, in their order.
ghost use Rattle.std.specs.Prelude.{◌≡◌, [], map, drop};
ghost use Rattle.std.specs.Option.{option_map_or};
ghost use Rattle.v_binding.specs.Items.{ports_next, children_after};
ghost use Rattle.bind_scopes.specs.Views.{socket_of};
ghost use Rattle.v_design.specs.Children.{children_of};

use bind_scopes::Socket;
use loc_base::Items;

/// The ports of all instances, and the numbers of those that stand right in one instance, in their order.
#[derive(Clone, Copy)]
pub struct Children<'t, 'a> {
    pub ports: &'a [Items<Socket<'t>>],
    pub numbers: &'a [usize],
}

impl<'t, 'a> Children<'t, 'a> {
    /// The ports of the child whose turn comes behind so many, if there is one.
    #[tactic(auto, using(crate::proofs::ItemWalkLaws::next_ports))]
    pub(crate) fn ports_at(self, place: usize) -> Option<&'a [Socket<'t>]>
        ensures { option_map_or (λ ports. map socket_of ports.now) result [] ≡ ports_next (drop place (children_of self.entry)) }
    {
        if place >= self.numbers.len() {
            return None;
        }
        let number = self.numbers[place];
        if number >= self.ports.len() {
            return None;
        }
        Some(self.ports[number].as_slice())
    }

    /// How many had their turn behind one more.
    #[tactic(auto, using(crate::proofs::ItemWalkLaws::children_met))]
    pub(crate) fn after(self, before: usize) -> usize
        ensures { drop result (children_of self.entry) ≡ children_after (drop before (children_of self.entry)) }
    {
        if before < self.numbers.len() {
            before + 1
        } else {
            before
        }
    }
}
