//! The nodes of assignments, gates and instances.
ghost use Rattle.std.specs.Prelude.{◌≡◌, map, option_map};
ghost use Rattle.v_syntax.specs.PartTree.{delay_of};
ghost use Rattle.v_syntax.specs.ItemTree.{item_of, assign_item, gate_item, instance_item, assignment_of, gate_of, connections_of, instance_of};

use v_syntax::{
    Connections, Delay, GateInstance, GateKind, Identifier, Instance, Item, NetAssignment, Site,
};

pub fn assigns(site: Site, delay: Option<Delay>, assignments: Vec<NetAssignment>) -> Item
    ensures { item_of result ≡ assign_item site (option_map delay_of delay) (map assignment_of assignments.items) }
{
    Item::Assigns {
        site,
        delay,
        assignments,
    }
}

pub fn gates(site: Site, kind: GateKind, delay: Option<Delay>, gates: Vec<GateInstance>) -> Item
    ensures { item_of result ≡ gate_item site kind (option_map delay_of delay) (map gate_of gates.items) }
{
    Item::Gates {
        site,
        kind,
        delay,
        gates,
    }
}

pub fn instances(
    site: Site,
    name: Identifier,
    parameters: Option<Connections>,
    instances: Vec<Instance>,
) -> Item
    ensures { item_of result ≡ instance_item site name (option_map connections_of parameters) (map instance_of instances.items) }
{
    Item::Instances {
        site,
        module: name,
        parameters,
        instances,
    }
}
