//! The nodes of declarations, once their parts are read.
ghost use Rattle.std.specs.Prelude.{◌≡◌, map, option_map};
ghost use Rattle.v_syntax.specs.PartTree.{range_of, delay_of, named_of};
ghost use Rattle.v_syntax.specs.ItemTree as tree;
ghost use Rattle.v_syntax.specs.ItemTree.{item_of, declarator_of, parameter_type_of};

use v_syntax::{
    Declarator, Delay, Direction, Identifier, Item, NamedValue, NetKind, ParameterKind,
    ParameterType, Range, Site,
};

pub fn port(
    site: Site,
    direction: Direction,
    net: Option<NetKind>,
    signed: bool,
    range: Option<Range>,
    names: Vec<Identifier>,
) -> Item
    ensures { item_of result ≡ tree.port_item site direction net signed (option_map range_of range) names.items }
{
    Item::Port {
        site,
        direction,
        net,
        signed,
        range,
        names,
    }
}

pub fn declaration(
    site: Site,
    net: NetKind,
    signed: bool,
    range: Option<Range>,
    delay: Option<Delay>,
    names: Vec<Declarator>,
) -> Item
    ensures { item_of result ≡ tree.net_item site net signed (option_map range_of range) (option_map delay_of delay) (map declarator_of names.items) }
{
    Item::Declaration {
        site,
        net,
        signed,
        range,
        delay,
        names,
    }
}

pub fn integers(site: Site, names: Vec<Identifier>) -> Item
    ensures { item_of result ≡ tree.integer_item site names.items }
{
    Item::Integers { site, names }
}

pub fn genvars(site: Site, names: Vec<Identifier>) -> Item
    ensures { item_of result ≡ tree.genvar_item site names.items }
{
    Item::Genvars { site, names }
}

pub fn parameters(
    site: Site,
    kind: ParameterKind,
    type_of: ParameterType,
    values: Vec<NamedValue>,
) -> Item
    ensures { item_of result ≡ tree.parameter_item site kind (parameter_type_of type_of) (map named_of values.items) }
{
    Item::Parameters {
        site,
        kind,
        type_of,
        values,
    }
}
