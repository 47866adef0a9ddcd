//! The names to which a module's text gives a role: its parameters that may be given from outside, and those that its items give a
//! direction (IEEE 1364-2005, 12.2 and 12.3).
ghost use Rattle.std.specs.Prelude.{◌≡◌, ◌++◌, map, OnOk, IfOk};
ghost use Rattle.v_syntax.specs.PartTree.{named_of};
ghost use Rattle.v_syntax.specs.declared.item.ParameterKind.TheVariants as parameter_kind;
ghost use Rattle.v_syntax.specs.ItemTree.{item_of, items_of};
ghost use Rattle.v_syntax.specs.ModuleTree.{header_parameter_of, module_of};
ghost use Rattle.v_hierarchy.specs.Parameters.{parameter_names, open_in, open_in_all, header_names, open_names};
ghost use Rattle.v_hierarchy.specs.Headers.{directed_in, directed_in_all};
ghost use Rattle.v_scopes.specs.Listed.{listed};

use crate::name_list::NameList;
use loc_base::NoMemory;
use std::alloc::Global;
use v_syntax::{HeaderParameter, Identifier, Item, Module, NamedValue, ParameterKind};

/// Names of a declaration, at the end of a list.
pub(crate) fn add_names<'t>(
    list: &mut NameList<'t>,
    names: &'t [Identifier],
) -> Result<(), NoMemory>
    ensures { OnOk result (listed list.new ≡ listed list.old ++ map (λ name. name.name) names.now) }
{
    for name in names {
        list.push(&name.name)?;
    }
    Ok(())
}

/// The names to which an item gives a direction, at the end of a list.
#[cycle(directed)]
#[tactic(auto, using(v_hierarchy::proofs::ItemSteps::item_steps))]
fn add_directed<'t>(list: &mut NameList<'t>, item: &'t Item) -> Result<(), NoMemory>
    ensures { OnOk result (listed list.new ≡ listed list.old ++ directed_in (item_of item.now)) }
{
    match item {
        Item::Port { names, .. } => add_names(list, names.as_slice()),
        Item::Generate { items, .. } => add_all_directed(list, items.as_slice()),
        Item::Declaration { .. }
        | Item::Integers { .. }
        | Item::Genvars { .. }
        | Item::Parameters { .. }
        | Item::Assigns { .. }
        | Item::Gates { .. }
        | Item::Always { .. }
        | Item::Initial { .. }
        | Item::Instances { .. }
        | Item::GenerateFor { .. }
        | Item::GenerateIf { .. } => Ok(()),
    }
}

/// The same of several items.
#[cycle(directed)]
fn add_all_directed<'t>(list: &mut NameList<'t>, items: &'t [Item]) -> Result<(), NoMemory>
    ensures { OnOk result (listed list.new ≡ listed list.old ++ directed_in_all (items_of (map item_of items.now))) }
{
    for item in items {
        add_directed(list, item)?;
    }
    Ok(())
}

/// The names to which the items of a module give a direction.
pub(crate) fn directed_names<'t>(alloc: Global, items: &'t [Item]) -> Result<NameList<'t>, NoMemory>
    ensures { IfOk result (λ list. listed list ≡ directed_in_all (items_of (map item_of items.now))) }
{
    let mut list = NameList::new(alloc);
    add_all_directed(&mut list, items)?;
    Ok(list)
}

/// The names of parameters, at the end of a list.
fn add_values<'t>(list: &mut NameList<'t>, values: &'t [NamedValue]) -> Result<(), NoMemory>
    ensures { OnOk result (listed list.new ≡ listed list.old ++ parameter_names parameter_kind.Parameter (map named_of values.now)) }
{
    for value in values {
        list.push(&value.name.name)?;
    }
    Ok(())
}

/// The names of parameters that may be given from outside, at the end of a list: none of local ones.
fn add_parameters<'t>(
    list: &mut NameList<'t>,
    kind: ParameterKind,
    values: &'t [NamedValue],
) -> Result<(), NoMemory>
    ensures { OnOk result (listed list.new ≡ listed list.old ++ parameter_names kind (map named_of values.now)) }
{
    match kind {
        ParameterKind::Parameter => add_values(list, values),
        ParameterKind::Local => Ok(()),
    }
}

/// The names of an item's parameters that may be given from outside, at the end of a list.
#[cycle(open)]
#[tactic(auto, using(v_hierarchy::proofs::ItemSteps::item_steps))]
fn add_open<'t>(list: &mut NameList<'t>, item: &'t Item) -> Result<(), NoMemory>
    ensures { OnOk result (listed list.new ≡ listed list.old ++ open_in (item_of item.now)) }
{
    match item {
        Item::Parameters { kind, values, .. } => add_parameters(list, *kind, values.as_slice()),
        Item::Generate { items, .. } => add_all_open(list, items.as_slice()),
        Item::Port { .. }
        | Item::Declaration { .. }
        | Item::Integers { .. }
        | Item::Genvars { .. }
        | Item::Assigns { .. }
        | Item::Gates { .. }
        | Item::Always { .. }
        | Item::Initial { .. }
        | Item::Instances { .. }
        | Item::GenerateFor { .. }
        | Item::GenerateIf { .. } => Ok(()),
    }
}

/// The same of several items.
#[cycle(open)]
fn add_all_open<'t>(list: &mut NameList<'t>, items: &'t [Item]) -> Result<(), NoMemory>
    ensures { OnOk result (listed list.new ≡ listed list.old ++ open_in_all (items_of (map item_of items.now))) }
{
    for item in items {
        add_open(list, item)?;
    }
    Ok(())
}

/// The names of a header's parameters, at the end of a list.
fn add_header<'t>(
    list: &mut NameList<'t>,
    parameters: &'t [HeaderParameter],
) -> Result<(), NoMemory>
    ensures { OnOk result (listed list.new ≡ listed list.old ++ header_names (map header_parameter_of parameters.now)) }
{
    for parameter in parameters {
        list.push(&parameter.name.name)?;
    }
    Ok(())
}

/// The names of a module's parameters that may be given from outside: the header's, then those of its own items.
pub(crate) fn open_names<'t>(alloc: Global, unit: &'t Module) -> Result<NameList<'t>, NoMemory>
    ensures { IfOk result (λ list. listed list ≡ open_names (module_of unit.now)) }
{
    let mut list = NameList::new(alloc);
    add_header(&mut list, unit.parameters.as_slice())?;
    add_all_open(&mut list, unit.items.as_slice())?;
    Ok(list)
}
