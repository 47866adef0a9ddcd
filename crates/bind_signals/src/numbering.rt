//! Declarations where they stand, and the scopes inside (IEEE 1364-2005, 4.2, 4.9, 12.4 and 12.5).
ghost use Rattle.std.specs.Prelude.{◌≡◌, ◌≤◌, map, OnOk, IfOk};
ghost use Rattle.v_syntax.specs.PartTree.{range_of};
ghost use Rattle.v_syntax.specs.ItemTree.{declarator_of, item_of};
ghost use Rattle.v_sizes.specs.declared.meaning.Meaning.TheVariants as meaning;
ghost use Rattle.v_hierarchy.specs.Constants.{width};
ghost use Rattle.v_hierarchy.specs.Names.{bounds_of};
ghost use Rattle.v_hierarchy.specs.Stands.{IsRange};
ghost use Rattle.v_hierarchy.specs.Views.{block_of, copied_of, copies_of};
ghost use Rattle.v_binding.specs.Signals.{with_signal, with_array, addresses_or_one, with_declarator, with_integer, an_integer, numbered, numbered_copy};
ghost use Rattle.v_binding.specs.Steps.{through};
ghost use Rattle.v_binding.specs.Seen.{names_in};
ghost use Rattle.bind_scopes.specs.Addressed.{addresses_of};
ghost use Rattle.v_binding.specs.Standing.{BlockStands, CopiedStands, CopiesStand};
ghost use Rattle.bind_signals.specs.Scopings.{scoping_of};
ghost use Rattle.bind_signals.specs.Grounds.{ground_in, numbered_written, numbered_block};

use crate::ground::{Ground, ground_of};
use crate::met::Met;
use crate::signals::{kind_of, path_in, signal_of};
use crate::words::Array;
use bind_scopes::{Addresses, Numbered, addresses_at};
use loc_base::NoMemory;
use v_binding::{BindErr, Known, Names, Use};
use v_hierarchy::{Block, Bounds, Copied, Signal, Standing};
use v_sizes::Meaning;
use v_syntax::{Declarator, Identifier, Item, NetKind, Range};

/// A name that is declared a port, a net or a register.
#[derive(Clone, Copy)]
pub(crate) struct Declaration<'t> {
    pub(crate) name: &'t Identifier,
    pub(crate) signal: Signal,
    /// Whether it is a port of the top.
    pub(crate) top: bool,
}

/// What an integer is that no loop uses.
fn an_integer() -> Signal
    ensures { result ≡ an_integer }
{
    Signal {
        direction: None,
        kind: Some(NetKind::Reg),
        signed: true,
        bounds: Some(Bounds { left: 31, right: 0 }),
    }
}

/// The addresses of an array; one where they are refused.
#[tactic(auto, using(crate::proofs::ArrayLaws::array_laws))]
fn addresses_or_one(
    names: &Names<'_>,
    declarator: &Declarator,
    range: &Range,
) -> Result<Addresses, NoMemory>
    ensures ok { IfOk result (λ a. addresses_of a ≡ addresses_or_one (names_in names.now) (declarator_of declarator.now) (range_of range.now)) }
    ensures least { IfOk result (λ a. 1 ≤ a.count) }
{
    match addresses_at(names, declarator.site.span, range) {
        Ok(addresses) => Ok(addresses),
        Err(BindErr::NoMemory) => Err(NoMemory),
        Err(_) => Ok(Addresses { low: 0, count: 1 }),
    }
}

/// What the name of an array stands for.
fn array_meaning(first: u32, addresses: Addresses, signed: bool, bounds: Bounds) -> Meaning
    requires { width bounds ≤ 128 }
    ensures { result ≡ meaning.Array first addresses.count addresses.low (width bounds) signed bounds.left bounds.right }
{
    Meaning::Array {
        first,
        count: addresses.count,
        low: addresses.low,
        width: bounds.width(),
        signed,
        left: bounds.left,
        right: bounds.right,
    }
}

impl<'a, 't> Ground<'a, 't> {
    /// One signal more.
    pub(crate) fn add_signal(
        &self,
        declaration: Declaration<'t>,
        met: &mut Met<'t>,
    ) -> Result<(), NoMemory>
        requires { IsRange (bounds_of declaration.signal) }
        ensures ok { OnOk result (scoping_of met.new ≡ with_signal declaration.entry.top (ground_in self.now (names_in met.old.seen)) declaration.entry.name.now declaration.entry.signal (scoping_of met.old)) }
        ensures same { OnOk result (names_in met.new.seen ≡ names_in met.old.seen) }
    {
        let Declaration { name, signal, top } = declaration;
        let bounds = signal.range();
        let number = met.next()?;
        let path = path_in(met.alloc, self.prefix, &name.name)?;
        let meaning = Meaning::Signal {
            signal: number,
            width: bounds.width(),
            signed: signal.signed,
            left: bounds.left,
            right: bounds.right,
        };
        let numbered = Numbered {
            signal: signal_of(path, kind_of(top, signal), signal.signed, bounds),
            home: number,
            span: name.site.span,
        };
        met.add(Known::new(&name.name, Use::Stands(meaning)), numbered)
    }

    /// One array more.
    fn add_array(
        &self,
        declaration: Declaration<'t>,
        addresses: Addresses,
        met: &mut Met<'t>,
    ) -> Result<(), NoMemory>
        requires range { IsRange (bounds_of declaration.signal) }
        requires least { 1 ≤ addresses.count }
        ensures ok { OnOk result (scoping_of met.new ≡ with_array (ground_in self.now (names_in met.old.seen)) declaration.entry.name.now declaration.entry.signal (addresses_of addresses) (scoping_of met.old)) }
        ensures same { OnOk result (names_in met.new.seen ≡ names_in met.old.seen) }
    {
        let Declaration {
            name,
            signal,
            top: _,
        } = declaration;
        let bounds = signal.range();
        let first = met.next()?;
        if first.checked_add(addresses.count).is_none() {
            return Err(NoMemory);
        }
        let path = path_in(met.alloc, self.prefix, &name.name)?;
        let array = Array {
            path: &path,
            signed: signal.signed,
            bounds,
            home: first,
            span: name.site.span,
        };
        let meaning = array_meaning(first, addresses, signal.signed, bounds);
        met.add_array(
            Known::new(&name.name, Use::Stands(meaning)),
            array,
            addresses,
        )?;
        Ok(())
    }

    /// A name of a declaration, where it stands: a port has its number already.
    fn add_declarator(&self, declarator: &'t Declarator, met: &mut Met<'t>) -> Result<(), NoMemory>
        ensures ok { OnOk result (scoping_of met.new ≡ with_declarator (ground_in self.now (names_in met.old.seen)) (declarator_of declarator.now) (scoping_of met.old)) }
        ensures same { OnOk result (names_in met.new.seen ≡ names_in met.old.seen) }
    {
        let name = &declarator.name;
        if self.ported.contains(&name.name) {
            return Ok(());
        }
        match self.frame.find(&name.name) {
            Some(Standing::Signal(signal)) => {
                self.add_signal(
                    Declaration {
                        name,
                        signal,
                        top: false,
                    },
                    met,
                )
            }
            Some(Standing::Array(signal, range)) => {
                let addresses = addresses_or_one(&met.seen, declarator, range)?;
                self.add_array(
                    Declaration {
                        name,
                        signal,
                        top: false,
                    },
                    addresses,
                    met,
                )
            }
            _ => Ok(()),
        }
    }

    /// The names of a declaration.
    fn add_declarators(&self, list: &'t [Declarator], met: &mut Met<'t>) -> Result<(), NoMemory>
        ensures ok { OnOk result (scoping_of met.new ≡ through (with_declarator (ground_in self.now (names_in met.old.seen))) (map declarator_of list.now) (scoping_of met.old)) }
        ensures same { OnOk result (names_in met.new.seen ≡ names_in met.old.seen) }
    {
        for declarator in list {
            self.add_declarator(declarator, met)?;
        }
        Ok(())
    }

    /// An integer: a register of 32 bits, but where loops use it.
    fn add_integer(&self, name: &'t Identifier, met: &mut Met<'t>) -> Result<(), NoMemory>
        ensures ok { OnOk result (scoping_of met.new ≡ with_integer (ground_in self.now (names_in met.old.seen)) name.now (scoping_of met.old)) }
        ensures same { OnOk result (names_in met.new.seen ≡ names_in met.old.seen) }
    {
        if self.looped.contains(name) {
            met.add_name(Known::new(&name.name, Use::Outside))
        } else {
            let signal = an_integer();
            self.add_signal(
                Declaration {
                    name,
                    signal,
                    top: false,
                },
                met,
            )
        }
    }

    /// The integers of a declaration.
    fn add_integers(&self, list: &'t [Identifier], met: &mut Met<'t>) -> Result<(), NoMemory>
        ensures ok { OnOk result (scoping_of met.new ≡ through (with_integer (ground_in self.now (names_in met.old.seen))) list.now (scoping_of met.old)) }
        ensures same { OnOk result (names_in met.new.seen ≡ names_in met.old.seen) }
    {
        for name in list {
            self.add_integer(name, met)?;
        }
        Ok(())
    }

    /// An item as it is written.
    #[tactic(auto, using(v_hierarchy::proofs::ItemSteps::item_steps))]
    fn add_written(&self, item: &'t Item, met: &mut Met<'t>) -> Result<(), NoMemory>
        ensures ok { OnOk result (scoping_of met.new ≡ numbered_written (ground_in self.now (names_in met.old.seen)) (item_of item.now) (scoping_of met.old)) }
        ensures same { OnOk result (names_in met.new.seen ≡ names_in met.old.seen) }
    {
        match item {
            Item::Declaration { names, .. } => self.add_declarators(names.as_slice(), met),
            Item::Integers { names, .. } => self.add_integers(names.as_slice(), met),
            Item::Port { .. }
            | Item::Genvars { .. }
            | Item::Parameters { .. }
            | Item::Assigns { .. }
            | Item::Gates { .. }
            | Item::Always { .. }
            | Item::Initial { .. }
            | Item::Instances { .. }
            | Item::Generate { .. }
            | Item::GenerateFor { .. }
            | Item::GenerateIf { .. } => Ok(()),
        }
    }
}

/// A scope inside.
#[cycle(numbering)]
fn number_block<'t>(block: &Block<'t>, met: &mut Met<'t>) -> Result<(), NoMemory>
    requires { BlockStands (block_of block.now) }
    ensures ok { OnOk result (scoping_of met.new ≡ numbered_block (names_in met.old.seen) (block_of block.now) (scoping_of met.old)) }
    ensures same { OnOk result (names_in met.new.seen ≡ names_in met.old.seen) }
{
    let ground = ground_of(met.alloc, Some(&block.path), &[], &*block)?;
    let around = met.begin(block.names.as_slice())?;
    number_copies(&ground, block.copies.as_slice(), met)?;
    met.leave(block.names.len());
    met.end(around)?;
    Ok(())
}

/// What an item makes.
#[cycle(numbering)]
#[tactic(auto, using(bind_scopes::proofs::CopiedViews::copied_views, crate::proofs::GroundLaws::inner_laws))]
fn number_copied<'t>(
    ground: &Ground<'_, 't>,
    copied: &Copied<'t>,
    met: &mut Met<'t>,
) -> Result<(), NoMemory>
    requires { CopiedStands (copied_of copied.now) }
    ensures ok { OnOk result (scoping_of met.new ≡ numbered_copy (ground_in ground.now (names_in met.old.seen)) (copied_of copied.now) (scoping_of met.old)) }
    ensures same { OnOk result (names_in met.new.seen ≡ names_in met.old.seen) }
{
    match copied {
        Copied::Written(item) => ground.add_written(item, met),
        Copied::Always { .. } | Copied::Child { .. } => Ok(()),
        Copied::Inner(block) => number_block(block, met),
        Copied::Turn {
            variable,
            value,
            block,
        } => {
            met.seen
                .push(Known::new(&variable.name, Use::AtTurn(*value)))?;
            number_block(block, met)?;
            met.leave(1);
            Ok(())
        }
    }
}

/// What several items make.
#[cycle(numbering)]
pub(crate) fn number_copies<'t>(
    ground: &Ground<'_, 't>,
    copies: &[Copied<'t>],
    met: &mut Met<'t>,
) -> Result<(), NoMemory>
    requires { CopiesStand (copies_of (map copied_of copies.now)) }
    ensures ok { OnOk result (scoping_of met.new ≡ numbered (ground_in ground.now (names_in met.old.seen)) (copies_of (map copied_of copies.now)) (scoping_of met.old)) }
    ensures same { OnOk result (names_in met.new.seen ≡ names_in met.old.seen) }
{
    for copied in copies {
        number_copied(ground, copied, met)?;
    }
    Ok(())
}
