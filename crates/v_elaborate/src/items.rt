//! What the items of a module make, with generates expanded where they stand (IEEE 1364-2005, 12.1 to 12.4).
ghost use Rattle.std.specs.Prelude.{◌≡◌, [], map, Ok, IfOk, IfErr, OnOk};
ghost use Rattle.v_syntax.specs.StatementTree.{head_of};
ghost use Rattle.v_syntax.specs.ItemTree.{item_of, items_of, block_of as plain_block};
ghost use Rattle.v_hierarchy.specs.Frames.{Refuses};
ghost use Rattle.v_hierarchy.specs.Items.{within, begins, item as item_met, items as items_met, body_of};
ghost use Rattle.v_hierarchy.specs.Paths.{below};
ghost use Rattle.v_loops.specs.Heads.{IsTurning};
ghost use Rattle.v_connections.specs.Places.{place_of};
ghost use Rattle.v_elaborate.specs.Parts.{block_met, turn_met_at, turns_met, loop_met};
ghost use Rattle.v_elaborate.specs.Met.{met_of, outer_at, frames_at, inside};

use crate::met::Met;
use loc_base::{Items, Name, Span};
use std::mem;
use v_connections::Place;
use v_hierarchy::{Block, Copied, ElabErr, Signal, below, block_part, turn_part};
use v_loops::{MOST_TURNS, Turning, begun, loop_genvar, number_of, stepped};
use v_sizes::Const;
use v_syntax::{GenerateBlock, Item, LoopHead};

/// A generate loop: where it stands, and its head.
#[derive(Clone, Copy)]
pub(crate) struct GenerateLoop<'p, 'u, 'n, 'h, 't> {
    pub(crate) place: &'p Place<'u, 'n, 'h, 't>,
    pub(crate) head: &'t LoopHead,
    pub(crate) span: Span,
}

impl<'t> Met<'t> {
    /// What stands in a generate block.
    #[cycle(items)]
    #[tactic(auto, using(crate::proofs::ItemEquations::body_rules))]
    fn body(
        &mut self,
        block: &'t GenerateBlock,
        place: &Place<'_, '_, '_, 't>,
    ) -> Result<(), ElabErr>
        ensures ok { OnOk result (body_of (place_of place.now (outer_at self.old)) (plain_block block.now) (met_of self.old) ≡ Ok (met_of self.new)) }
        ensures err { IfErr result (λ fault. Refuses (body_of (place_of place.now (outer_at self.old)) (plain_block block.now) (met_of self.old)) fault) }
        ensures around { OnOk result (outer_at self.new ≡ outer_at self.old) }
    {
        match block {
            GenerateBlock::Item { item, .. } => self.item(item, place),
            GenerateBlock::Block { items, .. } => self.items(items.as_slice(), place),
        }
    }

    /// A generate block in a scope of its own.
    #[cycle(items)]
    #[tactic(auto, using(crate::proofs::CopiedViews::copied_steps))]
    fn scope(
        &mut self,
        block: &'t GenerateBlock,
        place: &Place<'_, '_, '_, 't>,
        part: &Name,
    ) -> Result<Block<'t>, ElabErr>
        ensures ok { IfOk result (λ own. body_of (within (place_of place.now (outer_at self.old)) part.now (frames_at self.old)) (plain_block block.now) (begins [] self.old.position.left) ≡ Ok (inside own self.new.position.left)) }
        ensures path { IfOk result (λ own. own.path ≡ below place.now.path.now part.now) }
        ensures err { IfErr result (λ fault. Refuses (body_of (within (place_of place.now (outer_at self.old)) part.now (frames_at self.old)) (plain_block block.now) (begins [] self.old.position.left)) fault) }
        ensures same { OnOk result (frames_at self.new ≡ frames_at self.old) }
        ensures copies { OnOk result (self.new.copies ≡ self.old.copies) }
    {
        let path = below(self.position.alloc, place.path, part)?;
        let own = Place {
            units: place.units,
            levels: place.levels,
            path: &path,
            header: None,
        };
        let around = mem::replace(&mut self.copies, Items::new(self.position.alloc));
        self.position.scopes.enter()?;
        self.body(block, &own)?;
        let names = self.position.scopes.leave();
        let copies = mem::replace(&mut self.copies, around);
        Ok(Block {
            path,
            names,
            copies,
        })
    }

    /// A block that a condition chooses.
    #[cycle(items)]
    #[tactic(auto, using(crate::proofs::CopiedViews::copied_steps))]
    fn chosen(
        &mut self,
        block: &'t GenerateBlock,
        place: &Place<'_, '_, '_, 't>,
    ) -> Result<(), ElabErr>
        ensures ok { OnOk result (block_met (place_of place.now (outer_at self.old)) (plain_block block.now) (met_of self.old) ≡ Ok (met_of self.new)) }
        ensures err { IfErr result (λ fault. Refuses (block_met (place_of place.now (outer_at self.old)) (plain_block block.now) (met_of self.old)) fault) }
        ensures around { OnOk result (outer_at self.new ≡ outer_at self.old) }
    {
        let part = block_part(self.position.alloc, block)?;
        let own = self.scope(block, place, &part)?;
        self.keep(Copied::Inner(own))?;
        Ok(())
    }

    /// A turn of a generate loop.
    #[cycle(items)]
    #[tactic(auto, using(crate::proofs::CopiedViews::copied_steps))]
    fn generate_turn(
        &mut self,
        block: &'t GenerateBlock,
        repeats: &GenerateLoop<'_, '_, '_, '_, 't>,
        value: Const,
    ) -> Result<(), ElabErr>
        requires { IsTurning value }
        ensures ok { OnOk result (turn_met_at (place_of repeats.now.place.now (outer_at self.old)) repeats.now.span (head_of repeats.now.head.now) (plain_block block.now) (frames_at self.old) value (met_of self.old) ≡ Ok (met_of self.new)) }
        ensures err { IfErr result (λ fault. Refuses (turn_met_at (place_of repeats.now.place.now (outer_at self.old)) repeats.now.span (head_of repeats.now.head.now) (plain_block block.now) (frames_at self.old) value (met_of self.old)) fault) }
        ensures same { OnOk result (frames_at self.new ≡ frames_at self.old) }
    {
        let variable = &repeats.head.variable;
        self.position.left = self.position.left.turned(repeats.span)?;
        let part = turn_part(self.position.alloc, block, number_of(value))?;
        self.position.scopes.at_turn(variable, value)?;
        let block = self.scope(block, repeats.place, &part)?;
        let _turn = self.position.scopes.leave();
        let copied = Copied::Turn {
            variable,
            value,
            block,
        };
        self.keep(copied)?;
        Ok(())
    }

    /// The turns of a generate loop, from the first.
    #[cycle(items)]
    #[tactic(auto, using(crate::proofs::TurnSteps::generate_steps))]
    fn generate_turns(
        &mut self,
        block: &'t GenerateBlock,
        repeats: &GenerateLoop<'_, '_, '_, '_, 't>,
        first: Turning,
    ) -> Result<(), ElabErr>
        requires { IsTurning first.value }
        ensures ok { OnOk result (turns_met (place_of repeats.now.place.now (outer_at self.old)) repeats.now.span (head_of repeats.now.head.now) (plain_block block.now) (frames_at self.old) (first.value, first.runs) (met_of self.old) ≡ Ok (met_of self.new)) }
        ensures err { IfErr result (λ fault. Refuses (turns_met (place_of repeats.now.place.now (outer_at self.old)) repeats.now.span (head_of repeats.now.head.now) (plain_block block.now) (frames_at self.old) (first.value, first.runs) (met_of self.old)) fault) }
        ensures same { OnOk result (frames_at self.new ≡ frames_at self.old) }
    {
        let mut next = first;
        for _turn in 0..MOST_TURNS {
            if !next.runs {
                return Ok(());
            }
            self.generate_turn(block, repeats, next.value)?;
            next = stepped(&mut self.position.scopes, repeats.head, next.value)?;
        }
        if next.runs {
            return Err(ElabErr::Turns(repeats.span));
        }
        Ok(())
    }

    /// A generate loop.
    #[cycle(items)]
    fn generate_for(
        &mut self,
        block: &'t GenerateBlock,
        repeats: &GenerateLoop<'_, '_, '_, '_, 't>,
    ) -> Result<(), ElabErr>
        ensures ok { OnOk result (loop_met (place_of repeats.now.place.now (outer_at self.old)) repeats.now.span (head_of repeats.now.head.now) (plain_block block.now) (met_of self.old) ≡ Ok (met_of self.new)) }
        ensures err { IfErr result (λ fault. Refuses (loop_met (place_of repeats.now.place.now (outer_at self.old)) repeats.now.span (head_of repeats.now.head.now) (plain_block block.now) (met_of self.old)) fault) }
        ensures around { OnOk result (outer_at self.new ≡ outer_at self.old) }
    {
        loop_genvar(&self.position.scopes, &repeats.head.variable)?;
        let first = begun(&mut self.position.scopes, repeats.head)?;
        self.generate_turns(block, repeats, first)
    }

    /// An item.
    #[cycle(items)]
    #[tactic(auto, using(crate::proofs::ItemEquations::item_rules))]
    fn item(&mut self, item: &'t Item, place: &Place<'_, '_, '_, 't>) -> Result<(), ElabErr>
        ensures ok { OnOk result (item_met (place_of place.now (outer_at self.old)) (item_of item.now) (met_of self.old) ≡ Ok (met_of self.new)) }
        ensures err { IfErr result (λ fault. Refuses (item_met (place_of place.now (outer_at self.old)) (item_of item.now) (met_of self.old)) fault) }
        ensures around { OnOk result (outer_at self.new ≡ outer_at self.old) }
    {
        match item {
            Item::Port {
                direction,
                net,
                signed,
                range,
                names,
                ..
            } => {
                let signal = Signal {
                    direction: Some(*direction),
                    kind: *net,
                    signed: *signed,
                    bounds: None,
                };
                self.ports(place, signal, range, names.as_slice())
            }
            Item::Declaration {
                net,
                signed,
                range,
                names,
                ..
            } => {
                let signal = Signal {
                    direction: None,
                    kind: Some(*net),
                    signed: *signed,
                    bounds: None,
                };
                self.nets(item, signal, range, names.as_slice())
            }
            Item::Integers { names, .. } => self.integers(item, names.as_slice()),
            Item::Genvars { names, .. } => self.genvars(names.as_slice()),
            Item::Parameters {
                kind,
                type_of,
                values,
                ..
            } => self.parameters(place, *kind, type_of, values.as_slice()),
            Item::Assigns { .. } | Item::Gates { .. } | Item::Initial { .. } => self.written(item),
            Item::Always {
                site,
                sensitivity,
                body,
            } => self.always(body, *site, sensitivity),
            Item::Instances {
                site,
                module,
                parameters,
                instances,
            } => {
                let making = self.making(place, *site, module, parameters)?;
                self.instances(place, &making, instances.as_slice())
            }
            Item::Generate { items, .. } => self.items(items.as_slice(), place),
            Item::GenerateFor { site, head, body } => {
                let repeats = GenerateLoop {
                    place,
                    head,
                    span: site.span,
                };
                self.generate_for(body, &repeats)
            }
            Item::GenerateIf {
                condition,
                then,
                other: None,
                ..
            } => {
                if self.position.scopes.holds_at(condition)? {
                    return self.chosen(then, place);
                }
                Ok(())
            }
            Item::GenerateIf {
                condition,
                then,
                other: Some(other),
                ..
            } => {
                if self.position.scopes.holds_at(condition)? {
                    return self.chosen(then, place);
                }
                self.chosen(other, place)
            }
        }
    }

    /// Items in order.
    #[cycle(items)]
    pub(crate) fn items(
        &mut self,
        items: &'t [Item],
        place: &Place<'_, '_, '_, 't>,
    ) -> Result<(), ElabErr>
        ensures ok { OnOk result (items_met (place_of place.now (outer_at self.old)) (items_of (map item_of items.now)) (met_of self.old) ≡ Ok (met_of self.new)) }
        ensures err { IfErr result (λ fault. Refuses (items_met (place_of place.now (outer_at self.old)) (items_of (map item_of items.now)) (met_of self.old)) fault) }
        ensures around { OnOk result (outer_at self.new ≡ outer_at self.old) }
    {
        for item in items {
            self.item(item, place)?;
        }
        Ok(())
    }
}
