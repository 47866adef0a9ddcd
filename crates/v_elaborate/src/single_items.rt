//! Items without items inside: declarations, always blocks, module instances, and those that stay as they are written (IEEE
//! 1364-2005, 12.1 to 12.3).
ghost use Rattle.std.specs.Prelude.{◌≡◌, map, option_map, Ok, IfErr, OnOk};
ghost use Rattle.v_syntax.specs.PartTree.{range_of, named_of};
ghost use Rattle.v_syntax.specs.StatementTree.{statement_of};
ghost use Rattle.v_syntax.specs.ItemTree.{sensitivity_of, item_of, declarator_of, parameter_type_of};
ghost use Rattle.v_hierarchy.specs.Frames.{Refuses};
ghost use Rattle.v_hierarchy.specs.Names.{integer as integer_standing, genvar as genvar_standing};
ghost use Rattle.v_connections.specs.Places.{place_of};
ghost use Rattle.v_elaborate.specs.Parts.{ports_met, nets_met, integers_met, genvars_met, parameters_met, always_met};
ghost use Rattle.v_elaborate.specs.Met.{met_of, outer_at};

use crate::met::Met;
use v_connections::{Place, declare_names, declare_nets};
use v_hierarchy::{Copied, ElabErr, Signal, Standing};
use v_syntax::{
    Declarator, Identifier, Item, NamedValue, ParameterKind, ParameterType, Range, Sensitivity,
    Site, Statement,
};

impl<'t> Met<'t> {
    /// Directions for names of the header.
    pub(crate) fn ports(
        &mut self,
        place: &Place<'_, '_, '_, 't>,
        signal: Signal,
        range: &Option<Range>,
        names: &'t [Identifier],
    ) -> Result<(), ElabErr>
        ensures ok { OnOk result (ports_met (place_of place.now (outer_at self.old)) signal (option_map range_of range.now) names.now (met_of self.old) ≡ Ok (met_of self.new)) }
        ensures err { IfErr result (λ fault. Refuses (ports_met (place_of place.now (outer_at self.old)) signal (option_map range_of range.now) names.now (met_of self.old)) fault) }
        ensures around { outer_at self.new ≡ outer_at self.old }
    {
        place.declare_ports(&mut self.position.scopes, signal, range, names)?;
        Ok(())
    }

    /// Nets, registers or arrays, with the item that declares them.
    pub(crate) fn nets(
        &mut self,
        item: &'t Item,
        signal: Signal,
        range: &Option<Range>,
        names: &'t [Declarator],
    ) -> Result<(), ElabErr>
        ensures ok { OnOk result (nets_met (outer_at self.old) (item_of item.now) signal (option_map range_of range.now) (map declarator_of names.now) (met_of self.old) ≡ Ok (met_of self.new)) }
        ensures err { IfErr result (λ fault. Refuses (nets_met (outer_at self.old) (item_of item.now) signal (option_map range_of range.now) (map declarator_of names.now) (met_of self.old)) fault) }
        ensures around { outer_at self.new ≡ outer_at self.old }
    {
        declare_nets(&mut self.position.scopes, signal, range, names)?;
        self.written(item)
    }

    /// Integers, with the item that declares them.
    pub(crate) fn integers(
        &mut self,
        item: &'t Item,
        names: &'t [Identifier],
    ) -> Result<(), ElabErr>
        ensures ok { OnOk result (integers_met (item_of item.now) names.now (met_of self.old) ≡ Ok (met_of self.new)) }
        ensures err { IfErr result (λ fault. Refuses (integers_met (item_of item.now) names.now (met_of self.old)) fault) }
        ensures around { outer_at self.new ≡ outer_at self.old }
    {
        declare_names(&mut self.position.scopes, Standing::Integer, names)?;
        self.written(item)
    }

    /// Genvars.
    pub(crate) fn genvars(&mut self, names: &'t [Identifier]) -> Result<(), ElabErr>
        ensures ok { OnOk result (genvars_met names.now (met_of self.old) ≡ Ok (met_of self.new)) }
        ensures err { IfErr result (λ fault. Refuses (genvars_met names.now (met_of self.old)) fault) }
        ensures around { outer_at self.new ≡ outer_at self.old }
    {
        declare_names(&mut self.position.scopes, Standing::Genvar, names)?;
        Ok(())
    }

    /// Parameters.
    pub(crate) fn parameters(
        &mut self,
        place: &Place<'_, '_, '_, 't>,
        kind: ParameterKind,
        type_of: &ParameterType,
        values: &'t [NamedValue],
    ) -> Result<(), ElabErr>
        ensures ok { OnOk result (parameters_met (place_of place.now (outer_at self.old)) kind (parameter_type_of type_of.now) (map named_of values.now) (met_of self.old) ≡ Ok (met_of self.new)) }
        ensures err { IfErr result (λ fault. Refuses (parameters_met (place_of place.now (outer_at self.old)) kind (parameter_type_of type_of.now) (map named_of values.now) (met_of self.old)) fault) }
        ensures around { outer_at self.new ≡ outer_at self.old }
    {
        place.declare_parameters(&mut self.position.scopes, kind, type_of, values)?;
        Ok(())
    }

    /// An always block with its loops unrolled.
    #[tactic(auto, using(crate::proofs::CopiedViews::copied_steps))]
    pub(crate) fn always(
        &mut self,
        body: &'t Statement,
        site: Site,
        sensitivity: &'t Sensitivity,
    ) -> Result<(), ElabErr>
        ensures ok { OnOk result (always_met (outer_at self.old) site (sensitivity_of sensitivity.now) (statement_of body.now) (met_of self.old) ≡ Ok (met_of self.new)) }
        ensures err { IfErr result (λ fault. Refuses (always_met (outer_at self.old) site (sensitivity_of sensitivity.now) (statement_of body.now) (met_of self.old)) fault) }
        ensures around { OnOk result (outer_at self.new ≡ outer_at self.old) }
    {
        let body = self.position.unrolled(body)?;
        let copied = Copied::Always {
            site,
            sensitivity,
            body,
        };
        self.keep(copied)?;
        Ok(())
    }
}
