//! The laws.

ghost use Rattle.bit_circuit.specs.Circuits.{circuit_of};
ghost use Rattle.unroller.specs.Cycles.{free_bits};
ghost use Rattle.design_core.specs.Explained.{AreValuesOf, Explains};
ghost use Rattle.form_laws.specs.Encodes.{CanBeAsked, unrolling_of};
ghost use Rattle.form_values.specs.ModelValues.{ArePlaces};
ghost use Rattle.form_laws.specs.Circuits.{IsCircuitOf};
ghost use Rattle.form_laws.specs.Designs.{EncodesDesign, IsOfDesign};
ghost use Rattle.design_circuits.specs.Reading.{IsOfNet, OfNet, read_of};
ghost use Rattle.design_circuits.specs.Forms.{CanAskNet, HasPlaces, HaveEachPlace, IsModelOf, NetAsked, NetModel, asked_of, of_design, places_in};

/// The circuit of a design's net is a circuit of the design: its states begin as the design's do, and in each cycle, for samples and
/// choices of their widths, the literals of its outputs and next states are the bits of the design's.
pub fn circuit_is_of_design()
    ghost of: { OfNet }
    requires { IsOfNet of }
    ensures { IsCircuitOf of.design (circuit_of of.net) (read_of of.design) }
{}

/// Each bit of each place of the design is a free bit of that circuit; that no other bit is one, its being a circuit of the design
/// says.
pub fn places_are_free_bits()
    ghost of: { OfNet }
    requires { IsOfNet of }
    ensures { HaveEachPlace of.design (free_bits (circuit_of of.net).nodes) }
{}

/// Traces of a design can be asked of the circuit of its net.
pub fn net_can_be_asked()
    ghost of: { NetAsked }
    requires { CanAskNet of }
    ensures circuit { CanBeAsked (asked_of of) }
    ensures design { IsOfDesign (of_design of) }
{}

/// For each size j of at most k and each set of at most j suspects: some assignment satisfies the form of the net's circuit and the
/// bound at j, with the selectors of exactly that set true, exactly where the set works in the design.
pub fn net_form_encodes_design()
    ghost of: { NetAsked }
    requires { CanAskNet of }
    ensures { EncodesDesign (of_design of) }
{}

/// The places of suspects of the design are places of the circuit: their bits, from 1 to 128 of them, are there from bit 0 up.
pub fn suspects_are_places()
    ghost of: { NetAsked }
    requires asked { CanAskNet of }
    requires places { HasPlaces of }
    ensures { ArePlaces (unrolling_of (asked_of of)) of.groups }
{}

/// The values that a model of the form gives to the places of a set are of the design's places and widths, and with them each trace
/// is right in the design.
pub fn model_explains()
    ghost of: { NetModel }
    requires asked { CanAskNet of.asked }
    requires model { IsModelOf of }
    ensures values { AreValuesOf of.asked.of.design of.asked.traces (places_in of.asked) of.members of.values }
    ensures explains { Explains of.asked.of.design of.asked.traces (places_in of.asked) of.members of.values }
{}
