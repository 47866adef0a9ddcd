//! Laws of the instances of a design that binding stands on (IEEE 1364-2005, clauses 4 and 12). Each is the contract of a function that does nothing, over values that no code holds.
ghost use Rattle.std.specs.Prelude.{◌≡◌, Ok};
ghost use Rattle.v_hierarchy.specs.Instances.{instances};
ghost use Rattle.v_binding.specs.Standing.{InstancesStand};
ghost use Rattle.bind_laws.specs.Every.{Every};
ghost use Rattle.bind_laws.specs.Listed.{Listed};
ghost use Rattle.bind_laws.specs.OfText.{OfText};
ghost use Rattle.bind_laws.specs.Written.{WrittenModule};

/// The names of the instances of a text stand for something: each range has 1 to 128 bits, and the variable of a loop 32 at each of
/// its turns.
pub fn elaborated_stand()
    ghost of: { Listed }
    requires { instances of.units of.name ≡ Ok of.list }
    ensures { InstancesStand of.list }
{}

/// The instances of a text's modules are as it means them: each name of a scope is declared once, ports are signals with names of
/// their own, what an item declares its scope has, and a case has one default at most.
pub fn elaborated_of_text()
    ghost of: { Listed }
    requires as_written { Every WrittenModule of.units }
    requires list { instances of.units of.name ≡ Ok of.list }
    ensures { OfText of.list }
{}
