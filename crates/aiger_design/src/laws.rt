//! Laws of the definitions. Each is the contract of a function that does nothing but call laws of the layers below.
ghost use Rattle.aiger_design.specs.Laws.{OneDesign, NoRefusal, FileIsWellFormed, FileIsDrivenOnce, FileIsNotTooLarge};

use aiger_text::one_content;

/// A text means one design at most: those that it means have the same lists.
pub fn one_design()
    ensures { OneDesign }
{
    one_content();
}

/// A text that means a design is refused for want of memory alone.
pub fn no_refusal()
    ensures { NoRefusal }
{
    one_content();
    aiger_text::no_refusal();
    aiger_rules::no_refusal();
    aiger_rules::no_misnaming();
}

/// A design that a text means is well formed.
pub fn file_is_well_formed()
    ensures { FileIsWellFormed }
{}

/// Each bit of a design that a text means is given its value once.
pub fn file_is_driven_once()
    ensures { FileIsDrivenOnce }
{}

/// A design that a text means has no more signals, places, drivers and outputs than are handled.
pub fn file_is_not_too_large()
    ensures { FileIsNotTooLarge }
{}
