/// The formats in which designs are read.
#[derive(Clone, Copy)]
pub enum Format {
    /// Verilog (IEEE 1364-2005).
    Verilog,
    /// An and-inverter graph in ASCII AIGER.
    Aiger,
}
