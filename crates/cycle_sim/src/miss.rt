/// Where a trace is not right: the output of that number has, in that cycle of that trace, a bit that is checked and
/// not as expected. All three are counted from 0.
#[derive(Clone, Copy, Debug, PartialEq, Eq)]
pub struct Miss {
    pub trace: u32,
    pub cycle: u32,
    pub output: u32,
}
