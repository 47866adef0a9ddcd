/// A bit of a signal: the signal's number, and the bit's position from 0. They are in order by signal and then position.
#[derive(Clone, Copy, Debug, PartialEq, Eq, PartialOrd, Ord)]
pub struct SignalBit {
    pub signal: u32,
    pub position: u8,
}
