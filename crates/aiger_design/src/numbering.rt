//! The numbers of signals and places.
ghost use Rattle.std.specs.Prelude.{◌≡◌, ◌+◌, ◌<◌, ◌≤◌, ◌^◌};
ghost use Rattle.aiger_text.specs.Rows.{first_output, first_and, row_count};
ghost use Rattle.aiger_design.specs.Numbering.{first_net, first_register, first_result, input_count, input_signal, latch_signal, and_signal, output_signal, row_signal, and_number, latch_number, is_too_large, signal_count, IsSmall};

use aiger_text::Counts;

/// What the numbers of signals and places follow from.
#[derive(Clone, Copy)]
pub(crate) struct Numbering {
    pub counts: Counts,
    /// How many clocks there are: one where it is named, else none.
    pub clocks: u64,
    /// The row of the input that is the clock; the number of inputs where none is.
    pub left_out: u64,
}

impl Numbering {
    /// How many inputs there are without the clock's.
    fn input_count(self) -> u64
        requires { self.left_out ≤ self.counts.inputs }
        ensures { result ≡ input_count self }
    {
        let behind = u64::from(self.counts.inputs).saturating_sub(self.left_out + 1);
        self.left_out + behind
    }

    /// The signal of the first latch.
    pub(crate) fn first_register(self) -> u64
        requires clocks { self.clocks ≤ 1 }
        requires out { self.left_out ≤ self.counts.inputs }
        ensures { result ≡ first_register self }
    {
        self.clocks + self.input_count()
    }

    /// The signal of the first AND.
    pub(crate) fn first_net(self) -> u64
        requires clocks { self.clocks ≤ 1 }
        requires out { self.left_out ≤ self.counts.inputs }
        ensures { result ≡ first_net self }
    {
        self.first_register() + u64::from(self.counts.latches)
    }

    /// The signal of the first output.
    pub(crate) fn first_result(self) -> u64
        requires clocks { self.clocks ≤ 1 }
        requires out { self.left_out ≤ self.counts.inputs }
        ensures { result ≡ first_result self }
    {
        self.first_net() + u64::from(self.counts.ands)
    }

    /// Whether there are more than 65,536 places, or more than 1,048,576 signals, or as many drivers and clocked blocks.
    pub(crate) fn is_too_large(self) -> bool
        requires clocks { self.clocks ≤ 1 }
        requires out { self.left_out ≤ self.counts.inputs }
        ensures { result ≡ is_too_large self }
    {
        let ands = u64::from(self.counts.ands);
        let latches = u64::from(self.counts.latches);
        let outputs = u64::from(self.counts.outputs);
        65_536 < ands + latches
            || 1_048_576 < self.first_result() + outputs
            || 1_048_576 < ands + outputs + latches
    }

    /// The signal of an input's row.
    fn input_signal(self, row: u64) -> u32
        requires small { IsSmall self }
        requires within { row < self.counts.inputs }
        ensures { result ≡ input_signal self row }
    {
        let signal = if row == self.left_out {
            0
        } else if row < self.left_out {
            self.clocks + row
        } else {
            (self.clocks + row).saturating_sub(1)
        };
        signal as u32
    }

    /// The signal of a latch's row.
    pub(crate) fn latch_signal(self, row: u64) -> u32
        requires small { IsSmall self }
        requires within { row < first_output self.counts }
        ensures { result ≡ latch_signal self row }
    {
        let signal = self.first_register() + row.saturating_sub(u64::from(self.counts.inputs));
        signal as u32
    }

    /// The signal of an AND's row.
    pub(crate) fn and_signal(self, row: u64) -> u32
        requires small { IsSmall self }
        requires within { row < row_count self.counts }
        ensures { result ≡ and_signal self row }
    {
        let signal = self.first_net() + row.saturating_sub(self.counts.first_and());
        signal as u32
    }

    /// The signal of an output's row.
    pub(crate) fn output_signal(self, row: u64) -> u32
        requires small { IsSmall self }
        requires within { row < first_and self.counts }
        ensures { result ≡ output_signal self row }
    {
        let signal = self.first_result() + row.saturating_sub(self.counts.first_output());
        signal as u32
    }

    /// The signal of a row that defines a variable.
    pub(crate) fn row_signal(self, row: u64) -> u32
        requires small { IsSmall self }
        requires within { row < row_count self.counts }
        ensures { result ≡ row_signal self row }
    {
        if row < u64::from(self.counts.inputs) {
            self.input_signal(row)
        } else if row < self.counts.first_output() {
            self.latch_signal(row)
        } else {
            self.and_signal(row)
        }
    }

    /// The place of an AND's row.
    pub(crate) fn and_number(self, row: u64) -> u32
        requires small { IsSmall self }
        requires within { row < row_count self.counts }
        ensures { result ≡ and_number self row }
    {
        row.saturating_sub(self.counts.first_and()) as u32
    }

    /// The place of a latch's row.
    pub(crate) fn latch_number(self, row: u64) -> u32
        requires small { IsSmall self }
        requires within { row < first_output self.counts }
        ensures { result ≡ latch_number self row }
    {
        let number = u64::from(self.counts.ands)
            + row.saturating_sub(u64::from(self.counts.inputs));
        number as u32
    }

    /// The line of a row.
    pub(crate) fn line(self, row: u64) -> u32
        requires small { IsSmall self }
        requires within { row < row_count self.counts }
        ensures { result ≡ row + 2 }
    {
        row as u32 + 2
    }
}
