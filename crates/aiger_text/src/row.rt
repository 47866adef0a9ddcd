//! What the header counts, and the rows behind it.
ghost use Rattle.std.specs.Prelude.{◌≡◌, ◌≤◌, ◌==◌, length, slice_index, if◌then◌else◌, Some, None};
ghost use Rattle.aiger_text.specs.Rows.{first_output, first_and, row_count, section_at, row_of};

/// The counts of the header: the greatest variable, then how many inputs, latches, outputs and ANDs there are.
#[derive(Clone, Copy, Debug, PartialEq, Eq)]
pub struct Counts {
    pub most: u32,
    pub inputs: u32,
    pub latches: u32,
    pub outputs: u32,
    pub ands: u32,
}

/// What a row describes.
#[derive(Clone, Copy, Debug, PartialEq, Eq)]
pub enum Section {
    Inputs,
    Latches,
    Outputs,
    Ands,
}

/// A row, by its literals: twice a variable, and 1 more where it is negated; 0 is false and 1 is true.
#[derive(Clone, Copy, Debug, PartialEq, Eq)]
pub enum Row {
    Input { literal: u32 },
    Latch { literal: u32, next: u32 },
    Output { literal: u32 },
    And { literal: u32, left: u32, right: u32 },
}

impl Counts {
    /// The number of the first output's row, counted from 0.
    pub fn first_output(self) -> u64
        ensures { result ≡ first_output self }
    {
        u64::from(self.inputs) + u64::from(self.latches)
    }

    /// The number of the first AND's row.
    pub fn first_and(self) -> u64
        ensures { result ≡ first_and self }
    {
        self.first_output() + u64::from(self.outputs)
    }

    /// How many rows there are.
    pub fn rows(self) -> u64
        ensures count { result ≡ row_count self }
        ensures low { result ≤ 17179869180 }
    {
        self.first_and() + u64::from(self.ands)
    }

    /// What the row of a number, counted from 0, describes.
    pub fn section(self, number: u64) -> Section
        ensures { result ≡ section_at self number }
    {
        if number < u64::from(self.inputs) {
            Section::Inputs
        } else if number < self.first_output() {
            Section::Latches
        } else if number < self.first_and() {
            Section::Outputs
        } else {
            Section::Ands
        }
    }
}

/// The row of an AND.
fn and_of(numbers: &[u32]) -> Option<Row>
    ensures { result ≡ row_of Section.Ands numbers.now }
{
    if numbers.len() != 3 {
        return None;
    }
    Some(Row::And {
        literal: numbers[0],
        left: numbers[1],
        right: numbers[2],
    })
}

/// The row of a latch. Its third number, the value that it begins with, is 0 where it stands.
fn latch_of(numbers: &[u32]) -> Option<Row>
    ensures { result ≡ row_of Section.Latches numbers.now }
{
    if numbers.len() == 2 || (numbers.len() == 3 && numbers[2] == 0) {
        return Some(Row::Latch {
            literal: numbers[0],
            next: numbers[1],
        });
    }
    None
}

/// The literal of a row that has only one.
fn only(numbers: &[u32]) -> Option<u32>
    ensures { result ≡ (if length numbers.now == 1 then Some (slice_index numbers.now 0) else None) }
{
    if numbers.len() == 1 {
        Some(numbers[0])
    } else {
        None
    }
}

/// The row that numbers are, by what it describes.
pub(crate) fn row_of(section: Section, numbers: &[u32]) -> Option<Row>
    ensures { result ≡ row_of section numbers.now }
{
    match section {
        Section::Inputs => Some(Row::Input {
            literal: only(numbers)?,
        }),
        Section::Latches => latch_of(numbers),
        Section::Outputs => Some(Row::Output {
            literal: only(numbers)?,
        }),
        Section::Ands => and_of(numbers),
    }
}
