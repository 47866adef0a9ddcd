//! The header.
ghost use Rattle.std.specs.Prelude.{◌≡◌, IfOk};
ghost use Rattle.aiger_text.specs.Rows.{counts_of, header_in};

use crate::cut::cut_at;
use crate::numbers::read_numbers;
use crate::row::Counts;
use loc_base::NoMemory;

/// The counts that five numbers give.
fn counts_of(numbers: &[u32]) -> Option<Counts>
    ensures { result ≡ counts_of numbers.now }
{
    if numbers.len() != 5 {
        return None;
    }
    Some(Counts {
        most: numbers[0],
        inputs: numbers[1],
        latches: numbers[2],
        outputs: numbers[3],
        ands: numbers[4],
    })
}

/// The header that a line is.
pub(crate) fn header_of(line: &[u8], numbers: &mut Vec<u32>) -> Result<Option<Counts>, NoMemory>
    ensures { IfOk result (λ counts. counts ≡ header_in line.now) }
{
    let Some(cut) = cut_at(line, b' ') else {
        return Ok(None);
    };
    if cut.front != b"aag".as_slice() || !read_numbers(cut.back, numbers)? {
        return Ok(None);
    }
    Ok(counts_of(numbers))
}
