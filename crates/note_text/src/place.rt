//! Places in a text, by line and column.
ghost use Rattle.std.specs.Prelude.{◌≡◌, ◌≤◌, ◌<◌, ◌+◌, ◌^◌, if◌then◌else◌, length, take};
ghost use Rattle.std.specs.List.{count_by};
ghost use Rattle.note_text.specs.Places.{IsLineStart, is_newline};

use loc_base::Span;

/// A place in a text, in bytes from 0, with the number of its line, from 1, and where that line begins.
#[derive(Clone, Copy)]
pub(crate) struct Place {
    pub(crate) at: usize,
    pub(crate) line: u64,
    pub(crate) start: usize,
}

/// Where a span begins, or the end of the text where it doesn't begin in it.
pub(crate) fn beginning(text: &[u8], span: Span) -> u32
    ensures within { result ≤ length text.now }
    ensures is { span.from ≤ length text.now → result ≡ span.from }
{
    if (span.from as usize) < text.len() {
        span.from
    } else {
        text.len() as u32
    }
}

impl Place {
    /// The place after a byte that stands at this one.
    fn after(self, byte: u8) -> Place
        requires few { self.line ≤ self.at + 1 }
        requires small { self.at < 2 ^ 32 }
        ensures at { result.at ≡ self.at + 1 }
        ensures line { result.line ≡ (if is_newline byte then self.line + 1 else self.line) }
        ensures start { result.start ≡ (if is_newline byte then self.at + 1 else self.start) }
    {
        let at = self.at + 1;
        if byte == b'\n' {
            Place {
                at,
                line: self.line + 1,
                start: at,
            }
        } else {
            Place { at, ..self }
        }
    }
}

/// The place of a byte of a text, or of its end.
pub(crate) fn place_at(text: &[u8], at: u32) -> Place
    requires { at ≤ length text.now }
    ensures at { result.at ≡ at }
    ensures line { result.line ≡ 1 + count_by is_newline (take at text.now) }
    ensures start { IsLineStart text.now at result.start }
{
    let mut place = Place {
        at: 0,
        line: 1,
        start: 0,
    };
    for k in 0..at as usize {
        place = place.after(text[k]);
    }
    place
}
