ghost use Rattle.std.specs.Prelude.{◌≡◌, ◌+◌, ◌-◌, ◌≤◌, MatchResult, IfOk, OnErr};
ghost use Rattle.proof_check.specs.Text.{pieces};
ghost use Rattle.proof_check.specs.LineWords.{take_words, read_line};
ghost use Rattle.proof_check.specs.Took.{Took};
ghost use Rattle.proof_check.specs.Pieces.{pieces_after};
ghost use Rattle.proof_check.specs.Lines.{Appended, AreStepLines, IsFirstBadStep};
ghost use Rattle.proof_check.specs.Errors.{OnSyntax};

use crate::text::cut::cut_at;
use crate::text::line_reader::LineReader;
use crate::text::words::kind_with;
use crate::types::LogErr;
use clause_base::{Log, StepKind};
use loc_base::NoMemory;
use std::alloc::Global;

/// Takes the words of a line of that kind into the reader. `false` where one doesn't belong there.
fn take_all(reader: &mut LineReader, kind: StepKind, words: Option<&[u8]>) -> Result<bool, NoMemory>
    ensures { IfOk result (Took (take_words kind reader.old (pieces_after 32 words.entry)) reader.new) }
{
    let mut rest = words;
    while let Some(text) = rest {
        let (word, more) = cut_at(text, b' ');
        if !reader.take(kind, word)? {
            return Ok(false);
        }
        rest = more;
    }
    Ok(true)
}

/// Appends the step that the line is to the log. `false` where it is none.
pub(crate) fn read_step(
    reader: &mut LineReader,
    line: &[u8],
    log: &mut Log,
) -> Result<bool, NoMemory>
    ensures { IfOk result (Appended (read_line line.now) log.old log.new) }
{
    reader.clear();
    let (letter, words) = cut_at(line, b' ');
    let Some(kind) = kind_with(letter) else {
        return Ok(false);
    };
    if !take_all(reader, kind, words)? || !reader.is_whole(kind) {
        return Ok(false);
    }
    log.push(kind, reader.literals(), reader.chain())?;
    Ok(true)
}

/// The log whose steps' lines the text is. Its lines are numbered from 3.
pub(crate) fn read_steps(alloc: Global, text: &[u8]) -> Result<Log, LogErr>
    ensures ok { IfOk result (λ log. AreStepLines (pieces text.now) log) }
    ensures bad { OnSyntax result (λ line. (3 ≤ line) × IsFirstBadStep (pieces text.now) (line - 3)) }
{
    let mut log = Log::new(alloc);
    let mut reader = LineReader::new(alloc);
    let mut line = 3u64;
    let (mut front, mut rest) = cut_at(text, b'\n');
    while let Some(more) = rest {
        if !read_step(&mut reader, front, &mut log)? {
            return Err(LogErr::LogSyntax { line });
        }
        line += 1;
        (front, rest) = cut_at(more, b'\n');
    }
    if front.is_empty() {
        return Ok(log);
    }
    Err(LogErr::LogSyntax { line })
}
