//! The line of a run whose arguments are refused.
ghost use Rattle.std.specs.Prelude.{◌≡◌, true};
ghost use Rattle.refusal.specs.Ends.{PrintCounts, Prints};
ghost use Rattle.localise_cmd.specs.Usage.{usage_line};

use command_words::{Usage, page_text};
use io_ports::Sink;
use refusal::{Code, Note, Notes, Refusal, print_line};
use requests::HelpPage;

/// The argument that is wrong, where that is known: the one that names no command.
fn wrong_word(usage: Usage, words: &[String]) -> &str {
    match words.first() {
        Some(word) if usage == Usage::Command => word.as_str(),
        _ => "",
    }
}

/// How the command that is asked for is called: the first line of its page of help.
fn synopsis(words: &[String]) -> &'static [u8] {
    let page = match words.first().map(|word| word.as_str()) {
        Some("find") => HelpPage::Find,
        Some("sim") => HelpPage::Sim,
        Some("check") => HelpPage::Check,
        Some("make") => HelpPage::Make,
        _ => return b"usage: localise COMMAND ARGUMENT..",
    };
    let text = page_text(page);
    match text.iter().position(|byte| *byte == b'\n') {
        Some(end) => &text[..end],
        None => text,
    }
}

/// The line that says what is wrong with the arguments.
fn line_text(usage: Usage) -> &'static str
    ensures { result.now ≡ usage_line usage }
{
    match usage {
        Usage::Command => "usage command\n",
        Usage::Words => "usage words\n",
        Usage::Number => "usage number\n",
        Usage::Name => "usage name\n",
        Usage::Kind => "usage kind\n",
    }
}

/// Tells what is wrong with the arguments and how the command is called, prints what is wrong, and answers the status of the program.
pub(crate) fn refuse<O: Sink, N: Notes>(
    usage: Usage,
    words: &[String],
    out: &mut O,
    notes: &mut N,
) -> u8
    ensures text { O.tells out.old ≡ true → Prints (usage_line usage) 2 (O.written out.old) (O.written out.new) result }
    ensures counts { PrintCounts 2 (O.faults out.old) (O.faults out.new) result }
{
    notes.note(&Note::Usage {
        cause: &Refusal::of(Code::Bare("usage"), &usage),
        word: wrong_word(usage, words),
        synopsis: synopsis(words),
    });
    print_line(line_text(usage).as_bytes(), 2, out)
}
