//! The words that ask for a page of help.
ghost use Rattle.std.specs.Prelude.{◌≡◌, map, string_bytes};
ghost use Rattle.command_words.specs.Help.{page_after_help, page_alone, page_asked, page_of_command};

use requests::HelpPage;
use word_values::Usage;

/// The page of a command.
fn page_of_command(command: &str) -> Result<HelpPage, Usage>
    ensures { result ≡ page_of_command command.now }
{
    match command {
        "find" => Ok(HelpPage::Find),
        "sim" => Ok(HelpPage::Sim),
        "check" => Ok(HelpPage::Check),
        "make" => Ok(HelpPage::Make),
        _ => Err(Usage::Words),
    }
}

/// The page that is asked for by the words after `help`: none, or a command.
fn page_after_help(words: &[String]) -> Result<HelpPage, Usage>
    ensures { result ≡ page_after_help (map string_bytes words.now) }
{
    match words {
        [] => Ok(HelpPage::Overview),
        [command] => page_of_command(command.as_str()),
        _ => Err(Usage::Words),
    }
}

/// A page, where no word stands after the one that asks for it.
fn page_alone(page: HelpPage, words: &[String]) -> Result<HelpPage, Usage>
    ensures { result ≡ page_alone page (map string_bytes words.now) }
{
    if words.is_empty() {
        Ok(page)
    } else {
        Err(Usage::Words)
    }
}

/// The page that words ask for which begin with no other command: `help`, `help COMMAND`, `--help`, `-h`, `--version`.
pub(crate) fn page_words(words: &[String]) -> Result<HelpPage, Usage>
    ensures { result ≡ page_asked (map string_bytes words.now) }
{
    let Some((word, rest)) = words.split_first() else {
        return Err(Usage::Command);
    };
    match word.as_str() {
        "help" => page_after_help(rest),
        "--help" | "-h" => page_alone(HelpPage::Overview, rest),
        "--version" => page_alone(HelpPage::Version, rest),
        _ => Err(Usage::Command),
    }
}
