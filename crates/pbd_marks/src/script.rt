//! The commands of a marks script.
ghost use Rattle.std.specs.Prelude.{◌≡◌};
ghost use Rattle.pbd_script.specs.Lines.{words};
ghost use Rattle.pbd_marks.specs.Script.{mark_form, mark_words, mark_line_command, mark_commands, mark_commands_by_line};

use crate::MarkCommand;
use pbd_script::lines::{next_word, only_count, without_return};
use pbd_script::{CommandLines, LineCommand, line_command};

/// The commands of a marks script that are still to come.
pub type MarkScript<'a> = CommandLines<'a, MarkCommand>;

impl LineCommand for MarkCommand {
    ghost of_line = { mark_line_command };

    ghost of_script = { mark_commands };

    ghost line_by_line = { mark_commands_by_line };

    fn of_line(line: &[u8]) -> Option<MarkCommand> {
        match mark_words(without_return(line)) {
            Some(command) => Some(command),
            None => line_command(line).map(MarkCommand::Plain),
        }
    }
}

/// The mark that a line sets or goes back to.
fn mark_words(line: &[u8]) -> Option<MarkCommand>
    ensures { result ≡ mark_words (words line.now) }
{
    let (word, rest) = next_word(line)?;
    mark_form(word, rest)
}

#[tactic(auto, unfolding(crate::specs::Script::mark_form))]
fn mark_form(word: &[u8], rest: &[u8]) -> Option<MarkCommand>
    ensures { result ≡ mark_form word.now (words rest.now) }
{
    if word == b"mark".as_slice() {
        only_count(rest).map(MarkCommand::Mark)
    } else if word == b"rewind".as_slice() {
        only_count(rest).map(MarkCommand::Rewind)
    } else {
        None
    }
}
