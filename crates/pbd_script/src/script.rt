//! The commands of a script in order.
ghost use Rattle.std.specs.Prelude.{◌≡◌, ◌≤◌, ◌+◌, ℕ, List, Option, [], ◌∷◌, length, filter_map, MatchOption};
ghost use Rattle.pbd_script.specs.Commands.{commands, commands_by_line, line_command};
ghost use Rattle.pbd_script.specs.Lines.{pieces, left_of};

use crate::lines::first_line;
use pbd_world::Command;
use std::marker::{Model, PhantomData};

/// What a line of a script can say.
pub trait LineCommand: Sized + Drop {
    ghost of_line: { List ℕ → Option Self };

    ghost of_script: { List ℕ → List Self };

    /// The command of a line without its newline, where it has one.
    fn of_line(line: &[u8]) -> Option<Self>
        ensures { result ≡ of_line line.now };

    /// The commands of a script are those of its lines, in order.
    ghost line_by_line: { (script : List ℕ) → of_script script ≡ filter_map of_line (pieces script) };
}

impl LineCommand for Command {
    ghost of_line = { line_command };

    ghost of_script = { commands };

    ghost line_by_line = { commands_by_line };

    fn of_line(line: &[u8]) -> Option<Command> {
        crate::line_command(line)
    }
}

/// The commands of lines that are still to come. Clauses see their list.
#[derive(Drop)]
pub struct CommandLines<'a, C: LineCommand> {
    rest: Option<&'a [u8]>,
    of: PhantomData<C>,
}

impl<'a, C: LineCommand> Model for CommandLines<'a, C> {
    ghost use Rattle.std.specs.Prelude.{List, filter_map};
    ghost use Rattle.pbd_script.specs.Lines.{pieces, left_of};

    ghost Value = { List C };

    ghost view = { λ s. filter_map C.of_line (left_of pieces s.rest) };
}

impl<'a, C: LineCommand> CommandLines<'a, C> {
    /// A script has at most one command more than bytes.
    pub fn new(bytes: &'a [u8]) -> CommandLines<'a, C>
        ensures all { result ≡ C.of_script bytes.now }
        ensures few { length result ≤ length bytes.now + 1 }
    {
        CommandLines {
            rest: Some(bytes),
            of: PhantomData,
        }
    }

    /// The next command. None comes exactly at the end.
    pub fn next(&mut self) -> Option<C>
        ensures { MatchOption result ((self.old ≡ []) × (self.new ≡ []))
            (λ command. self.old ≡ command ∷ self.new) }
    {
        let (command, rest) = next_command(self.rest)?;
        self.rest = rest;
        Some(command)
    }
}

/// The commands of a script that are still to come.
pub type Script<'a> = CommandLines<'a, Command>;

/// The first command of what is left of a script, and what is left behind its line.
fn next_command<C: LineCommand>(script: Option<&[u8]>) -> Option<(C, Option<&[u8]>)>
    ensures { MatchOption result (filter_map C.of_line (left_of pieces script.entry) ≡ [])
        (λ x. filter_map C.of_line (left_of pieces script.entry) ≡ x.0 ∷ filter_map C.of_line (left_of pieces x.1)) }
{
    let mut rest = script;
    while let Some(bytes) = rest {
        let (line, later) = first_line(bytes);
        if let Some(command) = C::of_line(line) {
            return Some((command, later));
        }
        rest = later;
    }
    None
}
