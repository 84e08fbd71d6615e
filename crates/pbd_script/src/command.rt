//! The command of one line: a verb's word, and operands of its kind.
ghost use Rattle.std.specs.Prelude.{◌≡◌};
ghost use Rattle.pbd_script.specs.Commands.{nothing, only_vector, number_and_vector, operands_in, form, line_command};
ghost use Rattle.pbd_script.specs.Lines.{words};

use crate::lines::{count_of, next_word, number_of, only_count, without_return};
use pbd_num::Vec3;
use pbd_world::{Command, OperandKind, Operands, Verb};

fn nothing(rest: &[u8]) -> Option<Operands>
    ensures { result ≡ nothing (words rest.now) }
{
    match next_word(rest) {
        None => Some(Operands::Nothing),
        Some(_) => None,
    }
}

fn only_vector(rest: &[u8]) -> Option<Vec3>
    ensures { result ≡ only_vector (words rest.now) }
{
    let (x, rest) = next_word(rest)?;
    let (y, rest) = next_word(rest)?;
    let (z, rest) = next_word(rest)?;
    match next_word(rest) {
        None => Some(Vec3 {
            x: number_of(x)?,
            y: number_of(y)?,
            z: number_of(z)?,
        }),
        Some(_) => None,
    }
}

fn number_and_vector(rest: &[u8]) -> Option<Operands>
    ensures { result ≡ number_and_vector (words rest.now) }
{
    let (number, axes) = next_word(rest)?;
    Some(Operands::NumberAndVector(count_of(number)?, only_vector(axes)?))
}

/// The operands of this kind that the words of a text write.
fn operands_of(kind: OperandKind, rest: &[u8]) -> Option<Operands>
    ensures { result ≡ operands_in kind (words rest.now) }
{
    match kind {
        OperandKind::Nothing => nothing(rest),
        OperandKind::Number => only_count(rest).map(Operands::Number),
        OperandKind::Vector => only_vector(rest).map(Operands::Vector),
        OperandKind::NumberAndVector => number_and_vector(rest),
    }
}

#[tactic(auto, unfolding(crate::specs::Commands::form))]
fn form(word: &[u8], rest: &[u8]) -> Option<Command>
    ensures { result ≡ form word.now (words rest.now) }
{
    let verb = Verb::named(word)?;
    let operands = operands_of(verb.row().kind, rest)?;
    verb.with(&operands)
}

/// The command of a line without its newline, where one carriage return at its end is left out.
/// None comes exactly where the line has no words or its first word begins with `#`.
/// Any other line that isn't a verb's word and operands of its kind gives `Bad`.
pub fn line_command(line: &[u8]) -> Option<Command>
    ensures { result ≡ line_command line.now }
{
    let (word, rest) = next_word(without_return(line))?;
    if word.starts_with(b"#".as_slice()) {
        return None;
    }
    match form(word, rest) {
        Some(command) => Some(command),
        None => Some(Command::Bad),
    }
}
