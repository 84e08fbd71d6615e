// Reads the fields of an entry, each from the front of some bytes.
ghost use Rattle.std.specs.Prelude.{◌≡◌, ◌<◌, ◌^◌, ◌==◌, length};
ghost use Rattle.pbd_log.specs.Entries.{has_sums};
ghost use Rattle.pbd_log.specs.Laws.{IsBytes};
ghost use Rattle.pbd_log.specs.Reading.{Gives, byte_at, number_at, signed_at, vector_at, operands_at, command_at, leaves_at, too_many_at, carried_at, answer_at, axes_at, sums_at, optional_at, entry_at, after_end};

use crate::{Answer, Entry};
use byteorder::{BigEndian, ByteOrder};
use pbd_num::Vec3;
use pbd_world::{Command, FrameSums, OperandKind, Operands, Verb};

// Each reader answers a value and the bytes after it, or None where none stands at the front.

fn byte_of(bytes: &[u8]) -> Option<(u8, &[u8])>
    ensures { Gives (λ x. (x.0, x.1.now)) result (byte_at bytes.now) }
{
    match bytes {
        [] => None,
        [first, rest @ ..] => Some((*first, rest)),
    }
}

#[tactic(auto, unfolding(crate::specs::Reading::number_at))]
pub fn u32_of(bytes: &[u8]) -> Option<(u32, &[u8])>
    ensures { Gives (λ x. (x.0, x.1.now)) result (number_at 4 bytes.now) }
{
    if bytes.len() < 4 {
        return None;
    }
    Some((BigEndian::read_u32(bytes), &bytes[4..]))
}

#[tactic(auto, unfolding(crate::specs::Reading::number_at))]
pub fn u64_of(bytes: &[u8]) -> Option<(u64, &[u8])>
    ensures { Gives (λ x. (x.0, x.1.now)) result (number_at 8 bytes.now) }
{
    if bytes.len() < 8 {
        return None;
    }
    Some((BigEndian::read_u64(bytes), &bytes[8..]))
}

#[tactic(auto, unfolding(crate::specs::Reading::signed_at))]
fn i64_of(bytes: &[u8]) -> Option<(i64, &[u8])>
    ensures { Gives (λ x. (x.0, x.1.now)) result (signed_at bytes.now) }
{
    let (number, rest) = u64_of(bytes)?;
    Some((number.cast_signed(), rest))
}

#[tactic(auto, unfolding(crate::specs::Reading::vector_at))]
fn vector_of(bytes: &[u8]) -> Option<(Vec3, &[u8])>
    ensures { Gives (λ x. (x.0, x.1.now)) result (vector_at bytes.now) }
{
    let (x, rest) = i64_of(bytes)?;
    let (y, rest) = i64_of(rest)?;
    let (z, rest) = i64_of(rest)?;
    Some((Vec3 { x, y, z }, rest))
}

#[tactic(auto, unfolding(crate::specs::Reading::operands_at))]
fn operands_of(kind: OperandKind, bytes: &[u8]) -> Option<(Operands, &[u8])>
    ensures { Gives (λ x. (x.0, x.1.now)) result (operands_at kind bytes.now) }
{
    match kind {
        OperandKind::Nothing => Some((Operands::Nothing, bytes)),
        OperandKind::Number => {
            let (number, rest) = u64_of(bytes)?;
            Some((Operands::Number(number), rest))
        }
        OperandKind::Vector => {
            let (vector, rest) = vector_of(bytes)?;
            Some((Operands::Vector(vector), rest))
        }
        OperandKind::NumberAndVector => {
            let (number, rest) = u64_of(bytes)?;
            let (vector, rest) = vector_of(rest)?;
            Some((Operands::NumberAndVector(number, vector), rest))
        }
    }
}

#[tactic(auto, unfolding(crate::specs::Reading::command_at))]
fn command_of(bytes: &[u8]) -> Option<(Command, &[u8])>
    ensures { Gives (λ x. (x.0, x.1.now)) result (command_at bytes.now) }
{
    let (code, rest) = byte_of(bytes)?;
    let verb = Verb::coded(code)?;
    let (operands, rest) = operands_of(verb.row().kind, rest)?;
    let command = verb.with(&operands)?;
    Some((command, rest))
}

#[tactic(auto, unfolding(crate::specs::Reading::leaves_at))]
fn leaves_of(bytes: &[u8]) -> Option<(Answer, &[u8])>
    ensures { Gives (λ x. (x.0, x.1.now)) result (leaves_at bytes.now) }
{
    let (step, rest) = u64_of(bytes)?;
    let (phase, rest) = byte_of(rest)?;
    let (element, rest) = u32_of(rest)?;
    if phase < 1 {
        return None;
    }
    if 4 < phase {
        return None;
    }
    Some((
        Answer {
            number: 11,
            step,
            phase,
            element,
        },
        rest,
    ))
}

#[tactic(auto, unfolding(crate::specs::Reading::too_many_at))]
fn too_many_of(bytes: &[u8]) -> Option<(Answer, &[u8])>
    ensures { Gives (λ x. (x.0, x.1.now)) result (too_many_at bytes.now) }
{
    let (step, rest) = u64_of(bytes)?;
    Some((
        Answer {
            number: 12,
            step,
            phase: 0,
            element: 0,
        },
        rest,
    ))
}

#[tactic(auto, unfolding(crate::specs::Reading::carried_at))]
fn carried_of(number: u8, bytes: &[u8]) -> Option<(Answer, &[u8])>
    ensures { Gives (λ x. (x.0, x.1.now)) result (carried_at number bytes.now) }
{
    if number <= 10 {
        let answer = Answer {
            number,
            step: 0,
            phase: 0,
            element: 0,
        };
        return Some((answer, bytes));
    }
    match number {
        11 => leaves_of(bytes),
        12 => too_many_of(bytes),
        _ => None,
    }
}

#[tactic(auto, unfolding(crate::specs::Reading::answer_at))]
fn answer_of(bytes: &[u8]) -> Option<(Answer, &[u8])>
    ensures { Gives (λ x. (x.0, x.1.now)) result (answer_at bytes.now) }
{
    let (number, rest) = byte_of(bytes)?;
    carried_of(number, rest)
}

#[tactic(auto, unfolding(crate::specs::Reading::axes_at))]
fn axes_of(bytes: &[u8]) -> Option<([i64; 3], &[u8])>
    ensures { Gives (λ x. (x.0, x.1.now)) result (axes_at bytes.now) }
{
    let (x, rest) = i64_of(bytes)?;
    let (y, rest) = i64_of(rest)?;
    let (z, rest) = i64_of(rest)?;
    Some(([x, y, z], rest))
}

#[tactic(auto, unfolding(crate::specs::Reading::sums_at))]
fn sums_of(bytes: &[u8]) -> Option<(FrameSums, &[u8])>
    ensures { Gives (λ x. (x.0, x.1.now)) result (sums_at bytes.now) }
{
    let (steps, rest) = u64_of(bytes)?;
    let (live, rest) = u32_of(rest)?;
    let (contacts, rest) = u32_of(rest)?;
    let (at, rest) = axes_of(rest)?;
    let (before, rest) = axes_of(rest)?;
    Some((
        FrameSums {
            steps,
            live,
            contacts,
            at,
            before,
        },
        rest,
    ))
}

/// Whether sums stand after this command and this answer.
pub fn has_sums(command: &Command, number: u8) -> bool
    ensures { result ≡ has_sums command.now number }
{
    match command {
        Command::Step(_) => number == 0,
        _ => false,
    }
}

#[tactic(auto, unfolding(crate::specs::Reading::optional_at))]
fn optional_of(stand: bool, bytes: &[u8]) -> Option<(Option<FrameSums>, &[u8])>
    ensures { Gives (λ x. (x.0, x.1.now)) result (optional_at stand bytes.now) }
{
    if !stand {
        return Some((None, bytes));
    }
    let (sums, rest) = sums_of(bytes)?;
    Some((Some(sums), rest))
}

#[tactic(auto, unfolding(crate::specs::Reading::entry_at))]
fn entry_of(bytes: &[u8]) -> Option<(Entry, &[u8])>
    ensures { Gives (λ x. (x.0, x.1.now)) result (entry_at bytes.now) }
{
    let (command, rest) = command_of(bytes)?;
    let (answer, rest) = answer_of(rest)?;
    let stand = has_sums(&command, answer.number);
    let (sums, rest) = optional_of(stand, rest)?;
    Some((
        Entry {
            command,
            answer,
            sums,
        },
        rest,
    ))
}

/// The entry at the front.
pub fn next_entry(bytes: &[u8]) -> Option<(Entry, &[u8])>
    ensures gives { Gives (λ x. (x.0, x.1.now)) result (entry_at bytes.now) }
    ensures fits { IsBytes bytes.now }
    ensures short { length bytes.now < 2 ^ 63 }
{
    entry_of(bytes)
}

/// What follows the end, where the end with this number stands at the front.
#[tactic(auto, unfolding(crate::specs::Reading::after_end))]
pub fn after_end(count: u64, bytes: &[u8]) -> Option<&[u8]>
    ensures { Gives (λ x. x.now) result (after_end count bytes.now) }
{
    let (zero_byte, rest) = byte_of(bytes)?;
    let (number, rest) = u64_of(rest)?;
    if zero_byte != 0 {
        return None;
    }
    if number != count {
        return None;
    }
    Some(rest)
}
