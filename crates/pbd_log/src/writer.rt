// Writes a log, part by part.
ghost use Rattle.std.specs.Prelude.{◌≡◌, ◌+◌, ◌≤◌, ◌<◌, ◌^◌, ◌++◌, [], length, OnOk, OnErr, IfOk, IsTrue};
ghost use Rattle.pbd_io.specs.Causes.{HasCause};
ghost use Rattle.pbd_io.specs.Pieces.{WritesPiece};
ghost use Rattle.pbd_world.specs.Valid.{is_limit};
ghost use Rattle.pbd_log.specs.Entries.{operand_bytes, command_bytes, answer_bytes, sums_bytes, entry_bytes, OperandsFit, CommandFits, SumsFit, IsGrammatical, HasWidths, IsEntry};
ghost use Rattle.pbd_log.specs.Logs.{header_bytes, end_bytes};

use crate::pushes::{push_axes, push_byte, push_u32, push_u64, push_vector};
use crate::{Answer, Entry};
use pbd_io::{Failed, Sink};
use pbd_line::Line;
use pbd_world::{Command, FrameSums, Operands};
use std::marker::Model;

fn push_operands(piece: &mut Line, operands: &Operands)
    requires { length piece.old ≡ 1 }
    ensures bytes { piece.new ≡ piece.old ++ operand_bytes operands.now }
    ensures fits { OperandsFit operands.now }
    ensures room { length piece.new ≤ 33 }
{
    match operands {
        Operands::Nothing => {}
        Operands::Number(number) => push_u64(piece, *number),
        Operands::Vector(vector) => push_vector(piece, vector),
        Operands::NumberAndVector(number, vector) => {
            push_u64(piece, *number);
            push_vector(piece, vector);
        }
    }
}

#[tactic(auto, unfolding(crate::specs::Entries::command_bytes))]
fn push_command(piece: &mut Line, command: &Command)
    requires { length piece.old ≡ 0 }
    ensures bytes { piece.new ≡ piece.old ++ command_bytes command.now }
    ensures fits { CommandFits command.now }
    ensures room { length piece.new ≤ 33 }
{
    let (verb, operands) = command.parts();
    push_byte(piece, verb.row().code);
    push_operands(piece, &operands);
}

#[tactic(auto, unfolding(crate::specs::Entries::answer_bytes))]
fn push_answer(piece: &mut Line, answer: &Answer)
    requires { length piece.old ≤ 33 }
    ensures bytes { piece.new ≡ piece.old ++ answer_bytes answer.now }
    ensures room { length piece.new ≤ length piece.old + 14 }
    ensures step { answer.now.step < 2 ^ 64 }
    ensures element { answer.now.element < 2 ^ 32 }
{
    let Answer {
        number,
        step,
        phase,
        element,
    } = *answer;
    push_byte(piece, number);
    if number == 11 {
        push_u64(piece, step);
        push_byte(piece, phase);
        push_u32(piece, element);
    } else if number == 12 {
        push_u64(piece, step);
    }
}

#[tactic(auto, unfolding(crate::specs::Entries::sums_bytes))]
fn push_sums(piece: &mut Line, sums: &FrameSums)
    requires { length piece.old ≤ 47 }
    ensures bytes { piece.new ≡ piece.old ++ sums_bytes sums.now }
    ensures fits { SumsFit sums.now }
{
    push_u64(piece, sums.steps);
    push_u32(piece, sums.live);
    push_u32(piece, sums.contacts);
    push_axes(piece, &sums.at);
    push_axes(piece, &sums.before);
}

#[tactic(auto, unfolding(crate::specs::Entries::entry_bytes))]
fn push_entry(piece: &mut Line, entry: &Entry)
    requires { piece.old ≡ [] }
    ensures bytes { piece.new ≡ entry_bytes entry.now }
    ensures widths { HasWidths entry.now }
{
    push_command(piece, &entry.command);
    push_answer(piece, &entry.answer);
    if let Some(sums) = &entry.sums {
        push_sums(piece, sums);
    }
}

#[tactic(auto, unfolding(crate::specs::Logs::header_bytes, crate::specs::Logs::opening_bytes))]
fn push_header(piece: &mut Line, limit: i64, len: u32)
    requires empty { piece.old ≡ [] }
    requires limit { IsTrue (is_limit limit) }
    ensures { piece.new ≡ header_bytes 2 limit len }
{
    piece.push("PBDSLOG");
    push_byte(piece, 2);
    push_u64(piece, limit as u64);
    push_u32(piece, len);
}

/// Writes a log of version 2, part by part. Clauses see it as the number of entries so far.
/// The header, a scene that isn't empty, each entry and the end are one call of `write` each, as tests show.
#[derive(Drop)]
pub struct LogWriter {
    entries: u64,
}

impl Model for LogWriter {
    ghost use Rattle.std.specs.Prelude.{ℕ};

    ghost Value = { ℕ };

    ghost view = { λ w. w.entries };
}

impl LogWriter {
    /// Writes the header and the scene, which has fewer than 2^32 bytes. The limit is 268,435,456 or 536,870,912.
    /// `Failed` comes only where the sink's count of faults rose, or stands at 2^64 - 1, and then a prefix of these bytes
    /// was appended.
    pub fn begin<K: Sink>(sink: &mut K, limit: i64, scene: &[u8]) -> Result<LogWriter, Failed>
        requires limit { IsTrue (is_limit limit) }
        requires scene { length scene.now < 2 ^ 32 }
        ensures bytes { WritesPiece (K.written sink.old) (K.written sink.new) result
            (header_bytes 2 limit (length scene.now) ++ scene.now) }
        ensures cause { HasCause (K.faults sink.old) (K.faults sink.new) result }
        ensures entries { IfOk result (λ writer. writer ≡ 0) }
    {
        let mut header = Line::new();
        push_header(&mut header, limit, scene.len() as u32);
        sink.write(header.as_slice())?;
        if !scene.is_empty() {
            sink.write(scene)?;
        }
        Ok(LogWriter { entries: 0 })
    }

    /// Writes an entry, where fewer than 2^32 stand before it. `Failed` is as for `begin`, and the writer is as before.
    pub fn append<K: Sink>(&mut self, sink: &mut K, entry: &Entry) -> Result<(), Failed>
        requires grammar { IsGrammatical entry.now }
        requires room { self.old < 2 ^ 32 }
        ensures bytes { WritesPiece (K.written sink.old) (K.written sink.new) result (entry_bytes entry.now) }
        ensures cause { HasCause (K.faults sink.old) (K.faults sink.new) result }
        ensures ok { OnOk result (self.new ≡ self.old + 1) }
        ensures err { OnErr result (self.new ≡ self.old) }
        // Its numbers have the widths of their fields, so it is an entry that can be read again.
        ensures entry { IsEntry entry.now }
    {
        let mut piece = Line::new();
        push_entry(&mut piece, entry);
        sink.write(piece.as_slice())?;
        self.entries += 1;
        Ok(())
    }

    /// Writes the end. `Failed` is as for `begin`.
    #[tactic(auto, unfolding(crate::specs::Logs::end_bytes))]
    pub fn finish<K: Sink>(self, sink: &mut K) -> Result<(), Failed>
        ensures bytes { WritesPiece (K.written sink.old) (K.written sink.new) result (end_bytes self) }
        ensures cause { HasCause (K.faults sink.old) (K.faults sink.new) result }
    {
        let mut piece = Line::new();
        push_byte(&mut piece, 0);
        push_u64(&mut piece, self.entries);
        sink.write(piece.as_slice())
    }
}
