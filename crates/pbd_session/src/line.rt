//! Printed lines.
ghost use Rattle.std.specs.Prelude.{◌≡◌, ◌+◌, ◌≤◌, length, codes, ◌∷◌, ◌++◌, []};
ghost use Rattle.std.specs.Fmt.{decimal, signed_decimal};
ghost use Rattle.pbd_world.specs.Ledger.{sum_of};
ghost use Rattle.pbd_world.specs.Text.{line, place_line, sum_line, refusal_line, phase_name};
ghost use Rattle.pbd_session.specs.Printing.{frame_header};
ghost use Rattle.pbd_session.specs.Replaying.{field_name, mismatch_line};

use crate::{Compared, Field};
use pbd_line::Line;
use pbd_world::{Particle, Phase, Refusal};

#[inline]
pub fn done_line() -> Line
    ensures { result ≡ line (codes "ok" ∷ []) }
{
    let mut line = Line::new();
    line.push("ok\n");
    line
}

/// The place of a particle.
#[tactic(auto, unfolding(pbd_world::specs::Text::place_line))]
#[inline]
pub fn place_line(p: &Particle) -> Line
    ensures { result ≡ place_line p.now }
{
    let mut line = Line::new();
    line.push_signed(p.at.x);
    line.push(" ");
    line.push_signed(p.at.y);
    line.push(" ");
    line.push_signed(p.at.z);
    line.push("\n");
    line
}

// A word, with what parts it from what stands before, and a count.
fn push_count(line: &mut Line, word: &str, count: u64)
    requires { length line.old + length word.now ≤ 236 }
    ensures bytes { line.new ≡ (line.old ++ word.now) ++ decimal count }
    ensures len { length line.new ≤ length line.old + length word.now + 20 }
{
    line.push(word);
    line.push_number(count);
}

/// The first line of a frame.
#[tactic(auto, unfolding(crate::specs::Printing::frame_header))]
#[inline]
pub fn header_line(steps: u64, particles: u32, live: u32, contacts: u32) -> Line
    ensures { result ≡ frame_header steps particles live contacts }
{
    let mut line = Line::new();
    push_count(&mut line, "frame ", steps);
    push_count(&mut line, " ", u64::from(particles));
    push_count(&mut line, " ", u64::from(live));
    push_count(&mut line, " ", u64::from(contacts));
    line.push("\n");
    line
}

// A word, with what parts it from what stands before, and a value.
fn push_value(line: &mut Line, word: &str, value: i128)
    requires { length line.old + length word.now ≤ 216 }
    ensures bytes { line.new ≡ (line.old ++ word.now) ++ signed_decimal value }
    ensures len { length line.new ≤ length line.old + length word.now + 40 }
{
    line.push(word);
    line.push_wide(value);
}

fn ledger_line(name: &str) -> Line
    requires { length name.now ≤ 8 }
    ensures bytes { result ≡ codes "ledger " ++ name.now }
    ensures short { length result ≤ 15 }
{
    let mut line = Line::new();
    line.push("ledger ");
    line.push(name);
    line
}

#[tactic(auto, unfolding(pbd_world::specs::Text::sum_line))]
fn wide_line(name: &str, x: i128, y: i128, z: i128) -> Line
    requires { length name.now ≤ 8 }
    ensures { result ≡ sum_line name.now (record { x = x; y = y; z = z }) }
{
    let mut line = ledger_line(name);
    push_value(&mut line, " ", x);
    push_value(&mut line, " ", y);
    push_value(&mut line, " ", z);
    line.push("\n");
    line
}

/// A line of a ledger. An axis has at most 40 bytes.
#[inline]
pub fn sum_line(name: &str, sum: &[i128; 3]) -> Line
    requires { length name.now ≤ 8 }
    ensures { result ≡ sum_line name.now (sum_of sum.now) }
{
    wide_line(name, sum[0], sum[1], sum[2])
}

fn phase_name(phase: Phase) -> &'static str
    ensures name { result.now ≡ phase_name phase }
    ensures short { length result.now ≤ 7 }
{
    match phase {
        Phase::Predict => "predict",
        Phase::Link => "link",
        Phase::Contact => "contact",
        Phase::Shape => "shape",
    }
}

#[tactic(auto, unfolding(pbd_world::specs::Text::refusal_line))]
fn leaves_line(step: u64, phase: Phase, element: u32) -> Line
    ensures { result ≡ refusal_line (Refusal.LeavesRange step phase element) }
{
    let mut line = Line::new();
    line.push("refused 11 LeavesRange step ");
    line.push_number(step);
    line.push(" phase ");
    line.push(phase_name(phase));
    line.push(" element ");
    line.push_number(u64::from(element));
    line.push("\n");
    line
}

#[tactic(auto, unfolding(pbd_world::specs::Text::refusal_line))]
#[inline]
pub fn refusal_line(refusal: &Refusal) -> Line
    ensures { result ≡ refusal_line refusal.now }
{
    let mut line = Line::new();
    match refusal {
        Refusal::BadCommand => line.push("refused 1 BadCommand\n"),
        Refusal::NoParticle => line.push("refused 2 NoParticle\n"),
        Refusal::NoLink => line.push("refused 3 NoLink\n"),
        Refusal::LinkGone => line.push("refused 4 LinkGone\n"),
        Refusal::OutOfRange => line.push("refused 5 OutOfRange\n"),
        Refusal::NotHeld => line.push("refused 6 NotHeld\n"),
        Refusal::Held => line.push("refused 7 Held\n"),
        Refusal::Tracked => line.push("refused 8 Tracked\n"),
        Refusal::BadCount => line.push("refused 9 BadCount\n"),
        Refusal::StepLimit => line.push("refused 10 StepLimit\n"),
        Refusal::LeavesRange {
            step,
            phase,
            element,
        } => return leaves_line(*step, *phase, *element),
        Refusal::TooManyContacts { step } => {
            line.push("refused 12 TooManyContacts step ");
            line.push_number(*step);
            line.push("\n");
        }
    }
    line
}

fn mismatch_at(entry: u64, field: Field) -> Line
    ensures bytes { result ≡ ((codes "error 10 Mismatch record " ++ decimal entry) ++ codes " field ") ++ field_name field }
    ensures short { length result ≤ 60 }
{
    let mut line = Line::new();
    line.push("error 10 Mismatch record ");
    line.push_number(entry);
    line.push(" field ");
    line.push(field.name());
    line
}

/// The line of a replay's mismatch, for the entry with this number.
#[tactic(auto, unfolding(crate::specs::Replaying::mismatch_line))]
pub fn mismatch_line(entry: u64, compared: &Compared) -> Line
    ensures { result ≡ mismatch_line entry compared.now }
{
    let mut line = mismatch_at(entry, compared.field);
    push_value(&mut line, " recorded ", compared.recorded);
    push_value(&mut line, " found ", compared.found);
    line.push("\n");
    line
}
