//! Lines of what stops a run, and of a generated scene.
ghost use Rattle.std.specs.Prelude.{◌≡◌, ◌+◌, ◌≤◌, ◌++◌, [], ◌∷◌, length, codes, decimal};
ghost use Rattle.pbd_scene.specs.Keys.{rule_number, rule_text, table_text, key_text};
ghost use Rattle.pbd_outcome.specs.Statuses.{broken_at, line_in, log_line, refused_line, status_line};
ghost use Rattle.std.specs.Fmt.{signed_decimal};
ghost use Rattle.pbd_session.specs.Replaying.{axis};
ghost use Rattle.pbd_outcome.specs.Generated.{large_line, sums_line};
ghost use Rattle.pbd_outcome.specs.ObjText.{fault_name, fault_number, fault_place, obj_line};

use pbd_line::Line;
use pbd_obj::ObjFault;
use pbd_outcome::Status;
use pbd_scene::{KeyName, SceneRule, TableName};
use pbd_world::FrameSums;

#[tactic(auto, using(pbd_outcome::proofs::LineLaws::rule_short))]
fn rule_name(rule: SceneRule) -> &'static str
    ensures name { result.now ≡ rule_text rule }
    ensures short { length result.now ≤ 20 }
{
    rule.name()
}

fn rule_number(rule: SceneRule) -> u64
    ensures { result ≡ rule_number rule }
{
    u64::from(rule.number())
}

#[tactic(auto, using(pbd_outcome::proofs::LineLaws::table_short))]
fn table_name(table: TableName) -> &'static str
    ensures name { result.now ≡ table_text table }
    ensures short { length result.now ≤ 20 }
{
    table.name()
}

#[tactic(auto, using(pbd_outcome::proofs::LineLaws::key_short))]
fn key_name(key: KeyName) -> &'static str
    ensures name { result.now ≡ key_text key }
    ensures short { length result.now ≤ 20 }
{
    key.name()
}

// A blank and a word.
fn push_word(line: &mut Line, word: &str)
    requires { length line.old + length word.now ≤ 255 }
    ensures bytes { line.new ≡ (line.old ++ codes " ") ++ word.now }
    ensures len { length line.new ≡ length line.old + 1 + length word.now }
{
    line.push(" ");
    line.push(word);
}

/// The line of a scene that breaks a rule, without its newline.
pub fn refused_words(rule: SceneRule, table: TableName, position: u32, key: KeyName) -> Line
    ensures bytes { result ++ 10 ∷ [] ≡ refused_line (broken_at rule table position key) }
    ensures short { length result ≤ 200 }
{
    let mut line = Line::new();
    line.push("error 8 SceneRefused ");
    line.push_number(rule_number(rule));
    push_word(&mut line, rule_name(rule));
    push_word(&mut line, table_name(table));
    line.push(" ");
    line.push_number(u64::from(position));
    push_word(&mut line, key_name(key));
    line
}

/// The line of a scene that breaks a rule.
pub fn refused_line(rule: SceneRule, table: TableName, position: u32, key: KeyName) -> Line
    ensures { result ≡ refused_line (broken_at rule table position key) }
{
    let mut line = refused_words(rule, table, position, key);
    line.push("\n");
    line
}

/// Ends a line with the number of its scene.
pub fn push_in(line: &mut Line, n: u32)
    requires { length line.old ≤ 200 }
    ensures { line.new ≡ line_in n (line.old ++ 10 ∷ []) }
{
    line.push(" in ");
    line.push_number(u64::from(n));
    line.push("\n");
}

/// A line of these words and the number of its scene.
fn words_in(words: &str, n: u32) -> Line
    requires { length words.now ≤ 200 }
    ensures { result ≡ line_in n (words.now ++ 10 ∷ []) }
{
    let mut line = Line::new();
    line.push(words);
    push_in(&mut line, n);
    line
}

/// The line of a scene of a host that is no UTF-8.
pub fn not_text_line_in(n: u32) -> Line
    ensures { result ≡ line_in n (status_line Status.SceneNotText) }
{
    words_in("error 6 SceneNotText", n)
}

/// The line of a scene of a host that is no TOML, or deeper or longer than is read.
pub fn not_toml_line_in(n: u32) -> Line
    ensures { result ≡ line_in n (status_line Status.SceneNotToml) }
{
    words_in("error 7 SceneNotToml", n)
}

/// The line of bytes that are no log.
#[tactic(auto, unfolding(pbd_outcome::specs::Statuses::log_line))]
pub fn log_line(offset: u64) -> Line
    ensures { result ≡ log_line offset }
{
    let mut line = Line::new();
    line.push("error 9 LogRefused offset ");
    line.push_number(offset);
    line.push("\n");
    line
}

// ---- the lines of a mesh

fn fault_number(fault: ObjFault) -> u64
    ensures { result ≡ fault_number fault }
{
    match fault {
        ObjFault::OutOfMemory => 0,
        ObjFault::BadNumber { .. } => 1,
        ObjFault::BadFace { .. } => 2,
        ObjFault::OutOfRange { .. } => 3,
        ObjFault::TooMany => 4,
        ObjFault::TooManyAtParticle { .. } => 5,
    }
}

fn fault_name(fault: ObjFault) -> &'static str
    ensures name { result.now ≡ fault_name fault }
    ensures short { length result.now ≤ 20 }
{
    match fault {
        ObjFault::OutOfMemory => "",
        ObjFault::BadNumber { .. } => "BadNumber",
        ObjFault::BadFace { .. } => "BadFace",
        ObjFault::OutOfRange { .. } => "OutOfRange",
        ObjFault::TooMany => "TooMany",
        ObjFault::TooManyAtParticle { .. } => "TooManyAtParticle",
    }
}

/// The line or the vertex of a fault, counted from 1, or 0.
fn fault_place(fault: ObjFault) -> u32
    ensures { result ≡ fault_place fault }
{
    match fault {
        ObjFault::OutOfMemory | ObjFault::TooMany => 0,
        ObjFault::BadNumber { line } => line,
        ObjFault::BadFace { line } => line,
        ObjFault::OutOfRange { line } => line,
        ObjFault::TooManyAtParticle { vertex } => vertex,
    }
}

/// The line of a mesh that is refused.
pub fn obj_line(fault: ObjFault) -> Line
    ensures { result ≡ obj_line fault }
{
    let mut line = Line::new();
    line.push("error 14 ObjRefused ");
    line.push_number(fault_number(fault));
    line.push(" ");
    line.push(fault_name(fault));
    line.push(" at ");
    line.push_number(u64::from(fault_place(fault)));
    line.push("\n");
    line
}

// ---- the lines of a generated scene

/// The first line.
#[tactic(auto, unfolding(pbd_outcome::specs::Generated::large_line))]
pub fn large_line(number: u64, size: u32) -> Line
    ensures { result ≡ large_line number size }
{
    let mut line = Line::new();
    line.push("large ");
    line.push_number(number);
    line.push(" ");
    line.push_number(u64::from(size));
    line.push("\n");
    line
}

fn push_axes(line: &mut Line, axes: &[i64; 3])
    requires { length line.old ≤ 190 }
    ensures bytes { line.new ≡ line.old ++ 32 ∷ (signed_decimal (axis axes.now 0)
        ++ 32 ∷ (signed_decimal (axis axes.now 1) ++ 32 ∷ signed_decimal (axis axes.now 2))) }
    ensures len { length line.new ≤ length line.old + 63 }
{
    line.push(" ");
    line.push_signed(axes[0]);
    line.push(" ");
    line.push_signed(axes[1]);
    line.push(" ");
    line.push_signed(axes[2]);
}

/// The line of the sums.
pub fn sums_line(sums: &FrameSums) -> Line
    ensures { result ≡ sums_line sums.now }
{
    let mut line = Line::new();
    line.push("sums ");
    line.push_number(sums.steps);
    line.push(" ");
    line.push_number(u64::from(sums.live));
    line.push(" ");
    line.push_number(u64::from(sums.contacts));
    push_axes(&mut line, &sums.at);
    push_axes(&mut line, &sums.before);
    line.push("\n");
    line
}
