//! A cloth from the text of a scene, or why there is none.
ghost use Rattle.std.specs.Prelude.{◌≡◌, ◌≤◌, ℤ, IfOk, IsTrue, MatchResult, None, Some, pos, slice_get};
ghost use Rattle.lakmozet_c.specs.Prelude.{opened, parse_document, AreSlots, IsUtf8};
ghost use Rattle.pbd_world.specs.Valid.{is_limit};
ghost use Rattle.pbd_cloth.specs.Slots.{begun};
ghost use Rattle.pbd_scene.specs.declared.fault.SceneFault.TheVariants.{OutOfMemory};
ghost use Rattle.pbd_scene.specs.Keys.{key_names, table_names};
ghost use Rattle.lakmozet_c.specs.declared.opening.NoCloth.TheVariants.{NoScene};
ghost use Rattle.lakmozet_c.specs.Faults.{stop_number, IsFaultIn, IsOpened, IsSceneIn, IsWhy, IsWhyIn, TellsWhy};

use crate::numbers::{NO_SLOT, OUT_OF_MEMORY, SCENE_NOT_TEXT, SCENE_NOT_TOML, SCENE_REFUSED};
use crate::plain::Fault;
use pbd_cloth::{Cloth, MOST_SLOTS};
use pbd_num::RANGE;
use pbd_scene::{KeyName, SceneFault, TableName, read_scene};
use pbd_world::Scene;
use std::alloc::{AllocError, Global};

/// Why nothing was opened.
#[derive(Clone, Copy)]
pub enum NoCloth {
    TooManySlots,
    /// The bytes are no UTF-8.
    NotText,
    /// They are no TOML, or deeper or longer than is read, for what stands behind so many of them.
    NoToml { offset: u64 },
    /// They break a rule, or memory ran out.
    NoScene(SceneFault),
}

fn boxed(alloc: Global, scene: &Scene, slots: u32) -> Result<Box<Cloth>, AllocError>
    requires { slots ≤ 16 }
    ensures cloth { IfOk result (λ cloth. cloth.value ≡ begun (opened scene.now) slots) }
    ensures sound { IfOk result (λ cloth. AreSlots cloth.value.world cloth.value.slots) }
{
    let cloth = Cloth::open(alloc, scene, slots)?;
    Ok(Box::new(alloc, cloth)?)
}

#[tactic(auto, using(crate::proofs::Reading::read_as))]
fn scene_of(alloc: Global, text: &str, limit: i64) -> Result<Scene, SceneFault>
    requires { IsTrue (is_limit limit) }
    ensures { MatchResult result (λ parts. IsSceneIn limit (parse_document text.now) parts)
        (λ fault. IsFaultIn limit (parse_document text.now) fault) }
{
    read_scene(alloc, text, limit)
}

/// Where the reading of a text stopped that isn't read as TOML, or that memory ran out.
fn not_toml(alloc: Global, text: &str) -> NoCloth
    requires text { IsUtf8 text.now }
    requires wrong { parse_document text.now ≡ None }
    ensures { (limit : ℤ) → IsWhyIn limit text.now 0 result }
{
    match toml::table_from_str(alloc, text) {
        Ok(_) => unreachable!(),
        Err(error) => match error.span() {
            Some(span) => NoCloth::NoToml {
                offset: span.start as u64,
            },
            None => NoCloth::NoScene(SceneFault::OutOfMemory),
        },
    }
}

/// The scene of a text's bytes, read with a limit.
pub(crate) fn scene_in(alloc: Global, bytes: &[u8], limit: i64) -> Result<Scene, NoCloth>
    requires { IsTrue (is_limit limit) }
    ensures { MatchResult result (λ parts. IsUtf8 bytes.now × IsSceneIn limit (parse_document bytes.now) parts)
        (λ why. IsWhyIn limit bytes.now 0 why) }
{
    match str::from_utf8(bytes) {
        Ok(text) => match scene_of(alloc, text, limit) {
            Ok(scene) => Ok(scene),
            Err(SceneFault::NotToml) => Err(not_toml(alloc, text)),
            Err(fault) => Err(NoCloth::NoScene(fault)),
        },
        Err(_) => Err(NoCloth::NotText),
    }
}

/// The cloth of a scene, which is let go.
pub(crate) fn cloth_on(alloc: Global, scene: Scene, slots: u32) -> Result<Box<Cloth>, NoCloth>
    requires { slots ≤ 16 }
    ensures cloth { MatchResult result (λ cloth. cloth.value ≡ begun (opened scene) slots)
        (λ why. why ≡ NoScene OutOfMemory) }
    ensures sound { IfOk result (λ cloth. AreSlots cloth.value.world cloth.value.slots) }
{
    let outcome = boxed(alloc, &scene, slots);
    drop(scene);
    match outcome {
        Ok(cloth) => Ok(cloth),
        Err(AllocError) => Err(NoCloth::NoScene(SceneFault::OutOfMemory)),
    }
}

/// The cloth of a scene's text.
#[tactic(auto, using(crate::proofs::Reading::with_any_slots))]
pub(crate) fn cloth_of(alloc: Global, toml: &[u8], slots: u32) -> Result<Box<Cloth>, NoCloth>
    ensures cloth { MatchResult result (λ cloth. IsOpened toml.now slots cloth.value) (λ why. IsWhy toml.now slots why) }
    ensures sound { IfOk result (λ cloth. AreSlots cloth.value.world cloth.value.slots) }
{
    if MOST_SLOTS < slots {
        return Err(NoCloth::TooManySlots);
    }
    match scene_in(alloc, toml, RANGE) {
        Ok(scene) => cloth_on(alloc, scene, slots),
        Err(why) => Err(why),
    }
}

fn table_number(table: TableName) -> u8
    ensures { slice_get table_names result ≡ Some table }
{
    table as u8
}

fn key_number(key: KeyName) -> u8
    ensures { slice_get key_names result ≡ Some key }
{
    key as u8
}

/// The number of a reason, a status of the program's where it has one.
pub(crate) fn stop_number(why: &NoCloth) -> i32
    ensures { result ≡ pos (stop_number why.now) }
{
    match why {
        NoCloth::TooManySlots => NO_SLOT,
        NoCloth::NotText => SCENE_NOT_TEXT,
        NoCloth::NoToml { .. } | NoCloth::NoScene(SceneFault::NotToml) => SCENE_NOT_TOML,
        NoCloth::NoScene(SceneFault::Refused { .. }) => SCENE_REFUSED,
        NoCloth::NoScene(SceneFault::OutOfMemory) => OUT_OF_MEMORY,
    }
}

pub(crate) const NOTHING_WRONG: Fault = Fault {
    offset: 0,
    position: 0,
    rule: 0,
    table: 0,
    key: 0,
};

/// Where the reading of the text as TOML stopped, or the rule that the scene breaks, if one of these is the reason.
pub(crate) fn fault_of(why: &NoCloth) -> Fault
    ensures { TellsWhy why.now result }
{
    match *why {
        NoCloth::NoScene(
            SceneFault::Refused {
                rule,
                table,
                position,
                key,
            },
        ) => Fault {
            offset: 0,
            position,
            rule: rule.number(),
            table: table_number(table),
            key: key_number(key),
        },
        NoCloth::NoToml { offset } => Fault {
            offset,
            ..NOTHING_WRONG
        },
        _ => NOTHING_WRONG,
    }
}
