//! A session with slots.
ghost use Rattle.std.specs.Prelude.{◌≡◌, ◌<◌, ◌≤◌, length, replicate, slice_set, IfOk, IsTrue};
ghost use Rattle.pbd_world.specs.Meaning.{reply};
ghost use Rattle.pbd_world.specs.Replay.{frame_sums};
ghost use Rattle.pbd_world.specs.Session.{is_refused};
ghost use Rattle.pbd_world.specs.World.{opened, AreOfOneScene, IsSound};
ghost use Rattle.pbd_cloth.specs.Slots.{begun, played, saved, restored, AreSlots};

use crate::counted::{apply_counted, sums_counted};
use pbd_pair::LaneProjector;
use pbd_session::Session;
use pbd_step::Snapshot;
use pbd_world::{Command, FrameSums, Reply, Scene, refused_commands_change_nothing};
use std::alloc::{AllocError, Global};
use std::marker::{Brand, Model};
use std::sync::ledger::Blank;

/// The lane width of a cloth. What it does is the same at every width.
pub const LANES: usize = 8;

/// How many slots there can be.
pub const MOST_SLOTS: u32 = 16;

/// A session, and slots that each keep a whole world of its scene. Only opening takes memory.
///
/// Clauses see the world, and the list of the worlds in the slots. All of them are sound, as each call but
/// `cut_each` says.
#[derive(Drop)]
pub struct Cloth {
    pub(crate) playing: Session<LANES, LaneProjector<LANES>>,
    pub(crate) kept: Vec<Snapshot<LANES>>,
}

impl Model for Cloth {
    ghost use Rattle.pbd_cloth.specs.Slots.{Slotted, AreSlots};

    ghost Value = { Slotted };

    ghost view = { λ c. record { world = c.playing; slots = c.kept.items } };

    ghost invariant = { λ c. AreSlots c.playing c.kept.items };
}

impl Cloth {
    /// The world of a scene before its first command, which is in each of up to 16 slots too. The only call that takes
    /// memory.
    pub fn open(alloc: Global, scene: &Scene, slots: u32) -> Result<Cloth, AllocError>
        requires { slots ≤ 16 }
        ensures cloth { IfOk result (λ cloth. cloth ≡ begun (opened scene.now) slots) }
        ensures sound { IfOk result (λ cloth. AreSlots cloth.world cloth.slots) }
    {
        let kept = open_slots(alloc, scene, slots)?;
        match Session::open(alloc, scene, LaneProjector::<LANES>::new()) {
            Ok(playing) => Ok(Cloth { playing, kept }),
            Err(AllocError) => {
                drop(kept);
                Err(AllocError)
            }
        }
    }

    /// Does a command. It changes no slot, and a refused one changes nothing.
    pub fn apply(&mut self, command: &Command) -> Reply
        ensures reply { result ≡ reply self.old.world command.now }
        ensures cloth { self.new ≡ played self.old command.now }
        ensures kept { IsTrue (is_refused result) → self.new ≡ self.old }
        ensures sound { AreSlots self.new.world self.new.slots }
    {
        refused_commands_change_nothing();
        apply_counted::<Brand>(Blank::new(1), &mut self.playing, command)
    }

    /// Keeps the world in a slot, and changes no other slot.
    pub fn save(&mut self, slot: u32)
        requires { slot < length self.old.slots }
        ensures cloth { self.new ≡ saved self.old slot }
        ensures sound { AreSlots self.new.world self.new.slots }
    {
        keep(&mut self.kept, slot as usize, &self.playing);
    }

    /// Goes back to the world in a slot, and changes no slot.
    pub fn restore(&mut self, slot: u32)
        requires { slot < length self.old.slots }
        ensures cloth { self.new ≡ restored self.old slot }
        ensures sound { AreSlots self.new.world self.new.slots }
    {
        go_back(&mut self.playing, &self.kept[slot as usize]);
    }

    /// What a log keeps of the world: counts, and the sums of the places and the places before over all particles.
    pub fn sums(&self) -> FrameSums
        ensures value { result ≡ frame_sums self.now.world }
        ensures sound { AreSlots self.now.world self.now.slots }
    {
        sums_counted::<Brand>(Blank::new(1), &self.playing)
    }
}

/// So many slots with the world of a scene before its first command.
fn open_slots(alloc: Global, scene: &Scene, n: u32) -> Result<Vec<Snapshot<LANES>>, AllocError>
    ensures { IfOk result (λ kept. kept.items ≡ replicate n (opened scene.now)) }
{
    let mut kept = Vec::new(alloc);
    for _ in 0..n {
        let saved = Snapshot::open(alloc, scene)?;
        kept.push(saved)?;
    }
    Ok(kept)
}

fn keep(
    kept: &mut Vec<Snapshot<LANES>>,
    slot: usize,
    playing: &Session<LANES, LaneProjector<LANES>>,
)
    requires within { slot < length kept.old.items }
    requires slots { AreSlots playing.now kept.old.items }
    ensures { kept.new.items ≡ slice_set kept.old.items slot playing.now }
{
    kept[slot].keep(playing.solver());
}

fn go_back(playing: &mut Session<LANES, LaneProjector<LANES>>, saved: &Snapshot<LANES>)
    requires { AreOfOneScene playing.old saved.now }
    ensures world { playing.new ≡ saved.now }
    ensures sound { IsSound playing.new }
{
    playing.solver_mut().go_back(saved);
}
