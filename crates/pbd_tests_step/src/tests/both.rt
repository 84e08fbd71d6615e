//! Two sessions of a scene, with one projector each: what both come to by the commands of a script, at each width.
ghost use Rattle.std.specs.Prelude.{◌≡◌, ◌<◌, ◌≤◌};

use pbd_num::Vec3;
use pbd_pair::{LaneProjector, Scalar};
use pbd_session::Session;
use pbd_step::Shown;
use pbd_store::Steps;
use pbd_tests_rows::{WIDTHS, at_widths, wrong_row};
use pbd_world::{Command, Particle, PartsFault, Reply, Scene, Totals};
use std::alloc::{AllocError, Global};
use std::fmt::Debug;
use std::marker::Brand;
use std::sync::ledger::{Blank, Ledger};

/// A command, and its reply where it is known.
pub(crate) type Asked = (Command, Option<Reply>);

/// Commands with their replies, how many particles there are, and where the first of them are then.
#[derive(Clone, Copy)]
pub(crate) struct Script<'a> {
    pub(crate) commands: &'a [Asked],
    pub(crate) particles: usize,
    pub(crate) places: &'a [Vec3],
}

/// What a session came to by a command: its reply, the step count, how many particles, live links and contacts there are, the
/// totals, and a particle, where there is one of its number.
type Outcome = (Reply, u64, [u32; 3], Totals, (u32, Option<Particle>));

/// The first command to which two sessions don't reply as a script says, or behind which they aren't alike, with what they
/// came to and the first particle that isn't the same; and whether they come to the script's places.
type Told = (Option<(Command, [Outcome; 2])>, bool);

/// What is told at each width.
type AtWidths = [Result<Told, AllocError>; 5];

/// What is told where all is as a script says.
const ALL_AGREE: AtWidths = [Ok((None, true)); 5];

/// What a world came to with its particle i, where a command was replied so and left so many links live.
fn outcome_of<const L: usize, G: Ledger>(
    shown: &Shown<'_, L>,
    told: (Reply, u32),
    i: u32,
    steps: &mut Steps<G>,
) -> Outcome
    requires high { L ≤ 16 }
{
    let particles = shown.particles();
    let particle = if i < particles {
        Some(shown.particle(i, steps))
    } else {
        None
    };
    let (reply, live) = told;
    let counts = [particles, live, shown.contacts()];
    let count = shown.step_count();
    (reply, count, counts, *shown.totals(), (i, particle))
}

/// The first particle that isn't the same in two worlds, or how many the first has.
fn first_other<const L: usize, G: Ledger>(
    one: &Shown<'_, L>,
    other: &Shown<'_, L>,
    steps: &mut Steps<G>,
) -> u32
    requires high { L ≤ 16 }
{
    let particles = one.particles();
    if other.particles() != particles {
        return particles;
    }
    for i in 0..particles {
        if one.particle(i, steps) != other.particle(i, steps) {
            return i;
        }
    }
    particles
}

/// Whether the first particles of a world are at a script's places, and there are as many as it says.
fn are_at<const L: usize, G: Ledger>(
    shown: &Shown<'_, L>,
    script: &Script<'_>,
    steps: &mut Steps<G>,
) -> bool
    requires high { L ≤ 16 }
{
    let particles = shown.particles();
    let mut i: u32 = 0;
    for place in script.places {
        if particles <= i || shown.particle(i, steps).at != *place {
            return false;
        }
        i = i.saturating_add(1);
    }
    particles as usize == script.particles
}

/// A session whose bonds are projected one by one, and one whose bonds are projected side by side.
#[derive(Drop)]
struct Both<const L: usize> {
    scalar: Session<L, Scalar<L>>,
    lanes: Session<L, LaneProjector<L>>,
}

impl<const L: usize> Both<L> {
    /// Two sessions of one scene.
    fn open(alloc: Global, scene: &Scene) -> Result<Both<L>, AllocError>
        requires low { 0 < L }
        requires high { L ≤ 16 }
    {
        let scalar = Session::open(alloc, scene, Scalar::<L>::new())?;
        match Session::open(alloc, scene, LaneProjector::<L>::new()) {
            Ok(lanes) => Ok(Both { scalar, lanes }),
            Err(error) => {
                drop(scalar);
                Err(error)
            }
        }
    }

    /// What both come to by a command.
    fn outcomes<G: Ledger>(&mut self, command: &Command, steps: &mut Steps<G>) -> [Outcome; 2]
        requires low { 0 < L }
        requires high { L ≤ 16 }
    {
        let replies = [
            self.scalar.apply(command, steps),
            self.lanes.apply(command, steps),
        ];
        let (scalar, lanes) = (self.scalar.solver(), self.lanes.solver());
        let one = scalar.shown();
        let other = lanes.shown();
        let i = first_other(&one, &other, steps);
        [
            outcome_of(&one, (replies[0], scalar.live()), i, steps),
            outcome_of(&other, (replies[1], lanes.live()), i, steps),
        ]
    }

    /// The first command of a script by which both don't come to the same, or not to its reply, and what they come to.
    fn first_wrong<G: Ledger>(
        &mut self,
        commands: &[Asked],
        steps: &mut Steps<G>,
    ) -> Option<(Command, [Outcome; 2])>
        requires low { 0 < L }
        requires high { L ≤ 16 }
    {
        for (command, reply) in commands {
            let outcomes = self.outcomes(command, steps);
            let found = outcomes[0].0;
            if outcomes[0] != outcomes[1] || found != reply.unwrap_or(found) {
                return Some((*command, outcomes));
            }
        }
        None
    }
}

fn at_width<const L: usize, G: Ledger>(
    alloc: Global,
    scene: &Scene,
    script: &Script<'_>,
    steps: &mut Steps<G>,
) -> Result<Told, AllocError>
    requires low { 0 < L }
    requires high { L ≤ 16 }
{
    let mut both = Both::<L>::open(alloc, scene)?;
    let wrong = both.first_wrong(script.commands, steps);
    let are_there = are_at(&both.scalar.solver().shown(), script, steps);
    drop(both);
    Ok((wrong, are_there))
}

fn counted<G: Ledger>(alloc: Global, blank: Blank, scene: &Scene, script: &Script<'_>) -> AtWidths
    requires name { blank.name ≡ G.name }
    requires parts { blank.parts ≡ G.parts }
    requires some { 0 < blank.parts }
{
    at_widths!(blank, at_width(alloc, scene, script))
}

fn at_each_width(
    alloc: Global,
    scene: Result<Scene, PartsFault>,
    script: &Script<'_>,
) -> Result<AtWidths, PartsFault> {
    let scene = scene?;
    let told = counted::<Brand>(alloc, Blank::new(1), &scene, script);
    drop(scene);
    Ok(told)
}

/// One where two sessions of a scene don't come at each width to what a script says, which is told then.
pub(crate) fn wrong_script<R: Debug>(
    rt: &HostRuntime,
    name: &R,
    scene: Result<Scene, PartsFault>,
    script: &Script<'_>,
) -> u32 {
    let told = at_each_width(rt.alloc(), scene, script);
    wrong_row(rt, (name, WIDTHS), &told, &Ok(ALL_AGREE))
}
