//! Scenes, commands with their replies, and the places that they come to.
use super::both::Asked;
use pbd_num::{RANGE, Vec3};
use pbd_tests_rows::{place, plane};
use pbd_tests_scenes::{
    AT_THE_EDGE, Drawing, EMPTY, FLIES, LED, NEAR_THE_EDGE, ON_A_SPHERE, PULLS,
    PULLS_AT_A_HELD_ONE, PUSHES, TEARS, free, free_at, held, key, link, particle, parts_of,
    scene_of,
};
use pbd_world::{
    Command, Key, Kind, Link, Particle, PartsFault, Phase, Plane, Refusal, Reply, Scene, Sphere,
};
use std::alloc::Global;

macro_rules! leaves {
    ($step:expr, $phase:ident, $element:expr) => {
        Some(Reply::Refused(Refusal::LeavesRange {
            step: $step,
            phase: Phase::$phase,
            element: $element,
        }))
    };
}

const BEHIND_A_PLANE: Drawing = Drawing {
    particles: &[free!(0, 0)],
    planes: &[plane!(1, 2, 2, 20)],
    ..EMPTY
};

const TEARS_THEN_TOUCHES: Drawing = Drawing {
    particles: &[free!(0, 0), free!(50, 0)],
    links: &[link!(0, 1, 50, 40)],
    passes: 0,
    thickness: 100,
    ..EMPTY
};

const FAST: Drawing = Drawing {
    particles: &[particle!(RANGE, 0, -RANGE, 1, false)],
    ..EMPTY
};

const LINK_LEAVES: Drawing = Drawing {
    particles: &[free!(RANGE, 0), free!(RANGE - 1, 0)],
    links: &[link!(0, 1, 100, 0)],
    ..EMPTY
};

const HALF_WAY: Drawing = Drawing {
    particles: &[particle!(268_435_456, 0, 268_435_455, 1, false)],
    ..EMPTY
};

/// A rope of five links and one across, that hangs from a track over a sphere and a plane, two particles that touch,
/// and one that flies to the edge.
const ROPE: Drawing = Drawing {
    particles: &[
        held!(0, 0),
        particle!(100, 0, 99, 1, false),
        free!(200, 0),
        free!(300, 0),
        free!(400, 0),
        free!(500, 0),
        free!(1000, 0),
        free!(1060, 0),
        particle!(RANGE - 40, 100_000, RANGE - 41, 1, false),
    ],
    links: &[
        link!(0, 1, 90, 0),
        link!(1, 2, 90, 0),
        link!(2, 3, 90, 0),
        link!(3, 4, 90, 0),
        link!(4, 5, 60, 95),
        link!(0, 2, 180, 0),
    ],
    planes: &[plane!(0, 1, 0, -9)],
    spheres: &[Sphere {
        centre: place!(300, -20, 0),
        radius: 25,
    }],
    tracks: &[(0, &[key!(0, 0), key!(4, 40)])],
    gravity: place!(0, -3, 0),
    passes: 3,
    damping: 20,
    thickness: 80,
    friction: 64,
    ..EMPTY
};

const STEP: Asked = (Command::Step(1), Some(Reply::Done));

const MANY: Asked = (Command::Step(100_000), Some(Reply::Done));

/// A command that is done.
macro_rules! done {
    ($name:ident $operands:tt) => {
        (Command::$name $operands, Some(Reply::Done))
    };
}

/// A command that is refused.
macro_rules! refused {
    ($name:ident $operands:tt, $why:ident) => {
        (Command::$name $operands, Some(Reply::Refused(Refusal::$why)))
    };
}

/// A scene, commands with their replies, and where the first particles are then.
#[derive(Clone, Copy)]
pub(crate) struct Row {
    pub(crate) name: &'static str,
    pub(crate) scene: Drawing,
    pub(crate) commands: &'static [Asked],
    pub(crate) places: &'static [Vec3],
}

impl Row {
    /// The row's scene: what its drawing consists of, and of a kind that no drawing has what the row has.
    pub(crate) fn drawn(&self, alloc: Global) -> Result<Scene, PartsFault> {
        scene_of(alloc, parts_of(alloc, &self.scene))
    }
}

/// A row: its name, a scene, commands with their replies, and places.
macro_rules! row {
    ($name:expr; $scene:expr; $commands:tt => $($x:expr, $y:expr, $z:expr);*) => {
        Row {
            name: $name,
            scene: $scene,
            commands: &$commands,
            places: &[$(place!($x, $y, $z)),*],
        }
    };
}

pub(crate) static ROWS: [Row; 28] = [
    // Links pull and tear.
    row!("a link pulls"; PULLS; [STEP] => 3, 0, 0; 102, 0, 0),
    row!("a link pulls at a held one"; PULLS_AT_A_HELD_ONE; [STEP] => 0, 0, 0; 100, 0, 0),
    row!("a link without length"; Drawing { particles: free_at!(7, 7; 7, 7), ..PULLS };
        [STEP] => 7, 7, 0; 7, 7, 0),
    row!("weights apart";
        Drawing {
            particles: &[particle!(-RANGE, 0, -RANGE, 65535, false), particle!(RANGE, 0, RANGE, 1, false)],
            links: &[link!(0, 1, 0, 0)],
            ..EMPTY
        };
        [STEP] => 536_854_528, 0, 0; 536_854_528, 0, 0),
    row!("links tear together"; TEARS;
        [
            STEP, refused!(Cut(1), LinkGone), done!(Cut(0)), refused!(Cut(0), LinkGone)
        ] => 0, 0, 0; 100, 0, 0; 0, 1000, 0; 101, 1000, 0),
    // Links pull by what changed since the step before.
    row!("an end is pinned between steps"; PULLS;
        [STEP, done!(Pin(1)), STEP] => 2, 0, 0; 102, 0, 0),
    row!("an end is freed between steps"; PULLS_AT_A_HELD_ONE;
        [STEP, done!(Unpin(0)), STEP] => -3, 0, 0; 98, 0, 0),
    row!("a link is cut between steps"; PULLS; [STEP, done!(Cut(0)), STEP] => 6, 0, 0; 99, 0, 0),
    row!("a link tears before the next step";
        Drawing {
            particles: &[held!(0, 0), free!(1000, 0), held!(2000, 0)],
            links: &[link!(0, 1, 100, 150), link!(1, 2, 100, 0)],
            ..EMPTY
        };
        [done!(Step(2))] => 0, 0, 0; 2100, 0, 0; 2000, 0, 0),
    // Contacts and shapes push.
    row!("contacts push"; PUSHES; [STEP] => -1, 0, 0; 100, 0, 0; 100, 0, 0),
    row!("a torn link's ends touch"; TEARS_THEN_TOUCHES; [done!(Step(2))] => 0, 0, 0; 50, 0, 0),
    row!("a plane pushes"; BEHIND_A_PLANE; [STEP] => 2, 4, 4),
    row!("a sphere pushes"; ON_A_SPHERE; [STEP] => 6, 8, 0; 0, 10, 0; 10, 0, 0),
    row!("friction by half"; Drawing { friction: 128, ..ON_A_SPHERE };
        [done!(Step(2))] => 7, 10, 0; 0, 15, 0; 10, 0, 0),
    row!("whole friction"; Drawing { friction: 256, ..ON_A_SPHERE };
        [done!(Step(2))] => 6, 8, 0; 0, 10, 0; 10, 0, 0),
    // What leaves the range is refused.
    row!("a prediction leaves"; AT_THE_EDGE;
        [(Command::Step(1), leaves!(1, Predict, 0))] => RANGE, 0, 0),
    row!("a fast one leaves"; FAST; [(Command::Step(1), leaves!(1, Predict, 0))] => RANGE, 0, 0),
    row!("damping stops it"; Drawing { damping: 1024, ..FAST }; [STEP] => RANGE, 0, 0),
    row!("the seventh step is refused"; NEAR_THE_EDGE;
        [
            (Command::Step(10), leaves!(7, Predict, 0)), done!(Step(6)),
            (Command::Step(1), leaves!(7, Predict, 0))
        ] => RANGE, 0, 0),
    row!("a link leaves"; LINK_LEAVES;
        [(Command::Step(1), leaves!(1, Link, 0))] => RANGE, 0, 0; RANGE - 1, 0, 0),
    row!("a contact leaves"; Drawing { links: &[], thickness: 100, ..LINK_LEAVES };
        [(Command::Step(1), leaves!(1, Contact, 0))] => RANGE, 0, 0; RANGE - 1, 0, 0),
    row!("the first particle leaves at the last plane";
        Drawing {
            particles: free_at!(RANGE, 2; RANGE, 0),
            planes: &[plane!(1, 1, 0, 536_870_914), plane!(0, 1, 0, -5), plane!(1, 0, 1, 536_870_914)],
            ..EMPTY
        };
        [(Command::Step(1), leaves!(1, Shape, 0))] => RANGE, 2, 0; RANGE, 0, 0),
    row!("the greater limit"; HALF_WAY; [STEP] => 268_435_457, 0, 0),
    row!("the smaller limit"; Drawing { limit: 268_435_456, ..HALF_WAY };
        [(Command::Step(1), leaves!(1, Predict, 0))] => 268_435_456, 0, 0),
    // Commands change the world, or keep it.
    row!("commands are refused"; FLIES;
        [
            done!(Pin(0)), refused!(Pin(0), Held),
            done!(Move { particle: 0, to: place!(1, 2, 3) }), done!(Unpin(0)),
            refused!(Unpin(0), NotHeld), refused!(Pin(9), NoParticle), refused!(Cut(0), NoLink),
            refused!(Gravity(place!(RANGE + 1, 0, 0)), OutOfRange), refused!(Step(0), BadCount),
            refused!(Step(100_001), BadCount)
        ] => 1, 2, 3),
    row!("tracks lead"; LED;
        [
            done!(Step(2)), STEP, refused!(Unpin(0), Tracked),
            refused!(Move { particle: 1, to: place!(1, 2, 3) }, Tracked)
        ] => 10, 0, 0; 5, 0, 0),
    row!("the step limit"; Drawing { passes: 0, ..FLIES };
        [
            MANY, MANY, MANY, MANY, MANY, MANY, MANY, MANY, MANY, MANY, refused!(Step(1), StepLimit)
        ] => 5_000_000, 0, 0),
    row!("a rope does all"; ROPE;
        [
            STEP, done!(Step(2)), done!(Pin(5)), refused!(Pin(5), Held),
            done!(Move { particle: 5, to: place!(520, 30, 0) }), refused!(Unpin(0), Tracked),
            done!(Cut(1)), refused!(Cut(1), LinkGone), done!(Step(4)), done!(Unpin(5)),
            done!(Gravity(place!(1, -4, 2))), (Command::Step(9), leaves!(14, Predict, 8)),
            (Command::Step(100), leaves!(14, Predict, 8))
        ] => 40, 0, 0),
];
