//! A world that goes back to its marks: torn and cut links, held particles, gravity and refused steps are as they were.
ghost use Rattle.std.specs.Prelude.{◌≡◌, ◌<◌, ◌≤◌};
ghost use Rattle.pbd_world.specs.World.{AreOfOneScene};

use pbd_marks::{MarkCommand, MarkRefusal, Marks};
use pbd_num::{RANGE, Vec3};
use pbd_pair::LaneProjector;
use pbd_step::Solver;
use pbd_store::Steps;
use pbd_tests_rows::{WrongRows, all_hold, at_widths, place, wrong_row};
use pbd_tests_scenes::{Drawing, EMPTY, free, held, link, scene};
use pbd_world::{Command, Kind, Link, Particle, PartsFault, Phase, Refusal, Scene};
use std::alloc::{AllocError, Global};
use std::marker::{Brand, Model};
use std::sync::ledger::{Blank, Ledger};

/// What a command is answered: that of a mark is refused by the marks, and each other one by the solver.
type Answer = Result<Result<(), Refusal>, MarkRefusal>;

/// What a command is answered, and then the step count, the live links and the height of particle 0.
type Seen = (Answer, u64, u32, i64);

/// A command, and what is seen then.
type Row = (MarkCommand, Seen);

/// A command that doesn't go as its row says, what is seen then, and what the row says.
type Wrong = (MarkCommand, [Seen; 2]);

macro_rules! does {
    ($command:expr) => {
        MarkCommand::Plain($command)
    };
}

const DONE: Answer = Ok(Ok(()));

const LEAVES: Answer = Ok(Err(Refusal::LeavesRange {
    step: 3,
    phase: Phase::Predict,
    element: 0,
}));

const GONE: Answer = Ok(Err(Refusal::LinkGone));

const NOT_HELD: Answer = Ok(Err(Refusal::NotHeld));

const UNMARKED: Answer = Err(MarkRefusal::MarkEmpty);

const BAD: Answer = Err(MarkRefusal::BadMark);

const UP: Vec3 = Vec3 {
    x: 0,
    y: RANGE,
    z: 0,
};

const NOWHERE: Vec3 = Vec3 { x: 0, y: 0, z: 0 };

/// Two free particles fall faster by 10 with each step, and the link between them tears in the first one. The third is held.
const ROWS: &[Row] = &[
    (MarkCommand::Rewind(1), (UNMARKED, 0, 2, 1000)),
    (MarkCommand::Mark(1), (DONE, 0, 2, 1000)),
    (does!(Command::Step(2)), (DONE, 2, 1, 970)),
    (MarkCommand::Mark(7), (DONE, 2, 1, 970)),
    (does!(Command::Cut(1)), (DONE, 2, 0, 970)),
    (does!(Command::Pin(0)), (DONE, 2, 0, 970)),
    (does!(Command::Gravity(NOWHERE)), (DONE, 2, 0, 970)),
    (does!(Command::Step(1)), (DONE, 3, 0, 970)),
    (MarkCommand::Rewind(7), (DONE, 2, 1, 970)),
    (does!(Command::Step(1)), (DONE, 3, 1, 940)),
    (does!(Command::Cut(0)), (GONE, 3, 1, 940)),
    (MarkCommand::Rewind(1), (DONE, 0, 2, 1000)),
    (does!(Command::Cut(0)), (DONE, 0, 1, 1000)),
    (MarkCommand::Rewind(1), (DONE, 0, 2, 1000)),
    (does!(Command::Step(1)), (DONE, 1, 1, 990)),
    (MarkCommand::Rewind(7), (DONE, 2, 1, 970)),
    (does!(Command::Unpin(0)), (NOT_HELD, 2, 1, 970)),
    (does!(Command::Gravity(UP)), (DONE, 2, 1, 970)),
    (does!(Command::Step(5)), (LEAVES, 2, 1, 970)),
    (MarkCommand::Mark(0), (DONE, 2, 1, 970)),
    (MarkCommand::Rewind(1), (DONE, 0, 2, 1000)),
    (does!(Command::Step(1)), (DONE, 1, 1, 990)),
    (MarkCommand::Rewind(0), (DONE, 2, 1, 970)),
    (does!(Command::Step(1)), (LEAVES, 2, 1, 970)),
    (MarkCommand::Mark(8), (BAD, 2, 1, 970)),
    (MarkCommand::Rewind(8), (BAD, 2, 1, 970)),
    (MarkCommand::Rewind(6), (UNMARKED, 2, 1, 970)),
    (MarkCommand::Rewind(1), (DONE, 0, 2, 1000)),
];

/// The same with a pass in each step: the link to the third particle pulls the first one, and pulls it so again after a rewind
/// beside the pins and links of its mark, after one past each of these changes, and after one past a link that tore. Behind a
/// change stand how many links are live then, and the height a step later.
macro_rules! pulled {
    ($($change:expr, $live:literal, $high:literal);*) => {
        &[
            (MarkCommand::Mark(1), (DONE, 0, 2, 1000)),
            (does!(Command::Step(1)), (DONE, 1, 1, 100)),
            (MarkCommand::Mark(2), (DONE, 1, 1, 100)),
            (does!(Command::Step(1)), (DONE, 2, 1, -100)),
            $(
                (MarkCommand::Rewind(2), (DONE, 1, 1, 100)),
                (does!(Command::Step(1)), (DONE, 2, 1, -100)),
                (does!($change), (DONE, 2, $live, -100)),
                (does!(Command::Step(1)), (DONE, 3, $live, $high)),
            )*
            (MarkCommand::Rewind(2), (DONE, 1, 1, 100)),
            (does!(Command::Step(1)), (DONE, 2, 1, -100)),
            (MarkCommand::Rewind(1), (DONE, 0, 2, 1000)),
            (does!(Command::Step(1)), (DONE, 1, 1, 100)),
        ]
    };
}

const PULLED: &[Row] =
    pulled!(Command::Pin(0), 1, -100; Command::Unpin(2), 1, -210; Command::Cut(1), 0, -310);

const FALLS: Drawing = Drawing {
    particles: &[free!(0, 1000), free!(101, 1000), held!(0, 0)],
    links: &[link!(0, 1, 100, 100), link!(0, 2, 100, 0)],
    gravity: place!(0, -10, 0),
    passes: 0,
    ..EMPTY
};

/// Scenes, and what is done in them.
static STORIES: [(Drawing, &[Row]); 2] = [(FALLS, ROWS), (Drawing { passes: 1, ..FALLS }, PULLED)];

fn apply<const L: usize, G: Ledger>(
    solver: &mut Solver<L, LaneProjector<L>>,
    command: Command,
    steps: &mut Steps<G>,
) -> Result<(), Refusal>
    requires low { 0 < L }
    requires high { L ≤ 16 }
    ensures { AreOfOneScene solver.old.world solver.new.world }
{
    match command {
        Command::Step(n) => solver.steps(n, steps),
        Command::Pin(i) => solver.pin(i, steps),
        Command::Unpin(i) => solver.unpin(i, steps),
        Command::Cut(l) => solver.cut(l),
        Command::Gravity(g) => solver.set_gravity(g),
        _ => Err(Refusal::BadCommand),
    }
}

/// A solver beside marks of its scene, seen as its world and what is marked.
#[derive(Drop)]
struct Marked<const L: usize> {
    solver: Solver<L, LaneProjector<L>>,
    marks: Marks<L, LaneProjector<L>>,
}

impl<const L: usize> Model for Marked<L> {
    ghost use Rattle.pbd_world.specs.World.{World};
    ghost use Rattle.pbd_marks.specs.Keeping.{IsOfScene, Kept};

    ghost Value = { World × Kept };

    ghost view = { λ s. (s.solver.world, s.marks) };

    ghost invariant = { λ s. IsOfScene s.marks.scene s.solver.world };
}

impl<const L: usize> Marked<L> {
    /// The world of a scene, with empty marks.
    fn open(alloc: Global, scene: &Scene) -> Result<Marked<L>, AllocError>
        requires low { 0 < L }
        requires high { L ≤ 16 }
    {
        let projector = LaneProjector::<L>::new();
        let marks = Marks::open(alloc, scene, projector)?;
        match Solver::open(alloc, scene, projector) {
            Ok(solver) => Ok(Marked { solver, marks }),
            Err(error) => {
                drop(marks);
                Err(error)
            }
        }
    }

    /// Does a command.
    fn answer_to<G: Ledger>(&mut self, command: MarkCommand, steps: &mut Steps<G>) -> Answer
        requires low { 0 < L }
        requires high { L ≤ 16 }
    {
        match command {
            MarkCommand::Plain(command) => Ok(apply(&mut self.solver, command, steps)),
            MarkCommand::Mark(k) => self.marks.set(k, &self.solver).and(DONE),
            MarkCommand::Rewind(k) => self.marks.rewind(k, &mut self.solver).and(DONE),
        }
    }

    /// What is seen after a command.
    fn seen_after<G: Ledger>(&mut self, command: MarkCommand, steps: &mut Steps<G>) -> Seen
        requires low { 0 < L }
        requires high { L ≤ 16 }
    {
        let answer = self.answer_to(command, steps);
        let height = if self.solver.particles() == 0 {
            0
        } else {
            self.solver.particle(0, steps).at.y
        };
        (answer, self.solver.step_count(), self.solver.live(), height)
    }

    /// The first command that doesn't go as its row says, with what is seen and what its row says.
    fn first_wrong<G: Ledger>(&mut self, rows: &[Row], steps: &mut Steps<G>) -> Option<Wrong>
        requires low { 0 < L }
        requires high { L ≤ 16 }
    {
        for (command, wanted) in rows {
            let seen = self.seen_after(*command, steps);
            if seen != *wanted {
                return Some((*command, [seen, *wanted]));
            }
        }
        None
    }
}

fn at_width<const L: usize, G: Ledger>(
    alloc: Global,
    scene: &Scene,
    rows: &[Row],
    steps: &mut Steps<G>,
) -> Result<Option<Wrong>, AllocError>
    requires low { 0 < L }
    requires high { L ≤ 16 }
{
    let mut marked = Marked::<L>::open(alloc, scene)?;
    let wrong = marked.first_wrong(rows, steps);
    drop(marked);
    Ok(wrong)
}

/// The first wrong command at each width.
type AtWidths = [Result<Option<Wrong>, AllocError>; 5];

fn counted<G: Ledger>(alloc: Global, blank: Blank, scene: &Scene, rows: &[Row]) -> AtWidths
    requires name { blank.name ≡ G.name }
    requires parts { blank.parts ≡ G.parts }
    requires some { 0 < blank.parts }
{
    at_widths!(blank, at_width(alloc, scene, rows))
}

fn at_each_width(
    alloc: Global,
    scene: Result<Scene, PartsFault>,
    rows: &[Row],
) -> Result<AtWidths, PartsFault> {
    let scene = scene?;
    let wrong = counted::<Brand>(alloc, Blank::new(1), &scene, rows);
    drop(scene);
    Ok(wrong)
}

const GO_WRONG: &str = "passes in each step: the first wrong command at widths 1, 2, 4, 8 and 16";

/// How many stories go otherwise than their rows say.
fn wrong_stories(rt: &HostRuntime, stories: &[(Drawing, &[Row])]) -> u32 {
    let mut wrong = 0u32;
    for (drawing, rows) in stories {
        let told = at_each_width(rt.alloc(), scene(rt.alloc(), drawing), *rows);
        let row = (&drawing.passes, GO_WRONG);
        wrong = wrong.saturating_add(wrong_row(rt, row, &told, &Ok([Ok(None); 5])));
    }
    wrong
}

#[test]
fn worlds_go_back_to_their_marks(rt: HostRuntime) -> Result<(), WrongRows> {
    all_hold(wrong_stories(&rt, &STORIES))
}
