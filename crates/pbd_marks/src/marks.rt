//! Eight marked worlds.
ghost use Rattle.std.specs.Prelude.{◌≡◌, ◌<◌, ◌≤◌, ◌+◌, ◌∷◌, nat_lt, All, length, slice_set, true, IfOk, OnErr, MatchResult, Ok, Err};
ghost use Rattle.std.specs.List.{slice_index_or};
ghost use Rattle.pbd_world.specs.World.{opened, unchanging, IsSound, AreOfOneScene};
ghost use Rattle.pbd_marks.specs.Marked.{no_marks, rewound, set};
ghost use Rattle.pbd_marks.specs.Keeping.{AreMarks, AreOpened, IsOfScene, none_set, worlds_in};

use crate::MarkRefusal;
use pbd_pair::Projector;
use pbd_step::Solver;
use pbd_world::Scene;
use std::alloc::{AllocError, Global};
use std::marker::Model;

/// How many marks there are beside mark 0.
const OTHERS: u32 = 7;

/// Eight marks, 0 to 7, each nothing or a whole world of one scene. Only opening takes memory.
///
/// Clauses see what no command changes of the scene's opened world, and eight options of worlds.
#[derive(Drop)]
pub struct Marks<const L: usize, P: Projector<L> + Drop> {
    /// The world of mark 0, which counts once the mark is set. It stands by itself, so that a solver is known to fit into
    /// memory wherever marks do.
    first: Solver<L, P>,
    /// Those of marks 1 to 7.
    others: Vec<Solver<L, P>>,
    are_set: [bool; 8],
}

impl<const L: usize, P: Projector<L> + Drop> Model for Marks<L, P> {
    ghost use Rattle.std.specs.Prelude.{◌∷◌};
    ghost use Rattle.pbd_marks.specs.Keeping.{Kept, FitTogether, kept_by, worlds_in};

    ghost Value = { Kept };

    ghost view = { λ s. kept_by s.are_set (worlds_in (s.first ∷ s.others.items)) };

    ghost invariant = { λ s. FitTogether s.are_set (worlds_in (s.first ∷ s.others.items)) };
}

impl<const L: usize, P: Projector<L> + Drop> Marks<L, P> {
    /// Eight empty marks for the worlds of a scene. The only call that takes memory.
    pub fn open(alloc: Global, scene: &Scene, projector: P) -> Result<Marks<L, P>, AllocError>
    where
        P: Copy,
        requires lanes_low { 0 < L }
        requires lanes_high { L ≤ 16 }
        ensures scene { IfOk result (λ marks. marks.scene ≡ unchanging (opened scene.now)) }
        ensures marks { IfOk result (λ marks. marks.marks ≡ no_marks) }
    {
        let others = open_others(alloc, scene, projector)?;
        let first = Solver::open(alloc, scene, projector)?;
        Ok(Marks {
            first,
            others,
            are_set: none_set(),
        })
    }

    /// Whether there is no mark k.
    fn lacks(&self, k: u64) -> bool
        requires lanes_high { L ≤ 16 }
        ensures value { result ≡ nat_lt 7 k }
        ensures marks { AreMarks self.now }
    {
        (self.others.len() as u64) < k
    }

    /// Makes mark k the solver's world and keeps the others. `BadMark` where k is above 7.
    pub fn set(&mut self, k: u64, solver: &Solver<L, P>) -> Result<(), MarkRefusal>
        requires lanes_low { 0 < L }
        requires lanes_high { L ≤ 16 }
        requires one_scene { IsOfScene self.old.scene solver.now.world }
        ensures outcome { MatchResult result
            (λ _. set self.old.marks k solver.now.world ≡ Ok self.new.marks)
            (λ refusal. set self.old.marks k solver.now.world ≡ Err refusal) }
        ensures kept { OnErr result (self.new ≡ self.old) }
        ensures scene { self.new.scene ≡ self.old.scene }
        ensures marks { AreMarks self.new }
    {
        if self.lacks(k) {
            return Err(MarkRefusal::BadMark);
        }
        take_over(&mut self.first, &mut self.others, k as usize, solver);
        self.are_set = with_set(self.are_set, k as usize);
        Ok(())
    }

    /// Makes the solver's world mark k. `BadMark` where k is above 7, `MarkEmpty` where mark k is nothing.
    pub fn rewind(&self, k: u64, solver: &mut Solver<L, P>) -> Result<(), MarkRefusal>
        requires lanes_low { 0 < L }
        requires lanes_high { L ≤ 16 }
        requires one_scene { IsOfScene self.now.scene solver.old.world }
        ensures outcome { MatchResult result
            (λ _. rewound self.now.marks k ≡ Ok solver.new.world)
            (λ refusal. rewound self.now.marks k ≡ Err refusal) }
        ensures kept { OnErr result (solver.new ≡ solver.old) }
        ensures projector { solver.new.projector ≡ solver.old.projector }
        ensures one_scene { AreOfOneScene solver.old.world solver.new.world }
        ensures sound { IsSound solver.new.world }
        ensures marks { AreMarks self.now }
    {
        // The limit is asked for what comes with it: the world is sound.
        let _limit = solver.limit();
        if self.lacks(k) {
            return Err(MarkRefusal::BadMark);
        }
        if !self.are_set[k as usize] {
            return Err(MarkRefusal::MarkEmpty);
        }
        solver.copy_from(solver_at(&self.first, &self.others, k as usize));
        Ok(())
    }
}

/// No mark is set.
fn none_set() -> [bool; 8]
    ensures { result ≡ none_set }
{
    [false; 8]
}

/// Mark k is set too.
fn with_set(are_set: [bool; 8], k: usize) -> [bool; 8]
    requires { k < 8 }
    ensures { result ≡ slice_set are_set k true }
{
    let mut are_set = are_set;
    are_set[k] = true;
    are_set
}

/// The solvers of marks 1 to 7.
fn open_others<const L: usize, P: Projector<L> + Copy + Drop>(
    alloc: Global,
    scene: &Scene,
    projector: P,
) -> Result<Vec<Solver<L, P>>, AllocError>
    requires lanes_low { 0 < L }
    requires lanes_high { L ≤ 16 }
    ensures { IfOk result (λ solvers. AreOpened (opened scene.now) 7 (worlds_in solvers.items)) }
{
    let mut solvers = Vec::new(alloc);
    for _ in 0..OTHERS {
        let solver = Solver::open(alloc, scene, projector)?;
        solvers.push(solver)?;
    }
    Ok(solvers)
}

/// The solver of mark k.
fn solver_at<'a, const L: usize, P: Projector<L> + Drop>(
    first: &'a Solver<L, P>,
    others: &'a Vec<Solver<L, P>>,
    k: usize,
) -> &'a Solver<L, P>
    requires lanes_high { L ≤ 16 }
    requires within { k < length others.now.items + 1 }
    ensures { result.now ≡ slice_index_or (first.now ∷ others.now.items) k result.now }
{
    if k == 0 {
        return first;
    }
    &others[k - 1]
}

/// Gives the solver of mark k another's world.
fn take_over<const L: usize, P: Projector<L> + Drop>(
    first: &mut Solver<L, P>,
    others: &mut Vec<Solver<L, P>>,
    k: usize,
    solver: &Solver<L, P>,
)
    requires lanes_low { 0 < L }
    requires lanes_high { L ≤ 16 }
    requires within { k < length others.old.items + 1 }
    requires one_scene { All (IsOfScene (unchanging solver.now.world)) (worlds_in (first.old ∷ others.old.items)) }
    ensures worlds { worlds_in (first.new ∷ others.new.items) ≡ slice_set (worlds_in (first.old ∷ others.old.items)) k solver.now.world }
    ensures sound { IsSound solver.now.world }
{
    if k == 0 {
        first.copy_from(solver);
    } else {
        others[k - 1].copy_from(solver);
    }
}
