//! A cloth whose links tear and are cut, and that goes back to what its slots keep.
ghost use Rattle.std.specs.Prelude.{◌≤◌, length};

use pbd_cloth::{Cloth, Place};
use pbd_num::Vec3;
use pbd_tests_rows::{WrongRows, all_hold, wrong_row};
use pbd_tests_scenes::{Drawing, TEARS, scene};
use pbd_world::{Command, Refusal, Reply};

static TEARING: Drawing = TEARS;

const NOWHERE: Place = Place { x: 0, y: 0, z: 0 };

const UP: Vec3 = Vec3 { x: 0, y: 3, z: 0 };

/// The live links, the first two that went since slot 0, how many went, the last particle's height, and the step count.
type Seen = ([u8; 4], [u32; 2], u32, i64, u64);

fn seen(cloth: &Cloth) -> Seen
    requires { 2 ≤ length cloth.now.slots }
{
    let mut live = [7; 4];
    let mut gone = [9; 2];
    let mut places = [NOWHERE; 6];
    let _ = cloth.live(&mut live);
    let count = cloth.gone_since(0, &mut gone);
    let _ = cloth.places(&mut places);
    (live, gone, count, places[5].y, cloth.step_count())
}

/// Two of three links tear in the first step, and the third is cut. Gravity and a pin come between.
fn played(cloth: &mut Cloth) -> ([Reply; 4], [Seen; 4])
    requires { 2 ≤ length cloth.old.slots }
{
    let step = cloth.apply(&Command::Step(1));
    let torn = seen(cloth);
    cloth.save(1);
    let cut = cloth.apply(&Command::Cut(0));
    let refused = cloth.apply(&Command::Cut(0));
    let pulled = cloth.apply(&Command::Gravity(UP));
    let _ = cloth.apply(&Command::Pin(0));
    let _ = cloth.apply(&Command::Step(1));
    let all = seen(cloth);
    cloth.restore(1);
    let again = seen(cloth);
    cloth.restore(0);
    let first = seen(cloth);
    ([step, cut, refused, pulled], [torn, all, again, first])
}

/// The answers to a step that tears two links, to a cut, to the same cut again, and to gravity.
static REPLIES: [Reply; 4] = [
    Reply::Done,
    Reply::Done,
    Reply::Refused(Refusal::LinkGone),
    Reply::Done,
];

const TORN: Seen = ([1, 0, 0, 7], [1, 2], 2, 2000, 1);

/// What is seen with two links torn, with all gone, and back in the slots 1 and 0.
static TOLD: [Seen; 4] = [
    TORN,
    ([0, 0, 0, 7], [0, 1], 3, 2003, 2),
    TORN,
    ([1, 1, 1, 7], [9, 9], 0, 2000, 0),
];

const SEEN: &str =
    "are the answers to a step, two cuts and gravity, and then live links, gone ones, their number, a height and the steps";

#[test]
fn a_cloth_goes_back_to_its_slots(rt: HostRuntime) -> Result<(), WrongRows> {
    let scene = scene(rt.alloc(), &TEARING).expect(&rt, "no scene");
    let opened = Cloth::open(rt.alloc(), &scene, 2);
    drop(scene);
    let mut cloth = opened.expect(&rt, "no cloth");
    let told = played(&mut cloth);
    drop(cloth);
    all_hold(wrong_row(&rt, (&"a cloth", SEEN), &told, &(REPLIES, TOLD)))
}
