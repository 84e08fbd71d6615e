//! Which links tear.
#![tactic(auto)]

ghost use Rattle.std.specs.Prelude.{◌≡◌, ◌+◌, ◌*◌, ◌<◌, ◌≤◌, ◌^◌, ◌++◌, ◌∷◌, [], pos, unsigned_abs, nat_lt, int_lt, ◌&&◌, length, IsTrue, if◌then◌else◌};
ghost use Rattle.pbd_num.specs.Vectors.{Within, minus, squared_length};
ghost use Rattle.pbd_world.specs.Valid.{is_valid_link, are_valid_links};
ghost use Rattle.pbd_world.specs.Step.{is_torn};
ghost use Rattle.pbd_world.specs.Work.{tearable_count};
ghost use Rattle.pbd_store.specs.Moving.{AreInside};
ghost use Rattle.pbd_tear.specs.Tearing.{AscendTo, torn_numbers, numbers_with_tear_length, gone_numbers};

use pbd_num::{Vec3, square};
use pbd_store::{Steps, Store};
use pbd_world::{Link, RoomList};
use std::sync::ledger::Ledger;

mod laws;

pub use laws::{gone_links_are_dead, torn_links_go};

/// Whether two places are farther from one another than a length.
fn are_farther(a: Vec3, b: Vec3, length: i64) -> bool
    requires a { Within (2 ^ 29) a }
    requires b { Within (2 ^ 29) b }
    requires length { unsigned_abs length ≤ 2 ^ 31 }
    ensures { result ≡ nat_lt (unsigned_abs length * unsigned_abs length) (squared_length (minus a b)) }
{
    square(length) < a.minus(b).squared_length()
}

fn may_tear(link: Link) -> bool
    ensures { result ≡ (link.live && int_lt (pos 0) link.tear) }
{
    link.live && 0 < link.tear
}

fn has_tear_length(link: Link) -> bool
    ensures { result ≡ int_lt (pos 0) link.tear }
{
    0 < link.tear
}

fn is_torn<const L: usize, G: Ledger>(store: &Store<L>, link: Link, steps: &mut Steps<G>) -> bool
    requires link { IsTrue (is_valid_link store.now.limit (length store.now.particles) link) }
    requires inside { AreInside store.now.limit store.now.particles }
    ensures value { result ≡ is_torn store.now.particles link }
    ensures cost { steps.new ≤ steps.old + (if link.live && int_lt (pos 0) link.tear then 2 else 0) }
{
    if !may_tear(link) {
        return false;
    }
    let a = store.at(link.a, steps);
    let b = store.at(link.b, steps);
    are_farther(a.at, b.at, link.tear)
}

fn push_if(out: &mut RoomList<u32>, number: u32, wanted: bool)
    requires { length out.old.entries < out.old.room }
    ensures { out.new ≡ record out.old { entries = if wanted then out.old.entries ++ number ∷ [] else out.old.entries } }
{
    if wanted {
        let _ = out.push(number);
    }
}

/// Leaves in `out` exactly the numbers of the live links that tear, ascending: those that may tear and
/// are longer than their tear length. What `out` held before is dropped.
/// It looks only at the links that `numbers` names, which are those with a tear length.
/// It reaches the store at most twice for each link that may tear, and not at all for the others.
pub fn torn<const L: usize, G: Ledger>(
    store: &Store<L>,
    links: &[Link],
    numbers: &[u32],
    out: &mut RoomList<u32>,
    steps: &mut Steps<G>,
)
    requires links { IsTrue (are_valid_links store.now.limit (length store.now.particles) links.now) }
    requires with_tear_length { numbers.now ≡ numbers_with_tear_length links.now }
    requires inside { AreInside store.now.limit store.now.particles }
    requires room { length links.now ≤ out.old.room }
    ensures numbers { out.new ≡ record out.old { entries = torn_numbers store.now.particles links.now } }
    ensures ascending { AscendTo (length links.now) out.new.entries }
    ensures cost { steps.new ≤ steps.old + 2 * tearable_count links.now }
{
    out.clear();
    for n in numbers {
        let tears = is_torn(store, links[*n as usize], steps);
        push_if(out, *n, tears);
    }
}

/// Leaves in `out` exactly the numbers of the links with a tear length, ascending. What `out` held before is dropped.
pub fn with_tear_length(links: &[Link], out: &mut RoomList<u32>)
    requires few { length links.now ≤ 524288 }
    requires room { length links.now ≤ out.old.room }
    ensures { out.new ≡ record out.old { entries = numbers_with_tear_length links.now } }
{
    out.clear();
    for i in 0..links.len() {
        push_if(out, i as u32, has_tear_length(links[i]));
    }
}

/// Leaves in `out` exactly the numbers of the links that are live no longer, ascending. What `out` held before is dropped.
pub fn gone(links: &[Link], out: &mut RoomList<u32>)
    requires few { length links.now ≤ 524288 }
    requires room { length links.now ≤ out.old.room }
    ensures numbers { out.new ≡ record out.old { entries = gone_numbers links.now } }
    ensures ascending { AscendTo (length links.now) out.new.entries }
{
    out.clear();
    for i in 0..links.len() {
        push_if(out, i as u32, !links[i].live);
    }
}
