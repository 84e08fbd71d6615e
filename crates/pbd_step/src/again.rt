// Taking over another state, with the colours of its links.
ghost use Rattle.std.specs.Prelude.{◌≡◌, ◌≤◌, length, IfOk, IsTrue};
ghost use Rattle.pbd_world.specs.Contacts.{link_pairs, live_flags};
ghost use Rattle.pbd_world.specs.Valid.{is_valid};
ghost use Rattle.pbd_colour.specs.Pairs.{InRange};
ghost use Rattle.pbd_step.specs.States.{fixed_links, HasLinks, HaveSpace, KnowsLinks};
ghost use Rattle.pbd_step.specs.Solving.{AreAlike, IsTakenOver};

use crate::state::{Running, Scratch, State};
use pbd_colour::Colouring;
use pbd_pair::Projector;
use pbd_tear::{gone as gone_links, gone_links_are_dead};
use pbd_world::{Link, Parts, RoomList};
use std::alloc::{AllocError, Global};

/// Makes a state that of another one, which has as many particles and links and the same limit.
pub(crate) fn take_over<const L: usize>(state: &mut State<L>, other: &State<L>)
    requires lanes { L ≤ 16 }
    requires alike { AreAlike state.old other.now }
    ensures { IsTakenOver state.old state.new other.now }
{
    state.store.copy_from(&other.store);
    state.weights.copy_from_slice(&other.weights);
    state.links.copy_from_slice(&other.links);
    state.totals = other.totals;
    state.steps = other.steps;
    state.contacts = other.contacts;
}

/// Lists the pairs of particles that links join.
fn list_pairs(links: &[Link], pairs: &mut RoomList<(u32, u32)>)
    requires { length links.now ≤ pairs.old.room }
    ensures { pairs.new ≡ record pairs.old { entries = link_pairs links.now } }
{
    pairs.clear();
    for link in links {
        let _ = pairs.push((link.a, link.b));
    }
}

/// Colours the links anew, those that are live.
fn colour_again(
    links: &[Link],
    colours: &mut Colouring,
    pairs: &mut RoomList<(u32, u32)>,
    gone: &mut RoomList<u32>,
)
    requires few { length links.now ≤ 524288 }
    requires in_range { InRange colours.old.particles (link_pairs links.now) }
    requires room { length links.now ≤ colours.old.room }
    requires pairs_room { length links.now ≤ pairs.old.room }
    requires gone_room { length links.now ≤ gone.old.room }
    ensures links { HasLinks colours.old.particles links.now colours.new }
    ensures room { colours.new.room ≡ colours.old.room }
    ensures pairs_room { pairs.new.room ≡ pairs.old.room }
    ensures gone_room { gone.new.room ≡ gone.old.room }
{
    gone_links_are_dead();
    list_pairs(links, pairs);
    gone_links(links, gone);
    colours.refill(pairs.as_slice());
    colours.drop_pairs(gone.as_slice());
}

/// Whether links are live just where these flags are set.
fn are_live_by(flags: &[bool], links: &[Link]) -> bool
    requires { length flags.now ≡ length links.now }
    ensures { IsTrue result → flags.now ≡ live_flags links.now }
{
    for i in 0..links.len() {
        if flags[i] != links[i].live {
            return false;
        }
    }
    true
}

/// Whether two lists of weights are the same.
fn are_same(weights: &[u16], others: &[u16]) -> bool
    ensures { IsTrue result → weights.now ≡ others.now }
{
    weights == others
}

/// Gives the colouring of links the live ones of these, which join the same pairs. The colours are made anew unless it is told
/// that the same are live.
fn recolour(are_coloured: bool, links: &[Link], colours: &mut Colouring, scratch: &mut Scratch)
    requires coloured { IsTrue are_coloured → colours.old.live ≡ live_flags links.now }
    requires few { length links.now ≤ 524288 }
    requires in_range { InRange colours.old.particles (link_pairs links.now) }
    requires pairs { colours.old.pairs ≡ link_pairs links.now }
    requires room { length links.now ≤ colours.old.room }
    requires space { HaveSpace colours.old.particles (length links.now) scratch.old }
    ensures links { HasLinks colours.old.particles links.now colours.new }
    ensures space { HaveSpace colours.old.particles (length links.now) scratch.new }
    ensures same { scratch.new ≡ record scratch.old { pairs = scratch.new.pairs; numbers = scratch.new.numbers } }
{
    if are_coloured {
        return;
    }
    colour_again(links, colours, &mut scratch.pairs, &mut scratch.numbers);
}

/// Makes a state that of another one, whose links are in no colouring. They stay laid where the same are live, with the same weights.
pub(crate) fn restore<const L: usize>(
    state: &mut State<L>,
    other: &State<L>,
    colours: &mut Colouring,
    scratch: &mut Scratch,
)
    requires lanes { L ≤ 16 }
    requires alike { AreAlike state.old other.now }
    requires few { length other.now.links.items ≤ 524288 }
    requires in_range { InRange (length other.now.store.particles) (link_pairs other.now.links.items) }
    requires particles { colours.old.particles ≡ length other.now.store.particles }
    requires pairs { colours.old.pairs ≡ link_pairs other.now.links.items }
    requires room { length other.now.links.items ≤ colours.old.room }
    requires space { HaveSpace (length other.now.store.particles) (length other.now.links.items) scratch.old }
    requires fixed { fixed_links state.old.links.items ≡ fixed_links other.now.links.items }
    requires live { colours.old.live ≡ live_flags state.old.links.items }
    requires knows { KnowsLinks state.old scratch.old }
    ensures taken { IsTakenOver state.old state.new other.now }
    ensures links { HasLinks (length other.now.store.particles) other.now.links.items colours.new }
    ensures space { HaveSpace (length other.now.store.particles) (length other.now.links.items) scratch.new }
    ensures knows { KnowsLinks state.new scratch.new }
{
    let are_coloured = are_live_by(colours.live(), &other.links);
    let are_weighed = are_same(&state.weights, &other.weights);
    scratch.are_links_laid = scratch.are_links_laid & are_coloured & are_weighed;
    take_over(state, other);
    recolour(are_coloured, &state.links, colours, scratch);
}

/// A colouring takes over the flags and colours of another one of the same pairs, unless it has these flags, and so these colours.
/// Whether it had them.
pub(crate) fn take_colours(colours: &mut Colouring, other: &Colouring) -> bool
    requires { colours.old.pairs ≡ other.now.pairs }
    ensures taken { colours.new ≡ record colours.old { live = other.now.live } }
    ensures same { IsTrue result → colours.old.live ≡ other.now.live }
{
    if colours.has_flags_of(other) {
        return true;
    }
    colours.copy_from(other);
    false
}

/// Makes a running state another one, and takes over the colours of its links. They stay laid where the same are live, with the
/// same weights.
pub(crate) fn restore_coloured<const L: usize, P: Projector<L> + Drop>(
    run: &mut Running<L, P>,
    other: &State<L>,
    colours: &Colouring,
)
    requires lanes { L ≤ 16 }
    requires alike { AreAlike run.old.state other.now }
    requires fixed { fixed_links run.old.state.links.items ≡ fixed_links other.now.links.items }
    requires mine { HasLinks (length run.old.state.store.particles) run.old.state.links.items run.old.colours }
    requires others { HasLinks (length other.now.store.particles) other.now.links.items colours.now }
    requires knows { KnowsLinks run.old.state run.old.scratch }
    ensures taken { IsTakenOver run.old.state run.new.state other.now }
    ensures links { HasLinks (length other.now.store.particles) other.now.links.items run.new.colours }
    ensures scratch { run.new.scratch ≡ record run.old.scratch { are_links_laid = run.new.scratch.are_links_laid } }
    ensures knows { KnowsLinks run.new.state run.new.scratch }
    ensures projector { run.new.projector ≡ run.old.projector }
{
    let are_coloured = take_colours(&mut run.colours, colours);
    let are_weighed = are_same(&run.state.weights, &other.weights);
    run.scratch.are_links_laid = run.scratch.are_links_laid & are_coloured & are_weighed;
    take_over(&mut run.state, other);
}

/// The colours of the links of some parts.
pub(crate) fn open_colours(alloc: Global, parts: &Parts) -> Result<Colouring, AllocError>
    requires { IsTrue (is_valid parts.now) }
    ensures { IfOk result (HasLinks (length parts.now.particles) parts.now.links) }
{
    let particles = parts.particles.len() as u32;
    let links = parts.links.as_slice();
    let count = links.len() as u32;
    let mut pairs = RoomList::open(alloc, count)?;
    let mut gone = RoomList::open(alloc, count)?;
    let mut colours = Colouring::open(alloc, particles, count)?;
    colour_again(links, &mut colours, &mut pairs, &mut gone);
    Ok(colours)
}
