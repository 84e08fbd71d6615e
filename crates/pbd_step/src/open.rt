// What a solver takes at its opening.
ghost use Rattle.std.specs.Prelude.{◌≡◌, ◌≤◌, length, map, IfOk, IsTrue};
ghost use Rattle.pbd_world.specs.Particles.{effective_weight};
ghost use Rattle.pbd_pair.specs.Laid.{HaveRows};
ghost use Rattle.pbd_world.specs.Valid.{is_valid};
ghost use Rattle.pbd_tear.specs.Tearing.{numbers_with_tear_length};
ghost use Rattle.pbd_step.specs.Opening.{AreCopied, IsFirst, IsUnused};
ghost use Rattle.pbd_step.specs.States.{HasLinks, HaveSpace};

use crate::again::open_colours;
use crate::state::{Running, Scratch, Setting, State};
use pbd_colour::Colouring;
use pbd_ledger::momentum_of;
use pbd_pair::{BondColumns, Projector};
use pbd_self::SelfContacts;
use pbd_shape::Touched;
use pbd_store::{Store, effective_weight_of};
use pbd_tear::with_tear_length as find_with_tear_length;
use pbd_world::{Link, List, MOST_CONTACTS, Parts, RoomList, ShapeLists, Totals, Track};
use std::alloc::{AllocError, Global};

fn copied_track(alloc: Global, track: &Track) -> Result<Track, AllocError>
    ensures { IfOk result (λ t. t ≡ track.now) }
{
    let keys = List::copied(alloc, track.keys.as_slice())?;
    Ok(Track {
        particle: track.particle,
        keys,
    })
}

fn copied_tracks(alloc: Global, tracks: &[Track]) -> Result<List<Track>, AllocError>
    ensures { IfOk result (λ list. list ≡ tracks.now) }
{
    let mut list = List::new(alloc);
    for track in tracks {
        let copy = copied_track(alloc, track)?;
        list.push(copy)?;
    }
    Ok(list)
}

/// What no step changes of some parts.
fn open_setting(alloc: Global, parts: &Parts) -> Result<Setting, AllocError>
    requires { length parts.now.particles ≤ 65536 }
    ensures { IfOk result (λ setting. AreCopied parts.now setting) }
{
    let opening = momentum_of(parts.particles.as_slice());
    let tracks = copied_tracks(alloc, parts.tracks.as_slice())?;
    let shapes = ShapeLists::copied(alloc, parts)?;
    Ok(Setting {
        tracks,
        shapes,
        gravity: parts.gravity,
        passes: parts.passes,
        damping: parts.damping,
        thickness: parts.thickness,
        friction: parts.friction,
        opening,
    })
}

// The effective weights of the particles, and the links.
fn open_weighed(alloc: Global, parts: &Parts) -> Result<(Vec<u16>, Vec<Link>), AllocError>
    ensures weights { IfOk result (λ lists. lists.0.items ≡ map effective_weight parts.now.particles) }
    ensures links { IfOk result (λ lists. lists.1.items ≡ parts.now.links) }
{
    let weights: Vec<u16> = parts
        .particles
        .as_slice()
        .iter()
        .map(|p| effective_weight_of(*p))
        .collect(alloc)?;
    match parts.links.as_slice().to_vec(alloc) {
        Ok(links) => Ok((weights, links)),
        Err(AllocError) => {
            drop(weights);
            Err(AllocError)
        }
    }
}

/// A state of some parts, before the first step.
fn open_state<const L: usize>(alloc: Global, parts: &Parts) -> Result<State<L>, AllocError>
    requires lanes { L ≤ 16 }
    requires valid { IsTrue (is_valid parts.now) }
    ensures { IfOk result (λ state. IsFirst parts.now state) }
{
    let store = Store::open(alloc, parts.particles.as_slice(), parts.limit)?;
    match open_weighed(alloc, parts) {
        Ok((weights, links)) => Ok(State {
            store,
            weights,
            links,
            totals: Totals::zero(),
            steps: 0,
            contacts: 0,
        }),
        Err(AllocError) => {
            drop(store);
            Err(AllocError)
        }
    }
}

/// What no step changes of some parts, and a second state of them before the first step.
pub(crate) fn open_kept<const L: usize>(
    alloc: Global,
    parts: &Parts,
) -> Result<(Setting, State<L>), AllocError>
    requires lanes { L ≤ 16 }
    requires valid { IsTrue (is_valid parts.now) }
    ensures setting { IfOk result (λ both. AreCopied parts.now both.0) }
    ensures state { IfOk result (λ both. IsFirst parts.now both.1) }
{
    let setting = open_setting(alloc, parts)?;
    match open_state(alloc, parts) {
        Ok(state) => Ok((setting, state)),
        Err(AllocError) => {
            drop(setting);
            Err(AllocError)
        }
    }
}

// The numbers of the links with a tear length.
fn open_with_tear_length(alloc: Global, links: &[Link]) -> Result<RoomList<u32>, AllocError>
    requires { length links.now ≤ 524288 }
    ensures { IfOk result (λ list. list.entries ≡ numbers_with_tear_length links.now) }
{
    let mut list = RoomList::open(alloc, links.len() as u32)?;
    find_with_tear_length(links, &mut list);
    Ok(list)
}

// A list of numbers with room for these links, and the numbers of those with a tear length.
fn open_numbers(alloc: Global, links: &[Link]) -> Result<(RoomList<u32>, RoomList<u32>), AllocError>
    requires { length links.now ≤ 524288 }
    ensures numbers { IfOk result (λ lists. lists.0.room ≡ length links.now) }
    ensures with_tear_length { IfOk result (λ lists. lists.1.entries ≡ numbers_with_tear_length links.now) }
{
    let numbers = RoomList::open(alloc, links.len() as u32)?;
    match open_with_tear_length(alloc, links) {
        Ok(with_tear_length) => Ok((numbers, with_tear_length)),
        Err(AllocError) => {
            drop(numbers);
            Err(AllocError)
        }
    }
}

// Columns with room for so many links, and for all contacts.
fn open_columns(alloc: Global, links: u32) -> Result<(BondColumns, BondColumns), AllocError>
    ensures links { IfOk result (λ both. HaveRows links both.0) }
    ensures contacts { IfOk result (λ both. HaveRows 262144 both.1) }
{
    let laid_links = BondColumns::open(alloc, links)?;
    match BondColumns::open(alloc, MOST_CONTACTS) {
        Ok(laid_contacts) => Ok((laid_links, laid_contacts)),
        Err(AllocError) => {
            drop(laid_links);
            Err(AllocError)
        }
    }
}

// What has room for some links: lists of their pairs and numbers, and columns of them and of contacts.
#[derive(Drop)]
struct Rooms {
    pairs: RoomList<(u32, u32)>,
    numbers: RoomList<u32>,
    with_tear_length: RoomList<u32>,
    laid_links: BondColumns,
    laid_contacts: BondColumns,
}

// Room for the pairs and numbers of these links and for columns of them and of all contacts, and the numbers of those with a
// tear length.
fn open_rooms(alloc: Global, links: &[Link]) -> Result<Rooms, AllocError>
    requires { length links.now ≤ 524288 }
    ensures pairs { IfOk result (λ rooms. rooms.pairs.room ≡ length links.now) }
    ensures numbers { IfOk result (λ rooms. rooms.numbers.room ≡ length links.now) }
    ensures with_tear_length { IfOk result (λ rooms. rooms.with_tear_length.entries ≡ numbers_with_tear_length links.now) }
    ensures laid_links { IfOk result (λ rooms. HaveRows (length links.now) rooms.laid_links) }
    ensures laid_contacts { IfOk result (λ rooms. HaveRows 262144 rooms.laid_contacts) }
{
    let count = links.len() as u32;
    let pairs = RoomList::open(alloc, count)?;
    match open_numbers(alloc, links) {
        Ok((numbers, with_tear_length)) => match open_columns(alloc, count) {
            Ok((laid_links, laid_contacts)) => Ok(Rooms {
                pairs,
                numbers,
                with_tear_length,
                laid_links,
                laid_contacts,
            }),
            Err(AllocError) => {
                drop(with_tear_length);
                drop(numbers);
                drop(pairs);
                Err(AllocError)
            }
        },
        Err(AllocError) => {
            drop(pairs);
            Err(AllocError)
        }
    }
}

// Scratch of these contacts and flags, for these links.
fn with_room(
    alloc: Global,
    found: SelfContacts,
    touched: Touched,
    links: &[Link],
) -> Result<Scratch, AllocError>
    requires touched { length touched ≡ found.particles }
    requires few { length links.now ≤ 524288 }
    ensures space { IfOk result (HaveSpace found.particles (length links.now)) }
    ensures unused { IfOk result (IsUnused links.now) }
{
    match open_rooms(alloc, links) {
        Ok(rooms) => Ok(Scratch {
            found,
            touched,
            pairs: rooms.pairs,
            numbers: rooms.numbers,
            with_tear_length: rooms.with_tear_length,
            laid_links: rooms.laid_links,
            laid_contacts: rooms.laid_contacts,
            are_links_laid: false,
        }),
        Err(AllocError) => {
            drop(touched);
            drop(found);
            Err(AllocError)
        }
    }
}

/// Room for what a step works with.
fn open_scratch(alloc: Global, particles: u32, links: &[Link]) -> Result<Scratch, AllocError>
    requires particles { particles ≤ 65536 }
    requires links { length links.now ≤ 524288 }
    ensures space { IfOk result (HaveSpace particles (length links.now)) }
    ensures unused { IfOk result (IsUnused links.now) }
{
    let found = SelfContacts::open(alloc, particles)?;
    match Touched::open(alloc, particles) {
        Ok(touched) => with_room(alloc, found, touched, links),
        Err(AllocError) => {
            drop(found);
            Err(AllocError)
        }
    }
}

/// The colours of the links, and room for what a step works with.
fn open_coloured(alloc: Global, parts: &Parts) -> Result<(Scratch, Colouring), AllocError>
    requires { IsTrue (is_valid parts.now) }
    ensures links { IfOk result (λ both. HasLinks (length parts.now.particles) parts.now.links both.1) }
    ensures space { IfOk result (λ both. HaveSpace (length parts.now.particles) (length parts.now.links) both.0) }
    ensures unused { IfOk result (λ both. IsUnused parts.now.links both.0) }
{
    let colours = open_colours(alloc, parts)?;
    let particles = parts.particles.len() as u32;
    match open_scratch(alloc, particles, parts.links.as_slice()) {
        Ok(scratch) => Ok((scratch, colours)),
        Err(AllocError) => {
            drop(colours);
            Err(AllocError)
        }
    }
}

/// A state before the first step, with what its steps work with.
pub(crate) fn open_running<const L: usize, P: Projector<L> + Drop>(
    alloc: Global,
    parts: &Parts,
    projector: P,
) -> Result<Running<L, P>, AllocError>
    requires lanes { L ≤ 16 }
    requires valid { IsTrue (is_valid parts.now) }
    ensures state { IfOk result (λ run. IsFirst parts.now run.state) }
    ensures links { IfOk result (λ run. HasLinks (length parts.now.particles) parts.now.links run.colours) }
    ensures space { IfOk result (λ run. HaveSpace (length parts.now.particles) (length parts.now.links) run.scratch) }
    ensures unused { IfOk result (λ run. IsUnused parts.now.links run.scratch) }
    ensures projector { IfOk result (λ run. run.projector ≡ projector) }
{
    match open_coloured(alloc, parts) {
        Ok((scratch, colours)) => match open_state(alloc, parts) {
            Ok(state) => Ok(Running {
                state,
                colours,
                scratch,
                projector,
            }),
            Err(AllocError) => {
                drop(colours);
                drop(scratch);
                drop(projector);
                Err(AllocError)
            }
        },
        Err(AllocError) => {
            drop(projector);
            Err(AllocError)
        }
    }
}
