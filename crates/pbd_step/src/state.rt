// What a solver is made of.
ghost use Rattle.std.specs.Prelude.{◌≡◌};
ghost use Rattle.pbd_shape.specs.Valid.{lists_of};

use pbd_colour::Colouring;
use pbd_num::Vec3;
use pbd_pair::{BondColumns, Projector};
use pbd_self::SelfContacts;
use pbd_shape::{Shapes, Touched};
use pbd_store::Store;
use pbd_world::{Link, List, RoomList, ShapeLists, Totals, Track};

/// What no step changes: the scene's tracks, shapes and numbers, gravity, and the momentum at opening.
#[derive(Drop)]
pub struct Setting {
    pub(crate) tracks: List<Track>,
    pub(crate) shapes: ShapeLists,
    pub(crate) gravity: Vec3,
    pub(crate) passes: u32,
    pub(crate) damping: i64,
    pub(crate) thickness: i64,
    pub(crate) friction: i64,
    pub(crate) opening: [i128; 3],
}

impl Setting {
    /// The scene's shapes.
    pub(crate) fn shapes(&self) -> Shapes<'_>
        ensures { lists_of result ≡ self.now.shapes }
    {
        Shapes::of(&self.shapes)
    }
}

/// What steps and commands change, but for gravity.
#[derive(Drop)]
pub struct State<const L: usize> {
    pub(crate) store: Store<L>,
    /// The effective weights of the particles.
    pub(crate) weights: Vec<u16>,
    pub(crate) links: Vec<Link>,
    pub(crate) totals: Totals,
    pub(crate) steps: u64,
    pub(crate) contacts: u32,
}

/// What steps work with and leave behind, and what colouring links anew works with. It is no part of the world.
#[derive(Drop)]
pub struct Scratch {
    pub(crate) found: SelfContacts,
    pub(crate) touched: Touched,
    pub(crate) pairs: RoomList<(u32, u32)>,
    pub(crate) numbers: RoomList<u32>,
    /// The numbers of the links with a tear length.
    pub(crate) with_tear_length: RoomList<u32>,
    /// The live links, and the contacts, as they are projected.
    pub(crate) laid_links: BondColumns,
    pub(crate) laid_contacts: BondColumns,
    /// Whether the live links are known to be laid as they are now. What lets a link go, holds a particle or frees one says no here.
    pub(crate) are_links_laid: bool,
}

/// A state, and what its steps work with.
#[derive(Drop)]
pub struct Running<const L: usize, P: Projector<L> + Drop> {
    pub(crate) state: State<L>,
    pub(crate) colours: Colouring,
    pub(crate) scratch: Scratch,
    pub(crate) projector: P,
}
