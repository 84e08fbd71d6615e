//! Single values that a program reads of what its handle holds, which stays as it is.
ghost use Rattle.std.specs.Prelude.{◌≡◌, pos};
ghost use Rattle.pbd_world.specs.Ledger.{sum_of};
ghost use Rattle.pbd_world.specs.Replay.{frame_sums};
ghost use Rattle.pbd_state.specs.Naming.{scene_name};
ghost use Rattle.pbd_cloth.specs.Reading.{link_between, place_of};
ghost use Rattle.lakmozet_c.specs.Calls.{answered, counts_of, read_from, sums_of, Keeps, Reads};
ghost use Rattle.lakmozet_c.specs.Shown.{found_answer, found_left, sum_in, wide_value, IsBookOf, WritesBook};

use crate::handle::{Handle, with_cloth};
use crate::numbers::{CLOSED, NO_LINK};
use crate::plain::{Book, Counts, Hash, Sums, Wide};
use pbd_cloth::{Cloth, Place};
use pbd_world::FrameSums;
use std::alloc::Global;

fn sums_of(sums: &FrameSums) -> Sums
    ensures { result ≡ sums_of sums.now }
{
    Sums {
        steps: sums.steps,
        live: sums.live,
        contacts: sums.contacts,
        at: sums.at,
        before: sums.before,
    }
}

fn counts_of(cloth: &Cloth) -> Counts
    ensures { result ≡ counts_of cloth.now }
{
    Counts {
        steps: cloth.step_count(),
        particles: cloth.particles(),
        links: cloth.links(),
        live: cloth.live_links(),
        contacts: cloth.contacts(),
        slots: cloth.slots(),
    }
}

fn wide(number: i128) -> Wide
    ensures { wide_value result ≡ number }
{
    let high = number >> 64;
    Wide {
        low: (number - high * 18_446_744_073_709_551_616) as u64,
        high: high as i64,
    }
}

fn wides(sum: [i128; 3]) -> [Wide; 3]
    ensures { sum_in result ≡ sum_of sum }
{
    [wide(sum[0]), wide(sum[1]), wide(sum[2])]
}

fn book_of(cloth: &Cloth) -> Book
    ensures { IsBookOf cloth.now.world result }
{
    let balance = cloth.balance();
    let totals = balance.totals;
    Book {
        momentum: wides(balance.momentum),
        opening: wides(balance.opening),
        gravity: wides(totals.gravity),
        damping: wides(totals.damping),
        link: wides(totals.link),
        contact: wides(totals.contact),
        pin: wides(totals.pin),
        shape: wides(totals.shape),
    }
}

/// Writes the number of a link that was found, and answers whether one was.
fn found(link: Option<u32>, into: &mut u32) -> i32
    ensures answer { result ≡ pos (found_answer link) }
    ensures written { into.new ≡ found_left link into.old }
{
    match link {
        Some(number) => {
            *into = number;
            0
        }
        None => NO_LINK,
    }
}

/// Writes how many steps were taken, and how many particles, links, live links, contacts and slots there are.
#[unsafe(no_mangle)]
pub extern "C" fn lak_counts(alloc: Global, handle: &mut Handle, counts: &mut Counts) -> i32
    ensures { Reads counts_of handle.old.held handle.new.held result counts.old counts.new }
{
    with_cloth!(alloc, handle, cloth => {
        *counts = counts_of(&cloth);
        0
    })
}

/// Writes the sums that a log keeps of a world.
#[unsafe(no_mangle)]
pub extern "C" fn lak_sums(alloc: Global, handle: &mut Handle, sums: &mut Sums) -> i32
    ensures { Reads (λ c. sums_of (frame_sums c.world)) handle.old.held handle.new.held result sums.old sums.new }
{
    with_cloth!(alloc, handle, cloth => {
        *sums = sums_of(&cloth.sums());
        0
    })
}

/// Writes how many contacts the last step found.
#[unsafe(no_mangle)]
pub extern "C" fn lak_contacts(alloc: Global, handle: &mut Handle, contacts: &mut u64) -> i32
    ensures { Reads (λ c. c.world.contacts) handle.old.held handle.new.held result contacts.old contacts.new }
{
    with_cloth!(alloc, handle, cloth => {
        *contacts = u64::from(cloth.contacts());
        0
    })
}

/// Writes gravity, in units per step squared.
#[unsafe(no_mangle)]
pub extern "C" fn lak_gravity_now(alloc: Global, handle: &mut Handle, gravity: &mut Place) -> i32
    ensures { Reads (λ c. place_of c.world.gravity) handle.old.held handle.new.held result gravity.old gravity.new }
{
    with_cloth!(alloc, handle, cloth => {
        *gravity = Place::of(cloth.gravity());
        0
    })
}

/// Writes the momentum, that at opening, and the totals of what moved it since.
#[unsafe(no_mangle)]
pub extern "C" fn lak_ledger(alloc: Global, handle: &mut Handle, book: &mut Book) -> i32
    ensures kept { Keeps handle.old.held handle.new.held }
    ensures answer { result ≡ pos (answered handle.old.held (λ _. 0)) }
    ensures book { WritesBook handle.old.held book.old book.new }
{
    with_cloth!(alloc, handle, cloth => {
        *book = book_of(&cloth);
        0
    })
}

/// Writes the name of the handle's scene: the SHA-256 digest of all that no command changes.
#[unsafe(no_mangle)]
pub extern "C" fn lak_scene_name(alloc: Global, handle: &mut Handle, name: &mut Hash) -> i32
    ensures { Reads (λ c. scene_name c.world) handle.old.held handle.new.held result name.old.bytes name.new.bytes }
{
    with_cloth!(alloc, handle, cloth => {
        name.bytes = cloth.scene_name();
        0
    })
}

/// Writes the number of the link that joins two particles, in either order, live or not.
#[unsafe(no_mangle)]
pub extern "C" fn lak_link_between(
    alloc: Global,
    handle: &mut Handle,
    a: u32,
    b: u32,
    link: &mut u32,
) -> i32
    ensures kept { Keeps handle.old.held handle.new.held }
    ensures answer { result ≡ pos (answered handle.old.held (λ c. found_answer (link_between c.world a b))) }
    ensures link { link.new ≡ read_from handle.old.held (λ c. found_left (link_between c.world a b) link.old) link.old }
{
    with_cloth!(alloc, handle, cloth => found(cloth.link_between(a, b), link))
}
