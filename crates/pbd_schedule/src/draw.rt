//! Events in an order that words of a generator draw.
ghost use Rattle.std.specs.Prelude.{◌≡◌, ◌<◌, ◌≤◌, ◌*◌, length, take};
ghost use Rattle.pbd_schedule.specs.Legal.{event_at};
ghost use Rattle.pbd_schedule.specs.Drawn.{drawn, first_events, following, gone_on, later};

use crate::event::Event;
use pbd_world::RoomList;
use rand_core::utils::NextWord;
use rand_pcg::Lcg64Xsh32;

// The event of the same bond that comes after one.
fn following(event: Event) -> Option<Event>
    ensures { result ≡ following event }
{
    match event {
        Event::Read(k) => Some(Event::WriteA(k)),
        Event::WriteA(k) => Some(Event::WriteB(k)),
        Event::WriteB(_) => None,
    }
}

// What may come after event i of the first `left`, and how many those are.
fn go_on(coming: &mut [Event], left: usize, i: usize) -> usize
    requires left { left ≤ length coming.old }
    requires within { i < left }
    ensures coming { take result coming.new ≡ gone_on (take left coming.old) i }
    ensures size { length coming.new ≡ length coming.old }
    ensures fewer { result ≤ left }
{
    match following(coming[i]) {
        Some(event) => {
            coming[i] = event;
            left
        }
        None => {
            coming[i] = coming[left - 1];
            left - 1
        }
    }
}

/// Draws all events of the bonds whose reads are to come.
pub(crate) fn draw(words: &mut Lcg64Xsh32, coming: &mut [Event], events: &mut RoomList<Event>)
    requires reads { coming.old ≡ first_events (length coming.old) }
    requires few { length coming.old ≤ 32768 }
    requires room { events.old.room ≡ 98304 }
    ensures size { length coming.new ≡ length coming.old }
    ensures events { events.new ≡ record { entries = drawn words.old (length coming.old); room = 98304 } }
    ensures words { words.new ≡ later (3 * length coming.old) words.old }
{
    events.clear();
    let mut left = coming.len();
    for _ in 0..3 * coming.len() {
        let i = words.next_word() as usize % left;
        let _ = events.push(coming[i]);
        left = go_on(coming, left, i);
    }
}
