//! The first events of a batch.
ghost use Rattle.std.specs.Prelude.{◌≡◌, ◌≤◌};
ghost use Rattle.pbd_schedule.specs.Drawn.{first_events};

use crate::event::Event;
use pbd_world::RoomList;

/// Lists the reads of n bonds.
pub(crate) fn list_reads(list: &mut RoomList<Event>, n: u32)
    requires { n ≤ list.old.room }
    ensures { list.new ≡ record list.old { entries = first_events n } }
{
    list.clear();
    for k in 0..n {
        let _ = list.push(Event::Read(k));
    }
}
