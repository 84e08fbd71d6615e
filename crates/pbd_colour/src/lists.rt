//! Filling lists with a room.
ghost use Rattle.std.specs.Prelude.{◌≡◌, ◌≤◌, length, replicate, IfOk};

use pbd_world::RoomList;
use std::alloc::{AllocError, Global};

// A list with so much room, which begins with n copies of an item.
pub(crate) fn open_filled<T: Copy>(
    alloc: Global,
    room: u32,
    item: T,
    n: u32,
) -> Result<RoomList<T>, AllocError>
    requires { n ≤ room }
    ensures { IfOk result (λ list. list ≡ record { entries = replicate n item; room = room }) }
{
    let mut list = RoomList::open(alloc, room)?;
    list.fill(item, n);
    Ok(list)
}

// Empties a list that is longer than so many items.
fn empty_if_longer<T: Copy>(list: &mut RoomList<T>, count: usize)
    ensures room { list.new.room ≡ list.old.room }
    ensures within { length list.new.entries ≤ count }
{
    if count < list.as_slice().len() {
        list.clear();
    }
}

// Gives a list the length of a slice.
fn take_length<T: Copy>(list: &mut RoomList<T>, items: &[T])
    requires { length items.now ≤ list.old.room }
    ensures room { list.new.room ≡ list.old.room }
    ensures length { length list.new.entries ≡ length items.now }
{
    empty_if_longer(list, items.len());
    for i in list.as_slice().len()..items.len() {
        let _ = list.push(items[i]);
    }
}

// Takes the items of a slice. The list is given its length item by item, unless it has it, and then all are copied at once.
pub(crate) fn copy_all<T: Copy>(list: &mut RoomList<T>, items: &[T])
    requires { length items.now ≤ list.old.room }
    ensures { list.new ≡ record list.old { entries = items.now } }
{
    take_length(list, items);
    copy_over(list, items);
}

// Takes the items of a slice that is as long as the list.
pub(crate) fn copy_over<T: Copy>(list: &mut RoomList<T>, items: &[T])
    requires { length items.now ≡ length list.old.entries }
    ensures { list.new ≡ record list.old { entries = items.now } }
{
    list.as_mut_slice().copy_from_slice(items);
}
