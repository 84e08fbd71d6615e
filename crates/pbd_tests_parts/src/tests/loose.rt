//! Boxes that are taken apart into their pointers, and made again.
use pbd_loose::RawBox;

/// What two boxes hold that were apart at the same time, and were made again in the other order.
fn held_again(first: Box<u64>, second: Box<[u8; 4096]>) -> (u64, u8) {
    let first = RawBox::of(first);
    let second = RawBox::of(second);
    let second = second.into_box();
    let first = first.into_box();
    let held = (*first, second[4095]);
    drop(first);
    drop(second);
    held
}

#[test]
fn boxes_that_were_taken_apart_hold_what_they_held(rt: HostRuntime) {
    let second = Box::new(rt.alloc(), [9; 4096]).expect(&rt, "no memory");
    let first = Box::new(rt.alloc(), 7).expect(&rt, "no memory");
    let held = held_again(first, second);
    assert!(rt;
        held == (7, 9),
        "a number and the last of 4,096 bytes: {held:?}"
    );
}
