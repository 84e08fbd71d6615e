//! Items that come into chains and leave them.
use pbd_chain::Chains;

#[test]
fn items_come_into_two_chains_and_leave_them(rt: HostRuntime) {
    let mut chains = Chains::open(rt.alloc(), 2, 4).expect(&rt, "no memory");
    let empty = chains.first(1);
    chains.link_front(0, 1);
    chains.link_front(0, 3);
    chains.link_front(1, 2);
    let (first, second, third) = (chains.first(0), chains.next(3), chains.next(1));
    let other = chains.first(1);
    chains.unlink(3);
    let stays = chains.is_linked(3);
    let (left, behind) = (chains.first(0), chains.next(1));
    chains.clear();
    let told = [
        empty,
        first,
        second,
        third,
        other,
        left,
        behind,
        chains.first(1),
    ];
    drop(chains);
    assert!(rt; !stays, "an item that was taken out is still linked");
    assert!(rt;
        told == [None, Some(3), Some(1), None, Some(2), Some(1), None, None],
        "an empty chain, two items and their end, the other chain, the first chain without its first item, and one that was cleared: {told:?}"
    );
}
