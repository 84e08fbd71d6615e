//! The chains of the pairs of each particle, with an item for each end of a pair.
ghost use Rattle.std.specs.Prelude.{◌≡◌, ◌+◌, ◌*◌, ◌/◌, ◌<◌, ◌≤◌, ◌==◌, ℕ, List, IsTrue, true, false, length, slice_index, slice_set};
ghost use Rattle.std.specs.Bool.{Decides};
ghost use Rattle.std.specs.List.{list_any};
ghost use Rattle.pbd_chain.specs.Linked.{is_in, chain_at};
ghost use Rattle.pbd_world.specs.Colours.{live_at};
ghost use Rattle.pbd_colour.specs.Pairs.{InRange, dropped};
ghost use Rattle.pbd_colour.specs.Held.{Holds, AgreeTo, before, far_at};

use pbd_chain::Chains;

/// Pairs, their flags, and the chains of the ends of those that are live.
#[derive(Clone, Copy)]
pub(crate) struct Held<'a> {
    pub(crate) pairs: &'a [(u32, u32)],
    pub(crate) live: &'a [bool],
    pub(crate) chains: &'a Chains,
}

// Puts both ends of each pair into the chains of their particles, which hold nothing before.
fn hold_all(chains: &mut Chains, pairs: &[(u32, u32)])
    requires pairs { InRange (length chains.old.chains) pairs.now }
    requires few { length pairs.now ≤ 524288 }
    requires room { 2 * length pairs.now ≤ chains.old.items }
    requires empty { Holds (before 0) (length chains.old.chains) chains.old.items pairs.now chains.old }
    ensures { Holds (before (length pairs.now)) (length chains.old.chains) chains.old.items pairs.now chains.new }
{
    for i in 0..pairs.len() {
        let (a, b) = pairs[i];
        let item = 2 * i as u32;
        chains.link_front(a, item);
        chains.link_front(b, item + 1);
    }
}

// Takes a pair's flag away, and its ends out of the chains.
fn let_go(_pairs: &[(u32, u32)], live: &mut [bool], chains: &mut Chains, i: u32)
    requires i { i < length _pairs.now }
    requires pairs { InRange (length chains.old.chains) _pairs.now }
    requires length { length live.old ≡ length _pairs.now }
    requires few { length _pairs.now ≤ 524288 }
    requires held { Holds (live_at live.old) (length chains.old.chains) chains.old.items _pairs.now chains.old }
    ensures live { live.new ≡ slice_set live.old i false }
    ensures held { Holds (live_at live.new) (length chains.old.chains) chains.old.items _pairs.now chains.new }
{
    if !live[i as usize] {
        return;
    }
    let item = 2 * i;
    chains.unlink(item);
    chains.unlink(item + 1);
    live[i as usize] = false;
}

// Sets a pair's flag, and puts its ends into the chains.
fn hold(pairs: &[(u32, u32)], live: &mut [bool], chains: &mut Chains, i: u32)
    requires i { i < length pairs.now }
    requires pairs { InRange (length chains.old.chains) pairs.now }
    requires length { length live.old ≡ length pairs.now }
    requires few { length pairs.now ≤ 524288 }
    requires room { 2 * length pairs.now ≤ chains.old.items }
    requires held { Holds (live_at live.old) (length chains.old.chains) chains.old.items pairs.now chains.old }
    ensures live { live.new ≡ slice_set live.old i true }
    ensures held { Holds (live_at live.new) (length chains.old.chains) chains.old.items pairs.now chains.new }
{
    if live[i as usize] {
        return;
    }
    let (a, b) = pairs[i as usize];
    let item = 2 * i;
    chains.link_front(a, item);
    chains.link_front(b, item + 1);
    live[i as usize] = true;
}

// What the flag of a pair is to be.
#[derive(Clone, Copy)]
struct Change {
    pair: u32,
    is_live: bool,
}

// Gives a pair a flag. Its ends are in the chains where that is set.
fn set_live(pairs: &[(u32, u32)], live: &mut [bool], chains: &mut Chains, change: Change)
    requires i { change.pair < length pairs.now }
    requires pairs { InRange (length chains.old.chains) pairs.now }
    requires length { length live.old ≡ length pairs.now }
    requires few { length pairs.now ≤ 524288 }
    requires room { 2 * length pairs.now ≤ chains.old.items }
    requires held { Holds (live_at live.old) (length chains.old.chains) chains.old.items pairs.now chains.old }
    ensures live { live.new ≡ slice_set live.old change.pair change.is_live }
    ensures held { Holds (live_at live.new) (length chains.old.chains) chains.old.items pairs.now chains.new }
{
    if change.is_live {
        hold(pairs, live, chains, change.pair);
        return;
    }
    let_go(pairs, live, chains, change.pair);
}

// How many flags are compared at a time.
const PIECE: usize = 64;

// Whether two lists of flags are the same.
pub(crate) fn are_same(flags: &[bool], others: &[bool]) -> bool
    ensures { Decides result (flags.now ≡ others.now) }
{
    flags == others
}

// Whether two lists have the same flags in the piece that begins here.
fn is_same_piece(flags: &[bool], others: &[bool], at: usize) -> bool
    requires length { length flags.now ≡ length others.now }
    requires at { at + 64 ≤ length flags.now }
    ensures { IsTrue result → (k : ℕ) → at ≤ k → k < at + 64 → live_at flags.now k ≡ live_at others.now k }
{
    are_same(&flags[at..at + PIECE], &others[at..at + PIECE])
}

// Passes the pieces in which two lists have the same flags.
fn skip_pieces(flags: &[bool], others: &[bool], start: usize) -> usize
    requires length { length flags.now ≡ length others.now }
    requires start { start ≤ length flags.now }
    ensures { AgreeTo flags.now others.now start result }
{
    let mut at = start;
    while PIECE <= flags.len() - at && is_same_piece(flags, others, at) {
        at += PIECE;
    }
    at
}

// The first place from `start` on at which two lists have different flags, or their length.
fn next_change(flags: &[bool], others: &[bool], start: usize) -> usize
    requires length { length flags.now ≡ length others.now }
    requires start { start ≤ length flags.now }
    ensures { AgreeTo flags.now others.now start result }
{
    let mut at = skip_pieces(flags, others, start);
    while at < flags.len() && flags[at] == others[at] {
        at += 1;
    }
    at
}

// Gives the pairs other flags. It goes to the chains only where a flag changes.
pub(crate) fn hold_as(pairs: &[(u32, u32)], live: &mut [bool], chains: &mut Chains, flags: &[bool])
    requires pairs { InRange (length chains.old.chains) pairs.now }
    requires length { length live.old ≡ length pairs.now }
    requires few { length pairs.now ≤ 524288 }
    requires room { 2 * length pairs.now ≤ chains.old.items }
    requires held { Holds (live_at live.old) (length chains.old.chains) chains.old.items pairs.now chains.old }
    requires flags { length flags.now ≡ length pairs.now }
    ensures live { live.new ≡ flags.now }
    ensures held { Holds (live_at live.new) (length chains.old.chains) chains.old.items pairs.now chains.new }
{
    let mut at = next_change(live, flags, 0);
    while at < flags.len() {
        let change = Change {
            pair: at as u32,
            is_live: flags[at],
        };
        set_live(pairs, live, chains, change);
        at = next_change(live, flags, at + 1);
    }
}

// Takes the flags of the numbers away, and their ends out of the chains.
pub(crate) fn take_out(
    pairs: &[(u32, u32)],
    live: &mut [bool],
    chains: &mut Chains,
    numbers: &[u32],
)
    requires pairs { InRange (length chains.old.chains) pairs.now }
    requires length { length live.old ≡ length pairs.now }
    requires few { length pairs.now ≤ 524288 }
    requires held { Holds (live_at live.old) (length chains.old.chains) chains.old.items pairs.now chains.old }
    requires in_range { (k : ℕ) → k < length numbers.now → slice_index numbers.now k < length live.old }
    ensures live { live.new ≡ dropped numbers.now live.old }
    ensures held { Holds (live_at live.new) (length chains.old.chains) chains.old.items pairs.now chains.new }
{
    for i in numbers {
        let_go(pairs, live, chains, *i);
    }
}

// Takes the ends of all pairs out of the chains, which costs no more than the pairs.
fn take_all_out(pairs: &[(u32, u32)], live: &mut [bool], chains: &mut Chains)
    requires pairs { InRange (length chains.old.chains) pairs.now }
    requires length { length live.old ≡ length pairs.now }
    requires few { length pairs.now ≤ 524288 }
    requires held { Holds (live_at live.old) (length chains.old.chains) chains.old.items pairs.now chains.old }
    ensures { (others : List (ℕ × ℕ)) → Holds (before 0) (length chains.old.chains) chains.old.items others chains.new }
{
    for i in 0..pairs.len() as u32 {
        let_go(pairs, live, chains, i);
    }
}

// Puts both ends of each pair into the chains in place of those of other pairs.
pub(crate) fn hold_instead(
    chains: &mut Chains,
    held: &[(u32, u32)],
    live: &mut [bool],
    pairs: &[(u32, u32)],
)
    requires old_pairs { InRange (length chains.old.chains) held.now }
    requires length { length live.old ≡ length held.now }
    requires old_few { length held.now ≤ 524288 }
    requires held { Holds (live_at live.old) (length chains.old.chains) chains.old.items held.now chains.old }
    requires pairs { InRange (length chains.old.chains) pairs.now }
    requires few { length pairs.now ≤ 524288 }
    requires room { 2 * length pairs.now ≤ chains.old.items }
    ensures { Holds (before (length pairs.now)) (length chains.old.chains) chains.old.items pairs.now chains.new }
{
    take_all_out(held, live, chains);
    hold_all(chains, pairs);
}

// The particle at the other end of the pair of an item.
fn far_end(pairs: &[(u32, u32)], item: u32) -> u32
    requires { item / 2 < length pairs.now }
    ensures { result ≡ far_at pairs.now item }
{
    let (a, b) = pairs[(item / 2) as usize];
    if item % 2 == 0 { b } else { a }
}

// Whether a pair in the chain of particle i leads to particle j.
pub(crate) fn leads(pairs: &[(u32, u32)], chains: &Chains, i: u32, j: u32) -> bool
    requires chain { i < length chains.now.chains }
    requires pairs { (x : ℕ) → IsTrue (is_in x (chain_at chains.now.chains i)) → x / 2 < length pairs.now }
    ensures { result ≡ list_any (λ x. far_at pairs.now x == j) (chain_at chains.now.chains i) }
{
    let mut at = chains.first(i);
    for _ in 0..chains.items() {
        let Some(item) = at else {
            break;
        };
        if far_end(pairs, item) == j {
            return true;
        }
        at = chains.next(item);
    }
    false
}
