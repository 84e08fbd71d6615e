//! What the pairs of a particle tell: the colours that they hold, and which of them come later.
ghost use Rattle.std.specs.Prelude.{◌≡◌, ◌<◌, ◌≤◌, ◌/◌, ◌==◌, ◌&&◌, ◌||◌, ℕ, IsTrue, length, slice_index};
ghost use Rattle.std.specs.List.{list_any};
ghost use Rattle.std.specs.Int.{bit_at};
ghost use Rattle.pbd_chain.specs.Linked.{is_in, chain_at};
ghost use Rattle.pbd_colour.specs.Mended.{holds_before, is_later, least_unheld, meets};
ghost use Rattle.pbd_colour.specs.Marked.{AreAsMany};
ghost use Rattle.pbd_colour.specs.Held.{AreHeld};
ghost use Rattle.pbd_world.specs.Colours.{live_at};

use crate::held::Held;
use crate::marks::MarkedNumbers;
use pbd_chain::Chains;

// Puts a colour below 63 into a set where it is to go there.
fn with_colour(set: u64, is_held: bool, c: u8) -> u64
    requires small { set < 9223372036854775808 }
    ensures has { (d : ℕ) → d < 63 → (bit_at result d == 1) ≡ ((bit_at set d == 1) || (is_held && (c == d))) }
    ensures small { result < 9223372036854775808 }
{
    if is_held && c < 63 {
        set | 1u64 << c
    } else {
        set
    }
}

// The colours below 63 of the pairs before i in the chain of a particle, as a set.
pub(crate) fn used_by(colours: &[u8], chains: &Chains, p: u32, i: u32) -> u64
    requires chain { p < length chains.now.chains }
    requires pairs { (x : ℕ) → IsTrue (is_in x (chain_at chains.now.chains p)) → x / 2 < length colours.now }
    ensures has { (d : ℕ) → d < 63 → (bit_at result d == 1) ≡ list_any (holds_before colours.now i d) (chain_at chains.now.chains p) }
    ensures small { result < 9223372036854775808 }
{
    let mut now = 0;
    let mut at = chains.first(p);
    for _ in 0..chains.items() {
        let Some(x) = at else {
            break;
        };
        now = with_colour(now, x / 2 < i, colours[(x / 2) as usize]);
        at = chains.next(x);
    }
    now
}

// Marks the pairs after i in the chain of a particle.
pub(crate) fn mark_later(chains: &Chains, p: u32, i: u32, marks: &mut MarkedNumbers)
    requires chain { p < length chains.now.chains }
    requires pairs { (x : ℕ) → IsTrue (is_in x (chain_at chains.now.chains p)) → x / 2 < length marks.old.entries }
    ensures marked { (k : ℕ) → live_at marks.new.entries k
        ≡ (live_at marks.old.entries k || list_any (is_later i k) (chain_at chains.now.chains p)) }
    ensures sized { AreAsMany marks.old marks.new }
{
    let mut at = chains.first(p);
    for _ in 0..chains.items() {
        let Some(x) = at else {
            break;
        };
        marks.mark_if(x / 2, i < x / 2);
        at = chains.next(x);
    }
}

// The least colour that no live pair before i which shares a particle with it holds now, or 63.
pub(crate) fn free_colour(held: Held<'_>, colours: &[u8], i: u32) -> u8
    requires i { i < length held.pairs.now }
    requires held { AreHeld held.pairs.now held.live.now held.chains.now }
    requires colours { length held.pairs.now ≤ length colours.now }
    ensures { result ≡ least_unheld held.entry.pairs.now held.entry.chains.now.chains colours.now i }
{
    let (a, b) = held.pairs[i as usize];
    let first = used_by(colours, held.chains, a, i);
    let second = used_by(colours, held.chains, b, i);
    (first | second).trailing_ones() as u8
}

// Marks the live pairs after i that share a particle with it.
pub(crate) fn mark_neighbours(held: Held<'_>, i: u32, marks: &mut MarkedNumbers)
    requires i { i < length held.pairs.now }
    requires held { AreHeld held.pairs.now held.live.now held.chains.now }
    requires marks { length held.pairs.now ≤ length marks.old.entries }
    ensures marked { (k : ℕ) → live_at marks.new.entries k
        ≡ (live_at marks.old.entries k || meets held.entry.pairs.now held.entry.chains.now.chains i k) }
    ensures sized { AreAsMany marks.old marks.new }
{
    let (a, b) = held.pairs[i as usize];
    mark_later(held.chains, a, i, marks);
    mark_later(held.chains, b, i, marks);
}
