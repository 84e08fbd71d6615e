//! Colours from scratch, with a set of used colours for each particle.
ghost use Rattle.std.specs.Prelude.{◌≡◌, ◌<◌, ◌≤◌, ◌^◌, ◌&&◌, ◌||◌, ◌==◌, ℕ, length, slice_index, All};
ghost use Rattle.pbd_world.specs.Colours.{colour, least_free};
ghost use Rattle.pbd_colour.specs.Pairs.{InRange};
ghost use Rattle.pbd_colour.specs.Used.{has, AreSmall};

// Puts colour c into the set of particle p.
pub(crate) fn mark(used: &mut [u64], p: u32, c: u32)
    requires in_range { p < length used.old }
    requires colour { c < 63 }
    requires small { AreSmall used.old }
    ensures has { (q d : ℕ) → has used.new q d ≡ (has used.old q d || ((p == q) && (c == d))) }
    ensures small { AreSmall used.new }
{
    used[p as usize] |= 1u64 << c;
}

// The least colour in neither set, or 63.
fn least_unused(used: &[u64], p: u32, q: u32) -> u32
    requires p_in { p < length used.now }
    requires q_in { q < length used.now }
    requires small { AreSmall used.now }
    ensures least { result ≡ least_free (λ d. has used.now p d || has used.now q d) }
    ensures within { result ≤ 63 }
{
    (used[p as usize] | used[q as usize]).trailing_ones()
}

// Empties each set.
pub(crate) fn clear(used: &mut [u64])
    ensures { (p : ℕ) → p < length used.new → slice_index used.new p ≡ 0 }
{
    for set in used.iter_mut() {
        *set = 0;
    }
}

// Colours the pairs from scratch, with a set of used colours for each particle.
pub(crate) fn paint(pairs: &[(u32, u32)], live: &[bool], used: &mut [u64], colours: &mut [u8])
    requires pairs { InRange (length used.old) pairs.now }
    requires live { length live.now ≡ length pairs.now }
    requires colours { length colours.old ≡ length pairs.now }
    ensures { (i : ℕ) → i < length pairs.now → slice_index colours.new i ≡ colour pairs.now live.now i }
{
    clear(used);
    for i in 0..pairs.len() {
        let (a, b) = pairs[i];
        let c = least_unused(used, a, b);
        colours[i] = c as u8;
        if live[i] && c < 63 {
            mark(used, a, c);
            mark(used, b, c);
        }
    }
}
