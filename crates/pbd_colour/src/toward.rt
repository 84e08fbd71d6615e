//! Which particles the pairs of a particle may lead to: a set of residues by 54 for each, so that most others are told apart at once.
// In a cloth with so many columns as a power of two, from 8 to 256, what the links of a particle lead to has other residues by 54
// than what stands just behind, one row and two columns or two rows and one column on.
ghost use Rattle.std.specs.Prelude.{◌≡◌, ◌<◌, ◌%◌, length};
ghost use Rattle.pbd_colour.specs.Pairs.{InRange};
ghost use Rattle.pbd_colour.specs.Used.{has};
ghost use Rattle.pbd_colour.specs.Toward.{AreTold};

use crate::paint::{clear, mark};

// Puts each particle of a pair into the set of the other.
pub(crate) fn tell_all(sets: &mut [u64], pairs: &[(u32, u32)])
    requires { InRange (length sets.old) pairs.now }
    ensures { AreTold pairs.now sets.new }
{
    clear(sets);
    for i in 0..pairs.len() {
        let (a, b) = pairs[i];
        mark(sets, a, b % 54);
        mark(sets, b, a % 54);
    }
}

// Whether the set of particle i has the residue of j.
pub(crate) fn may_lead(sets: &[u64], i: u32, j: u32) -> bool
    requires { i < length sets.now }
    ensures { result ≡ has sets.now i (j % 54) }
{
    (sets[i as usize] >> (j % 54)) & 1 == 1
}
