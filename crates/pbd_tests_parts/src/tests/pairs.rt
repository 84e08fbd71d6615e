//! Pairs of particles.
ghost use Rattle.std.specs.Prelude.{IsTrue};
ghost use Rattle.pbd_colour.specs.Pairs.{InRange};

// Whether each pair is of two different particles below n.
pub fn are_in_range(pairs: &[(u32, u32)], n: u32) -> bool
    ensures { IsTrue result → InRange n pairs.now }
{
    for pair in pairs {
        if pair.0 >= n || pair.1 >= n || pair.0 == pair.1 {
            return false;
        }
    }
    true
}
