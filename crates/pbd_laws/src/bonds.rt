//! What one projection of one bond comes to.
ghost use Rattle.std.specs.Prelude.{◌≡◌, ◌+◌, ◌<◌, ◌≤◌, ℕ, ℤ, pos};
ghost use Rattle.pbd_world.specs.declared.bond.Bond.{Bond};
ghost use Rattle.pbd_world.specs.declared.bond.End.{End};
ghost use Rattle.pbd_world.specs.declared.bond.Shift.{Shift};
ghost use Rattle.pbd_world.specs.declared.bond.Correction.TheVariants.{Moves};
ghost use Rattle.pbd_world.specs.Bonds.{correction_of};
ghost use Rattle.pbd_laws.specs.Bonding.{distance, distance_after, IsOneHeld, AreEqual, IsAbout};

/// One projection at full stiffness, where the bond moves its ends: with one end held they come to the rest length within 1 unit,
/// two free ends of one weight within 3, and where they were as near as the rest length or nearer, within as much more as the rest
/// length is times their distance, since that is rounded down. Ends that lie together stay.
pub fn one_projection_comes_to_the_rest_length()
    ensures one_held { (limit : ℤ) (p q : End) (bond : Bond) (s : Shift) (rest : ℕ) → correction_of limit p q bond ≡ Moves s
        → bond.k ≡ pos 256 → bond.rest ≡ pos rest → IsOneHeld p q → 0 < distance p q
        → IsAbout 1 rest (distance p q) (distance_after s) }
    ensures equal { (limit : ℤ) (p q : End) (bond : Bond) (s : Shift) (rest : ℕ) → correction_of limit p q bond ≡ Moves s
        → bond.k ≡ pos 256 → bond.rest ≡ pos rest → AreEqual p q → 0 < distance p q
        → IsAbout 3 rest (distance p q) (distance_after s) }
    ensures longer { (slack rest before now : ℕ) → IsAbout slack rest before now → rest < before → now ≤ rest + slack }
    ensures together { (limit : ℤ) (p q : End) (bond : Bond) (s : Shift) → correction_of limit p q bond ≡ Moves s
        → distance p q ≡ 0 → (s.first ≡ p.at) × (s.second ≡ q.at) }
{}
