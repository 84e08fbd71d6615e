//! Laws of the definitions, each the contract of a function that does nothing.
ghost use Rattle.std.specs.Prelude.{◌≡◌, ℕ, ◌+◌, ◌*◌, ◌≤◌, ◌<◌, ℤ, pos, neg_ℤ, ◌<ℤ◌, unsigned_abs};
ghost use Rattle.pbd_num.specs.declared.Vec3.{Vec3};
ghost use Rattle.pbd_num.specs.Rounding.{rdiv, root};
ghost use Rattle.pbd_num.specs.Vectors.{minus, opposite, squared_length, zero_vector};
ghost use Rattle.pbd_num.specs.PairMove.{pair_moves};

/// Rounding treats both signs alike.
pub fn rounding_is_odd()
    ensures { (n d : ℤ) → pos 0 <ℤ d → rdiv (neg_ℤ n) d ≡ neg_ℤ (rdiv n d) }
{}

/// The root is the greatest number whose square is at most n.
pub fn roots_are_greatest()
    ensures square { (n : ℕ) → root n * root n ≤ n }
    ensures next { (n : ℕ) → n < (root n + 1) * (root n + 1) }
    ensures only { (n r : ℕ) → r * r ≤ n → n < (r + 1) * (r + 1) → r ≡ root n }
{}

/// No axis of a vector is longer than the root of its vector's square.
pub fn axes_are_within_the_length()
    ensures x { (v : Vec3) → unsigned_abs v.x ≤ root (squared_length v) }
    ensures y { (v : Vec3) → unsigned_abs v.y ≤ root (squared_length v) }
    ensures z { (v : Vec3) → unsigned_abs v.z ≤ root (squared_length v) }
{}

/// Two ends of one weight move by opposite vectors.
pub fn equal_weights_move_oppositely()
    ensures { (a b : Vec3) (rest k w : ℤ)
        → (pair_moves a b rest k w w).0 ≡ opposite (pair_moves a b rest k w w).1 }
{}

/// The way between two ends says how they move, wherever they are.
pub fn moves_go_by_the_way()
    ensures { (a b : Vec3) (rest k wa wb : ℤ)
        → pair_moves a b rest k wa wb ≡ pair_moves (minus a b) zero_vector rest k wa wb }
{}
