//! What a search may cost.
ghost use Rattle.std.specs.Prelude.{◌*◌, ◌≤◌, ℕ, ℤ, List, length};
ghost use Rattle.pbd_num.specs.declared.Vec3.{Vec3};
ghost use Rattle.pbd_grid.specs.Looks.{looks_for};

/// A finished search reads its chains at least eight times for each particle, and at most eight
/// times the square of the number of particles: the more often, the more of these share a chain.
pub fn searches_read_eight_chains_a_particle()
    ensures least { (chains : ℕ) (thickness : ℤ) (places : List Vec3) → 8 * length places ≤ looks_for chains thickness places }
    ensures most { (chains : ℕ) (thickness : ℤ) (places : List Vec3)
        → looks_for chains thickness places ≤ 8 * length places * length places }
{}
