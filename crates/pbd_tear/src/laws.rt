//! What the numbers of torn links mean.
ghost use Rattle.std.specs.Prelude.{◌≡◌, ℕ, ◌<◌, ◌==◌, ◌&&◌, not, List, length};
ghost use Rattle.std.specs.List.{list_any};
ghost use Rattle.pbd_world.specs.declared.parts.Link.{Link};
ghost use Rattle.pbd_world.specs.declared.parts.Particle.{Particle};
ghost use Rattle.pbd_world.specs.Bonds.{link_at};
ghost use Rattle.pbd_world.specs.Step.{tear};
ghost use Rattle.pbd_tear.specs.Tearing.{torn_numbers, gone_numbers};

/// The links that go when all torn ones go together are exactly those with torn numbers: a link is live afterwards where it was
/// live and its number is none of them.
pub fn torn_links_go()
    ensures { (ps : List Particle) (links : List Link) (i : ℕ) → i < length links → (link_at (tear ps links) i).live
        ≡ ((link_at links i).live && not (list_any (λ n. n == i) (torn_numbers ps links))) }
{}

/// The numbers of the links that are gone are exactly those of the links that are live no longer.
pub fn gone_links_are_dead()
    ensures { (links : List Link) (i : ℕ) → i < length links → list_any (λ n. n == i) (gone_numbers links) ≡ not (link_at links i).live }
{}
