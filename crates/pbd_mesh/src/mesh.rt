// What a cloth and a rope have in common: each appends particles of its own and links between them.
ghost use Rattle.std.specs.Prelude.{◌≡◌, ◌≤◌, ℤ, Bool, length, IsTrue, OnOk, OnErr};
ghost use Rattle.pbd_world.specs.declared.parts.Parts.{Parts};
ghost use Rattle.pbd_world.specs.Valid.{is_limit};
ghost use Rattle.pbd_mesh.specs.Appending.{WithFront};

use pbd_world::Parts;
use std::alloc::AllocError;

/// What has particles of its own and links between them: a cloth or a rope.
pub trait Mesh {
    /// Its numbers are in their ranges, and its particles within a limit.
    ghost fits: { ℤ → Self → Bool };

    /// Parts with its particles and links after their own.
    ghost added: { Parts → Self → Parts };

    /// Appends its particles and links. After want of memory some of them may be there.
    fn push(&self, parts: &mut Parts) -> Result<(), AllocError>
        requires fits { IsTrue (fits parts.old.limit self.now) }
        requires limit { IsTrue (is_limit parts.old.limit) }
        requires few { length parts.old.particles ≤ 65536 }
        ensures ok { OnOk result (parts.new ≡ added parts.old self.now) }
        ensures err { OnErr result (WithFront parts.old parts.new) };
}

/// Appends the particles and links of a mesh. After want of memory the lists are as before.
pub fn append<M: Mesh>(mesh: &M, parts: &mut Parts) -> Result<(), AllocError>
    requires fits { IsTrue (M.fits parts.old.limit mesh.now) }
    requires limit { IsTrue (is_limit parts.old.limit) }
    requires few { length parts.old.particles ≤ 65536 }
    ensures ok { OnOk result (parts.new ≡ M.added parts.old mesh.now) }
    ensures err { OnErr result (parts.new ≡ parts.old) }
{
    let particles = parts.particles.len();
    let links = parts.links.len();
    let pushed = mesh.push(parts);
    if pushed.is_err() {
        parts.particles.truncate(particles);
        parts.links.truncate(links);
    }
    pushed
}
