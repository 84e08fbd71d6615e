//! A mesh, and what can be wrong with one.
ghost use Rattle.std.specs.Prelude.{◌≡◌};
ghost use Rattle.pbd_obj.specs.declared.mesh.ObjFault.TheVariants.{OutOfMemory};

use pbd_num::Vec3;
use pbd_world::List;
use std::alloc::{AllocError, AllocFailed};

/// Vertices and faces.
#[derive(Drop)]
pub struct ObjMesh {
    /// The vertices, in units of 1/65,536 metre.
    pub places: List<Vec3>,
    /// How many corners each face has, at least three.
    pub sizes: List<u32>,
    /// The corners of all faces, one face after another: vertices by number from 0.
    pub corners: List<u32>,
}

/// Why a text gives no mesh, or a mesh can't be added to a scene.
#[derive(Clone, Copy, Debug, PartialEq, Eq)]
pub enum ObjFault {
    /// A vertex doesn't begin with three decimals. Lines are counted from 1.
    BadNumber { line: u32 },
    /// A face isn't three or more different vertices of the lines before it.
    BadFace { line: u32 },
    /// A vertex is further than 536,870,912 units from the origin on some axis.
    OutOfRange { line: u32 },
    /// There would be more than 65,536 particles or 524,288 links.
    TooMany,
    /// A link is the 33rd at a vertex, which is counted from 1.
    TooManyAtParticle { vertex: u32 },
    OutOfMemory,
}

impl From<AllocError> for ObjFault {
    ghost from_gives = { λ _ e. e ≡ OutOfMemory };

    fn from(_: AllocError) -> Self {
        ObjFault::OutOfMemory
    }
}

impl<T: Drop> From<AllocFailed<T>> for ObjFault {
    ghost from_gives = { λ _ e. e ≡ OutOfMemory };

    fn from(_: AllocFailed<T>) -> Self {
        ObjFault::OutOfMemory
    }
}
