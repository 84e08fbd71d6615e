//! What crosses to a C program in its own memory.

/// Where a step was refused: the step that would have been reached, as the world counts them; and where a place left the range, the
/// part of the step (1 predict, 2 link, 3 contact, 4 shape), and the particle, link or contact. What an answer doesn't tell is 0.
#[repr(C)]
#[derive(Clone, Copy)]
pub struct Left {
    pub step: u64,
    pub element: u32,
    pub phase: u8,
}

/// What is wrong with a scene. Where it is no TOML, or deeper or longer than is read: how many bytes stand before the place where
/// `toml` stopped. Else the first rule that it breaks, 2 to 11, and where: the number of its table, the position in it from 0, and
/// the number of its key. What an answer doesn't tell is 0.
#[repr(C)]
#[derive(Clone, Copy)]
pub struct Fault {
    pub offset: u64,
    pub position: u32,
    pub rule: u8,
    pub table: u8,
    pub key: u8,
}

/// How a mesh is made cloth: the lengths above which its links tear, in units of 1/65,536 metre, at most 2,147,483,648, 0 where they
/// never do, the weight of each particle, from 1, and the stiffness of its links, in 256ths, at most 256. `bends` is 0 where it has
/// no bend links.
#[repr(C)]
#[derive(Clone, Copy)]
pub struct MeshEntry {
    pub stretch_tear: i64,
    pub shear_tear: i64,
    pub bend_tear: i64,
    pub weight: u16,
    pub stretch: u16,
    pub shear: u16,
    pub bend: u16,
    pub bends: u8,
}

/// What is wrong with a mesh, 1 to 6, and at which vertex or face, from 0. What an answer doesn't tell is 0.
#[repr(C)]
#[derive(Clone, Copy)]
pub struct MeshFault {
    pub number: u64,
    pub rule: u8,
}

/// Where a replay stopped: how many bytes stand before the part that can't be read, where they are no log; the first entry
/// that differs, from 1, and the number of its field, 1 to 13 in the order of the comparison. What an answer doesn't tell is 0.
#[repr(C)]
#[derive(Clone, Copy)]
pub struct Stop {
    pub offset: u64,
    pub entry: u64,
    pub field: u8,
}

/// What a log keeps of a world: counts, and the sums of the places and the places before over all particles, in units of 1/65,536
/// metre.
#[repr(C)]
#[derive(Clone, Copy)]
pub struct Sums {
    pub steps: u64,
    pub live: u32,
    pub contacts: u32,
    pub at: [i64; 3],
    pub before: [i64; 3],
}

/// How many there are.
#[repr(C)]
#[derive(Clone, Copy)]
pub struct Counts {
    pub steps: u64,
    pub particles: u32,
    pub links: u32,
    pub live: u32,
    pub contacts: u32,
    pub slots: u32,
}

/// A number of 128 bits: `high` times 2^64, and `low`.
#[repr(C)]
#[derive(Clone, Copy)]
pub struct Wide {
    pub low: u64,
    pub high: i64,
}

/// The momentum of the particles that aren't held, that at opening, and what moved it since, in units per step.
#[repr(C)]
#[derive(Clone, Copy)]
pub struct Book {
    pub momentum: [Wide; 3],
    pub opening: [Wide; 3],
    pub gravity: [Wide; 3],
    pub damping: [Wide; 3],
    pub link: [Wide; 3],
    pub contact: [Wide; 3],
    pub pin: [Wide; 3],
    pub shape: [Wide; 3],
}

/// A SHA-256 digest: the name of a scene, or what two machines compare.
#[repr(C)]
#[derive(Clone, Copy)]
pub struct Hash {
    pub bytes: [u8; 32],
}

/// The version of the library, as Semantic Versioning counts it.
#[repr(C)]
#[derive(Clone, Copy)]
pub struct Version {
    pub major: u32,
    pub minor: u32,
    pub patch: u32,
}
