//! How much a scene and a session may have.

/// Particles of a scene.
pub const MOST_PARTICLES: usize = 65_536;

/// Links of a scene.
pub const MOST_LINKS: usize = 524_288;

/// Links at one particle.
pub const MOST_AT_PARTICLE: usize = 32;

/// Tracks of a scene.
pub const MOST_TRACKS: usize = 4096;

/// The last step of a world, and of a key of a track.
pub const LAST_STEP: u32 = 1_000_000;

/// Steps of one command.
pub const MOST_STEPS: u64 = 100_000;

/// Contacts of a step.
pub const MOST_CONTACTS: u32 = 262_144;

/// The greatest thickness, in units of 1/65,536 metre.
pub const MOST_THICKNESS: i64 = 1_048_576;

/// The greatest size of a coordinate in an old log, in units of 1/65,536 metre.
pub const OLD_RANGE: i64 = 268_435_456;
