// The parts of a scene's bytes, each as a piece of at most 84 bytes, and how a hasher takes up many of them.
ghost use Rattle.std.specs.Prelude.{◌≡◌, ℕ, List, ◌+◌, ◌<◌, ◌≤◌, ◌^◌, ◌++◌, length};
ghost use Rattle.pbd_world.specs.Ledger.{sum_of};
ghost use Rattle.pbd_log.specs.Entries.{number_bytes, signed_bytes};
ghost use Rattle.pbd_encoding.specs.Scene.{listed, kind_number, weight_bytes, link_bytes, key_bytes, plane_bytes, sphere_bytes, AreFewShapes, shape_bytes, scene_head_bytes};
ghost use Rattle.pbd_encoding.specs.Feeding.{Fed};

use crate::pieces::push_sum;
use byteorder::{BigEndian, ByteOrder};
use pbd_line::Line;
use pbd_log::{push_byte, push_u32, push_u64, push_vector};
use pbd_world::{Key, Kind, Link, Particle, Plane, ShapeLists, Sphere};
use sha2::{Digest, Sha256};

/// The numbers that a scene sets for all its steps.
#[derive(Clone, Copy)]
pub struct Settings {
    /// 2^28 or 2^29: the greatest size of a coordinate.
    pub limit: i64,
    /// How often a step projects all constraints, in 0..=64.
    pub passes: u32,
    /// The part c / 1024 of its velocity that a free particle loses in a step, with c in 0..=1024.
    pub damping: i64,
    /// The distance that contacts keep, in 0..=1,048,576.
    pub thickness: i64,
    /// The part f / 256 of its velocity that a particle which touched a shape loses in a step, with f in 0..=256.
    pub friction: i64,
}

#[tactic(auto, unfolding(pbd_log::specs::Entries::number_bytes))]
fn push_u16(piece: &mut Line, value: u16)
    requires { length piece.old + 2 ≤ 256 }
    ensures bytes { piece.new ≡ piece.old ++ number_bytes 2 value }
    ensures len { length piece.new ≡ length piece.old + 2 }
{
    let mut field = [0; 2];
    BigEndian::write_u16(&mut field, value);
    piece.push_bytes(&field);
}

#[tactic(auto, unfolding(pbd_log::specs::Entries::signed_bytes))]
fn push_axis(piece: &mut Line, value: i64)
    requires { length piece.old + 8 ≤ 256 }
    ensures bytes { piece.new ≡ piece.old ++ signed_bytes value }
    ensures len { length piece.new ≡ length piece.old + 8 }
{
    push_u64(piece, value.cast_unsigned());
}

/// The settings of a scene and its opening momentum, in 84 bytes.
#[tactic(auto, unfolding(crate::specs::Scene::scene_head_bytes))]
pub fn scene_head(settings: &Settings, opening: &[i128; 3]) -> Line
    ensures { result ≡ scene_head_bytes settings.now (sum_of opening.now) }
{
    let mut piece = Line::new();
    push_axis(&mut piece, settings.limit);
    push_u32(&mut piece, settings.passes);
    push_axis(&mut piece, settings.damping);
    push_axis(&mut piece, settings.thickness);
    push_axis(&mut piece, settings.friction);
    push_sum(&mut piece, opening);
    piece
}

/// How many items follow, or the number of a particle, in four bytes.
pub fn number(n: u32) -> Line
    ensures { result ≡ number_bytes 4 n }
{
    let mut piece = Line::new();
    push_u32(&mut piece, n);
    piece
}

fn kind_number(kind: Kind) -> u8
    ensures { result ≡ kind_number kind }
{
    match kind {
        Kind::Stretch => 0,
        Kind::Shear => 1,
        Kind::Bend => 2,
        Kind::Plain => 3,
    }
}

/// What stands in the bytes of a scene as one piece of them, which is as long for each.
pub trait ScenePiece {
    ghost spelled: { Self → List ℕ };

    fn piece(&self) -> Line
        ensures { result ≡ spelled self.now };
}

/// Of a particle the scene has its weight alone: places and what is held are the world's.
impl ScenePiece for Particle {
    ghost spelled = { λ p. weight_bytes p };

    fn piece(&self) -> Line {
        let mut piece = Line::new();
        push_u16(&mut piece, self.weight);
        piece
    }
}

impl ScenePiece for Link {
    ghost spelled = { λ l. link_bytes l };

    #[tactic(auto, unfolding(crate::specs::Scene::link_bytes))]
    fn piece(&self) -> Line {
        let mut piece = Line::new();
        push_u32(&mut piece, self.a);
        push_u32(&mut piece, self.b);
        push_axis(&mut piece, self.rest);
        push_u16(&mut piece, self.k);
        push_axis(&mut piece, self.tear);
        push_byte(&mut piece, kind_number(self.kind));
        piece
    }
}

impl ScenePiece for Key {
    ghost spelled = { λ key. key_bytes key };

    #[tactic(auto, unfolding(crate::specs::Scene::key_bytes))]
    fn piece(&self) -> Line {
        let mut piece = Line::new();
        push_u32(&mut piece, self.step);
        push_vector(&mut piece, &self.place);
        piece
    }
}

impl ScenePiece for Plane {
    ghost spelled = { λ plane. plane_bytes plane };

    #[tactic(auto, unfolding(crate::specs::Scene::plane_bytes))]
    fn piece(&self) -> Line {
        let mut piece = Line::new();
        push_vector(&mut piece, &self.normal);
        push_axis(&mut piece, self.offset);
        piece
    }
}

impl ScenePiece for Sphere {
    ghost spelled = { λ sphere. sphere_bytes sphere };

    #[tactic(auto, unfolding(crate::specs::Scene::sphere_bytes))]
    fn piece(&self) -> Line {
        let mut piece = Line::new();
        push_vector(&mut piece, &self.centre);
        push_axis(&mut piece, self.radius);
        piece
    }
}

/// Feeds how many items there are, and each.
pub fn feed_all<T: ScenePiece>(hasher: &mut Sha256, items: &[T])
    requires { length items.now < 2 ^ 32 }
    ensures { Fed hasher.old hasher.new (listed T.spelled items.now) }
{
    let count = number(items.len() as u32);
    hasher.update(count.as_slice());
    for item in items {
        let piece = item.piece();
        hasher.update(piece.as_slice());
    }
}

/// Feeds the shapes of each kind: how many there are, and each.
#[tactic(auto, unfolding(crate::specs::Scene::shape_bytes))]
pub fn feed_shapes(hasher: &mut Sha256, shapes: &ShapeLists)
    requires { AreFewShapes shapes.now }
    ensures { Fed hasher.old hasher.new (shape_bytes shapes.now) }
{
    feed_all(hasher, shapes.planes.as_slice());
    feed_all(hasher, shapes.spheres.as_slice());
}
