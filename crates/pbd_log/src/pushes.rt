//! The fields of a log, and of a state, each appended to a piece. A piece of a log is written in one call, and has at most
//! 111 bytes: a command has at most 33, an answer 14 and sums 64.
ghost use Rattle.std.specs.Prelude.{◌≡◌, ◌+◌, ◌≤◌, ◌<◌, ◌++◌, ◌∷◌, [], length};
ghost use Rattle.pbd_log.specs.Entries.{number_bytes, signed_bytes, vector_bytes, axes_bytes, VectorFits, AreAxes};

use byteorder::{BigEndian, ByteOrder};
use pbd_line::Line;
use pbd_num::Vec3;

pub fn push_byte(piece: &mut Line, byte: u8)
    requires { length piece.old < 256 }
    ensures { piece.new ≡ piece.old ++ byte ∷ [] }
{
    piece.push_bytes(&[byte]);
}

#[tactic(auto, unfolding(crate::specs::Entries::number_bytes))]
pub fn push_u32(piece: &mut Line, value: u32)
    requires { length piece.old + 4 ≤ 256 }
    ensures bytes { piece.new ≡ piece.old ++ number_bytes 4 value }
    ensures len { length piece.new ≡ length piece.old + 4 }
{
    let mut field = [0; 4];
    BigEndian::write_u32(&mut field, value);
    piece.push_bytes(&field);
}

#[tactic(auto, unfolding(crate::specs::Entries::number_bytes))]
pub fn push_u64(piece: &mut Line, value: u64)
    requires { length piece.old + 8 ≤ 256 }
    ensures bytes { piece.new ≡ piece.old ++ number_bytes 8 value }
    ensures len { length piece.new ≡ length piece.old + 8 }
{
    let mut field = [0; 8];
    BigEndian::write_u64(&mut field, value);
    piece.push_bytes(&field);
}

#[tactic(auto, unfolding(crate::specs::Entries::signed_bytes))]
pub fn push_i64(piece: &mut Line, value: i64)
    requires { length piece.old + 8 ≤ 256 }
    ensures bytes { piece.new ≡ piece.old ++ signed_bytes value }
    ensures len { length piece.new ≡ length piece.old + 8 }
{
    push_u64(piece, value.cast_unsigned());
}

#[tactic(auto, unfolding(crate::specs::Entries::vector_bytes))]
pub fn push_vector(piece: &mut Line, value: &Vec3)
    requires { length piece.old + 24 ≤ 256 }
    ensures bytes { piece.new ≡ piece.old ++ vector_bytes value.now }
    ensures fits { VectorFits value.now }
    ensures len { length piece.new ≡ length piece.old + 24 }
{
    push_i64(piece, value.x);
    push_i64(piece, value.y);
    push_i64(piece, value.z);
}

#[tactic(auto, unfolding(crate::specs::Entries::axes_bytes))]
pub fn push_axes(piece: &mut Line, value: &[i64; 3])
    requires { length piece.old + 24 ≤ 256 }
    ensures bytes { piece.new ≡ piece.old ++ axes_bytes value.now }
    ensures fits { AreAxes value.now }
    ensures len { length piece.new ≡ length piece.old + 24 }
{
    push_i64(piece, value[0]);
    push_i64(piece, value[1]);
    push_i64(piece, value[2]);
}
