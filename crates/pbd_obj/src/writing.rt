//! The lines of a mesh.
ghost use Rattle.std.specs.Prelude.{◌≡◌, ◌+◌, ◌-◌, ◌<◌, ◌≤◌, ◌^◌, ◌++◌, All, length, unsigned_abs};
ghost use Rattle.std.specs.List.{flat_map};
ghost use Rattle.pbd_io.specs.Causes.{HasCause};
ghost use Rattle.pbd_io.specs.Pieces.{WritesPiece};
ghost use Rattle.pbd_num.specs.Vectors.{Within};
ghost use Rattle.pbd_obj.specs.Writing.{coordinate, corner_text, decimals, face_line, fraction, sign, vertex_line};

use pbd_io::{Failed, Sink};
use pbd_line::Line;
use pbd_num::Vec3;

/// How many units a metre has.
const METRE: u64 = 65_536;

/// Pushes the decimals of `n` / 65,536, up to the last that isn't 0.
#[tactic(auto, using(crate::proofs::WriteLemmas::decimals_begin, crate::proofs::WriteLemmas::decimals_next, crate::proofs::WriteLemmas::decimals_zero_ends, crate::proofs::WriteLemmas::decimals_all_end))]
fn push_decimals(line: &mut Line, n: u64)
    requires size { n < 65536 }
    requires len { length line.old ≤ 200 }
    ensures bytes { line.new ≡ line.old ++ decimals 16 n }
    ensures len { length line.new ≤ length line.old + 16 }
{
    let mut rest = n;
    for _ in 0..16u32 {
        if rest == 0 {
            break;
        }
        let tens = rest * 10;
        line.push_bytes(&[b'0' + (tens / METRE) as u8]);
        rest = tens % METRE;
    }
}

fn push_fraction(line: &mut Line, n: u64)
    requires size { n < 65536 }
    requires len { length line.old ≤ 199 }
    ensures bytes { line.new ≡ line.old ++ fraction n }
    ensures len { length line.new ≤ length line.old + 17 }
{
    if n > 0 {
        line.push(".");
        push_decimals(line, n);
    }
}

fn push_sign(line: &mut Line, u: i64)
    requires { length line.old ≤ 200 }
    ensures bytes { line.new ≡ line.old ++ sign u }
    ensures len { length line.new ≤ length line.old + 1 }
{
    if u < 0 {
        line.push("-");
    }
}

fn push_coordinate(line: &mut Line, u: i64)
    requires size { unsigned_abs u ≤ 2 ^ 29 }
    requires len { length line.old ≤ 160 }
    ensures bytes { line.new ≡ line.old ++ coordinate u }
    ensures len { length line.new ≤ length line.old + 38 }
{
    push_sign(line, u);
    let size = u.unsigned_abs();
    line.push_number(size / METRE);
    push_fraction(line, size % METRE);
}

fn vertex_line(place: Vec3) -> Line
    requires { Within (2 ^ 29) place }
    ensures { result ≡ vertex_line place }
{
    let mut line = Line::new();
    line.push("v ");
    push_coordinate(&mut line, place.x);
    line.push(" ");
    push_coordinate(&mut line, place.y);
    line.push(" ");
    push_coordinate(&mut line, place.z);
    line.push("\n");
    line
}

/// Writes the line of a vertex: `v` and its coordinates in metres, exactly.
/// `Failed` comes only where the sink's count of faults rose, or stands at 2^64 - 1, and then a prefix
/// of the line was appended.
pub fn write_vertex<K: Sink>(place: Vec3, sink: &mut K) -> Result<(), Failed>
    requires { Within (2 ^ 29) place }
    ensures bytes { WritesPiece (K.written sink.old) (K.written sink.new) result (vertex_line place) }
    ensures cause { HasCause (K.faults sink.old) (K.faults sink.new) result }
{
    sink.write(vertex_line(place).as_slice())
}

fn corner_text(n: u32) -> Line
    ensures { result ≡ corner_text n }
{
    let mut line = Line::new();
    line.push(" ");
    line.push_number(u64::from(n));
    line
}

fn write_corners<K: Sink>(corners: &[u32], base: u32, sink: &mut K) -> Result<(), Failed>
    requires { All (λ corner. base + corner ≤ 2 ^ 32 - 2) corners.now }
    ensures bytes { WritesPiece (K.written sink.old) (K.written sink.new) result
        (flat_map (λ corner. corner_text (base + corner + 1)) corners.now) }
    ensures cause { HasCause (K.faults sink.old) (K.faults sink.new) result }
{
    for corner in corners {
        sink.write(corner_text(base + *corner + 1).as_slice())?;
    }
    Ok(())
}

/// Writes the line of a face: `f` and its corners, counted from 1, where the first vertex has the
/// number `base`. `Failed` is as for `write_vertex`.
pub fn write_face<K: Sink>(corners: &[u32], base: u32, sink: &mut K) -> Result<(), Failed>
    requires { All (λ corner. base + corner ≤ 2 ^ 32 - 2) corners.now }
    ensures bytes { WritesPiece (K.written sink.old) (K.written sink.new) result (face_line base corners.now) }
    ensures cause { HasCause (K.faults sink.old) (K.faults sink.new) result }
{
    sink.write(b"f")?;
    write_corners(corners, base, sink)?;
    sink.write(b"\n")
}
