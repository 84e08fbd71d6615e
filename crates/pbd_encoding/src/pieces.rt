// The parts of a state, each as a piece of at most 148 bytes.
ghost use Rattle.std.specs.Prelude.{◌≡◌, ◌+◌, ◌≤◌, ◌++◌, length};
ghost use Rattle.pbd_world.specs.Ledger.{sum_of, ledger_of};
ghost use Rattle.pbd_log.specs.Entries.{vector_bytes};
ghost use Rattle.pbd_encoding.specs.Encoding.{wide_bytes, sum_bytes, header_bytes, flag_bytes, first_totals_bytes, last_totals_bytes};

use crate::form::Counts;
use byteorder::{BigEndian, ByteOrder};
use pbd_line::Line;
use pbd_log::{push_byte, push_u32, push_vector};
use pbd_num::Vec3;
use pbd_world::Totals;

#[tactic(auto, unfolding(crate::specs::Encoding::wide_bytes, pbd_log::specs::Entries::number_bytes))]
fn push_wide(piece: &mut Line, value: i128)
    requires { length piece.old + 16 ≤ 256 }
    ensures bytes { piece.new ≡ piece.old ++ wide_bytes value }
    ensures len { length piece.new ≡ length piece.old + 16 }
{
    let mut field = [0; 16];
    BigEndian::write_u128(&mut field, value.cast_unsigned());
    piece.push_bytes(&field);
}

#[tactic(auto, unfolding(crate::specs::Encoding::sum_bytes))]
pub(crate) fn push_sum(piece: &mut Line, sum: &[i128; 3])
    requires { length piece.old + 48 ≤ 256 }
    ensures bytes { piece.new ≡ piece.old ++ sum_bytes (sum_of sum.now) }
    ensures len { length piece.new ≡ length piece.old + 48 }
{
    push_wide(piece, sum[0]);
    push_wide(piece, sum[1]);
    push_wide(piece, sum[2]);
}

/// What is the same for all worlds of a scene, in 96 bytes. `scene` names the scene.
#[tactic(auto, unfolding(crate::specs::Encoding::header_bytes))]
pub fn header(scene: &[u8; 32], counts: &Counts, opening: &[i128; 3]) -> Line
    ensures bytes { result ≡ header_bytes scene.now counts.now.particles counts.now.links (sum_of opening.now) }
    ensures len { length result ≡ 96 }
{
    let mut piece = Line::new();
    piece.push("PBDSTAT");
    push_byte(&mut piece, 1);
    piece.push_bytes(scene);
    push_u32(&mut piece, counts.particles);
    push_u32(&mut piece, counts.links);
    push_sum(&mut piece, opening);
    piece
}

/// A place, in 24 bytes.
pub fn vector(place: &Vec3) -> Line
    ensures { result ≡ vector_bytes place.now }
{
    let mut piece = Line::new();
    push_vector(&mut piece, place);
    piece
}

/// A flag, in one byte.
pub fn flag(flag: bool) -> Line
    ensures { result ≡ flag_bytes flag }
{
    let mut piece = Line::new();
    push_byte(&mut piece, u8::from(flag));
    piece
}

/// The contacts of the last step and the totals of gravity, damping and link, in 148 bytes.
#[tactic(auto, unfolding(crate::specs::Encoding::first_totals_bytes))]
pub fn first_totals(contacts: u32, totals: &Totals) -> Line
    ensures { result ≡ first_totals_bytes contacts (ledger_of totals.now) }
{
    let mut piece = Line::new();
    push_u32(&mut piece, contacts);
    push_sum(&mut piece, &totals.gravity);
    push_sum(&mut piece, &totals.damping);
    push_sum(&mut piece, &totals.link);
    piece
}

/// The totals of contact, shape and pin, in 144 bytes.
#[tactic(auto, unfolding(crate::specs::Encoding::last_totals_bytes))]
pub fn last_totals(totals: &Totals) -> Line
    ensures { result ≡ last_totals_bytes (ledger_of totals.now) }
{
    let mut piece = Line::new();
    push_sum(&mut piece, &totals.contact);
    push_sum(&mut piece, &totals.shape);
    push_sum(&mut piece, &totals.pin);
    piece
}
