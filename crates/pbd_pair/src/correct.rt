// What one bond does with its two ends.
ghost use Rattle.std.specs.Prelude.{◌≡◌, ◌≤◌, ◌^◌, pos, unsigned_abs, ◌+ℤ◌, ◌≤ℤ◌, ◌&&◌, IsTrue};
ghost use Rattle.pbd_num.specs.Vectors.{Within, plus, is_within};
ghost use Rattle.pbd_world.specs.Particles.{effective_weight};
ghost use Rattle.pbd_world.specs.Bonds.{end_of, is_slack, shift_of, correction_of};
ghost use Rattle.pbd_pair.specs.Bonds.{IsBound, HasPull, IsEnd, IsSound, shift_by};

use pbd_num::{Vec3, distance, pair_move, within};
use pbd_store::Store;
use pbd_world::{Bond, Correction, End, Particle, Shift};

/// The limit of a store.
pub(crate) fn limit_of<const L: usize>(store: &Store<L>) -> i64
    ensures value { result ≡ store.now.limit }
    ensures bound { IsBound result }
{
    store.limit()
}

fn weight_of(p: Particle) -> i64
    ensures value { result ≡ pos (effective_weight p) }
    ensures low { pos 0 ≤ℤ result }
    ensures high { result ≤ℤ pos 65535 }
{
    if p.held { 0 } else { i64::from(p.weight) }
}

/// A particle as an end.
pub(crate) fn as_end(p: Particle) -> End
    ensures value { result ≡ end_of p }
    ensures low { pos 0 ≤ℤ result.weight }
    ensures high { result.weight ≤ℤ pos 65535 }
{
    End {
        at: p.at,
        weight: weight_of(p),
    }
}

#[tactic(auto, unfolding(pbd_world::specs::Bonds::is_slack))]
fn slack(p: End, q: End, bond: Bond) -> bool
    requires p { Within (2 ^ 29) p.at }
    requires q { Within (2 ^ 29) q.at }
    ensures { result ≡ is_slack p q bond }
{
    bond.contact && bond.rest <= distance(p.at, q.at)
}

/// Two moves, and the places to which they lead.
#[inline(always)]
pub(crate) fn moved(p: End, q: End, first_move: Vec3, second_move: Vec3) -> Shift
    requires p { Within (2 ^ 29) p.at }
    requires q { Within (2 ^ 29) q.at }
    requires first { Within (2 ^ 31) first_move }
    requires second { Within (2 ^ 31) second_move }
    ensures { result ≡ shift_by p q first_move second_move }
{
    Shift {
        first: p.at.plus(first_move),
        second: q.at.plus(second_move),
        first_move,
        second_move,
    }
}

#[tactic(auto, unfolding(pbd_world::specs::Bonds::shift_of))]
fn shifted(p: End, q: End, bond: Bond) -> Shift
    requires p { Within (2 ^ 29) p.at }
    requires q { Within (2 ^ 29) q.at }
    requires rest_low { pos 0 ≤ℤ bond.rest }
    requires rest_high { bond.rest ≤ℤ pos (2 ^ 31) }
    requires k_low { pos 0 ≤ℤ bond.k }
    requires k_high { bond.k ≤ℤ pos 256 }
    requires p_low { pos 0 ≤ℤ p.weight }
    requires p_high { p.weight ≤ℤ pos 65535 }
    requires q_low { pos 0 ≤ℤ q.weight }
    requires q_high { q.weight ≤ℤ pos 65535 }
    ensures value { result ≡ shift_of p q bond }
    ensures first { Within (2 ^ 31) result.first_move }
    ensures second { Within (2 ^ 31) result.second_move }
{
    let (first_move, second_move) = pair_move(p.at, q.at, bond.rest, bond.k, p.weight, q.weight);
    moved(p, q, first_move, second_move)
}

/// Whether both new places are within the limit.
#[inline(always)]
pub(crate) fn stays(shift: Shift, limit: i64) -> bool
    requires { IsBound limit }
    ensures test { result ≡ (is_within limit shift.first && is_within limit shift.second) }
    ensures first { IsTrue result → Within (unsigned_abs limit) shift.first }
    ensures second { IsTrue result → Within (unsigned_abs limit) shift.second }
{
    let first = within(shift.first, limit);
    let second = within(shift.second, limit);
    first & second
}

/// What a bond does with its two ends: nothing where a contact is long enough. Else each end moves by its share of the
/// correction toward the rest length (Müller and others 2007, Jakobsen 2001), unless that leaves the limit.
#[tactic(auto, unfolding(pbd_world::specs::Bonds::correction_of), using(pbd_num::proofs::Ranges::wider, crate::proofs::Ranges::rest_fits))]
pub(crate) fn correct(limit: i64, p: End, q: End, bond: Bond) -> Correction
    requires limit { IsBound limit }
    requires p { IsEnd limit p }
    requires q { IsEnd limit q }
    requires pulled { HasPull limit bond }
    ensures value { result ≡ correction_of limit p q bond }
    ensures sound { IsSound limit result }
{
    if slack(p, q, bond) {
        return Correction::Slack;
    }
    let shift = shifted(p, q, bond);
    if stays(shift, limit) {
        Correction::Moves(shift)
    } else {
        Correction::Leaves
    }
}
