// A checksum of a world in 64 bits, for each turn.
ghost use Rattle.std.specs.Prelude.{◌≡◌, ◌+◌, ◌≤◌, ◌++◌, ◌∷◌, length, map};
ghost use Rattle.std.specs.List.{flat_map};
ghost use Rattle.pbd_world.specs.Ledger.{sum_of, ledger_of};
ghost use Rattle.pbd_state.specs.Checksum.{checksum as checksum_of, flag_word, live_word, particle_words, sum_words, totals_words, vector_words, wide_words, with_word, with_words};

use pbd_num::Vec3;
use pbd_step::Shown;
use pbd_store::Steps;
use pbd_world::{Link, Particle, Totals};
use std::sync::ledger::Ledger;

/// That of Knuth's MMIX. It is odd, so multiplying by it modulo 2^64 loses nothing.
const MULTIPLIER: u128 = 6_364_136_223_846_793_005;

/// How many words of 64 bits there are.
const WORDS: u128 = 18_446_744_073_709_551_616;

#[tactic(auto, unfolding(crate::specs::Checksum::with_word))]
fn with_word(sum: u64, word: u64) -> u64
    ensures { result ≡ with_word sum word }
{
    ((u128::from(sum) * MULTIPLIER + u128::from(word)) % WORDS) as u64
}

fn with_flag(sum: u64, flag: bool) -> u64
    ensures { result ≡ with_word sum (flag_word flag) }
{
    with_word(sum, u64::from(flag))
}

#[tactic(auto, unfolding(crate::specs::Checksum::with_words, crate::specs::Checksum::vector_words))]
fn with_vector(sum: u64, vector: &Vec3) -> u64
    ensures { result ≡ with_words sum (vector_words vector.now) }
{
    let x = with_word(sum, vector.x.cast_unsigned());
    let y = with_word(x, vector.y.cast_unsigned());
    with_word(y, vector.z.cast_unsigned())
}

#[tactic(auto, unfolding(crate::specs::Checksum::with_words, crate::specs::Checksum::wide_words))]
fn with_wide(sum: u64, number: i128) -> u64
    ensures { result ≡ with_words sum (wide_words number) }
{
    let bits = number.cast_unsigned();
    let high = with_word(sum, (bits / WORDS) as u64);
    with_word(high, (bits % WORDS) as u64)
}

#[tactic(auto, unfolding(crate::specs::Checksum::with_words, crate::specs::Checksum::sum_words, crate::specs::Checksum::wide_words))]
fn with_sum(sum: u64, total: &[i128; 3]) -> u64
    ensures { result ≡ with_words sum (sum_words (sum_of total.now)) }
{
    let x = with_wide(sum, total[0]);
    let y = with_wide(x, total[1]);
    with_wide(y, total[2])
}

#[tactic(auto, unfolding(crate::specs::Checksum::with_words, crate::specs::Checksum::sum_words, crate::specs::Checksum::totals_words, crate::specs::Checksum::wide_words))]
fn with_totals(sum: u64, totals: &Totals) -> u64
    ensures { result ≡ with_words sum (totals_words (ledger_of totals.now)) }
{
    let gravity = with_sum(sum, &totals.gravity);
    let damping = with_sum(gravity, &totals.damping);
    let link = with_sum(damping, &totals.link);
    let contact = with_sum(link, &totals.contact);
    let shape = with_sum(contact, &totals.shape);
    with_sum(shape, &totals.pin)
}

#[tactic(auto, unfolding(crate::specs::Checksum::with_words, crate::specs::Checksum::vector_words, crate::specs::Checksum::particle_words))]
fn with_particle(sum: u64, particle: &Particle) -> u64
    ensures { result ≡ with_words sum (particle_words particle.now) }
{
    let at = with_vector(sum, &particle.at);
    let before = with_vector(at, &particle.before);
    with_flag(before, particle.held)
}

fn of_particles<const L: usize, G: Ledger>(shown: &Shown<'_, L>, steps: &mut Steps<G>) -> u64
    requires lanes { L ≤ 16 }
    ensures value { result ≡ with_words 0 (flat_map particle_words shown.now.particles) }
    ensures cost { steps.new ≡ steps.old + length shown.now.particles }
{
    let mut sum = 0;
    for i in 0..shown.particles() {
        sum = with_particle(sum, &shown.particle(i, steps));
    }
    sum
}

fn with_flags(sum: u64, links: &[Link]) -> u64
    ensures { result ≡ with_words sum (map live_word links.now) }
{
    let mut folded = sum;
    for link in links {
        folded = with_flag(folded, link.live);
    }
    folded
}

/// The checksum of a world: equal worlds have equal ones, and where the words of two worlds differ in exactly one, so do
/// these. It is no guard against malice, which `digest` is. It takes no memory.
pub fn checksum<const L: usize, G: Ledger>(shown: &Shown<'_, L>, steps: &mut Steps<G>) -> u64
    requires lanes { L ≤ 16 }
    ensures value { result ≡ checksum_of shown.now }
    ensures cost { steps.new ≡ steps.old + length shown.now.particles }
{
    let sum = of_particles(shown, steps);
    let sum = with_flags(sum, shown.links());
    let sum = with_word(sum, shown.step_count());
    let sum = with_vector(sum, &shown.gravity());
    let sum = with_word(sum, u64::from(shown.contacts()));
    with_totals(sum, shown.totals())
}
