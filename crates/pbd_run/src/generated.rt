//! The scene that a number and a size give.
ghost use Rattle.std.specs.Prelude.{◌≡◌, ◌≤◌, ◌<◌, ◌^◌, ◌-ℤ◌, unsigned_abs, if◌then◌else◌, length, IfOk, OnOk, IsTrue};
ghost use Rattle.std.specs.List.{list_all};
ghost use Rattle.pbd_num.specs.Vectors.{Within, minus};
ghost use Rattle.pbd_world.specs.Valid.{is_valid};
ghost use Rattle.pbd_outcome.specs.Generated.{after_three, all_set_off, bare_parts, generated, is_hung, is_near, level_cloth, set_off, speed, velocity_of, words_of};

use pbd_mesh::{ClothSpec, cloth};
use pbd_num::{RANGE, Vec3};
use pbd_world::{List, Particle, Parts, Sphere};
use rand_core::utils::NextWord;
use rand_pcg::Lcg64Xsh32;
use std::alloc::{AllocError, Global};

// ---- velocities

fn speed(word: u32) -> i64
    ensures value { result ≡ speed word }
    ensures small { unsigned_abs result ≤ 64 }
{
    (word % 129) as i64 - 64
}

/// The velocity of the next three words.
fn velocity_of(words: &mut Lcg64Xsh32) -> Vec3
    ensures value { result ≡ velocity_of words.old }
    ensures left { words.new ≡ after_three words.old }
    ensures small { Within 64 result }
{
    let x = speed(words.next_word());
    let y = speed(words.next_word());
    let z = speed(words.next_word());
    Vec3 { x, y, z }
}

fn before(held: bool, at: Vec3, velocity: Vec3) -> Vec3
    requires at { Within (2 ^ 29) at }
    requires velocity { Within 64 velocity }
    ensures { result ≡ (if held then at else minus at velocity) }
{
    if held { at } else { at.minus(velocity) }
}

fn set_off(held: bool, velocity: Vec3, p: &Particle) -> Particle
    requires at { Within (2 ^ 29) p.now.at }
    requires velocity { Within 64 velocity }
    ensures { result ≡ set_off held velocity p.now }
{
    Particle {
        at: p.at,
        before: before(held, p.at, velocity),
        weight: p.weight,
        held,
    }
}

fn is_hung(size: u32, n: u32) -> bool
    requires { n < 2 ^ 20 }
    ensures { result ≡ is_hung size n }
{
    n == 0 || n + 1 == size
}

/// Each particle draws its velocity.
#[tactic(auto, using(crate::proofs::GeneratedLaws::off_all))]
fn all_set_off(
    alloc: Global,
    number: u64,
    size: u32,
    particles: &[Particle],
) -> Result<List<Particle>, AllocError>
    requires few { length particles.now ≤ 65536 }
    requires near { IsTrue (list_all is_near particles.now) }
    ensures { IfOk result (λ list. list ≡ all_set_off size 0 (words_of number) particles.now) }
{
    let mut words = Lcg64Xsh32::new(number, 0);
    let mut list = List::new(alloc);
    let mut n: u32 = 0;
    let mut rest = particles;
    'each: while let Some((p, later)) = rest.split_first() {
        let velocity = velocity_of(&mut words);
        list.push(set_off(is_hung(size, n), velocity, p))?;
        n += 1;
        rest = later;
    }
    Ok(list)
}

// ---- the scene

fn level_cloth(size: u32) -> ClothSpec
    ensures { result ≡ level_cloth size }
{
    ClothSpec {
        origin: Vec3 {
            x: 0,
            y: 65_536,
            z: 0,
        },
        across: Vec3 {
            x: 6554,
            y: 0,
            z: 0,
        },
        down: Vec3 {
            x: 0,
            y: 0,
            z: 6554,
        },
        rows: size,
        columns: size,
        weight: 1,
        stretch: 256,
        shear: 256,
        bend: 64,
        stretch_tear: 0,
        shear_tear: 0,
        bend_tear: 0,
    }
}

fn middle_spheres(alloc: Global, size: u32) -> Result<List<Sphere>, AllocError>
    requires { size ≤ 128 }
    ensures { IfOk result (λ list. list ≡ (bare_parts size).spheres) }
{
    let middle = (3277 * size) as i64;
    let mut spheres = List::new(alloc);
    spheres.push(Sphere {
        centre: Vec3 {
            x: middle,
            y: 0,
            z: middle,
        },
        radius: 32_768,
    })?;
    Ok(spheres)
}

fn bare_parts(alloc: Global, size: u32) -> Result<Parts, AllocError>
    requires { size ≤ 128 }
    ensures { IfOk result (λ parts. parts ≡ bare_parts size) }
{
    let spheres = middle_spheres(alloc, size)?;
    Ok(Parts {
        spheres,
        gravity: Vec3 {
            x: 0,
            y: -179,
            z: 0,
        },
        passes: 8,
        damping: 10,
        thickness: 3000,
        ..Parts::empty(alloc, RANGE)
    })
}

/// Gives the bare parts their cloth, whose particles are set off.
fn hang_cloth(alloc: Global, number: u64, size: u32, parts: &mut Parts) -> Result<(), AllocError>
    requires low { 2 ≤ size }
    requires high { size ≤ 128 }
    requires bare { parts.old ≡ bare_parts size }
    ensures { OnOk result (parts.new ≡ generated number size) }
{
    cloth(alloc, &level_cloth(size), parts)?;
    parts.particles = all_set_off(alloc, number, size, parts.particles.as_slice())?;
    Ok(())
}

/// The parts of a number and a size.
pub fn generated(alloc: Global, number: u64, size: u32) -> Result<Parts, AllocError>
    requires low { 2 ≤ size }
    requires high { size ≤ 128 }
    ensures parts { IfOk result (λ parts. parts ≡ generated number size) }
    ensures valid { IfOk result (λ parts. IsTrue (is_valid parts)) }
{
    let mut parts = bare_parts(alloc, size)?;
    match hang_cloth(alloc, number, size, &mut parts) {
        Ok(()) => Ok(parts),
        Err(failed) => {
            drop(parts);
            Err(failed)
        }
    }
}
