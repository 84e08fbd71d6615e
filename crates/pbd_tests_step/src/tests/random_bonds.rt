//! Millions of projections of random bonds: links and contacts, short and long ones, of all weights. At each width both projectors
//! come to the same worlds, or meet the same refusal.
use super::both::{Script, wrong_script};
use pbd_num::{RANGE, Vec3};
use pbd_tests_rows::{WrongRows, all_hold};
use pbd_tests_scenes::{Drawing, EMPTY, parts_of, scene_of};
use pbd_world::{Command, Kind, Link, Particle, Parts};
use rand_core::utils::NextWord;
use rand_pcg::Lcg64Xsh32;
use std::alloc::{AllocError, Global};

/// How far apart pairs of particles are, and how far they should be. Their first ends lie anywhere in a cube, and their second
/// ends in another one: both have 2^n places a side. A pair is joined by a link, or, where there is a thickness, touches where
/// it is nearer.
#[derive(Clone, Copy)]
struct Lengths {
    name: &'static str,
    /// How often they are drawn.
    draws: u8,
    pairs: u16,
    /// Where the cube of first ends begins, on each axis.
    from: i64,
    places: u32,
    /// How far from the first end the middle of the cube of second ends is, along one of the axes.
    along: i64,
    ways: u32,
    /// How far that is in one pair of 128, where it isn't 0.
    stray: i64,
    /// The least rest length, and by how much others are greater at most.
    rest: i64,
    rests: u32,
    thickness: i64,
    passes: u32,
}

const SHORT: Lengths = Lengths {
    name: "short links",
    draws: 1,
    pairs: 8_192,
    from: -134_217_728,
    places: 0x0fff_ffff,
    along: 0,
    ways: 0x3fff,
    stray: 0,
    rest: 0,
    rests: 0x3fff,
    thickness: 0,
    passes: 3,
};

const CONTACTS: Lengths = Lengths {
    name: "contacts",
    ways: 0x1fff,
    thickness: 15_000,
    ..SHORT
};

/// A chunk of up to 128 bonds goes by loops of 32-bit numbers where all its rest lengths are below 16,384, all its lengths are above
/// 0 and below 32,768, and all that is guessed is right. Else it is tried by loops of 64-bit numbers, and its moves are booked one
/// by one only where a bond has free ends of unequal weights, or a move is not within 4,194,304 on an axis.
static LINKS: [Lengths; 24] = [
    // Links that should be shorter than a fourth of a metre.
    SHORT,
    Lengths {
        name: "links that are nearly as long as they should be",
        ways: 0xff,
        rests: 0xff,
        ..SHORT
    },
    Lengths {
        name: "longer links that are nearly as long as they should be",
        along: 12_000,
        ways: 0xff,
        rest: 11_900,
        rests: 0xff,
        ..SHORT
    },
    Lengths {
        name: "short links that are too long",
        ways: 0xffff,
        ..SHORT
    },
    Lengths {
        name: "short links that are far too long",
        ways: 0x000f_ffff,
        ..SHORT
    },
    Lengths {
        name: "short links, one in 128 of which is too long",
        stray: 100_000,
        ..SHORT
    },
    Lengths {
        name: "short links, one in 128 of which is far too long",
        stray: 500_000,
        ..SHORT
    },
    Lengths {
        name: "short links, one in 128 of which is half a metre long",
        along: 20_000,
        ways: 3,
        stray: 32_767,
        ..SHORT
    },
    // Links that are mostly a fourth of a metre long or more, and short ones of which one in 128 is.
    Lengths {
        name: "links of a metre",
        ways: 0x0001_ffff,
        rests: 0xffff,
        ..SHORT
    },
    Lengths {
        name: "long links",
        ways: 0x00ff_ffff,
        rests: 0x01ff_ffff,
        ..SHORT
    },
    Lengths {
        name: "links that are just shorter than half a metre",
        along: 32_765,
        ways: 3,
        rest: 16_380,
        rests: 3,
        ..SHORT
    },
    Lengths {
        name: "links of half a metre",
        along: 32_766,
        ways: 3,
        rest: 16_380,
        rests: 3,
        ..SHORT
    },
    Lengths {
        name: "links of a fourth of a metre",
        along: 16_383,
        ways: 3,
        rest: 16_381,
        rests: 3,
        ..SHORT
    },
    Lengths {
        name: "links of half a metre, nearly as long as they should be",
        along: 32_766,
        ways: 3,
        rest: 32_766,
        rests: 3,
        ..SHORT
    },
    Lengths {
        name: "links of a metre that should have no length",
        along: 65_537,
        ways: 3,
        rests: 3,
        ..SHORT
    },
    Lengths {
        name: "links of two metres that should be one metre long",
        along: 131_071,
        ways: 3,
        rest: 65_534,
        rests: 3,
        ..SHORT
    },
    Lengths {
        name: "links of two metres that should have no length",
        along: 131_071,
        ways: 3,
        rests: 3,
        ..SHORT
    },
    Lengths {
        name: "links of 64 metres that should have no length",
        pairs: 2_048,
        along: 4_194_305,
        ways: 3,
        rests: 3,
        ..SHORT
    },
    Lengths {
        name: "links of 128 metres that should have no length",
        pairs: 2_048,
        along: 8_388_607,
        ways: 3,
        rests: 3,
        ..SHORT
    },
    Lengths {
        name: "short links, one in 128 of which is 200 metres long",
        pairs: 2_048,
        stray: 13_107_200,
        ..SHORT
    },
    // Links of which some leave the range: at its edge, and of any length anywhere in it.
    Lengths {
        name: "short links, pulled out of the range at its edge",
        draws: 4,
        pairs: 512,
        from: RANGE - 0xffff,
        places: 0xffff,
        rests: 0x3fff,
        ..SHORT
    },
    Lengths {
        name: "short links, seldom pulled out of the range at its edge",
        draws: 4,
        pairs: 512,
        from: RANGE - 0x003f_ffff,
        places: 0x003f_ffff,
        ..SHORT
    },
    Lengths {
        name: "links of half a metre, seldom pulled out of the range at its edge",
        draws: 4,
        pairs: 512,
        from: -RANGE,
        places: 0x000f_ffff,
        ways: 0xffff,
        rests: 0x7fff,
        ..SHORT
    },
    Lengths {
        name: "links of any length, pushed out of the range",
        draws: 4,
        pairs: 64,
        from: -RANGE,
        places: 0x3fff_ffff,
        ways: 0x1fff_ffff,
        rests: 0x7fff_ffff,
        passes: 1,
        ..SHORT
    },
];

/// Pairs that touch, and some that don't.
static TOUCHING: [Lengths; 6] = [
    CONTACTS,
    Lengths {
        name: "contacts, and pairs that don't touch",
        ways: 0x7fff,
        ..CONTACTS
    },
    Lengths {
        name: "contacts of a crowd",
        pairs: 4_096,
        places: 0x0007_ffff,
        ..CONTACTS
    },
    Lengths {
        name: "contacts of the greatest thickness, and pairs that don't touch",
        ways: 0x001f_ffff,
        thickness: 1_048_576,
        ..CONTACTS
    },
    Lengths {
        name: "contacts just closer than a fourth of a metre",
        along: 16_382,
        ways: 3,
        thickness: 16_383,
        ..CONTACTS
    },
    Lengths {
        name: "contacts closer than a fourth of a metre",
        along: 16_383,
        ways: 3,
        thickness: 16_384,
        ..CONTACTS
    },
];

/// The weights of the ends, and how many of them are held.
#[derive(Clone, Copy)]
struct Masses {
    name: &'static str,
    /// Each end has one of these, where 0 is any from 1 to 65,535.
    weights: [u16; 8],
    /// What the second end of one pair in 128 has, where it isn't 0.
    stray: u16,
    /// How many of 64 ends are held.
    held: u32,
    /// Which words they are drawn from.
    stream: u64,
}

static MASSES: [Masses; 6] = [
    Masses {
        name: "one weight",
        weights: [1; 8],
        stray: 0,
        held: 0,
        stream: 1,
    },
    Masses {
        name: "one weight, one of eight ends held",
        weights: [65_535; 8],
        stray: 0,
        held: 8,
        stream: 2,
    },
    Masses {
        name: "one weight, few ends held",
        weights: [300; 8],
        stray: 0,
        held: 1,
        stream: 3,
    },
    Masses {
        name: "one weight but in one pair of 128",
        weights: [2; 8],
        stray: 300,
        held: 0,
        stream: 4,
    },
    Masses {
        name: "any weights",
        weights: [0; 8],
        stray: 0,
        held: 8,
        stream: 5,
    },
    Masses {
        name: "weights of which two are often the same",
        weights: [1, 1, 1, 1, 65_535, 65_535, 2, 300],
        stray: 0,
        held: 8,
        stream: 6,
    },
];

/// A number about a middle one, of so many, as far as the range goes.
fn axis_about(words: &mut Lcg64Xsh32, middle: i64, greatest: u32) -> i64 {
    let from = middle.saturating_sub(i64::from(greatest / 2));
    let off = i64::from(words.next_word() & greatest);
    from.clamp(-RANGE, RANGE)
        .saturating_add(off)
        .clamp(-RANGE, RANGE)
}

/// A place in a cube with so many places a side.
fn place_about(words: &mut Lcg64Xsh32, middle: Vec3, greatest: u32) -> Vec3 {
    Vec3 {
        x: axis_about(words, middle.x, greatest),
        y: axis_about(words, middle.y, greatest),
        z: axis_about(words, middle.z, greatest),
    }
}

/// The place that is so far from another one along one of the axes, forth or back.
fn moved_along(words: &mut Lcg64Xsh32, place: Vec3, length: i64) -> Vec3 {
    let back = words.next_word() & 1 == 0;
    let mut axes = [0i64; 3];
    axes[(words.next_word() % 3) as usize] = if back {
        0i64.saturating_sub(length)
    } else {
        length
    };
    Vec3 {
        x: place.x.saturating_add(axes[0]),
        y: place.y.saturating_add(axes[1]),
        z: place.z.saturating_add(axes[2]),
    }
}

/// The places of a pair.
fn places_of(words: &mut Lcg64Xsh32, lengths: &Lengths, is_stray: bool) -> [Vec3; 2] {
    let middle = lengths.from.saturating_add(i64::from(lengths.places / 2));
    let middle = Vec3 {
        x: middle,
        y: middle,
        z: middle,
    };
    let first = place_about(words, middle, lengths.places);
    let along = if is_stray && lengths.stray != 0 {
        lengths.stray
    } else {
        lengths.along
    };
    let middle = moved_along(words, first, along);
    [first, place_about(words, middle, lengths.ways)]
}

/// A particle at rest.
fn particle_at(words: &mut Lcg64Xsh32, at: Vec3, masses: &Masses) -> Particle {
    let listed = masses.weights[(words.next_word() & 7) as usize];
    let any = (1 + words.next_word() % 65_535) as u16;
    Particle {
        at,
        before: at,
        weight: if listed == 0 { any } else { listed },
        held: words.next_word() & 63 < masses.held,
    }
}

/// The link of pair j. About half of all have the whole stiffness.
fn link_of(words: &mut Lcg64Xsh32, lengths: &Lengths, j: u16) -> Link {
    let a = 2 * u32::from(j);
    let whole = words.next_word() & 1 == 0;
    let some = (words.next_word() % 257) as u16;
    Link {
        a,
        b: a + 1,
        rest: lengths
            .rest
            .saturating_add(i64::from(words.next_word() & lengths.rests)),
        k: if whole { 256 } else { some },
        tear: 0,
        kind: Kind::Plain,
        live: true,
    }
}

/// Adds pair j to parts, where there is memory.
fn draw_pair(
    words: &mut Lcg64Xsh32,
    (lengths, masses): (&Lengths, &Masses),
    j: u16,
    parts: &mut Parts,
) -> bool {
    let is_stray = j % 128 == 77;
    let places = places_of(words, lengths, is_stray);
    let first = particle_at(words, places[0], masses);
    let mut second = particle_at(words, places[1], masses);
    if is_stray && masses.stray != 0 {
        second.weight = masses.stray;
    }
    let drawn = parts.particles.push(first).is_ok() & parts.particles.push(second).is_ok();
    if lengths.thickness != 0 {
        return drawn;
    }
    drawn & parts.links.push(link_of(words, lengths, j)).is_ok()
}

/// What is drawn of a family.
fn drawn(alloc: Global, family: (&Lengths, &Masses), seed: u64) -> Result<Parts, AllocError> {
    let (lengths, masses) = family;
    let mut words = Lcg64Xsh32::new(seed, masses.stream);
    let empty = Drawing {
        passes: lengths.passes,
        thickness: lengths.thickness,
        ..EMPTY
    };
    let mut parts = parts_of(alloc, &empty)?;
    let mut drawn = true;
    for j in 0..lengths.pairs {
        drawn = drawn & draw_pair(&mut words, family, j, &mut parts);
    }
    if drawn {
        Ok(parts)
    } else {
        drop(parts);
        Err(AllocError)
    }
}

/// Tells which draws of a family are wrong, and returns how many.
fn wrong_draws(rt: &HostRuntime, lengths: &Lengths, masses: &Masses) -> u32 {
    let script = Script {
        commands: &[(Command::Step(1), None)],
        particles: 2 * lengths.pairs as usize,
        places: &[],
    };
    let mut wrong = 0u32;
    for seed in 0..u64::from(lengths.draws) {
        let scene = scene_of(rt.alloc(), drawn(rt.alloc(), (lengths, masses), seed));
        let name = (lengths.name, masses.name, seed);
        wrong = wrong.saturating_add(wrong_script(rt, &name, scene, &script));
    }
    wrong
}

/// Tells which families of some lengths are wrong, and returns how many of their draws are.
fn wrong_families(rt: &HostRuntime, rows: &[Lengths]) -> u32 {
    let mut wrong = 0u32;
    for lengths in rows {
        for masses in &MASSES {
            wrong = wrong.saturating_add(wrong_draws(rt, lengths, masses));
        }
    }
    wrong
}

// (a test has a minute, also on a machine that is busy, so links are three)
#[test]
fn random_short_links_come_to_the_same_at_each_width(rt: HostRuntime) -> Result<(), WrongRows> {
    all_hold(wrong_families(&rt, &LINKS[..8]))
}

#[test]
fn random_long_links_come_to_the_same_at_each_width(rt: HostRuntime) -> Result<(), WrongRows> {
    all_hold(wrong_families(&rt, &LINKS[8..16]))
}

#[test]
fn random_links_far_off_and_at_the_edge_come_to_the_same(rt: HostRuntime) -> Result<(), WrongRows> {
    all_hold(wrong_families(&rt, &LINKS[16..]))
}

#[test]
fn random_contacts_come_to_the_same_at_each_width(rt: HostRuntime) -> Result<(), WrongRows> {
    all_hold(wrong_families(&rt, &TOUCHING))
}
