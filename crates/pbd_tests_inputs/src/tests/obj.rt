//! Texts and their meshes, meshes and their links, and lines.
ghost use Rattle.std.specs.Prelude.{◌≡◌, IsTrue, IfOk, pos};
ghost use Rattle.pbd_world.specs.Valid.{is_valid};
ghost use Rattle.pbd_obj.specs.Meshes.{IsMesh};

use super::parts::{empty_parts, link, links};
use pbd_io::{Failed, MemSink, Sink};
use pbd_num::{RANGE, Vec3, inside};
use pbd_obj::{
    ArraysFault, LinkSettings, MeshSettings, ObjFault, ObjMesh, Triangle, add_mesh, add_mesh_with,
    mesh_of, read_obj, triangles_of, write_face, write_vertex,
};
use pbd_tests_rows::{WrongRows, all_hold, each_row, place, wrong_row};
use pbd_world::{Kind, Link, Parts};
use std::alloc::Global;
use std::io::Eprint;

const SQUARE: &str = "v 0 0 0\nv 1 0 0\nv 1 1 0\nv 0 1 0\nf 1 2/7 -2//3 4\n";

/// Reads a text below a megabyte. A longer one is refused without a fault.
fn read_short(alloc: Global, text: &str) -> Result<ObjMesh, Option<ObjFault>>
    ensures { IfOk result IsMesh }
{
    let bytes = text.as_bytes();
    if bytes.len() >= 1_000_000 {
        return Err(None);
    }
    match read_obj(alloc, bytes) {
        Ok(mesh) => Ok(mesh),
        Err(fault) => Err(Some(fault)),
    }
}

/// The places of a mesh, and the sizes and the corners of its faces.
type Arrays = (&'static [Vec3], &'static [u32], &'static [u32]);

/// Whether a text gives a mesh of these arrays.
fn has_arrays(alloc: Global, text: &str, arrays: Arrays) -> Result<bool, Option<ObjFault>> {
    let mesh = read_short(alloc, text)?;
    let found = (
        mesh.places.as_slice(),
        mesh.sizes.as_slice(),
        mesh.corners.as_slice(),
    );
    let same = found == arrays;
    drop(mesh);
    Ok(same)
}

/// How many of some texts aren't answered so where it is asked whether they give these vertices and no face. Each of them is
/// told.
fn wrong_texts(
    rt: &impl Eprint,
    alloc: Global,
    texts: &[&str],
    (places, answer): (&'static [Vec3], Result<bool, Option<ObjFault>>),
) -> u32 {
    let mut wrong = 0u32;
    for text in texts {
        let told = has_arrays(alloc, text, (places, &[], &[]));
        wrong = wrong.saturating_add(wrong_row(rt, (text, "gives its vertices"), &told, &answer));
    }
    wrong
}

/// What is wrong with texts that have a bad vertex or a bad face.
static BAD_TEXTS: [(ObjFault, &[&str]); 7] = [
    (
        ObjFault::BadNumber { line: 1 },
        &[
            "v 1 2",
            "v",
            "v 1 2 .",
            "v 1 2 1..",
            "v 1 2 --3",
            "v 1 2 3e",
            "v 1 2 3e+",
            "v 1 2 3e123",
            "v 1 2 3e1.5",
            "v 1 2 e5",
            "v 1 2 0x3",
            "v 1 2 nan",
            "v 1 2 0000000000000000000000003",
            "v 9999 2 x",
        ],
    ),
    (ObjFault::BadNumber { line: 3 }, &["#\n\n v 1 2 x\r\n"]),
    (
        ObjFault::OutOfRange { line: 1 },
        &[
            "v 8193 0 0",
            "v 0 -8192.0001 0",
            "v 0 0 1e99",
            "v 0 0 999999999999999999999999e99",
        ],
    ),
    (
        ObjFault::OutOfRange { line: 2 },
        &["v 0 0 0\nv 0 0 9e3\nf 1 2 3"],
    ),
    (ObjFault::BadFace { line: 1 }, &["f 1 2 3"]),
    (
        ObjFault::BadFace { line: 3 },
        &[
            "v 0 0 0\nv 0 0 0\nf 1 2\n",
            "v 0 0 0\nv 0 0 0\nf 1 2 3\nv 0 0 0\n",
        ],
    ),
    (
        ObjFault::BadFace { line: 4 },
        &[
            "v 0 0 0\nv 0 0 0\nv 0 0 0\nf 1 2 1\n",
            "v 0 0 0\nv 0 0 0\nv 0 0 0\nf 1 2 -2\n",
            "v 0 0 0\nv 0 0 0\nv 0 0 0\nf 1 2 4\n",
            "v 0 0 0\nv 0 0 0\nv 0 0 0\nf 1 2 -4\n",
            "v 0 0 0\nv 0 0 0\nv 0 0 0\nf 1 2 0\n",
            "v 0 0 0\nv 0 0 0\nv 0 0 0\nf 1 2 +3\n",
            "v 0 0 0\nv 0 0 0\nv 0 0 0\nf 1 2 /3\n",
            "v 0 0 0\nv 0 0 0\nv 0 0 0\nf 1 2 3 # three\n",
            "v 0 0 0\nv 0 0 0\nv 0 0 0\nf 1 2 0000000003\n",
        ],
    ),
];

#[test]
fn a_bad_vertex_or_face_is_refused_at_its_line(rt: HostRuntime) -> Result<(), WrongRows> {
    each_row!(rt, &BAD_TEXTS, "has wrong texts", (fault, texts) => wrong_texts(&rt, rt.alloc(), texts, (&[], Err(Some(*fault)))), &0)
}

/// Places, and texts that have vertices there.
static PLACES: [(&[Vec3], &[&str]); 8] = [
    (
        &[place!(6554, 0, 0)],
        &["v 0.1 0 0", "v 1e-1 0 0", "\tv\t1E-01\t0\t0 7 colour\r\n"],
    ),
    (
        &[place!(1, 0, 0)],
        &[
            "v 0.00000762939453125 0 0",
            "v 762939453125e-17 0 0",
            "v 999999999999999999999999e-29 0 0",
        ],
    ),
    (&[place!(-1, 0, 0)], &["v -0.00000762939453125 0 0"]),
    (
        &[place!(0, 0, 0)],
        &[
            "v 0.000007629394531249 0 0",
            "v 762939453124e-17 0 0",
            "v -0 0 0",
            "v 0e99 0 0",
            "v 1e-99 0 0",
            "v 999999999999999999999999e-30 0 0",
        ],
    ),
    (
        &[place!(65_536, 0, 0)],
        &["v +1. 0 0", "v 000000000000000000000001 0 0"],
    ),
    (&[place!(32_768, 0, 0)], &["v .5 0 0"]),
    (&[place!(-536_870_912, 0, 0)], &["v -8192 0 0"]),
    (
        &[place!(536_870_912, 0, 0)],
        &[
            "v 8192.000007 0 0",
            "v 0.00008192e8 0 0",
            "v 81920000000000000000000e-19 0 0",
        ],
    ),
];

#[test]
fn decimals_become_whole_units(rt: HostRuntime) -> Result<(), WrongRows> {
    each_row!(rt, &PLACES, "has wrong texts", (places, texts) => wrong_texts(&rt, rt.alloc(), texts, (places, Ok(true))), &0)
}

/// What becomes of parts to which the mesh of a text is added.
fn added(alloc: Global, text: &str, parts: &mut Parts) -> Result<(), Option<ObjFault>>
    requires valid { IsTrue (is_valid parts.old) }
    requires limit { parts.old.limit ≡ pos 536870912 }
{
    let mesh = read_short(alloc, text)?;
    let added = add_mesh(alloc, &mesh, parts);
    drop(mesh);
    match added {
        Ok(()) => Ok(()),
        Err(fault) => Err(Some(fault)),
    }
}

static TWO_FACES: &[Link] = links!(
    Stretch 256 0: 0 1 65_536, 1 2 65_536, 2 3 65_536, 3 0 65_536, 2 4 73_271, 4 3 73_271;
    Shear 256 0: 0 2 92_681, 1 3 92_681
);

#[test]
fn a_mesh_is_added_face_by_face(rt: HostRuntime) -> Result<(), WrongRows> {
    let text = "v 0 0 0\nv 1 0 0\nv 1 1 0\nv 0 1 0\nv 0.5 2 0\nf 1 2 3 4\nf 4 3 5\n";
    let mut parts = empty_parts(rt.alloc(), RANGE);
    let answer = added(rt.alloc(), text, &mut parts);
    let told = (answer, parts.particles.len(), parts.links.as_slice());
    let wrong = wrong_row(&rt, (&text, "is added"), &told, &(Ok(()), 5, TWO_FACES));
    drop(parts);
    all_hold(wrong)
}

/// A text, another that comes so many times behind it, and what becomes of no parts to which they are added.
type Repeated = (
    &'static str,
    &'static str,
    u32,
    Result<(), Option<ObjFault>>,
);

/// The first two vertices of a fan, and what each further one is: so many links meet at the first as there are others.
const FAN: &str = "v 0 0 0\nv 0 0 0\n";

const TRIANGLE: &str = "v 0 0 0\nf 1 -2 -1\n";

static LIMITS: [Repeated; 4] = [
    (FAN, TRIANGLE, 31, Ok(())),
    (
        FAN,
        TRIANGLE,
        32,
        Err(Some(ObjFault::TooManyAtParticle { vertex: 1 })),
    ),
    ("", "v 0 0 0\n", 65_536, Ok(())),
    ("", "v 0 0 0\n", 65_537, Err(Some(ObjFault::TooMany))),
];

/// Adds so many times a text, where there is memory.
fn push_repeated(text: &mut String, piece: &str, count: u32) -> bool {
    let mut is_whole = true;
    for _ in 0..count {
        is_whole &= text.push_str(piece).is_ok();
    }
    is_whole
}

/// What becomes of no parts to which the mesh of a row's text is added. Without memory for the text it is no fault that is told.
fn added_repeated(alloc: Global, row: &Repeated) -> Result<(), Option<ObjFault>> {
    let (first, piece, count, _) = *row;
    let mut text = String::new(alloc);
    let is_whole = text.push_str(first).is_ok() && push_repeated(&mut text, piece, count);
    let mut parts = empty_parts(alloc, RANGE);
    let answer = added(alloc, text.as_str(), &mut parts);
    drop(parts);
    drop(text);
    if is_whole { answer } else { Err(None) }
}

#[test]
fn a_mesh_has_at_most_32_links_at_a_vertex_and_65536_vertices(
    rt: HostRuntime,
) -> Result<(), WrongRows> {
    each_row!(rt, &LIMITS, "is added", row => added_repeated(rt.alloc(), row), &row.3)
}

/// A weight, and another stiffness and tear length for each kind of link.
static CLOTH: MeshSettings = MeshSettings {
    weight: 3,
    stretch: LinkSettings {
        stiffness: 200,
        tear: 300_000,
    },
    shear: LinkSettings {
        stiffness: 100,
        tear: 400_000,
    },
    bend: Some(LinkSettings {
        stiffness: 40,
        tear: 500_000,
    }),
};

/// Whether a mesh has these links with the settings of a cloth, joined as `tools/mesh-scene --bend 40` joins its vertices, and
/// each particle the weight of the settings.
fn has_links(alloc: Global, text: &str, links: &[Link]) -> Result<[bool; 2], Option<ObjFault>> {
    let mesh = read_short(alloc, text)?;
    let mut parts = empty_parts(alloc, RANGE);
    let added = add_mesh_with(alloc, &mesh, &CLOTH, &mut parts);
    drop(mesh);
    let same = parts.links.as_slice() == links;
    let mut are_heavy = true;
    for particle in parts.particles.as_slice() {
        are_heavy &= particle.weight == 3;
    }
    drop(parts);
    match added {
        Ok(()) => Ok([same, are_heavy]),
        Err(fault) => Err(Some(fault)),
    }
}

/// Two triangles, two squares, three triangles at one edge, a triangle and its back, and a body whose corners are all
/// joined already.
static BENT: [(&str, &[Link]); 5] = [
    (
        "v 0 0 0\nv 1 0 0\nv 0 1 0\nv 1 1 0\nf 1 2 3\nf 3 2 4\n",
        links!(
            Stretch 200 300_000: 0 1 65_536, 1 2 92_681, 2 0 65_536, 1 3 65_536, 3 2 65_536;
            Bend 40 500_000: 0 3 92_681
        ),
    ),
    (
        "v 0 0 0\nv 1 0 0\nv 1 1 0\nv 0 1 0\nv 2 0 0\nv 2 1 0\nf 1 2 3 4\nf 2 5 6 3\n",
        links!(
            Stretch 200 300_000: 0 1 65_536, 1 2 65_536, 2 3 65_536, 3 0 65_536, 1 4 65_536,
                4 5 65_536, 5 2 65_536;
            Shear 100 400_000: 0 2 92_681, 1 3 92_681, 1 5 92_681, 4 2 92_681;
            Bend 40 500_000: 0 4 131_072, 3 5 131_072
        ),
    ),
    (
        "v 0 0 0\nv 1 0 0\nv 0 1 0\nv 0 -1 0\nv 0 0 1\nf 1 2 3\nf 2 1 4\nf 1 2 5\n",
        links!(
            Stretch 200 300_000: 0 1 65_536, 1 2 92_681, 2 0 65_536, 0 3 65_536, 3 1 92_681,
                1 4 92_681, 4 0 65_536
        ),
    ),
    (
        "v 0 0 0\nv 1 0 0\nv 0 1 0\nf 1 2 3\nf 3 2 1\n",
        links!(
            Stretch 200 300_000: 0 1 65_536, 1 2 92_681, 2 0 65_536
        ),
    ),
    (
        "v 0 0 0\nv 1 0 0\nv 0 1 0\nv 0 0 1\nf 1 2 3\nf 1 4 2\nf 2 4 3\nf 3 4 1\n",
        links!(
            Stretch 200 300_000: 0 1 65_536, 1 2 92_681, 2 0 65_536, 0 3 65_536, 3 1 92_681,
                3 2 92_681
        ),
    ),
];

#[test]
fn what_faces_each_other_across_an_edge_of_two_faces_is_joined(
    rt: HostRuntime,
) -> Result<(), WrongRows> {
    each_row!(rt, &BENT, "are its links and weights", (text, links) => has_links(rt.alloc(), text, links), &Ok([true; 2]))
}

/// A vertex with its coordinates in metres.
macro_rules! metres {
    ($x:expr, $y:expr, $z:expr) => {
        place!($x * 65_536, $y * 65_536, $z * 65_536)
    };
}

/// Meshes as other programs write them, and their arrays.
static OTHER_PROGRAMS: [(&str, Arrays); 7] = [
    (
        SQUARE,
        (
            &[
                metres!(0, 0, 0),
                metres!(1, 0, 0),
                metres!(1, 1, 0),
                metres!(0, 1, 0),
            ],
            &[4],
            &[0, 1, 2, 3],
        ),
    ),
    (
        "# Blender\r\nmtllib plane.mtl\r\no Plane\r\nv -1.000000 0.000000 1.000000\r\nv 1 0 1\r\nv 1 0 -1\r\nv -1 0 -1\r\nvn -0.0000 1.0000 -0.0000\r\nvt 0.0 1.0\r\ns 0\r\nusemtl None\r\nf 1/1/1 2/2/1 3/3/1 4/4/1\r\n",
        (
            &[
                metres!(-1, 0, 1),
                metres!(1, 0, 1),
                metres!(1, 0, -1),
                metres!(-1, 0, -1),
            ],
            &[4],
            &[0, 1, 2, 3],
        ),
    ),
    (
        "v 0 0 0\nv 1 0 0\nv 1 1 0\nf -3 -2 -1\nv 2 2 0\nf -1 -2 -3\n",
        (
            &[
                metres!(0, 0, 0),
                metres!(1, 0, 0),
                metres!(1, 1, 0),
                metres!(2, 2, 0),
            ],
            &[3, 3],
            &[0, 1, 2, 3, 2, 1],
        ),
    ),
    (
        "g hexagon\nv 1e0 0 0\nv 5E-1 .866 0\nv -5e-1 0.866 0.\nv -1e+00 0 0\nv -0.5 -.866 0\nv +.5 -.866 0\nf 6 5/1 4//1 3/1/1 2 1\n",
        (
            &[
                place!(65_536, 0, 0),
                place!(32_768, 56_754, 0),
                place!(-32_768, 56_754, 0),
                place!(-65_536, 0, 0),
                place!(-32_768, -56_754, 0),
                place!(32_768, -56_754, 0),
            ],
            &[6],
            &[5, 4, 3, 2, 1, 0],
        ),
    ),
    (
        "o first\nv 0 0 0\nv 1 0 0\nv 0 1 0\nf 1//1 2//1 3//1\no second\ng part\nv 0 0 1\nv 1 0 1\nv 0 1 1\nf 4 5 6\nf -3 2 -1\n",
        (
            &[
                metres!(0, 0, 0),
                metres!(1, 0, 0),
                metres!(0, 1, 0),
                metres!(0, 0, 1),
                metres!(1, 0, 1),
                metres!(0, 1, 1),
            ],
            &[3, 3, 3],
            &[0, 1, 2, 3, 4, 5, 3, 1, 5],
        ),
    ),
    (
        "v 0 0 0 1 0.5 0.25\nvp 1 2\np 1\nl 1 1\n",
        (&[Vec3::ZERO], &[], &[]),
    ),
    ("\r\n\t\nfo 1 2 3\nV 1 2 x", (&[], &[], &[])),
];

#[test]
fn files_of_other_programs_are_read(rt: HostRuntime) -> Result<(), WrongRows> {
    each_row!(rt, &OTHER_PROGRAMS, "are its arrays", (text, arrays) => has_arrays(rt.alloc(), text, *arrays), &Ok(true))
}

/// Places, whose lines are the first of those below.
static VERTICES: [Vec3; 4] = [
    place!(0, 65_536, -98_304),
    place!(6554, 1, -1),
    place!(536_870_912, -536_870_912, 536_870_911),
    place!(32_768, 655_360, 8),
];

/// The fault of arrays: the places of vertices, how many corners each face has, and the corners.
fn fault_of_arrays(
    alloc: Global,
    places: &[Vec3],
    sizes: &[u32],
    corners: &[u32],
) -> Option<ArraysFault> {
    match mesh_of(alloc, places, sizes, corners) {
        Ok(mesh) => {
            drop(mesh);
            None
        }
        Err(fault) => Some(fault),
    }
}

/// Faces of four vertices, and what is wrong with them.
static ARRAYS: [(&[u32], &[u32], Option<ArraysFault>); 12] = [
    (&[], &[], None),
    (&[3, 4], &[3, 0, 1, 0, 1, 2, 3], None),
    (&[3], &[0, 1, 2, 3], Some(ArraysFault::BadCount)),
    (&[4], &[0, 1, 2], Some(ArraysFault::BadCount)),
    (&[], &[0], Some(ArraysFault::BadCount)),
    (
        &[3, 4_294_967_295, 4],
        &[0, 1, 2, 0, 1, 2],
        Some(ArraysFault::BadCount),
    ),
    (&[0], &[], Some(ArraysFault::BadFace { face: 0 })),
    (
        &[3, 2],
        &[0, 1, 2, 0, 1],
        Some(ArraysFault::BadFace { face: 1 }),
    ),
    (&[3], &[0, 1, 4], Some(ArraysFault::BadFace { face: 0 })),
    (&[3], &[0, 1, 0], Some(ArraysFault::BadFace { face: 0 })),
    (
        &[3, 3, 3],
        &[0, 1, 2, 3, 3, 2, 9, 9, 9],
        Some(ArraysFault::BadFace { face: 1 }),
    ),
    (
        &[4],
        &[0, 1, 2, 4_294_967_295],
        Some(ArraysFault::BadFace { face: 0 }),
    ),
];

#[test]
fn arrays_are_a_mesh_or_are_refused_at_their_first_wrong_face(
    rt: HostRuntime,
) -> Result<(), WrongRows> {
    each_row!(rt, &ARRAYS, "are refused", (sizes, corners, fault) => fault_of_arrays(rt.alloc(), &VERTICES, sizes, corners), fault)
}

#[test]
fn arrays_with_a_vertex_out_of_range_are_refused_at_it(rt: HostRuntime) -> Result<(), WrongRows> {
    let places = [
        VERTICES[0],
        place!(0, 536_870_913, 0),
        place!(-536_870_913, 0, 0),
    ];
    let fault = fault_of_arrays(rt.alloc(), &places, &[3], &[0, 1, 9]);
    let wanted = Some(ArraysFault::OutOfRange { vertex: 1 });
    all_hold(wrong_row(&rt, (&places, "are refused"), &fault, &wanted))
}

macro_rules! triangles {
    ($($a:tt $b:tt $c:tt),*) => { &[$(Triangle { a: $a, b: $b, c: $c }),*] };
}

/// Whether the faces of seven vertices are cut into these triangles.
fn has_triangles(
    alloc: Global,
    sizes: &[u32],
    corners: &[u32],
    triangles: &[Triangle],
) -> Result<bool, ArraysFault> {
    let mesh = mesh_of(alloc, &[Vec3::ZERO; 7], sizes, corners)?;
    let found = triangles_of(alloc, &mesh);
    drop(mesh);
    match found {
        Ok(found) => {
            let same = found.as_slice() == triangles;
            drop(found);
            Ok(same)
        }
        Err(_) => Err(ArraysFault::OutOfMemory),
    }
}

/// Faces of seven vertices, and their triangles.
static TRIANGLES: [(&[u32], &[u32], &[Triangle]); 4] = [
    (&[], &[], &[]),
    (&[3], &[6, 2, 4], triangles!(6 2 4)),
    (
        &[4, 3],
        &[0, 1, 2, 3, 3, 2, 4],
        triangles!(0 1 2, 0 2 3, 3 2 4),
    ),
    (
        &[6],
        &[5, 4, 6, 2, 1, 0],
        triangles!(5 4 6, 5 6 2, 5 2 1, 5 1 0),
    ),
];

#[test]
fn faces_are_cut_into_triangles(rt: HostRuntime) -> Result<(), WrongRows> {
    each_row!(
        rt,
        &TRIANGLES,
        "are cut into these triangles",
        (sizes, corners, triangles) => has_triangles(rt.alloc(), sizes, corners, triangles),
        &Ok(true)
    )
}

static LINES: &[u8] =
    b"v 0 1 -1.5\nv 0.100006103515625 0.0000152587890625 -0.0000152587890625\nv 8192 -8192 8191.9999847412109375\nv 0.5 10 0.0001220703125\nf 1 4 100\nf 11 12 13 14\n";

/// Writes the vertices, a face of the first mesh of a file, and a face behind ten vertices.
fn write_lines<K: Sink>(sink: &mut K) -> Result<(), Failed> {
    for place in &VERTICES {
        if !inside(*place) {
            return Err(Failed);
        }
        write_vertex(*place, sink)?;
    }
    write_face(&[0, 3, 99], 0, sink)?;
    write_face(&[0, 1, 2, 3], 10, sink)
}

#[test]
fn vertices_and_faces_are_written_as_lines(rt: HostRuntime) -> Result<(), WrongRows> {
    let mut sink = MemSink::open(rt.alloc(), 200, Vec::new(rt.alloc())).expect(&rt, "no memory");
    let ended = write_lines(&mut sink);
    let told = (ended, sink.written());
    let wrong = wrong_row(
        &rt,
        (&VERTICES, "and two faces are written"),
        &told,
        &(Ok(()), LINES),
    );
    drop(sink);
    all_hold(wrong)
}
