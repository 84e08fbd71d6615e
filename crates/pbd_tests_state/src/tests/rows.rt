//! What is done to the bytes of a state, and where it is refused.

/// How many bytes the state has that the rows speak of.
pub(crate) const SIZE: usize = 569;

/// Some bytes of a state replaced, how many bytes from its front are handed over, and the offset of the fault, or none where
/// they are taken. A byte 0 stands behind the state.
#[derive(Clone, Copy)]
pub(crate) struct Row {
    pub(crate) name: &'static str,
    pub(crate) at: usize,
    pub(crate) bytes: &'static [u8],
    pub(crate) len: usize,
    pub(crate) fault: Option<u64>,
}

macro_rules! row {
    ($name:expr; $at:expr; $bytes:expr => $fault:expr) => {
        Row {
            name: $name,
            at: $at,
            bytes: &$bytes,
            len: SIZE,
            fault: $fault,
        }
    };
}

/// The state cut to a length, or with a byte more.
macro_rules! piece {
    ($len:expr => $fault:expr) => {
        Row {
            name: "another length",
            at: 0,
            bytes: &[],
            len: $len,
            fault: Some($fault),
        }
    };
}

/// Of a state after one step, with three particles, of which the first is held, and two links.
pub(crate) static ROWS: [Row; 46] = [
    row!("name"; 0; [81] => Some(0)),
    row!("version"; 7; [2] => Some(7)),
    row!("scene"; 8; [8] => Some(8)),
    row!("last of the scene"; 39; [8] => Some(39)),
    row!("particles"; 40; [0, 0, 0, 4] => Some(43)),
    row!("many particles"; 40; [0, 1, 0, 1] => Some(41)),
    row!("links"; 44; [0, 0, 0, 3] => Some(47)),
    row!("opening"; 95; [1] => Some(95)),
    row!("no step"; 96; [0, 0, 0, 0, 0, 0, 0, 0] => Some(281)),
    row!("last step"; 96; [0, 0, 0, 0, 0, 15, 66, 64] => None),
    row!("a step too many"; 96; [0, 0, 0, 0, 0, 15, 66, 65] => Some(96)),
    row!("greatest count of steps"; 96; [255; 8] => Some(96)),
    row!("gravity on the limit"; 104; [0, 0, 0, 0, 32, 0, 0, 0] => None),
    row!("gravity beyond it"; 104; [0, 0, 0, 0, 32, 0, 0, 1] => Some(104)),
    row!("gravity below"; 120; [255, 255, 255, 255, 223, 255, 255, 255] => Some(104)),
    row!("place on the limit"; 152; [0, 0, 0, 0, 32, 0, 0, 0] => Some(521)),
    row!("place beyond it"; 152; [0, 0, 0, 0, 32, 0, 0, 1] => Some(152)),
    row!("place below"; 192; [128, 0, 0, 0, 0, 0, 0, 0] => Some(176)),
    row!("place before on the limit"; 224; [0, 0, 0, 0, 32, 0, 0, 0] => Some(521)),
    row!("place before beyond it"; 224; [0, 0, 0, 0, 32, 0, 0, 1] => Some(224)),
    row!("held one moved"; 128; [0, 0, 0, 0, 0, 0, 0, 1] => Some(272)),
    row!("held one let go"; 272; [0] => None),
    row!("moving one held"; 273; [1] => Some(273)),
    row!("no flag"; 273; [2] => Some(273)),
    row!("link cut"; 275; [0] => None),
    row!("no flag of a link"; 276; [255] => Some(276)),
    row!("most contacts"; 277; [0, 4, 0, 0] => None),
    row!("a contact too many"; 277; [0, 4, 0, 1] => Some(277)),
    row!("gravity total"; 281; [0, 0, 0, 0, 0, 0, 0, 1, 0, 0, 0, 0, 0, 0, 0, 1] => Some(281)),
    row!("damping total"; 344; [1] => Some(329)),
    row!("link total"; 392; [9] => Some(521)),
    row!("shape total"; 488; [1] => Some(521)),
    row!("pin total"; 568; [1] => Some(521)),
    piece!(0 => 0),
    piece!(1 => 1),
    piece!(8 => 8),
    piece!(95 => 95),
    piece!(96 => 96),
    piece!(127 => 127),
    piece!(128 => 128),
    piece!(271 => 271),
    piece!(275 => 275),
    piece!(277 => 277),
    piece!(281 => 281),
    piece!(SIZE - 1 => 568),
    piece!(SIZE + 1 => 569),
];
