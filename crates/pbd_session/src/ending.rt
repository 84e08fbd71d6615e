//! How runs end.

/// A script was run to its end.
#[derive(Clone, Copy, Debug, PartialEq, Eq)]
pub struct RunEnd {
    /// How many of its commands were refused.
    pub refused: u64,
}

/// What a replay compares, in the order of the comparison.
#[derive(Clone, Copy, Debug, PartialEq, Eq)]
pub enum Field {
    Answer,
    Step,
    Phase,
    Element,
    Steps,
    Live,
    Contacts,
    X,
    Y,
    Z,
    BeforeX,
    BeforeY,
    BeforeZ,
}

impl Field {
    ghost use Rattle.std.specs.Prelude.{◌≡◌, ◌≤◌, length};
    ghost use Rattle.pbd_session.specs.Replaying.{field_name};

    /// As the line of a mismatch has it.
    pub fn name(&self) -> &'static str
        ensures name { result.now ≡ field_name self.now }
        ensures short { length result.now ≤ 8 }
    {
        match self {
            Field::Answer => "answer",
            Field::Step => "step",
            Field::Phase => "phase",
            Field::Element => "element",
            Field::Steps => "steps",
            Field::Live => "live",
            Field::Contacts => "contacts",
            Field::X => "x",
            Field::Y => "y",
            Field::Z => "z",
            Field::BeforeX => "before-x",
            Field::BeforeY => "before-y",
            Field::BeforeZ => "before-z",
        }
    }
}

/// The values of one field, in a log and in the session that replays it.
#[derive(Clone, Copy, Debug, PartialEq, Eq)]
pub struct Compared {
    pub field: Field,
    pub recorded: i128,
    pub found: i128,
}

/// How a replay ended.
#[derive(Clone, Copy, Debug, PartialEq, Eq)]
pub enum ReplayEnd {
    /// All entries agree.
    Done {
        /// How many of the commands were refused.
        refused: u64,
    },
    /// An entry differs.
    Mismatch {
        /// Its number, from 1.
        entry: u64,
        /// The first field that differs.
        field: Field,
        recorded: i128,
        found: i128,
    },
}
