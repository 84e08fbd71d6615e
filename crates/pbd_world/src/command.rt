// The table of commands: a command is a row and operands of the row's kind. And what a session answers.
ghost use Rattle.std.specs.Prelude.{◌≡◌, ◌==◌, bytes_eq, find};
ghost use Rattle.pbd_world.specs.Verbs.{all_verbs, row, verb_named, verb_coded, verb_and_operands, command_with, alone, the_number, the_vector, number_and_vector};

use pbd_num::Vec3;

/// What a script line asks for.
#[derive(Clone, Copy, Debug, PartialEq, Eq)]
pub enum Command {
    Step(u64),
    Frame,
    Pin(u64),
    Unpin(u64),
    Move { particle: u64, to: Vec3 },
    Cut(u64),
    Gravity(Vec3),
    Ledger,
    /// A line that is none of these.
    Bad,
}

/// A command without its operands.
#[derive(Clone, Copy, Debug, PartialEq, Eq)]
pub enum Verb {
    Step,
    Frame,
    Pin,
    Unpin,
    Move,
    Cut,
    Gravity,
    Ledger,
    Bad,
}

/// What stands behind a verb, in a line as in a log.
#[derive(Clone, Copy, Debug, PartialEq, Eq)]
pub enum OperandKind {
    Nothing,
    Number,
    Vector,
    NumberAndVector,
}

/// The operands of a command, a variant for each kind.
#[derive(Clone, Copy, Debug, PartialEq, Eq)]
pub enum Operands {
    Nothing,
    Number(u64),
    Vector(Vec3),
    NumberAndVector(u64, Vec3),
}

/// A row of the table.
#[derive(Clone, Copy)]
pub struct VerbRow {
    /// The first word of its lines. That of `Bad` is empty, so that no line begins with it.
    pub word: &'static [u8],
    /// The first byte of its entries in a log.
    pub code: u8,
    pub kind: OperandKind,
}

impl VerbRow {
    fn new(word: &'static [u8], code: u8, kind: OperandKind) -> VerbRow
        ensures word { result.word.now ≡ word.now }
        ensures code { result.code ≡ code }
        ensures kind { result.kind ≡ kind }
    {
        VerbRow { word, code, kind }
    }
}

impl Verb {
    fn all() -> &'static [Verb]
        ensures { result.now ≡ all_verbs }
    {
        &[
            Verb::Step,
            Verb::Frame,
            Verb::Pin,
            Verb::Unpin,
            Verb::Move,
            Verb::Cut,
            Verb::Gravity,
            Verb::Ledger,
            Verb::Bad,
        ]
    }

    /// The row of this verb.
    #[tactic(auto, unfolding(crate::specs::Verbs::row))]
    pub fn row(&self) -> VerbRow
        ensures word { result.word.now ≡ (row self.now).word }
        ensures code { result.code ≡ (row self.now).code }
        ensures kind { result.kind ≡ (row self.now).kind }
    {
        match self {
            Verb::Step => VerbRow::new(b"step".as_slice(), 1, OperandKind::Number),
            Verb::Frame => VerbRow::new(b"frame".as_slice(), 2, OperandKind::Nothing),
            Verb::Pin => VerbRow::new(b"pin".as_slice(), 3, OperandKind::Number),
            Verb::Unpin => VerbRow::new(b"unpin".as_slice(), 4, OperandKind::Number),
            Verb::Move => VerbRow::new(b"move".as_slice(), 5, OperandKind::NumberAndVector),
            Verb::Cut => VerbRow::new(b"cut".as_slice(), 6, OperandKind::Number),
            Verb::Gravity => VerbRow::new(b"gravity".as_slice(), 7, OperandKind::Vector),
            Verb::Ledger => VerbRow::new(b"ledger".as_slice(), 8, OperandKind::Nothing),
            Verb::Bad => VerbRow::new(b"".as_slice(), 9, OperandKind::Nothing),
        }
    }

    fn has_word(&self, word: &[u8]) -> bool
        ensures { result ≡ bytes_eq word.now (row self.now).word }
    {
        word == self.row().word
    }

    fn has_code(&self, code: u8) -> bool
        ensures { result ≡ ((row self.now).code == code) }
    {
        self.row().code == code
    }

    /// The verb with this word.
    #[tactic(auto, unfolding(crate::specs::Verbs::verb_named))]
    pub fn named(word: &[u8]) -> Option<Verb>
        ensures { result ≡ verb_named word.now }
    {
        first_with_word(Verb::all(), word)
    }

    /// The verb with this code.
    #[tactic(auto, unfolding(crate::specs::Verbs::verb_coded))]
    pub fn coded(code: u8) -> Option<Verb>
        ensures { result ≡ verb_coded code }
    {
        first_with_code(Verb::all(), code)
    }

    /// The command with these operands. None comes exactly where they are of another kind.
    pub fn with(&self, operands: &Operands) -> Option<Command>
        ensures { result ≡ command_with self.now operands.now }
    {
        match self {
            Verb::Step => operands.number().map(Command::Step),
            Verb::Frame => operands.alone(Command::Frame),
            Verb::Pin => operands.number().map(Command::Pin),
            Verb::Unpin => operands.number().map(Command::Unpin),
            Verb::Move => {
                let (particle, to) = operands.number_and_vector()?;
                Some(Command::Move { particle, to })
            }
            Verb::Cut => operands.number().map(Command::Cut),
            Verb::Gravity => operands.vector().map(Command::Gravity),
            Verb::Ledger => operands.alone(Command::Ledger),
            Verb::Bad => operands.alone(Command::Bad),
        }
    }
}

fn first_with_word(verbs: &[Verb], word: &[u8]) -> Option<Verb>
    ensures { result ≡ find (λ v. bytes_eq word.now (row v).word) verbs.now }
{
    verbs.iter().find(|verb| verb.has_word(word)).copied()
}

fn first_with_code(verbs: &[Verb], code: u8) -> Option<Verb>
    ensures { result ≡ find (λ v. (row v).code == code) verbs.now }
{
    verbs.iter().find(|verb| verb.has_code(code)).copied()
}

impl Command {
    /// The verb, and the operands of its kind.
    pub fn parts(&self) -> (Verb, Operands)
        ensures { result ≡ verb_and_operands self.now }
    {
        match self {
            Command::Step(count) => (Verb::Step, Operands::Number(*count)),
            Command::Frame => (Verb::Frame, Operands::Nothing),
            Command::Pin(particle) => (Verb::Pin, Operands::Number(*particle)),
            Command::Unpin(particle) => (Verb::Unpin, Operands::Number(*particle)),
            Command::Move { particle, to } => {
                (Verb::Move, Operands::NumberAndVector(*particle, *to))
            }
            Command::Cut(link) => (Verb::Cut, Operands::Number(*link)),
            Command::Gravity(gravity) => (Verb::Gravity, Operands::Vector(*gravity)),
            Command::Ledger => (Verb::Ledger, Operands::Nothing),
            Command::Bad => (Verb::Bad, Operands::Nothing),
        }
    }
}

impl Command {
    ghost use Rattle.pbd_world.specs.Meaning.{answer, deed};

    /// What a session answers where nothing is wrong with the command.
    pub fn answer(&self) -> Reply
        ensures { result ≡ answer (deed self.now) }
    {
        match self {
            Command::Frame => Reply::Frame,
            Command::Ledger => Reply::Ledger,
            Command::Bad => Reply::Refused(Refusal::BadCommand),
            _ => Reply::Done,
        }
    }
}

impl Operands {
    /// The command, where nothing stands behind its verb.
    fn alone(&self, command: Command) -> Option<Command>
        ensures { result ≡ alone command self.now }
    {
        match self {
            Operands::Nothing => Some(command),
            _ => None,
        }
    }

    fn number(&self) -> Option<u64>
        ensures { result ≡ the_number self.now }
    {
        match self {
            Operands::Number(n) => Some(*n),
            _ => None,
        }
    }

    fn vector(&self) -> Option<Vec3>
        ensures { result ≡ the_vector self.now }
    {
        match self {
            Operands::Vector(v) => Some(*v),
            _ => None,
        }
    }

    fn number_and_vector(&self) -> Option<(u64, Vec3)>
        ensures { result ≡ number_and_vector self.now }
    {
        match self {
            Operands::NumberAndVector(n, v) => Some((*n, *v)),
            _ => None,
        }
    }
}

/// The lane width: how many particles a block has, as shapes push them side by side.
#[derive(Clone, Copy, Debug, PartialEq, Eq)]
pub enum Width {
    W1,
    W2,
    W4,
    W8,
    W16,
}

impl Width {
    ghost use Rattle.std.specs.Prelude.{◌≡◌};
    ghost use Rattle.pbd_world.specs.Meaning.{lane_count};

    /// 1, 2, 4, 8 or 16.
    pub fn lanes(&self) -> usize
        ensures { result ≡ lane_count self.now }
    {
        match self {
            Width::W1 => 1,
            Width::W2 => 2,
            Width::W4 => 4,
            Width::W8 => 8,
            Width::W16 => 16,
        }
    }
}

/// The part of a step in which a place left the range.
#[derive(Clone, Copy, Debug, PartialEq, Eq)]
pub enum Phase {
    Predict,
    Link,
    Contact,
    Shape,
}

/// What a session answers.
#[derive(Clone, Copy, Debug, PartialEq, Eq)]
pub enum Reply {
    Done,
    Frame,
    Ledger,
    Refused(Refusal),
}

/// Why a command was refused.
#[derive(Clone, Copy, Debug, PartialEq, Eq)]
pub enum Refusal {
    BadCommand,
    NoParticle,
    NoLink,
    LinkGone,
    /// A place or a gravity is outside the limit.
    OutOfRange,
    NotHeld,
    Held,
    /// A track leads the particle.
    Tracked,
    /// The count of steps is 0 or above 100,000.
    BadCount,
    /// The steps would go on past step 1,000,000.
    StepLimit,
    /// A place would leave the limit in this step, counted from opening. The element is the number of the link or the
    /// contact in these phases, and of the particle in the others.
    LeavesRange {
        step: u64,
        phase: Phase,
        element: u32,
    },
    /// There would be more than 262,144 contacts in this step, counted from opening.
    TooManyContacts {
        step: u64,
    },
}

impl Refusal {
    ghost use Rattle.std.specs.Prelude.{◌≡◌};
    ghost use Rattle.pbd_world.specs.Meaning.{refusal_number};

    /// 1 to 12, in the order above.
    pub fn number(&self) -> u8
        ensures { result ≡ refusal_number self.now }
    {
        match self {
            Refusal::BadCommand => 1,
            Refusal::NoParticle => 2,
            Refusal::NoLink => 3,
            Refusal::LinkGone => 4,
            Refusal::OutOfRange => 5,
            Refusal::NotHeld => 6,
            Refusal::Held => 7,
            Refusal::Tracked => 8,
            Refusal::BadCount => 9,
            Refusal::StepLimit => 10,
            Refusal::LeavesRange { .. } => 11,
            Refusal::TooManyContacts { .. } => 12,
        }
    }
}

/// What a log keeps of a world: counts, and the sums of the places and the places before over all particles.
#[derive(Clone, Copy, Debug, PartialEq, Eq)]
pub struct FrameSums {
    pub steps: u64,
    pub live: u32,
    pub contacts: u32,
    pub at: [i64; 3],
    pub before: [i64; 3],
}

/// The number of the first bond of a batch, or particle of a list, that would leave the range.
#[derive(Clone, Copy, Debug, PartialEq, Eq)]
pub struct Left {
    pub element: u32,
}
