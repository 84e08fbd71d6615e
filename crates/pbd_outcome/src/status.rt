// How a run ends, and the line of a status.
ghost use Rattle.std.specs.Prelude.{◌≡◌};
ghost use Rattle.pbd_outcome.specs.Statuses.{status_line};
ghost use Rattle.pbd_outcome.specs.Outcome.{ends_as, replay_status};

use pbd_session::ReplayEnd;

/// How a run ended.
#[derive(Clone, Copy, Debug, PartialEq, Eq)]
pub enum Status {
    /// All went well, and no command was refused.
    Done,
    /// The words are no form.
    Usage,
    /// A read failed.
    ReadFault,
    /// A write failed.
    WriteFault,
    /// The input is longer than the form allows.
    InputTooLong,
    /// No line of the input is `%%`, or of a host's `%%%`; or fewer than two are `%%` of an input with a mesh.
    NoScript,
    /// The scene is no UTF-8.
    SceneNotText,
    /// The scene is no TOML, or deeper or longer than is read.
    SceneNotToml,
    /// The scene breaks a rule.
    SceneRefused,
    /// The bytes are no log.
    LogRefused,
    /// An entry of the log differs from what the session answers.
    Mismatch,
    /// All went well, but a command was refused.
    SomeRefused,
    /// Memory ran out before the first byte of output.
    OutOfMemory,
    /// The mesh has a fault, or can't be added to the scene.
    ObjRefused,
    /// There are more than 16 scenes.
    TooManyScenes,
}

impl Status {
    ghost use Rattle.pbd_outcome.specs.Statuses.{status_number};

    /// The number that the program ends with.
    pub fn code(&self) -> u8
        ensures { result ≡ status_number self.now }
    {
        match self {
            Status::Done => 0,
            Status::Usage => 1,
            Status::ReadFault => 2,
            Status::WriteFault => 3,
            Status::InputTooLong => 4,
            Status::NoScript => 5,
            Status::SceneNotText => 6,
            Status::SceneNotToml => 7,
            Status::SceneRefused => 8,
            Status::LogRefused => 9,
            Status::Mismatch => 10,
            Status::SomeRefused => 11,
            Status::OutOfMemory => 12,
            Status::ObjRefused => 14,
            Status::TooManyScenes => 15,
        }
    }
}

/// The line of a status that has always the same, and nothing for any other.
pub fn status_line(status: Status) -> &'static str
    ensures { result.now ≡ status_line status }
{
    match status {
        Status::Usage => "error 1 Usage\n",
        Status::ReadFault => "error 2 ReadFault\n",
        Status::InputTooLong => "error 4 InputTooLong\n",
        Status::NoScript => "error 5 NoScript\n",
        Status::SceneNotText => "error 6 SceneNotText\n",
        Status::SceneNotToml => "error 7 SceneNotToml\n",
        Status::TooManyScenes => "error 15 TooManyScenes\n",
        _ => "",
    }
}

/// How a session with so many refused commands ends.
pub fn ends_as(refused: u64) -> Status
    ensures { result ≡ ends_as refused }
{
    if refused == 0 {
        Status::Done
    } else {
        Status::SomeRefused
    }
}

/// How a replay with this end ends.
pub fn replay_status(end: ReplayEnd) -> Status
    ensures { result ≡ replay_status end }
{
    match end {
        ReplayEnd::Done { refused } => ends_as(refused),
        ReplayEnd::Mismatch { .. } => Status::Mismatch,
    }
}
