//! The status with which a run over a session ends.
ghost use Rattle.std.specs.Prelude.{◌≡◌};
ghost use Rattle.pbd_outcome.specs.Outcome.{ends_as, replay_status, step_status};
ghost use Rattle.pbd_outcome.specs.declared.status.Status.{Status};
ghost use Rattle.pbd_run.specs.Forms.{status_in};

use pbd_io::Failed;
use pbd_outcome::{Status, ends_as, replay_status};
use pbd_session::{ReplayEnd, RunEnd};
use pbd_world::Reply;

/// What a run that came to its end tells of it.
pub trait Ending: Sized + Drop {
    ghost status: { Self → Status };

    /// The status with which the run ends.
    fn status(self) -> Status
        ensures { result ≡ status self };
}

impl Ending for RunEnd {
    ghost status = { λ end. ends_as end.refused };

    fn status(self) -> Status {
        ends_as(self.refused)
    }
}

impl Ending for ReplayEnd {
    ghost status = { replay_status };

    fn status(self) -> Status {
        replay_status(self)
    }
}

/// The reply to the steps of a generated scene.
impl Ending for Reply {
    ghost status = { step_status };

    fn status(self) -> Status {
        match self {
            Reply::Refused(_) => Status::SomeRefused,
            _ => Status::Done,
        }
    }
}

/// The status of a run that came to its end, or one of whose writes failed.
pub fn status_of<E: Ending>(run: Result<E, Failed>) -> Status
    ensures { result ≡ status_in E.status run }
{
    match run {
        Ok(end) => end.status(),
        Err(Failed) => Status::WriteFault,
    }
}
