// The events of a schedule: a read and two writes of each bond.
ghost use Rattle.std.specs.Prelude.{◌≡◌, ◌≤◌};

/// What happens to a bond, which is named by its position in the batch, from 0: its two particles are read, then its
/// first end is written, then its second.
#[derive(Clone, Copy, Debug, PartialEq, Eq)]
pub enum Event {
    Read(u32),
    WriteA(u32),
    WriteB(u32),
}

/// Why a run of events came to nothing.
#[derive(Clone, Copy, Debug, PartialEq, Eq)]
pub enum EventFault {
    /// The events are not legal. Event `at`, from 0, is the first with which they begin no legal list; where they are
    /// only cut short, it is their number.
    BadEvent { at: u32 },
    /// The bond whose number is `element` is the first of the batch that would move an end out of the store's limit.
    Left { element: u32 },
}

impl Event {
    ghost use Rattle.pbd_schedule.specs.Legal.{position_of};
    ghost use Rattle.pbd_schedule.specs.Stages.{rank_of};

    /// The position of its bond in the batch.
    pub(crate) fn position(self) -> u32
        ensures { result ≡ position_of self }
    {
        match self {
            Event::Read(k) => k,
            Event::WriteA(k) => k,
            Event::WriteB(k) => k,
        }
    }

    /// How many events of its bond come before it.
    pub(crate) fn rank(self) -> u8
        ensures value { result ≡ rank_of self }
        ensures high { result ≤ 2 }
    {
        match self {
            Event::Read(_) => 0,
            Event::WriteA(_) => 1,
            Event::WriteB(_) => 2,
        }
    }
}
