//! Whether a list of events is legal.
ghost use Rattle.std.specs.Prelude.{◌≡◌, ◌<◌, ◌+◌, ◌^◌, true, ◌==◌, [], length, take, replicate, IfSome, IfNone, MatchOption};
ghost use Rattle.std.specs.List.{list_all};
ghost use Rattle.pbd_schedule.specs.Legal.{IsLegal, IsMisplaced, StopsAt};
ghost use Rattle.pbd_schedule.specs.Stages.{HaveCome, may_come, one_more};

use crate::event::Event;

// Whether an event may come next. If so, one more event of its bond came.
fn comes_next(stages: &mut [u8], event: Event) -> bool
    ensures test { result ≡ may_come stages.old event }
    ensures came { result ≡ true → stages.new ≡ one_more stages.old event }
{
    let k = event.position() as usize;
    if k < stages.len() && stages[k] == event.rank() {
        stages[k] = event.rank() + 1;
        true
    } else {
        false
    }
}

// The number of the first event that can't come next.
fn first_misplaced(stages: &mut [u8], events: &[Event]) -> Option<u32>
    requires few { length events.now < 2 ^ 32 }
    requires none { HaveCome stages.old [] }
    ensures size { length stages.new ≡ length stages.old }
    ensures all { IfNone result (HaveCome stages.new events.now) }
    ensures misplaced { IfSome result (λ at. IsMisplaced (length stages.old) events.now at) }
{
    for i in 0..events.len() {
        if !comes_next(stages, events[i]) {
            return Some(i as u32);
        }
    }
    None
}

// Whether all three events of each bond came.
fn all_done(stages: &[u8]) -> bool
    ensures { result ≡ list_all (λ stage. stage == 3) stages.now }
{
    for stage in stages {
        if *stage != 3 {
            return false;
        }
    }
    true
}

/// Where a list of events stops being legal for as many bonds as there are stages, which are all 0. The stages
/// are then any.
pub(crate) fn stops_at(stages: &mut [u8], events: &[Event]) -> Option<u32>
    requires few { length events.now < 2 ^ 32 }
    requires none { stages.old ≡ replicate (length stages.old) 0 }
    ensures size { length stages.new ≡ length stages.old }
    ensures outcome { MatchOption result (IsLegal (length stages.old) events.now) (λ at. StopsAt (length stages.old) events.now at) }
{
    if let Some(at) = first_misplaced(stages, events) {
        return Some(at);
    }
    if all_done(stages) {
        None
    } else {
        Some(events.len() as u32)
    }
}
