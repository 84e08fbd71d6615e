//! What is tried of batches by events, with a count of accesses of its own.
ghost use Rattle.std.specs.Prelude.{◌≡◌, ◌<◌};

use super::{drawn, given, illegal, legal};
use pbd_store::Steps;
use std::alloc::{AllocError, Global};
use std::sync::ledger::{Blank, Ledger};

/// What is tried: lists of events that are given, such as are drawn, all that are short, and all that are legal.
#[derive(Clone, Copy)]
pub(crate) enum Trial {
    GivenLists,
    DrawnLists,
    ShortLists,
    LegalLists,
}

/// How many of the parts of a trial hold, up to the first that doesn't.
pub(crate) fn holding(parts: &[bool]) -> usize {
    for i in 0..parts.len() {
        if !parts[i] {
            return i;
        }
    }
    parts.len()
}

/// How many of the parts of a trial hold, up to the first that doesn't.
pub(crate) fn tried<G: Ledger>(
    alloc: Global,
    blank: Blank,
    trial: Trial,
) -> Result<usize, AllocError>
    requires name { blank.name ≡ G.name }
    requires parts { blank.parts ≡ G.parts }
    requires some { 0 < blank.parts }
{
    let mut steps: Steps<G> = Steps::open(blank);
    let told = match trial {
        Trial::GivenLists => given::try_all(alloc, &mut steps),
        Trial::DrawnLists => drawn::try_all(alloc, &mut steps),
        Trial::ShortLists => illegal::try_all(alloc, &mut steps),
        Trial::LegalLists => legal::try_all(alloc, &mut steps),
    };
    drop(steps);
    told
}
