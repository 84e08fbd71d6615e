//! What a C program holds.
ghost use Rattle.std.specs.Prelude.{◌≡◌};
ghost use Rattle.std.specs.declared.option.Option.{Option};
ghost use Rattle.std.specs.declared.option.Option.TheVariants.{None, Some};
ghost use Rattle.std.specs.Option.{MatchOption};
ghost use Rattle.pbd_cloth.specs.Slots.{Slotted, AreSlots};
ghost use Rattle.lakmozet_c.specs.Kept.{kept};

use pbd_cloth::Cloth;
use pbd_loose::RawBox;
use std::alloc::Global;
use std::marker::Model;
use std::mem;
use std::ptr::null_mut;

/// A cloth in memory of the library's, or nothing. All zero bytes are a closed handle.
#[repr(C)]
pub struct Handle {
    at: *mut u8,
    full: bool,
    pub ghost held: { Option Slotted },
}

impl Model for Handle {
    ghost also_owns = { λ h. kept h.full h.at h.held };
}

impl Handle {
    ghost use Rattle.lakmozet_c.specs.Calls.{HoldsSound};

    /// A handle of a cloth.
    pub(crate) fn holding(cloth: RawBox<Cloth, Global>) -> Handle
        ensures { result.held ≡ Some cloth.value }
    {
        let RawBox { at, alloc: _ } = cloth;
        Handle {
            at: at as *mut u8,
            full: true,
        }
    }

    /// A handle of nothing.
    pub(crate) fn closed() -> Handle
        ensures { result.held ≡ None }
    {
        Handle {
            at: null_mut(),
            full: false,
        }
    }

    /// What it holds.
    pub(crate) fn into_held(self, alloc: Global) -> Option<RawBox<Cloth, Global>>
        ensures { MatchOption result (self.held ≡ None) (λ cloth. self.held ≡ Some cloth.value) }
    {
        let Handle { at, full } = self;
        if full {
            Some(RawBox {
                at: at as *mut Cloth,
                alloc,
            })
        } else {
            None
        }
    }

    /// Takes out what it holds, which is sound.
    pub(crate) fn take(&mut self, alloc: Global) -> Option<Box<Cloth>>
        ensures closed { self.new.held ≡ None }
        ensures held { MatchOption result (self.old.held ≡ None) (λ cloth. self.old.held ≡ Some cloth.value) }
        ensures sound { HoldsSound self.old.held }
    {
        let taken = mem::replace(self, Handle::closed());
        match taken.into_held(alloc) {
            Some(cloth) => Some(looked_at(cloth.into_box())),
            None => None,
        }
    }

    /// Puts a cloth in, and lets go what it held.
    pub(crate) fn put(&mut self, alloc: Global, cloth: Box<Cloth>)
        ensures { self.new.held ≡ Some cloth.value }
    {
        let before = mem::replace(self, Handle::holding(RawBox::of(cloth)));
        match before.into_held(alloc) {
            Some(cloth) => drop(cloth.into_box()),
            None => (),
        }
    }
}

/// The cloth, of which a count tells that it is sound.
pub(crate) fn looked_at(cloth: Box<Cloth>) -> Box<Cloth>
    ensures value { result.value ≡ cloth.value }
    ensures sound { AreSlots cloth.value.world cloth.value.slots }
{
    let _slots = cloth.slots();
    cloth
}

/// Answers by the cloth that a handle holds, which is taken out for it and put back: `CLOSED` where it holds none.
macro_rules! with_cloth {
    ($alloc:expr, $handle:expr, $cloth:ident => $answer:expr) => {
        match $handle.take($alloc) {
            Some($cloth) => {
                let answer = $answer;
                $handle.put($alloc, $cloth);
                answer
            }
            None => CLOSED,
        }
    };
    ($alloc:expr, $handle:expr, mut $cloth:ident => $answer:expr) => {
        match $handle.take($alloc) {
            Some(mut $cloth) => {
                let answer = $answer;
                $handle.put($alloc, $cloth);
                answer
            }
            None => CLOSED,
        }
    };
}

pub(crate) use with_cloth;
