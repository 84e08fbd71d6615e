// Which particles were touched by a shape in a step.
ghost use Rattle.std.specs.List.{list_any};
ghost use Rattle.std.specs.Prelude.{◌≡◌, ◌<◌, ◌≤◌, false, true, length, replicate, slice_index_or, slice_set, IfOk};

use std::alloc::{AllocError, Global};
use std::marker::Model;

/// A flag for each particle, which contracts see as the list of flags.
#[derive(Drop)]
pub struct Touched {
    flags: Vec<bool>,
}

impl Model for Touched {
    ghost use Rattle.std.specs.Prelude.{List, Bool};

    ghost Value = { List Bool };

    ghost view = { λ s. s.flags.items };
}

impl Touched {
    /// No particle is touched. The only call that takes memory.
    pub fn open(alloc: Global, particles: u32) -> Result<Touched, AllocError>
        requires { particles ≤ 65536 }
        ensures { IfOk result (λ touched. touched ≡ replicate particles false) }
    {
        let flags = vec![in alloc; false; particles as usize]?;
        Ok(Touched { flags })
    }

    /// No particle is touched any more.
    pub fn clear(&mut self)
        ensures { self.new ≡ replicate (length self.old) false }
    {
        self.flags.fill(false);
    }

    /// Whether particle i is touched.
    pub fn is_set(&self, i: u32) -> bool
        requires { i < length self.now }
        ensures { result ≡ slice_index_or self.now i false }
    {
        self.flags[i as usize]
    }

    /// Whether any particle is touched.
    pub fn any(&self) -> bool
        ensures { result ≡ list_any (λ t. t) self.now }
    {
        self.flags.iter().any(|flag| *flag)
    }

    /// Particle i is touched.
    pub fn set(&mut self, i: u32)
        requires { i < length self.old }
        ensures { self.new ≡ slice_set self.old i true }
    {
        self.flags[i as usize] = true;
    }
}
