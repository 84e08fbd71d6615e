//! The ways of a chunk, in columns.
ghost use Rattle.std.specs.Prelude.{◌≡◌, ℕ, ◌<◌, ◌≤◌, length, slice_index_or, unsigned_abs};
ghost use Rattle.pbd_num.specs.Rows.{no_row};
ghost use Rattle.pbd_near.specs.Columns.{IsTaken, short_of, taken_at};

use crate::products::square_of;
use crate::shares::Taken;
use pbd_num::Row;

/// The axes of some ways, each brought within 2^15, and the squares of their lengths.
#[derive(Clone, Copy)]
pub(crate) struct Ways {
    pub(crate) x: [i32; 128],
    pub(crate) y: [i32; 128],
    pub(crate) z: [i32; 128],
    pub(crate) square: [u32; 128],
    /// How many ways there are.
    pub(crate) count: usize,
}

/// An axis within 2^15.
#[inline(always)]
fn short(x: i32) -> i32
    ensures value { result ≡ short_of x }
    ensures size { unsigned_abs result ≤ 32768 }
{
    x.clamp(-32_768, 32_768)
}

// An axis that was cut makes a square of 2^30 at least, which is that of no length below 2^15: so the flag of its bond is set.
#[inline(always)]
fn taken_of(way: Row) -> Taken
    ensures value { IsTaken way result }
    ensures x { unsigned_abs result.x ≤ 32768 }
    ensures y { unsigned_abs result.y ≤ 32768 }
    ensures z { unsigned_abs result.z ≤ 32768 }
{
    let x = short(way.x);
    let y = short(way.y);
    let z = short(way.z);
    Taken {
        x,
        y,
        z,
        square: square_of(x) + square_of(y) + square_of(z),
    }
}

impl Ways {
    pub(crate) fn new() -> Ways {
        Ways {
            x: [0; 128],
            y: [0; 128],
            z: [0; 128],
            square: [0; 128],
            count: 0,
        }
    }

    /// Takes the ways over.
    #[inline(never)]
    pub(crate) fn squares(&mut self, ways: &[Row])
        requires { length ways.now ≤ 128 }
        ensures count { self.new.count ≡ length ways.now }
        ensures each { (j : ℕ) → j < length ways.now → IsTaken (slice_index_or ways.now j no_row) (taken_at self.new j) }
    {
        self.count = ways.len();
        for j in 0..ways.len() {
            let taken = taken_of(ways[j]);
            self.x[j] = taken.x;
            self.y[j] = taken.y;
            self.z[j] = taken.z;
            self.square[j] = taken.square;
        }
    }

    #[inline(always)]
    pub(crate) fn taken(&self, j: usize) -> Taken
        requires { j < 128 }
        ensures { result ≡ taken_at self.now j }
    {
        Taken {
            x: self.x[j],
            y: self.y[j],
            z: self.z[j],
            square: self.square[j],
        }
    }
}
