//! Items or nothing, in four bytes each.
ghost use Rattle.std.specs.Prelude.{◌≡◌, ◌<◌, ◌≤◌, ℕ, Some, None, IfOk, length, replicate, slice_index_or, slice_set};
ghost use Rattle.pbd_chain.specs.Told.{told};

use std::alloc::{AllocError, Global};
use std::marker::Model;

/// What each of so many slots leads to: nothing, or an item below 4,294,967,295. One takes four bytes, where an `Option<u32>` has eight.
#[derive(Drop)]
pub(crate) struct Targets {
    /// For each 0 where it leads to nothing, and else the number after that of its item.
    codes: Vec<u32>,
}

impl Model for Targets {
    ghost use Rattle.std.specs.Prelude.{ℕ, List, Option, map};
    ghost use Rattle.pbd_chain.specs.Told.{told};

    ghost Value = { List (Option ℕ) };

    ghost view = { λ s. map told s.codes.items };
}

// What a code tells.
#[inline(always)]
fn read(code: u32) -> Option<u32>
    ensures { result ≡ told code }
{
    if code == 0 {
        return None;
    }
    Some(code - 1)
}

// The code that tells an item or nothing.
#[inline(always)]
fn code(item: Option<u32>) -> u32
    requires { (x : ℕ) → item ≡ Some x → x < 4294967295 }
    ensures { told result ≡ item }
{
    match item {
        Some(x) => x + 1,
        None => 0,
    }
}

// Writes a code.
#[inline(always)]
fn write(codes: &mut [u32], k: u32, code: u32)
    requires { k < length codes.old }
    ensures { codes.new ≡ slice_set codes.old k code }
{
    codes[k as usize] = code;
}

// Writes 0 into each place.
fn zero_all(codes: &mut [u32])
    ensures { (k : ℕ) → slice_index_or codes.new k 0 ≡ 0 }
{
    for code in codes.iter_mut() {
        *code = 0;
    }
}

impl Targets {
    /// So many that lead to nothing.
    pub(crate) fn open(alloc: Global, n: u32) -> Result<Targets, AllocError>
        ensures { IfOk result (λ c. c ≡ replicate n None) }
    {
        let mut codes = Vec::with_capacity(alloc, n as usize)?;
        for _ in 0..n {
            codes.push(0)?;
        }
        Ok(Targets { codes })
    }

    /// What one leads to.
    #[inline(always)]
    pub(crate) fn get(&self, k: u32) -> Option<u32>
        requires { k < length self.now }
        ensures { result ≡ slice_index_or self.now k None }
    {
        read(self.codes[k as usize])
    }

    /// Lets one lead to an item or to nothing.
    #[inline(always)]
    pub(crate) fn set(&mut self, k: u32, item: Option<u32>)
        requires k { k < length self.old }
        requires small { (x : ℕ) → item ≡ Some x → x < 4294967295 }
        ensures { self.new ≡ slice_set self.old k item }
    {
        write(self.codes.as_mut_slice(), k, code(item));
    }

    /// Lets all lead to nothing.
    pub(crate) fn clear(&mut self)
        ensures each { (k : ℕ) → slice_index_or self.new k None ≡ None }
        ensures len { length self.new ≡ length self.old }
    {
        zero_all(self.codes.as_mut_slice());
    }

    /// How many there are.
    pub(crate) fn len(&self) -> u32
        requires { length self.now ≤ 2097152 }
        ensures { result ≡ length self.now }
    {
        self.codes.len() as u32
    }
}
