// A list that grows.
ghost use Rattle.std.specs.Prelude.{◌≡◌, ◌++◌, [], ◌∷◌, length, take, IfOk, OnOk, OnErr};

use std::alloc::{AllocError, Global};
use std::marker::Model;

/// A list that grows, which contracts see as the list of its items.
#[derive(Drop)]
pub struct List<T> {
    entries: Vec<T>,
}

impl<T> Model for List<T> {
    ghost use Rattle.std.specs.Prelude.{List};

    ghost Value = { List T };

    ghost view = { λ s. s.entries.items };
}

impl<T> List<T> {
    /// An empty list, which takes no memory yet.
    pub fn new(alloc: Global) -> List<T>
        ensures { result ≡ [] }
    {
        List {
            entries: Vec::new(alloc),
        }
    }

    /// A list of the same items.
    pub fn copied(alloc: Global, items: &[T]) -> Result<List<T>, AllocError>
    where
        T: Copy + Drop,
        ensures { IfOk result (λ list. list ≡ items.now) }
    {
        let mut list = List::new(alloc);
        for item in items {
            list.push(*item)?;
        }
        Ok(list)
    }

    /// Adds an item at the end. The list is unchanged where there is no memory for it.
    pub fn push(&mut self, item: T) -> Result<(), AllocError>
    where
        T: Drop,
        ensures ok { OnOk result (self.new ≡ self.old ++ item ∷ []) }
        ensures err { OnErr result (self.new ≡ self.old) }
    {
        self.entries.push(item)?;
        Ok(())
    }

    /// Keeps the first `len` items and drops the others; a shorter list stays as it is.
    pub fn truncate(&mut self, len: usize)
    where
        T: Drop,
        ensures { self.new ≡ take len self.old }
    {
        self.entries.truncate(len);
    }

    pub fn as_slice(&self) -> &[T]
        ensures { result.now ≡ self.now }
    {
        self.entries.as_slice()
    }

    pub fn len(&self) -> usize
        ensures { result ≡ length self.now }
    {
        self.entries.len()
    }
}
