//! A vector whose value in contracts is the list of its items' values.

ghost use Rattle.std.specs.Prelude.{◌≡◌, ◌↔◌, List, length, ◌++◌, ◌∷◌, [], OnOk, OnErr, IfErr, IsTrue, slice_get, option_copied};

use std::alloc::{AllocFailed, Global};
use std::marker::Model;

/// A list of items, made from a `Vec` and turned into one without memory. Contracts see the items alone.
#[derive(Drop)]
pub struct Items<T> {
    vec: Vec<T>,
}

impl<T> Model for Items<T> {
    ghost Value = { List T };

    ghost view = { λ s. s.vec.items };
}

impl<T> From<Vec<T>> for Items<T> {
    ghost from_gives = { λ v s. s ≡ v.items };

    fn from(vec: Vec<T>) -> Items<T> {
        Items { vec }
    }
}

impl<T> From<Items<T>> for Vec<T> {
    ghost from_gives = { λ s v. v.items ≡ s };

    fn from(items: Items<T>) -> Vec<T> {
        items.vec
    }
}

impl<T> Items<T> {
    /// No items.
    pub fn new(alloc: Global) -> Items<T>
        ensures { result ≡ [] }
    {
        Items {
            vec: Vec::new(alloc),
        }
    }

    pub fn len(&self) -> usize
        ensures { result ≡ length self.now }
    {
        self.vec.len()
    }

    pub fn is_empty(&self) -> bool
        ensures { IsTrue result ↔ (self.now ≡ []) }
    {
        self.vec.is_empty()
    }

    pub fn as_slice(&self) -> &[T]
        ensures { result.now ≡ self.now }
    {
        self.vec.as_slice()
    }

    pub fn get(&self, at: usize) -> Option<&T>
        ensures { option_copied result ≡ slice_get self.now at }
    {
        self.vec.get(at)
    }

    /// Puts an item last, or hands it back.
    pub fn push(&mut self, item: T) -> Result<(), AllocFailed<T>>
        ensures ok { OnOk result (self.new ≡ self.old ++ item ∷ []) }
        ensures err { OnErr result (self.new ≡ self.old) }
        ensures value_returned { IfErr result (λ e. e.value ≡ item) }
    {
        self.vec.push(item)
    }
}
