//! A value that several owners share.

ghost use Rattle.std.specs.Prelude.{◌≡◌, IfOk};

use std::alloc::{AllocError, Global};
use std::marker::Model;
use std::ops::Deref;
use std::sync::Arc;

/// An immutable value in its own allocation. A clone is one more owner of that allocation, so it allocates nothing; it
/// fails only if the owner count is at its limit. Contracts see the value.
#[derive(Drop)]
pub struct Shared<T> {
    inner: Arc<T>,
}

impl<T> Model for Shared<T> {
    ghost use Rattle.std.specs.Arc.{arc_value};

    ghost Value = { T };

    ghost view = { λ s. arc_value s.inner };
}

impl<T> Shared<T> {
    /// Puts a value into memory of its own, with one owner.
    pub fn new(alloc: Global, value: T) -> Result<Shared<T>, AllocError>
    where
        T: Drop,
        ensures { IfOk result (λ shared. shared ≡ value) }
    {
        let inner = Arc::new(alloc, value)?;
        Ok(Shared { inner })
    }
}

impl<T> Deref for Shared<T> {
    type Target = T;

    ghost deref_gives = { λ s x. x ≡ s };

    #[inline(always)]
    fn deref(&self) -> &T
        ensures { result.now ≡ self.now }
    {
        self.inner.deref()
    }
}

impl<T: Drop> Clone for Shared<T> {
    ghost is_clone = { λ s copy. copy ≡ s };

    fn clone(&self) -> Result<Shared<T>, AllocError> {
        let inner = Arc::try_clone(&self.inner)?;
        Ok(Shared { inner })
    }
}

impl<T: PartialEq> PartialEq for Shared<T> {
    ghost eq = { λ x y. T.eq x y };

    ghost laws = { T.laws };

    fn eq(&self, other: &Shared<T>) -> bool {
        **self == **other
    }
}

impl<T: Eq> Eq for Shared<T> {
    ghost laws = { T.Eq.laws };
}
