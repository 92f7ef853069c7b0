//! A value in a box of its own.

ghost use Rattle.std.specs.Prelude.{◌≡◌, IfOk};
ghost use Rattle.std.specs.Borrow.{sem};
ghost use Rattle.rubis_schema.specs.Lending.{LendsValue};

use std::alloc::{AllocError, Global};
use std::marker::Model;
use std::ops::Deref;

/// A value in memory of its own, so that what holds it stays small. Contracts see the value.
#[derive(Drop)]
pub struct Boxed<T> {
    inner: Box<T>,
}

impl<T> Model for Boxed<T> {
    ghost use Rattle.std.specs.Prelude.{◌≡◌};

    ghost Value = { T };

    ghost view = { λ b. b.inner.value };
}

impl<T> Boxed<T> {
    /// Puts a value into memory of its own.
    pub fn new(alloc: Global, value: T) -> Result<Boxed<T>, AllocError>
    where
        T: Drop,
        ensures { IfOk result (λ boxed. boxed ≡ value) }
    {
        let inner = Box::new(alloc, value)?;
        Ok(Boxed { inner })
    }

    /// The value, to be changed.
    pub fn get_mut(&mut self) -> &mut T
        ensures* writes_back { sem 𝓛 (LendsValue T.row self.entry result) }
        ensures value { result.now ≡ self.old }
    {
        self.inner.as_mut()
    }
}

impl<T> Deref for Boxed<T> {
    type Target = T;

    ghost deref_gives = { λ b x. x ≡ b };

    fn deref(&self) -> &T
        ensures { result.now ≡ self.now }
    {
        self.inner.as_ref()
    }
}

impl<T: Clone> Clone for Boxed<T> {
    ghost is_clone = { λ b copy. T.is_clone b copy };

    fn clone(&self) -> Result<Boxed<T>, AllocError> {
        let inner = self.inner.clone()?;
        Ok(Boxed { inner })
    }
}
