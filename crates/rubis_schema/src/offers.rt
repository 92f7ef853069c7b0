//! What a seller offers, and the name that an item's row shares with it.

ghost use Rattle.std.specs.Prelude.{◌≡◌, IfOk};
ghost use Rattle.rubis_schema.specs.FieldForms.{IsName};

use crate::ids::Id;
use crate::shared::Shared;
use crate::texts::Name;
use std::alloc::AllocError;
use std::marker::Model;

/// An item that is offered: `stock` pieces of it, bids from `start` on, and `price` for a piece at once (0: no
/// buy-now).
#[derive(Clone, PartialEq, Eq)]
pub struct NewItem {
    pub seller: Id,
    pub name: Name,
    pub cat: u16,
    pub stock: u64,
    pub start: u64,
    pub price: u64,
}

impl Drop for NewItem {
    // Proved here, once: a derived drop is proved anew in each crate that lets an offer go.
    fn drop(self) {
        let NewItem {
            seller: _,
            name: _,
            cat: _,
            stock: _,
            start: _,
            price: _,
        } = self;
    }
}

/// The name of an offered item. It is one more owner of the offer, so an item's row and the message that brought it have
/// the name's bytes once. Contracts see the name.
pub struct OfferedName {
    offer: Shared<NewItem>,
}

impl Drop for OfferedName {
    // Proved here, once: a derived drop is proved anew in each crate that lets such a name go.
    fn drop(self) {
        let OfferedName { offer: _ } = self;
    }
}

impl Model for OfferedName {
    ghost use Rattle.std.specs.Prelude.{List, ℕ};

    ghost Value = { List ℕ };

    ghost view = { λ n. n.offer.name };
}

impl OfferedName {
    /// The name in the offer. It allocates nothing; it fails only if the offer's owner count is at its limit.
    pub fn new(offer: &Shared<NewItem>) -> Result<OfferedName, AllocError>
        ensures { IfOk result (λ name. name ≡ offer.now.name) }
    {
        let offer = offer.clone()?;
        Ok(OfferedName { offer })
    }

    /// The bytes, in order.
    pub fn as_bytes(&self) -> &[u8]
        ensures value { result.now ≡ self.now }
        ensures grammar { IsName self.now }
    {
        self.offer.name.as_bytes()
    }
}

impl Clone for OfferedName {
    ghost is_clone = { λ s copy. copy ≡ s };

    fn clone(&self) -> Result<OfferedName, AllocError> {
        OfferedName::new(&self.offer)
    }
}
