//! Decides whether a list of steps is a run of the model of shops.

ghost use Rattle.std.specs.Prelude.{IfOk};
ghost use Rattle.rubis_steps.specs.Answers.{IsDecided};

use crate::faults::DeciderFault;
use crate::shops::Shop;
use rubis_carrier::{Carrier, ShopEvent as Event};
use std::alloc::Global;

/// Whether the events are steps of a shop in which nothing has happened: none if they are, or else the first that may not happen,
/// counted from 0. A fault says nothing of them.
pub fn decide(alloc: Global, over: Carrier, events: &[Event]) -> Result<Option<usize>, DeciderFault>
    ensures { IfOk result (λ found. IsDecided over events.now found) }
{
    let mut shop = Shop::new(alloc);
    for (at, event) in events.iter().enumerate() {
        if !shop.may(over, *event) {
            return Ok(Some(at));
        }
        shop.happens(*event)?;
    }
    Ok(None)
}
