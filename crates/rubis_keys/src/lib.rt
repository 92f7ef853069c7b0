//! Records under keys: what a site knows under them, and a desk that answers an ask that was accepted by what is known.
#![tactic(auto)]

mod desk;
mod inputs;
mod keys;
mod laws;

pub use desk::KeyedDesk;
pub use inputs::{KEY_MAX, KeyedInput, LaterFields};
pub use laws::{keys_hold, red_keys_are_used_once};
