//! Whether steps of shops are a run of the model of `rubis_carrier`: decided by a walk along them.
#![tactic(auto)]

mod deciding;
mod faults;
mod folders;
mod lists;
mod packets;
mod shops;

pub use deciding::decide;
pub use faults::DeciderFault;
