//! What a site has taken in: its log, the messages that wait, and the token.
#![tactic(auto)]

mod intake;
mod messages;
mod waiting;

pub use intake::{Held, Intake, IntakeFault};
pub use rubis_message::{Arrival, Taken};
