//! A crew: jobs that are given out while others are worked, those who take them, and the results that come back.
#![tactic(auto)]

mod both;
mod crew;
mod hold;
mod job;
mod laws;
mod post;
mod results;
mod rule;

pub use both::Both;
pub use crew::{Crew, Found, Helper, Lead};
pub use hold::Hold;
pub use job::{Back, Given, Job};
pub use laws::{every_list_of_steps_accounts, every_step_keeps_the_rules};
