//! The pool as a machine without threads: every order in which workers may take, apply and return pieces.
#![tactic(auto)]

mod event;
mod laws;
mod pool;
mod schedules;
mod work;

pub use event::Event;
pub use laws::{
    events_move_the_posted, every_list_of_steps_is_scheduled, every_schedule_accounts,
    every_schedule_folds_the_batch, every_team_is_scheduled,
};
pub use pool::Pool;
pub use schedules::run;
