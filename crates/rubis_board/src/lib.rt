//! The board: a queue of pieces of work that up to 16 threads share under a rule.
#![tactic(auto)]

mod board;
mod laws;
mod rule;

pub use board::{Board, Pass, Poster};
pub use laws::{every_step_keeps_the_rule, steps_move_the_posted};
