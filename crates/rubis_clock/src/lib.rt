//! What a site had released when it made a message, and what it has released now.
#![tactic(auto)]

mod clocks;
mod counts;
mod packed;
mod stamps;

pub use clocks::{Clock, precedes};
pub use counts::Deps;
pub use packed::PackedDeps;
pub use stamps::Stamp;
