//! Runs of services over the chunks of a text: of what came, each whole record is answered, and the answers are written out, before
//! the reader is asked for more.
#![tactic(auto)]

mod outlets;
mod pieces;
mod run;

pub use outlets::Outlet;
pub use pieces::{BLOCK, Served, settle};
pub use run::{answer_piece, run_service, turn};
