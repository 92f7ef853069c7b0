//! Numbers as text: each is read from one spelling, and from no other.
#![tactic(auto)]

mod numbers;

pub use numbers::{RATING_MAX, read_number, read_rating};
