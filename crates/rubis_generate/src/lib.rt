//! Decisions: from an ask to its shadow, or to the first refusal.
#![tactic(auto)]

mod decisions;
mod standing;

pub use decisions::decide;
pub use standing::Standing;
