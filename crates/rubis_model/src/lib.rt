//! What is claimed of sites, logs and runs: the definitions that the contracts of several crates cite, and those laws over
//! them that a site's crates rest on. Each law is a function with an empty body, whose contract names the statement. The
//! laws of runs and of audits stand in `rubis_laws`.
#![tactic(auto)]

mod laws;

pub use laws::{
    folds_batch_by_batch, misfits_fall_in_place, parts_commute, settling_has_one_outcome,
    shares_fold_to_the_whole,
};
