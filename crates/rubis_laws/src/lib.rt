//! The laws of every run, of every log and of the auditor's checks, over the definitions of `rubis_model`. Each law is a
//! function with an empty body, whose contract names the statement. No crate of a site waits for them.
#![tactic(auto)]

mod laws;
mod limits;

pub use laws::{
    agreed_audits_are_sound, agreed_logs_are_sound, audits_are_read_as_written,
    blue_messages_commute, checked_logs_hold, decided_shadows_fit, equal_sets_equal_tables,
    every_log_holds, every_run_agrees_on_tables, every_run_converges, every_run_is_agreed,
    every_run_is_faultless, every_run_is_in_order, every_run_keeps_invariants,
    every_run_sends_deliverables, faultless_logs_are_sound, fold_is_meaning, given_sites_converge,
    lack_follows_the_audit, logs_only_grow, nicknames_are_unique, processes_are_a_run,
    records_are_a_run, refusals_change_nothing, restarts_change_nothing, sites_are_rebuilt,
    verdict_agrees_where_faultless, waiting_is_explained, what_is_lacking_completes,
    widened_logs_agree,
};
pub use limits::limits_are_these_numbers;
