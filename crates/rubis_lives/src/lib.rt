//! What becomes of the folders of sites over their lives: they are killed, lose their power, are shortened and raised, and shops of them are runs.
#![tactic(auto)]

mod laws;

pub use laws::{
    calls_make_lives, crash_and_restart, early_answers_are_unsafe, folders_are_a_run,
    histories_are_runs, moments_leave_files, raised_keeps_tell_the_same, shop_lives_are_runs,
    shortening_keeps_the_promise,
};
