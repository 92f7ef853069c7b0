//! A site over records, bytes of CSV in, bytes of CSV out: its desk, which answers each record in its turn, and the run for which helpers
//! read the next pieces of text meanwhile.
#![tactic(auto)]

mod answering;
mod desk;
mod gate;
mod helped;
mod laws;
mod plan;
mod replies;
mod rows_out;
mod run;
mod site_run;
mod windows;

pub use desk::{Desk, answer_fault};
pub use gate::{SiteGate, Watch};
pub use laws::replays_go_on;
pub use replies::{
    put_reply, write_arrival, write_listed, write_listed_text, write_passed, write_refusal,
    write_rows, write_sent, write_taken,
};
pub use rubis_engine::{Count, RunFault};
pub use rubis_replica::{Arrived, Config, Fault, Free, Gate, Site};
pub use run::{chunks_for, run_chunks};
pub use site_run::{run_last_site, run_site, run_site_upto};
