//! The auditor: whether the logs of several sites agree, and if not, what the first fault is; what a log lacks; logs widened to
//! more sites; and what is wrong with records that are outside the grammar.
#![tactic(auto)]

mod auditor;
mod audits;
mod checker;
mod contents;
mod counts;
mod forms;
mod lacks;
mod laws;
mod line_reader;
mod lines;
mod logs;
mod pools;
mod readings;
mod reasons;
mod record_faults;
mod rows;
mod rules;
mod run;
mod seen;
mod stamps;
mod verdicts;
mod waiting;
mod walks;
mod walks_lacks;
mod widener;

pub use auditor::{Auditor, LogQuestion};
pub use audits::{audit, audit_hashed};
pub use checker::{Grammar, Tally, run_check};
pub use lacks::write_lacks;
pub use laws::widened_audits_agree;
pub use lines::{Line, read_line};
pub use logs::Log;
pub use pools::MessagePool;
pub use rubis_clock::Clock;
pub use rubis_message::{Kind, Verdict};
pub use run::{run_audit, run_auditor_chunks, run_lack};
pub use seen::Seen;
pub use verdicts::write_verdict;
pub use waiting::{awaited, awaited_red, write_waits};
pub use walks::walk;
pub use walks_lacks::{lacked, merge};
pub use widener::{Widener, run_widen, run_widen_chunks};
