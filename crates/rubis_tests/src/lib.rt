//! The tests that cross crates: batches in shares, schedules, a board, a site's packets and tables, workers and their gate,
//! helpers of one crew and of two; runs over streams, of a service, of a site, of the auditor, of what widens logs, and of several sites;
//! and inputs that no line of text can write down. They are one crate, since each crate of tests links all that it reaches. Whole
//! conversations are no code: they lie in `conversations/`. What the scenarios of `rubis_growths` print of a call isn't tested
//! here once more; the records and pieces that they need too are public.
#![tactic(auto)]

#[cfg(test)]
mod arrivals;
#[cfg(test)]
mod audits;
#[cfg(test)]
mod batches;
#[cfg(test)]
mod boards;
#[cfg(test)]
mod callers;
#[cfg(test)]
mod calls;
#[cfg(test)]
mod failing_streams;
#[cfg(test)]
mod gates;
#[cfg(test)]
mod one_crew;
#[cfg(test)]
mod packets;
pub mod purchases;
pub mod records;
#[cfg(test)]
mod rigs;
#[cfg(test)]
mod runs;
#[cfg(test)]
mod schedules;
#[cfg(test)]
mod services;
#[cfg(test)]
mod threads;
#[cfg(test)]
mod two_crews;
#[cfg(test)]
mod widenings;
#[cfg(test)]
mod worlds;
