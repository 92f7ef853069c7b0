//! Several sites in one run, with all packets that they send.
#![tactic(auto)]

mod answers;
mod checks;
mod config;
mod desk;
mod faults;
mod run;
mod sites;
mod waiting;
mod world;

pub use config::WorldConfig;
pub use desk::WorldDesk;
pub use faults::WorldFault;
pub use rubis_message::Happened;
pub use rubis_script::{
    Arrived, Config, Count, Desk, Fault, Free, Gate, RunFault, Site, SiteGate, Watch, run_chunks,
    run_site, run_site_upto,
};
pub use run::{run_world, run_world_chunks};
pub use sites::{Sites, packet};
pub use waiting::run_waiting;
pub use world::World;
