//! One site: its configuration, its calls, and its tables that follow its log.
#![tactic(auto)]

mod arriving;
mod config;
mod faults;
mod folding;
mod follower;
mod hands;
mod progress;
mod shared_batches;
mod site;
mod tries;

pub use arriving::Arrived;
pub use config::Config;
pub use faults::Fault;
pub use folding::Part;
pub use follower::Follower;
pub use hands::Hands;
pub use progress::{Progress, Stage};
pub use rubis_listing::{ListingRows, put_record};
pub use rubis_workers::{Free, Gate};
pub use site::Site;
pub use tries::{
    refused_memory_changes_no_answer, try_arrive, try_arrive_all, try_arrive_within, try_catch_up,
    try_cut, try_list, try_list_into, try_pass, try_prepare, try_request, try_token,
};
