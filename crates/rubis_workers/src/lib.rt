//! Batches of a log applied to tables: by the caller's thread alone, or by a team of workers who take the shards from a
//! board, fold each shard's parts on it, and give it back.
#![tactic(auto)]

mod applying;
mod batches;
mod folding;
mod following;
mod gate;
mod pace;
mod rooms;
mod task;
mod team;
mod workers;

pub use applying::{apply_alone, apply_batch, put_back, stop_all};
pub use batches::{Unstarted, Worked, apply_all, apply_beside};
pub use folding::{apply_upto, count_parts, follow_rest};
pub use following::{Followed, ShardBoard, follow_by_team, gather_shards, open_shards};
pub use gate::{Free, Gate, Teller};
pub use pace::Pace;
pub use rubis_pieces::{count_behind, misfits};
pub use rubis_shard::Tables;
pub use task::FollowBatch;
pub use team::{TeamJob, Teamwork, joined, work};
pub use workers::{LogBatch, TeamSetup, Workers};
