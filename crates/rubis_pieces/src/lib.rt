//! Batches of messages cut into a share for each shard, folded by one thread as far as memory goes, and the shards put
//! together again.
#![tactic(auto)]

mod batches;
mod following;
mod gathers;
mod ordering;
mod pieces;
mod splits;
mod waiting;

pub use batches::fold_share;
pub use following::{follow, follow_one, homes_of};
pub use gathers::{
    CountedShards, FaultKind, GatherFault, Gathered, Places, gather, gather_counted,
};
pub use ordering::misfits;
pub use pieces::{Done, Left, Piece};
pub use splits::{SPLIT_MIN, split, split_alone};
pub use waiting::count_behind;
