//! The tables of a site in shards: each row at its home shard, and the parts of a batch folded shard by shard.
#![tactic(auto)]

mod chains;
mod counts;
mod direct_parts;
mod effects;
mod entries;
mod groups;
mod laws;
mod linked_rows;
mod listed_rows;
mod map_keys;
mod map_rows;
mod message_parts;
mod messages;
mod orders;
mod part_homes;
mod picks;
mod row_map;
mod rows;
mod selections;
mod shard_store;
mod shards;
mod shares;
mod stores;
mod table_rows;
mod tables;
mod whole;

pub use entries::LogEntry;
pub use groups::Group;
pub use laws::shards_hold_logs;
pub use listed_rows::ListedRow;
pub use part_homes::PartHomes;
pub use rubis_shadow::{Misfit, Numbered};
pub use selections::{has_record, selects};
pub use shards::{Applied, Shard};
pub use shares::Share;
pub use tables::Tables;
