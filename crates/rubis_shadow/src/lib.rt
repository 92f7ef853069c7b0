//! Asks, the shadows that answer them, and what a shadow does to the tables: its parts, each a change of one row.
#![tactic(auto)]

mod changes;
mod keyed_change;
mod keys;
mod listing;
mod numbered;
mod part_iterator;
mod parts;
mod plain;
mod renames;
mod shadows;

pub use changes::{Change, Fate, MisfitKind};
pub use keyed_change::Effect;
pub use keys::Keys;
pub use listing::{put_in_order, rows_in_order};
pub use numbered::{Misfit, Numbered};
pub use part_iterator::Effects;
pub use parts::{EffectRef, PARTS_MAX};
pub use plain::PlainTables;
pub use renames::{NewRename, RenameAsk};
pub use shadows::{
    Ask, AskedClose, AskedRename, AskedRestock, Colour, NewBid, NewClose, NewRestock, Shadow,
};
