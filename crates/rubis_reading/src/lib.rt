//! A text of CSV by pieces that are read apart.
#![tactic(auto)]

mod ahead;
mod buffer;
mod chunks;
mod csv_state;
mod cuts;
mod pieces;
mod readings;
mod stretches;
mod worth;

pub use ahead::Ahead;
pub use buffer::ChunkFault;
pub use chunks::Chunks;
pub use csv_state::{CsvState, after};
pub use cuts::whole_end;
pub use pieces::{Pieces, ReadPiece};
pub use readings::Reading;
pub use stretches::{Stretch, read_piece};
