//! The rows of listings, as records in order.
#![tactic(auto)]

mod later;
mod listing_rows;
mod listings;
mod logs;
mod records;
mod shared;
mod sources;

pub use listing_rows::ListingRows;
pub use listings::{bids, categories, comments, items, list_tables, purchases, tables, users};
pub use logs::{log, misfit_rows};
pub use records::put_record;
pub use shared::SHARED_MIN;
