//! What every layer speaks of: ids, nicknames, texts, the keys and rows of the seven tables, refusals, records as
//! lists of fields and what takes them as rows, and the view of a set of tables.
#![tactic(auto)]

mod boxed;
mod counted;
mod field_list;
mod homes;
mod id_keys;
mod ids;
mod key_hashes;
mod laws;
mod limits;
mod listings;
mod lists;
mod nicks;
mod number_texts;
mod numbers;
mod offers;
mod plain_rows;
mod records;
mod refusals;
mod row_keys;
mod row_sinks;
mod rows;
mod shared;
mod short_texts;
mod spare_room;
mod splits;
mod texts;
mod views;

pub use boxed::Boxed;
pub use counted::Counted;
pub use field_list::{Fields, is_plain};
pub use homes::shard_of;
pub use id_keys::{IdKey, IdTable};
pub use ids::Id;
pub use key_hashes::{Hashes, KeyHasher, KeyHashes, NickHasher, NickHashes};
pub use laws::fields_have_one_reading;
pub use limits::{
    AMOUNT_MAX, BATCH_MAX, CAT_MAX, CATEGORIES, COUNT_MAX, COUNTED_MAX, COUNTS_TEXT_MAX, KEEP_MAX,
    NAME_MAX, NICK_MAX, NUMBER_TEXT_MAX, PASS_MAX, PLAIN_ROW_MAX, QUANTITY_MAX, RECORDS_MAX,
    SEQ_MAX, SHARDS_MAX, SITES_MAX, TEXT_MAX, TURN_MAX, WORKERS_MAX,
};
pub use listings::Listing;
pub use lists::Items;
pub use nicks::Nick;
pub use number_texts::push_digits;
pub use numbers::{push_int, push_number, put_int};
pub use offers::{NewItem, OfferedName};
pub use plain_rows::PlainRow;
pub use records::Record;
pub use refusals::Refusal;
pub use row_keys::{RowKey, Table, key_cmp, table_number};
pub use row_sinks::{RowSink, SharedSink};
pub use rows::{
    Best, BidRow, CatRow, CommentRow, ItemRow, PackedBid, PurchaseRow, Row, Sale, UserRow,
};
pub use rubis_numbers::{RATING_MAX, read_number, read_rating};
pub use shared::Shared;
pub use short_texts::ShortText;
pub use spare_room::{make_room, push_bytes};
pub use splits::{read_number_before, split_once};
pub use texts::{Name, Text};
pub use views::View;
