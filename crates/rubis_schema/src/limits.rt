//! Every limit of the records, of the tables and of a run, once.

/// The most sites.
pub const SITES_MAX: u8 = 16;

/// The most sites that a message counts.
pub const COUNTED_MAX: usize = SITES_MAX as usize;

/// The most shards of the tables.
pub const SHARDS_MAX: u8 = 64;

/// The most workers of a site.
pub const WORKERS_MAX: u8 = 16;

/// The most messages that a batch applies together.
pub const BATCH_MAX: u32 = 65_536;

/// The most messages, released and waiting, that a site keeps.
pub const KEEP_MAX: u32 = 1_000_000;

/// The most records that a run reads.
pub const RECORDS_MAX: u64 = 4_000_000;

/// The greatest number of an id; the least is 1.
pub const SEQ_MAX: u32 = 1_000_000;

/// The greatest count of messages: of a site's, or of red ones, and so the greatest red number.
pub const COUNT_MAX: u64 = 1_000_000;

/// The greatest turn of a token.
pub const TURN_MAX: u32 = 1_000_000_000;

/// The greatest number of a site that the token can be passed to, if there is such a site.
pub const PASS_MAX: u64 = 99;

/// The greatest quantity, and the greatest stock of a new item; the least is 1.
pub const QUANTITY_MAX: u64 = 1_000_000;

/// The greatest amount of a bid, start price and price at once; the least is 1, but a price at once may be 0.
pub const AMOUNT_MAX: u64 = 1_000_000_000_000;

/// How many categories there are, from 0 on.
pub const CATEGORIES: u16 = 1000;

/// The greatest category.
pub const CAT_MAX: u64 = CATEGORIES as u64 - 1;

/// The most bytes of a nickname; the least is 1.
pub const NICK_MAX: usize = 20;

/// The most bytes of an item's name; the least is 1.
pub const NAME_MAX: usize = 64;

/// The most bytes of a comment's text.
pub const TEXT_MAX: usize = 200;

/// The most digits of a number of 64 bits.
pub const NUMBER_TEXT_MAX: usize = 20;

/// The most bytes of two such numbers with a point between them.
pub const NUMBERS_TEXT_MAX: usize = 41;

/// The most bytes of an id as it is written: ten digits, a mark and ten digits.
pub const ID_TEXT_MAX: usize = 21;

/// The most bytes of the counts of a message as they are written, each with ten digits and a mark.
pub const COUNTS_TEXT_MAX: usize = 11 * COUNTED_MAX;

/// The most bytes of a row that is made in place, with a comma for each field: those of any message, and what stands before it.
pub const PLAIN_ROW_MAX: usize = 640;
