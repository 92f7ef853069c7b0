//! Whether a row of a shard matches a listing, and whether it has a record.

ghost use Rattle.std.specs.Bool.{MatchBool};
ghost use Rattle.std.specs.Prelude.{◌≡◌, [], length};
ghost use Rattle.rubis_model.specs.Listings.{is_of, row_record};
ghost use Rattle.rubis_shard.specs.Listed.{has_record};

use rubis_schema::{Listing, Row, RowKey};

/// Whether the listing matches the row at a key.
pub fn selects(listing: &Listing, key: &RowKey, row: &Row) -> bool
    ensures { result ≡ is_of listing.now key.now row.now }
{
    match (listing, key, row) {
        (Listing::Users, RowKey::User(_), _) => true,
        (Listing::Items(cat), RowKey::Item(_), Row::Item(item)) => item.cat == *cat,
        (Listing::Bids(item), RowKey::Bid(_), Row::Bid(bid)) => bid.item() == *item,
        (Listing::Purchases(item), RowKey::Purchase(_), Row::Purchase(purchase)) => {
            purchase.item == *item
        }
        (Listing::Comments(user), RowKey::Comment(_), Row::Comment(comment)) => comment.to == *user,
        (Listing::Categories, RowKey::Cat(_), _) => true,
        (Listing::Tables, _, _) => true,
        _ => false,
    }
}

/// Whether the row at a key has a record.
pub fn has_record(key: &RowKey, row: &Row) -> bool
    ensures is { result ≡ has_record key.now row.now }
    ensures record { MatchBool result (length (row_record key.now row.now) ≡ 1) (row_record key.now row.now ≡ []) }
{
    match (key, row) {
        (RowKey::User(_), Row::User(_)) => true,
        (RowKey::Item(_), Row::Item(_)) => true,
        (RowKey::Bid(_), Row::Bid(_)) => true,
        (RowKey::Purchase(_), Row::Purchase(_)) => true,
        (RowKey::Comment(_), Row::Comment(_)) => true,
        (RowKey::Cat(_), Row::Cat(row)) => !row.shows_nothing(),
        _ => false,
    }
}
