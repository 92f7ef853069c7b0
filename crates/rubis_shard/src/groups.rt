//! Listings that ask for the rows of one user or item.

ghost use Rattle.std.specs.Prelude.{◌≡◌};
ghost use Rattle.rubis_shard.specs.Groups.{listing_of, table_of_rows};
ghost use Rattle.rubis_shard.specs.Listed.{table_with};

use rubis_schema::{Id, IdTable, Listing};

/// Rows that belong together.
#[derive(Clone, Copy)]
pub enum Group {
    /// The items of a category.
    Items(u16),
    /// The bids on an item.
    Bids(Id),
    /// The purchases of an item.
    Purchases(Id),
    /// The comments to a user.
    Comments(Id),
}

impl Group {
    /// The listing that shows the group.
    pub fn listing(&self) -> Listing
        ensures { result ≡ listing_of self.now }
    {
        match self {
            Group::Items(cat) => Listing::Items(*cat),
            Group::Bids(item) => Listing::Bids(*item),
            Group::Purchases(item) => Listing::Purchases(*item),
            Group::Comments(user) => Listing::Comments(*user),
        }
    }

    /// The table of its rows.
    pub fn table(&self) -> IdTable
        ensures { table_with result ≡ table_of_rows self.now }
    {
        match self {
            Group::Items(_) => IdTable::Item,
            Group::Bids(_) => IdTable::Bid,
            Group::Purchases(_) => IdTable::Purchase,
            Group::Comments(_) => IdTable::Comment,
        }
    }
}
