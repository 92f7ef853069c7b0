//! Which rows a listing asks for.

use crate::ids::Id;

/// What a listing shows: one variant for each form of `list`.
#[derive(Clone, Copy)]
pub enum Listing {
    Users,
    /// The items of a category.
    Items(u16),
    /// The bids on an item.
    Bids(Id),
    /// The purchases of an item.
    Purchases(Id),
    /// The comments to a user.
    Comments(Id),
    Categories,
    /// The released messages, in release order.
    Log,
    Misfits,
    /// All users, items, bids, purchases, comments and categories.
    Tables,
}
