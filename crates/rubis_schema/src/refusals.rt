//! Why a request is refused.

ghost use Rattle.std.specs.Prelude.{◌≡◌};
ghost use Rattle.rubis_schema.specs.Refusals.{code_of, refusal_name};

/// Why a record is refused.
#[derive(Clone, Copy, PartialEq, Eq, Debug)]
pub enum Refusal {
    /// The record isn't in the grammar.
    BadRecord,
    /// Released and waiting messages are as many as the site keeps (`--keep`).
    Full,
    /// The site doesn't hold the token.
    NoToken,
    /// The site hasn't released all red messages so far.
    RedBehind,
    /// The nickname belongs to a user, or is the user's own.
    NickTaken,
    /// A user that is named doesn't exist.
    NoUser,
    /// The item doesn't exist.
    NoItem,
    /// The item's sale is closed.
    Closed,
    /// The amount is below the start price.
    LowBid,
    /// The quantity is above the stock.
    StockShort,
    /// The user isn't the item's seller.
    NotSeller,
    /// The bidder or buyer is the seller.
    OwnItem,
    /// The item's buy-now price is 0.
    NoBuyNow,
    /// The comment is addressed to its own author.
    SelfComment,
    /// The token is passed to another site below `--sites` only.
    BadTarget,
    /// The token has had its last turn, 1,000,000,000.
    LastTurn,
    /// The message claims that this site made it, and it didn't.
    NotOurs,
    /// The token is for another site.
    NotForMe,
    /// The record of a world isn't an event, or its site isn't below `--sites`.
    BadEvent,
    /// No packet of the world has that number.
    NoSuchPacket,
}

impl Refusal {
    /// The number that answers show.
    pub fn code(&self) -> u8
        ensures { result ≡ code_of self.now }
    {
        match self {
            Refusal::BadRecord => 1,
            Refusal::Full => 2,
            Refusal::NoToken => 3,
            Refusal::RedBehind => 4,
            Refusal::NickTaken => 5,
            Refusal::NoUser => 6,
            Refusal::NoItem => 7,
            Refusal::Closed => 8,
            Refusal::LowBid => 9,
            Refusal::StockShort => 10,
            Refusal::NotSeller => 11,
            Refusal::OwnItem => 12,
            Refusal::NoBuyNow => 13,
            Refusal::SelfComment => 14,
            Refusal::BadTarget => 15,
            Refusal::LastTurn => 16,
            Refusal::NotOurs => 20,
            Refusal::NotForMe => 21,
            Refusal::BadEvent => 30,
            Refusal::NoSuchPacket => 31,
        }
    }

    /// The name that answers show.
    pub fn name(&self) -> &'static str
        ensures { result.now ≡ refusal_name self.now }
    {
        match self {
            Refusal::BadRecord => "BadRecord",
            Refusal::Full => "Full",
            Refusal::NoToken => "NoToken",
            Refusal::RedBehind => "RedBehind",
            Refusal::NickTaken => "NickTaken",
            Refusal::NoUser => "NoUser",
            Refusal::NoItem => "NoItem",
            Refusal::Closed => "Closed",
            Refusal::LowBid => "LowBid",
            Refusal::StockShort => "StockShort",
            Refusal::NotSeller => "NotSeller",
            Refusal::OwnItem => "OwnItem",
            Refusal::NoBuyNow => "NoBuyNow",
            Refusal::SelfComment => "SelfComment",
            Refusal::BadTarget => "BadTarget",
            Refusal::LastTurn => "LastTurn",
            Refusal::NotOurs => "NotOurs",
            Refusal::NotForMe => "NotForMe",
            Refusal::BadEvent => "BadEvent",
            Refusal::NoSuchPacket => "NoSuchPacket",
        }
    }
}
