//! What is answered to a packet, and what an auditor says of logs.

ghost use Rattle.std.specs.Prelude.{◌≡◌};
ghost use Rattle.rubis_message.specs.Message.{fault_kind_name};

use rubis_schema::{Fields, Items};

/// What became of a message that arrived.
#[derive(Clone, Copy, PartialEq, Eq, Debug)]
pub enum Arrival {
    /// n messages were released, whether or not the one that arrived is among them.
    Released(u32),
    /// It waits, and none was released.
    Held,
    /// It had come before.
    Repeat,
}

/// What became of a token that arrived.
#[derive(Clone, Copy, PartialEq, Eq, Debug)]
pub enum Taken {
    /// The site holds it now.
    Holding,
    /// Its turn had come before.
    Repeat,
}

/// What became of an event at a site among several.
#[derive(Drop)]
pub enum Happened {
    /// The site sent the packet with this number, counted from 1 over all sites.
    Sent(u64),
    /// A message came.
    Came(Arrival),
    /// A token came.
    Token(Taken),
    /// The rows of a listing.
    Rows(Items<Fields>),
}

/// What an auditor can find wrong with a log, in the order of the checks.
#[derive(Clone, Copy, PartialEq, Eq, Debug)]
pub enum Kind {
    /// Another message has its id.
    Clash,
    /// It isn't the next one of its origin, counts a message that isn't there, or forgets one.
    Order,
    /// It hasn't the next red number, another message has that number, or the red one before it doesn't precede it.
    RedGap,
    /// What it names isn't there, or doesn't precede it, or a close has another category than its item.
    Refers,
    /// Its nickname has a user.
    Nick,
    /// More is bought than is left.
    Stock,
    /// The item is closed, or a close names another winner than the highest bid.
    Winner,
    /// The claimed rows aren't those of the log.
    Rows,
}

impl Kind {
    /// The name that the record of a verdict shows.
    pub fn name(&self) -> &'static str
        ensures { result.now ≡ fault_kind_name self.now }
    {
        match self {
            Kind::Clash => "Clash",
            Kind::Order => "Order",
            Kind::RedGap => "RedGap",
            Kind::Refers => "Refers",
            Kind::Nick => "Nick",
            Kind::Stock => "Stock",
            Kind::Winner => "Winner",
            Kind::Rows => "Rows",
        }
    }
}

/// What an auditor says of logs.
#[derive(Clone, Copy, PartialEq, Eq, Debug)]
pub enum Verdict {
    /// They pass all checks.
    Agree,
    /// The first fault: its kind, and the numbers of its log and its entry, both from 1. Rows has entry 0.
    Found(Kind, usize, usize),
}
