//! What stands in the folders and streams of shops, what askers send, and what happens.

/// What a site sends: a message, with its site, its number and the ask that it was made of; or a pass of the token, with its sender, its
/// turn, the site that it goes to, and how many messages the sender had given before. Asks are numbered, so that two asks with one text
/// are two.
#[derive(Clone, Copy, PartialEq)]
pub enum ShopPacket {
    Message(u64, u64, u64),
    Pass(u64, u64, u64, u64),
}

/// What carries packets: a site's folder itself, over files; or a stream for each site, on a server.
#[derive(Clone, Copy, PartialEq)]
pub enum Carrier {
    Files,
    Server,
}

/// An answer of a site that accepted: the ask that it is taken to be of, and the number that it says.
#[derive(Clone, Copy, PartialEq)]
pub struct Answer {
    pub ask: u64,
    pub number: u64,
}

/// What an asker sends: which life is to serve it, and how many records its text has. An ask is one record.
#[derive(Clone, Copy, Default)]
pub struct ShopRequest {
    pub life: u64,
    pub records: u64,
}

/// What an asker was told: `ok`, with an id; that the ask was refused, or that nothing was given to the site; or that it isn't known.
#[derive(Clone, Copy)]
pub enum Notice {
    Ok { ask: u64, site: u64, number: u64 },
    No { ask: u64 },
    Unknown { ask: u64 },
}

/// What happens in a shop. The first number is that of a folder, unless something else is said; then come those that each kind names.
#[derive(Clone, Copy)]
pub enum ShopEvent {
    /// A supervisor begins to run the folder, in a new life.
    Starts(u64),
    /// Its site may take asks; the same of a standby, which takes over from a folder that may go on; the same with `--alone`.
    Opens(u64),
    TakesOver(u64),
    OpensAlone(u64),
    /// Its site may take asks no more, but runs on: another folder has the site, as by `shop adopt`, or is opened.
    Closes(u64),
    /// It takes asks all the same: its process doesn't know of the other folder, which was made again, adopted, or takes over.
    GoesOn(u64),
    /// The keeper ends, and is started again, and is given again what it hadn't kept; the supervisor ends; the machine is started, and
    /// remembers nothing.
    KeeperStarts(u64),
    IsKilled(u64),
    MachineStarts(u64),
    /// Its site keeps as many messages as it may; it may keep more.
    Fills(u64),
    IsRaised(u64),
    /// An asker asks: the ask, the life that is to serve it, and how many records its text has.
    IsAsked(u64, u64, u64),
    /// The supervisor takes an ask, and gives it to the site, which accepts or refuses the record of that ask.
    Serves(u64, u64),
    Gives(u64, u64),
    Accepts(u64, u64),
    Refuses(u64, u64),
    /// The asker of an ask is told ok, with a number; the same, once the message stands in the stream of its site; that nothing was given
    /// to the site; that it isn't known.
    TellsOk(u64, u64, u64),
    TellsPublished(u64, u64, u64),
    TellsNothing(u64, u64),
    TellsUnknown(u64, u64),
    /// A standby was told off for a site, which yields to it; the site takes that back.
    Yields(u64),
    TakesBack(u64),
    /// The site passes the token on, to a site.
    Passes(u64, u64),
    /// A packet that the folder has is appended to the stream of its sender; its append is under way; one that is under way arrives,
    /// whatever became of the folder; the site reads a packet.
    Appends(u64, ShopPacket),
    Sends(u64, ShopPacket),
    Arrives(ShopPacket),
    Reads(u64, ShopPacket),
    /// Only the first n packets of the folder are left, or are as they were by their sums; nothing is left; another folder becomes a
    /// copy of it, or is put back to that.
    LosesEnd(u64, u64),
    IsLost(u64),
    IsCopied(u64, u64),
    /// A rebuild finds a packet for a folder that doesn't run; and puts another folder, which it made so, in its place.
    Finds(u64, ShopPacket),
    Rebuilds(u64, u64),
    /// The server has only the first n packets of the stream of a site; it has nothing.
    StreamLosesEnd(u64, u64),
    ServerLosesAll,
    /// The stream of its site is written anew from the folder.
    WritesAnew(u64),
}
