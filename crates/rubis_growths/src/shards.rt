//! Shards and tables.

ghost use Rattle.rubis_pieces.specs.Pieces.{IsShareOf};

use crate::records::{packet_text, shop};
use crate::telling::{Host, Stop, TRIES, tell_refused, tell_rows};
use rubis_listing as listings;
use rubis_message::{Message, ReadFault};
use rubis_pieces::{misfits, split};
use rubis_schema::{Id, IdTable, Items, Listing, Table, shard_of};
use rubis_shadow::Numbered;
use rubis_shard::{Group, Shard, Share, Tables};
use rubis_tests::records::message;
use rubis_workers::apply_upto;
use std::alloc::{AllocError, Global};

/// How many users there are in a long share.
const USERS: u32 = 20;

const ANN: Id = Id { site: 0, seq: 1 };

const CUP: Id = Id { site: 0, seq: 3 };

/// The only shard of a set, with a share of its own.
#[derive(Drop)]
struct Portion {
    shard: Shard,
    share: Share,
    ghost own: { IsShareOf shard share },
}

impl Portion {
    // The shard as it opens, with an empty share.
    fn new(alloc: Global) -> Result<Portion, AllocError> {
        let shard = Shard::new(alloc, 0, 1)?;
        let share = Share {
            number: 0,
            effects: Items::new(alloc),
        };
        Ok(Portion { shard, share })
    }

    // The same, with one part more, whose home is the shard.
    #[tactic(auto, using(crate::proofs::Shares::share_push))]
    fn with(self, part: Numbered) -> Result<Portion, AllocError> {
        let Portion { shard, mut share } = self;
        let shards = shard.shards();
        if shards == 0 || shard_of(&part.effect.key, shards) != shard.number() {
            return Err(AllocError);
        }
        match share.effects.push(part) {
            Ok(()) => Ok(Portion { shard, share }),
            Err(_) => Err(AllocError),
        }
    }

    // Folds the parts of the share from one on, as far as memory goes: how many are done.
    fn apply(self, from: usize) -> (Portion, usize) {
        let Portion { mut shard, share } = self;
        if from > share.effects.len() {
            return (Portion { shard, share }, from);
        }
        let done = shard.apply(&share, from).done;
        (Portion { shard, share }, done)
    }

    // Folds one part of the share: whether there was memory for it.
    fn apply_next(self, at: usize) -> (Portion, bool) {
        let Portion { mut shard, share } = self;
        if at >= share.effects.len() {
            return (Portion { shard, share }, false);
        }
        let is_done = shard.apply_next(&share, at).is_ok();
        (Portion { shard, share }, is_done)
    }

    // How many parts the share has.
    fn len(&self) -> usize {
        self.share.effects.len()
    }

    // How many keys, rows and listed rows there are of the shard's users.
    fn counts(&self, alloc: Global) -> Result<(usize, usize, usize), AllocError> {
        let keys = self.shard.keys(alloc, Table::Users)?.len();
        let rows = self.shard.rows(alloc, Table::Users)?.len();
        let listed = self.shard.listed(alloc, IdTable::User, &Listing::Users)?;
        Ok((keys, rows, listed.len()))
    }

    // How many users the shard has.
    fn users(&self, alloc: Global) -> Result<usize, AllocError> {
        Ok(self.shard.keys(alloc, Table::Users)?.len())
    }
}

// The part that inserts user `seq`, a row with memory of its own.
fn user_part(alloc: Global, seq: u32) -> Result<Numbered, ReadFault> {
    let text = packet_text(alloc, seq)?;
    let message = message(alloc, &text, 2)?;
    let id = message.id();
    let Some(part) = message.shadow().effect(id, seq, 0) else {
        return Err(ReadFault::BadRecord);
    };
    let effect = part.own(alloc)?;
    Ok(Numbered {
        entry: seq,
        part: 1,
        id,
        effect,
    })
}

// A shard with a share of users.
fn users_portion(alloc: Global) -> Result<Portion, ReadFault> {
    let mut portion = Portion::new(alloc)?;
    for seq in 1..USERS + 1 {
        portion = portion.with(user_part(alloc, seq)?)?;
    }
    Ok(portion)
}

/// A share that is folded as far as memory goes, and then from there on.
pub fn short_apply(rt: &impl Host) -> Result<(), Stop> {
    let (mut portion, done) = users_portion(rt.alloc())?.apply(0);
    if done < portion.len() {
        let _ = println!(rt; "! Shard::apply: {done} done");
        if portion.users(rt.alloc())? != done {
            return Err(Stop::GaveUp);
        }
        (portion, _) = portion.apply(done);
    }
    let users = portion.users(rt.alloc())?;
    let _ = println!(rt; "users {users}");
    Ok(())
}

// Folds the part at a place, again where memory is refused.
fn apply_one(rt: &impl Host, portion: Portion, at: usize) -> Result<Portion, Stop> {
    let (portion, is_done) = portion.apply_next(at);
    if is_done {
        return Ok(portion);
    }
    tell_refused(rt, "Shard::apply_next", portion.users(rt.alloc())? == at);
    match portion.apply_next(at) {
        (portion, true) => Ok(portion),
        (_, false) => Err(Stop::GaveUp),
    }
}

/// A share that is folded part by part; the shard's rows are linked then, again where memory is refused.
pub fn shard(rt: &impl Host) -> Result<(), Stop> {
    let mut portion = users_portion(rt.alloc())?;
    for at in 0..portion.len() {
        portion = apply_one(rt, portion, at)?;
    }
    if portion.shard.link_rows().is_err() {
        tell_refused(rt, "Shard::link_rows", true);
        portion.shard.link_rows()?;
    }
    let (keys, rows, listed) = portion.counts(rt.alloc())?;
    let _ = println!(rt; "keys {keys}, rows {rows}, listed {listed}");
    Ok(())
}

// Tables of five shards with a shop's messages.
fn shop_tables(rt: &impl Host, messages: &[Message]) -> Result<Tables, Stop> {
    let mut tables = Tables::new(rt.alloc(), 5)?;
    let mut at = 0;
    for _ in 0..TRIES {
        if tables.is_empty() || at > messages.len() || messages.len() > 1000 {
            return Err(Stop::GaveUp);
        }
        let from = at;
        if apply_upto(&mut tables, messages, &mut at, messages.len()).is_ok() {
            return Ok(tables);
        }
        let done = at.saturating_sub(from);
        let _ = println!(rt; "! apply_upto: {done} done");
    }
    Err(Stop::GaveUp)
}

// Tells how many users, items of category 9, bids on the cup and misfits the tables show.
fn tell_counts(rt: &impl Host, tables: &Tables) -> Result<(), Stop> {
    let alloc = rt.alloc();
    let users = tables.rows(alloc, Table::Users)?.len();
    let items = tables
        .listed(alloc, IdTable::Item, &Listing::Items(9))?
        .len();
    let bids = tables.group(alloc, &Group::Bids(CUP))?.len();
    let misfits = misfits(alloc, tables)?.len();
    let _ = println!(rt; "users {users}, items {items}, bids {bids}, misfits {misfits}");
    Ok(())
}

/// Tables, and what they show once the bids on the cup are linked, again where memory is refused.
pub fn tables(rt: &impl Host) -> Result<(), Stop> {
    let messages = shop(rt.alloc())?.messages;
    let mut tables = shop_tables(rt, &messages)?;
    if tables.link_rows(&Listing::Bids(CUP)).is_err() {
        tell_refused(rt, "Tables::link_rows", true);
        tables.link_rows(&Listing::Bids(CUP))?;
    }
    tell_counts(rt, &tables)
}

// Tells the listings of tables.
fn tell_tables(rt: &impl Host, tables: &Tables) -> Result<(), Stop> {
    let alloc = rt.alloc();
    tell_rows(rt, 1, &listings::users(alloc, tables)?);
    tell_rows(rt, 2, &listings::items(alloc, tables, 9)?);
    tell_rows(rt, 3, &listings::bids(alloc, tables, CUP)?);
    tell_rows(rt, 4, &listings::purchases(alloc, tables, CUP)?);
    tell_rows(rt, 5, &listings::comments(alloc, tables, ANN)?);
    tell_rows(rt, 6, &listings::categories(alloc, tables)?);
    tell_rows(rt, 7, &listings::tables(alloc, tables)?);
    Ok(())
}

/// The nine listings of tables and of their log.
pub fn nine_listings(rt: &impl Host) -> Result<(), Stop> {
    let alloc = rt.alloc();
    let messages = shop(alloc)?.messages;
    let tables = shop_tables(rt, &messages)?;
    tell_tables(rt, &tables)?;
    tell_rows(rt, 8, &listings::log(alloc, &messages)?);
    tell_rows(
        rt,
        9,
        &listings::misfit_rows(alloc, &misfits(alloc, &tables)?)?,
    );
    Ok(())
}

/// A batch that is cut into shares: how many parts each has.
pub fn batch_in_shares(rt: &impl Host) -> Result<(), Stop> {
    let messages = shop(rt.alloc())?.messages;
    if messages.len() > 1000 {
        return Err(Stop::GaveUp);
    }
    for share in &split(rt, rt.alloc(), &messages, 1, 5)? {
        let parts = share.effects.len();
        let _ = println!(rt; "parts {parts}");
    }
    Ok(())
}
