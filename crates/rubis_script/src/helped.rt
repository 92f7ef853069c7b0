//! A run for which helpers stay: they read its text and fold its messages, while the desk answers.

ghost use Rattle.std.specs.Prelude.{◌≡◌, ◌≤◌, ◌<◌, ◌-◌, OnOk, drop, take};
ghost use Rattle.std.specs.Thread.{IsSync};
ghost use Rattle.rubis_crew.specs.Both.{IsAt};
ghost use Rattle.rubis_engine.specs.Seam.{Lefts, OfEach};
ghost use Rattle.rubis_script.specs.Runs.{AreHeld, AreOver, StayHeld, StayWith, by_desk};
ghost use Rattle.rubis_reading.specs.Chunked.{IsChunk, held_text};
ghost use Rattle.rubis_reading.specs.Readings.{AreRead};
ghost use Rattle.rubis_script.specs.Desks.{KeepsAllButTables, KeepsSetup};
ghost use Rattle.rubis_serving.specs.Serving.{Finishes, Turns, at};

use crate::answering::answer_all;
use crate::desk::Desk;
use crate::gate::SiteGate;
use rubis_crew::{Both, Crew};
use rubis_engine::{Count, RunFault};
use rubis_reading::{Ahead, Chunks, Pieces, ReadPiece};
use rubis_replica::Hands;
use rubis_serving::{Served, answer_piece, turn};
use std::io::{Read, Write};
use std::sync::Wait;
use std::thread::{Threads, join_mut};

// How many pieces are given at a time, at most.
const PIECES: usize = 16;

// How many parts of a board are given at a time, at most: it has no more.
const PARTS: usize = 16;

// How long a piece is at most that the caller's thread reads and answers alone.
const PIECE_ALONE: usize = 65_536;

/// What helpers do for a run: the pieces that they read, and the hands by which they fold.
pub struct Helpers<'a> {
    pub pieces: Pieces<'a>,
    pub hands: Hands<'a, SiteGate>,
    /// How many messages were released when they folded last.
    pub folded: usize,
}

// Has the messages folded that are pending at the site, where they are at least half as many as a window has: of fewer the caller's
// thread folds most, since a helper that reads a piece takes a shard only after that. If it fails, the site's next call says so.
fn fold<T: Wait>(rt: &T, helpers: &mut Helpers<'_>, desk: &mut Desk<'_, T>)
    ensures folded { KeepsAllButTables desk.old desk.new }
    ensures pieces { helpers.new.pieces ≡ helpers.old.pieces }
    ensures crew { helpers.new.hands.lead.crew ≡ helpers.old.hands.lead.crew }
{
    let released = desk.site.history().len();
    if released.saturating_sub(helpers.folded) < desk.plan.window / 2 {
        return;
    }
    let _ = desk.site.cut_by_crew(rt, &mut helpers.hands);
    helpers.folded = released;
}

// Answers or holds the records of a piece that was read, the first of what is held. One in which the run comes to its limit is read again,
// record by record.
fn answer_read<T: Threads + Wait + Sync, R: Read, W: Write>(
    chunks: &mut Chunks<R>,
    desk: &mut Desk<'_, T>,
    run: &mut Served,
    writer: &mut W,
    piece: ReadPiece,
    limit: u64,
) -> Result<Option<Count>, RunFault>
    requires chunk { IsChunk piece.many (held_text chunks.old) }
    requires read { AreRead desk.old.site.place.sites desk.old.plan.window (take piece.many (held_text chunks.old)) piece.list.items }
    requires within { run.old.answered ≤ limit }
    ensures same { KeepsSetup desk.old desk.new }
    ensures reader { chunks.new.reader ≡ chunks.old.reader }
    ensures turns { (left : Lefts R) → Turns (by_desk W.contents) limit left chunks.old (at desk.old run.old writer.old)
        chunks.new (at desk.new run.new writer.new) result }
    ensures held { OnOk result (held_text chunks.new ≡ drop (piece.many - 1) (held_text chunks.old)) }
{
    let ReadPiece { many, list } = piece;
    let mut ahead = Ahead::of(list)?;
    let left = limit - run.answered;
    if ahead.len() as u64 >= left {
        let (text, _) = chunks.held().split_at(many);
        let over = answer_piece(text, desk, run, writer, limit)?;
        chunks.pass(many);
        return Ok(over);
    }
    answer_all(desk, run, &mut ahead, writer)?;
    chunks.pass(many);
    Ok(None)
}

// Answers the next piece that was read, while helpers read those after it. With none, reads and answers one alone, or asks for more text.
fn helped_turn<T: Threads + Wait + Sync, R: Read, W: Write>(
    rt: &T,
    helpers: &mut Helpers<'_>,
    chunks: &mut Chunks<R>,
    desk: &mut Desk<'_, T>,
    run: &mut Served,
    writer: &mut W,
    limit: u64,
) -> Result<Option<Count>, RunFault>
    requires held { AreHeld chunks.old desk.old helpers.old.pieces }
    requires within { run.old.answered ≤ limit }
    ensures turns { OfEach R.remaining chunks.old.reader chunks.new.reader (λ left. Turns (by_desk W.contents) limit left chunks.old
        (at desk.old run.old writer.old) chunks.new (at desk.new run.new writer.new) result) }
    ensures held { StayHeld helpers.old chunks.new desk.new helpers.new result }
{
    helpers.pieces.give_all(rt, chunks.held())?;
    let Some(piece) = helpers.pieces.next(rt)? else {
        return turn(chunks, desk, run, writer, PIECE_ALONE, limit);
    };
    fold(rt, helpers, desk);
    answer_read(chunks, desk, run, writer, piece, limit)
}

// Answers records until there are no more, or up to `limit` of them.
fn serve<T: Threads + Wait + Sync, R: Read, W: Write>(
    rt: &T,
    helpers: &mut Helpers<'_>,
    chunks: &mut Chunks<R>,
    desk: &mut Desk<'_, T>,
    run: &mut Served,
    writer: &mut W,
    limit: u64,
) -> Result<Count, RunFault>
    requires held { AreHeld chunks.old desk.old helpers.old.pieces }
    requires within { run.old.answered ≤ limit }
    ensures run { OfEach R.remaining chunks.old.reader chunks.new.reader (λ left. Finishes (by_desk W.contents) limit left chunks.old
        (at desk.old run.old writer.old) chunks.new (at desk.new run.new writer.new) result) }
    ensures crews { StayWith helpers.old helpers.new }
{
    for _ in rt.forever() {
        if let Some(count) = helped_turn(rt, helpers, chunks, desk, run, writer, limit)? {
            return Ok(count);
        }
    }
    unreachable!()
}

// Answers records beside the helpers, and whatever that ends with, tells them that no more comes.
fn serve_helped<T: Threads + Wait + Sync, R: Read, W: Write>(
    rt: &T,
    helpers: &mut Helpers<'_>,
    chunks: &mut Chunks<R>,
    desk: &mut Desk<'_, T>,
    run: &mut Served,
    writer: &mut W,
    limit: u64,
) -> Result<Count, RunFault>
    requires held { AreHeld chunks.old desk.old helpers.old.pieces }
    requires within { run.old.answered ≤ limit }
    ensures run { OfEach R.remaining chunks.old.reader chunks.new.reader (λ left. Finishes (by_desk W.contents) limit left chunks.old
        (at desk.old run.old writer.old) chunks.new (at desk.new run.new writer.new) result) }
    ensures over { AreOver helpers.old helpers.new }
{
    let folding = helpers.hands.crew();
    let reading = helpers.pieces.crew();
    let mut first = Both::new(helpers.hands.helper(), helpers.pieces.helper());
    let helper = &mut first;
    let ((), served) = join_mut(
        rt,
        &mut ||
            requires { IsSync T.row × IsAt folding.now.id reading.now.id helper.now }
        { helper.stay_all(rt, folding, reading) },
        &mut || -> Result<Count, RunFault>
            requires { IsSync T.row × AreHeld chunks.now desk.now helpers.now.pieces × (run.now.answered ≤ limit) }
            ensures { OfEach R.remaining chunks.entry.now.reader chunks.exit.now.reader (λ left. Finishes (by_desk W.contents) limit left
                chunks.entry.now (at desk.entry.now run.entry.now writer.entry.now)
                chunks.exit.now (at desk.exit.now run.exit.now writer.exit.now) result)
                × AreOver helpers.entry.now helpers.exit.now }
        {
            let served = serve(rt, helpers, chunks, desk, run, writer, limit);
            helpers.pieces.end(rt);
            helpers.hands.end(rt);
            served
        },
    );
    served
}

/// Runs the desk of a site over chunks of text, whose records are read, and whose messages are folded, by a crew of helpers and by the
/// caller's thread. The helpers stay for the run. A thread that can't be started leaves its work to the others.
pub(crate) fn run_helped<T: Threads + Wait + Sync, R: Read, W: Write>(
    rt: &T,
    chunks: &mut Chunks<R>,
    desk: &mut Desk<'_, T>,
    run: &mut Served,
    writer: &mut W,
    limit: u64,
) -> Result<Count, RunFault>
    requires some { 0 < desk.old.plan.helpers }
    requires within { run.old.answered ≤ limit }
    ensures { OfEach R.remaining chunks.old.reader chunks.new.reader (λ left. Finishes (by_desk W.contents) limit left chunks.old
        (at desk.old run.old writer.old) chunks.new (at desk.new run.new writer.new) result) }
{
    let alloc = run.alloc;
    let (reading, mut lead) = Crew::new(rt, alloc, PIECES, usize::from(desk.plan.helpers))?;
    let Ok((folding, parts)) = Crew::beside(rt, alloc, PARTS, &reading) else {
        reading.end(rt, &mut lead);
        reading.close(lead);
        return Err(RunFault::Memory);
    };
    let pieces = Pieces::new(alloc, &reading, lead, desk.sites(), desk.plan.window);
    let mut helpers = Helpers {
        pieces,
        hands: Hands::new(&folding, parts),
        folded: 0,
    };
    let served = serve_helped(rt, &mut helpers, chunks, desk, run, writer, limit);
    let Helpers {
        pieces,
        hands,
        folded: _,
    } = helpers;
    let (lead, parts) = (pieces.into_lead(), hands.into_lead());
    reading.close(lead);
    folding.close(parts);
    served
}
