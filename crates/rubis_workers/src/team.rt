//! A team of workers over one board.

ghost use Rattle.std.specs.Prelude.{◌≡◌, ◌-◌, ◌<◌, ◌≤◌, ◌++◌, [], length, true, vec_len};
ghost use Rattle.std.specs.List.{All, AllZip};
ghost use Rattle.std.specs.Vec.{vec_capacity};
ghost use Rattle.std.specs.Thread.{IsSync};
ghost use Rattle.rubis_board.specs.Rule.{joined_pass};
ghost use Rattle.rubis_workers.specs.Work.{having, IsRoom};

use crate::gate::{Gate, Teller, Tells};
use crate::task::Task;
use rubis_board::{Board, Pass};
use rubis_pieces::Done;
use std::sync::Wait;
use std::thread;
use std::thread::Threads;

/// What a team does: the board that has the pieces, what is done with each of them, and what is told when one is taken.
pub struct TeamJob<'a, T, G> {
    pub board: &'a Board,
    pub task: &'a T,
    pub gate: &'a G,
}

impl<'a, T, G> Drop for TeamJob<'a, T, G> {
    fn drop(self) {
        let TeamJob {
            board: _,
            task: _,
            gate: _,
        } = self;
    }
}

/// One worker: takes pieces until none is left, and does the task of each.
pub fn work<T: Task, G: Tells, R: Wait>(
    rt: &R,
    job: &TeamJob<T, G>,
    mut pass: Pass,
    mut room: Vec<Done>,
) -> (Pass, Vec<Done>)
    requires board { pass.board ≡ job.now.board.now }
    requires pieces { All (T.Fits job.now.task.now) pass.posted }
    requires room { (pass.taken ≡ []) × (room.items ≡ []) × (length pass.posted ≤ vec_capacity room) }
    ensures pass { result.0 ≡ having pass result.0.taken true }
    ensures done { AllZip (T.Worked job.now.task.now) result.0.taken result.1.items }
    ensures room { length pass.posted ≤ vec_capacity result.1 }
{
    for _ in rt.forever() {
        let Some(piece) = job.board.take(rt, &mut pass) else {
            break;
        };
        let taken = job.gate.tell(piece.shard.number());
        room.push_reserved(job.task.work_on(piece, taken));
    }
    (pass, room)
}

/// What a team made of a board, and what the caller's thread answered before it began.
pub struct Teamwork<A> {
    /// It has all parts, and all that was taken.
    pub pass: Pass,
    /// The pieces that were taken, as they were worked.
    pub list: Vec<Done>,
    /// How many of them threads other than the caller's took.
    pub others: usize,
    pub answer: A,
}

/// What a team made of a board, with what one thread more did, which is none of the caller's.
pub fn joined<A>(board: &Board, ours: Teamwork<A>, theirs: Pass, mut done: Vec<Done>) -> Teamwork<A>
    requires boards { (ours.pass.board ≡ board.now) × (theirs.board ≡ board.now) }
    requires ours { length ours.list.items ≡ length ours.pass.taken }
    requires theirs { length done.items ≡ length theirs.taken }
    requires room { length ours.pass.posted ≤ vec_capacity ours.list }
    requires others { ours.others ≤ vec_len ours.list }
    ensures pass { result.pass ≡ joined_pass ours.pass theirs }
    ensures list { result.list.items ≡ ours.list.items ++ done.items }
    ensures room { length ours.pass.posted ≤ vec_capacity result.list }
    ensures others { result.others ≤ vec_len result.list }
    ensures answer { result.answer ≡ ours.answer }
{
    let Teamwork {
        pass,
        mut list,
        others,
        answer,
    } = ours;
    let pass = board.join(pass, theirs);
    let more = done.len();
    match list.append(&mut done) {
        Ok(()) => Teamwork {
            pass,
            list,
            others: others + more,
            answer,
        },
        Err(_) => unreachable!(),
    }
}

/// The caller's thread and one more for each further room: starts a thread for one, goes on with the others, and joins it.
/// What a thread that can't be started was to do is done by the others. Once all others are started the caller's thread
/// calls `first`, and then works too.
pub fn fan_out<T: Task + Sync, G: Gate, R: Threads + Wait + Sync, A, F: FnOnce() -> A>(
    rt: &R,
    job: &TeamJob<T, G>,
    pass: Pass,
    room: Vec<Done>,
    mut rooms: Vec<Vec<Done>>,
    first: F,
) -> Teamwork<A>
    requires board { pass.board ≡ job.now.board.now }
    requires pieces { All (T.Fits job.now.task.now) pass.posted }
    requires room { (pass.taken ≡ []) × (room.items ≡ []) × (length pass.posted ≤ vec_capacity room) }
    requires rooms { All (IsRoom (length pass.posted)) rooms.items }
    requires parts { vec_len rooms < pass.parts }
    requires first { F.pre first }
    ensures pass { result.pass ≡ having pass result.pass.taken true }
    ensures done { AllZip (T.Worked job.now.task.now) result.pass.taken result.list.items }
    ensures room { length pass.posted ≤ vec_capacity result.list }
    ensures others { result.others ≤ vec_len result.list }
    ensures alone { vec_len rooms ≡ 0 → result.others ≡ 0 }
    ensures answer { F.post first result.answer }
{
    let (board, task, gate) = (job.board, job.task, job.gate);
    let Some(theirs) = rooms.pop() else {
        let answer = first();
        let gate = &Teller { gate };
        let (pass, list) = work(rt, &TeamJob { board, task, gate }, pass, room);
        return Teamwork {
            pass,
            list,
            others: 0,
            answer,
        };
    };
    let (mine, new) = board.split(pass);
    let ((new, theirs), ours) = thread::join(
        rt,
        move || -> (Pass, Vec<Done>)
            requires board { new.board ≡ board.now }
            requires pieces { All (T.Fits task.now) new.posted }
            requires room { (new.taken ≡ []) × (theirs.items ≡ []) × (length new.posted ≤ vec_capacity theirs) }
            ensures pass { result.0 ≡ having new result.0.taken true }
            ensures done { AllZip (T.Worked task.entry.now) result.0.taken result.1.items }
        {
            work(
                rt,
                &TeamJob {
                    board,
                    task,
                    gate: &Teller { gate },
                },
                new,
                theirs,
            )
        },
        move || -> Teamwork<A>
            requires sync { IsSync R.row }
            requires board { mine.board ≡ board.now }
            requires pieces { All (T.Fits task.now) mine.posted }
            requires room { (mine.taken ≡ []) × (room.items ≡ []) × (length mine.posted ≤ vec_capacity room) }
            requires rooms { All (IsRoom (length mine.posted)) rooms.items }
            requires parts { vec_len rooms < mine.parts }
            requires first { F.pre first }
            ensures pass { result.pass ≡ having mine result.pass.taken true }
            ensures done { AllZip (T.Worked task.entry.now) result.pass.taken result.list.items }
            ensures room { length mine.posted ≤ vec_capacity result.list }
            ensures others { result.others ≤ vec_len result.list }
            ensures answer { F.post first result.answer }
        { fan_out(rt, &TeamJob { board, task, gate }, mine, room, rooms, first) },
    );
    joined(board, ours, new, theirs)
}
