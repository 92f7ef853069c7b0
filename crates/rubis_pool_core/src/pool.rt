//! The pool of pieces as a machine that takes one event after another.

ghost use Rattle.std.specs.Prelude.{◌≡◌, ◌+◌, ◌<◌, is_some, None, IfOk, IfErr, OnOk, OnErr, length, slice_get, replicate};
ghost use Rattle.std.specs.List.{All};
ghost use Rattle.rubis_pool_core.specs.Machine.{opening_pool, with_posted, posted_all, stepped, after_event, in_state, or_same, taken, applied, backed};
ghost use Rattle.rubis_pieces.specs.Batches.{IsPiece};

use crate::event::Event;
use crate::work::Work;
use rubis_pieces::{Done, Piece};
use std::alloc::{AllocError, Global};
use std::collections::VecDeque;
use std::marker::Model;

/// The schedule machine: what is posted, what each worker holds, and what was returned.
#[derive(Drop)]
pub struct Pool {
    posted: VecDeque<Piece>,
    held: Vec<Option<Work>>,
    returned: Vec<Done>,
    // How many pieces were ever posted.
    count: usize,
    capacity: usize,
}

impl Model for Pool {
    ghost use Rattle.std.specs.Prelude.{◌≤◌, length};
    ghost use Rattle.std.specs.List.{All};
    ghost use Rattle.std.specs.VecDeque.{deque_capacity};
    ghost use Rattle.rubis_pool_core.specs.Machine.{PoolOf, pool_code};
    ghost use Rattle.rubis_pieces.specs.Batches.{IsPiece};

    ghost Value = { PoolOf };

    ghost coded = { pool_code };

    ghost view = { λ p. record {
      capacity = p.capacity;
      count = p.count;
      state = record { posted = p.posted.items; held = p.held.items; returned = p.returned.items };
    } };

    ghost invariant = { λ p. All IsPiece p.posted.items × (length p.posted.items ≤ p.count) × (p.count ≤ p.capacity) × (p.capacity ≤ deque_capacity p.posted) };
}

impl Pool {
    /// A machine of `workers` workers, all free, to which up to `capacity` pieces may be posted.
    pub fn new(alloc: Global, workers: usize, capacity: usize) -> Result<Pool, AllocError>
        ensures { IfOk result (λ pool. pool ≡ record { capacity = capacity; count = 0; state = opening_pool workers }) }
    {
        Ok(Pool {
            posted: VecDeque::with_capacity(alloc, capacity)?,
            held: free_workers(alloc, workers)?,
            returned: Vec::new(alloc),
            count: 0,
            capacity,
        })
    }

    // A machine to which exactly these pieces were posted, in order, and no more may be.
    pub(crate) fn with_posted(
        alloc: Global,
        workers: usize,
        pieces: Vec<Piece>,
    ) -> Result<Pool, AllocError>
        requires { All IsPiece pieces.items }
        ensures { IfOk result (λ pool. pool ≡ record {
          capacity = length pieces.items;
          count = length pieces.items;
          state = posted_all
              (opening_pool workers) pieces.items;
        }) }
    {
        Ok(Pool {
            held: free_workers(alloc, workers)?,
            returned: Vec::new(alloc),
            count: pieces.len(),
            capacity: pieces.len(),
            posted: VecDeque::from_vec(pieces),
        })
    }

    /// Posts the piece. Hands it back and changes nothing if and only if `capacity` pieces were posted already.
    pub fn post(&mut self, piece: Piece) -> Result<(), Piece>
        requires { IsPiece piece }
        ensures posted { OnOk result ((self.old.count < self.old.capacity)
            × (self.new ≡ record { capacity = self.old.capacity; count = self.old.count + 1; state = with_posted self.old.state piece })) }
        ensures full { IfErr result (λ back. (back ≡ piece) × (self.old.count ≡ self.old.capacity) × (self.new ≡ self.old)) }
    {
        if self.count >= self.capacity {
            return Err(piece);
        }
        self.posted.push_back_reserved(piece);
        self.count += 1;
        Ok(())
    }

    /// Performs one event. Returns true if and only if the event is possible. An impossible event changes nothing, and
    /// neither does one that runs out of memory.
    pub fn step(&mut self, event: Event) -> Result<bool, AllocError>
        ensures possible { IfOk result (λ did. did ≡ is_some (stepped self.old.state event)) }
        ensures next { OnOk result (self.new ≡ in_state self.old (after_event self.old.state event)) }
        ensures same { OnErr result (self.new ≡ self.old) }
    {
        match event {
            Event::Take(worker) => Ok(self.take(worker)),
            Event::Apply(worker) => self.apply(worker),
            Event::Back(worker) => self.back(worker),
        }
    }

    fn take(&mut self, worker: usize) -> bool
        ensures possible { result ≡ is_some (taken (slice_get self.old.state.held worker) self.old.state.posted self.old.state worker) }
        ensures next { self.new ≡ in_state self.old (or_same self.old.state
            (taken (slice_get self.old.state.held worker) self.old.state.posted self.old.state worker)) }
    {
        if worker >= self.held.len() || self.held[worker].is_some() {
            return false;
        }
        match self.posted.pop_front() {
            None => false,
            Some(piece) => {
                self.held[worker] = Some(Work::begin(piece));
                true
            }
        }
    }

    fn apply(&mut self, worker: usize) -> Result<bool, AllocError>
        ensures possible { IfOk result (λ did. did ≡ is_some (applied (slice_get self.old.state.held worker) self.old.state worker)) }
        ensures next { OnOk result (self.new ≡ in_state self.old
            (or_same self.old.state (applied (slice_get self.old.state.held worker) self.old.state worker))) }
        ensures same { OnErr result (self.new ≡ self.old) }
    {
        if worker >= self.held.len() {
            return Ok(false);
        }
        let Some(work) = &mut self.held[worker] else {
            return Ok(false);
        };
        work.apply_next()
    }

    fn back(&mut self, worker: usize) -> Result<bool, AllocError>
        ensures possible { IfOk result (λ did. did ≡ is_some (backed (slice_get self.old.state.held worker) self.old.state worker)) }
        ensures next { OnOk result (self.new ≡ in_state self.old
            (or_same self.old.state (backed (slice_get self.old.state.held worker) self.old.state worker))) }
        ensures same { OnErr result (self.new ≡ self.old) }
    {
        if worker >= self.held.len() {
            return Ok(false);
        }
        match &self.held[worker] {
            Some(work) if work.is_whole() => {}
            _ => return Ok(false),
        }
        self.returned.reserve(1)?;
        let Some(work) = self.held[worker].take() else {
            unreachable!()
        };
        self.returned.push_reserved(work.into_done());
        Ok(true)
    }

    /// What was returned, in the order of the returns. The rest is let go.
    pub fn into_back(self) -> Vec<Done>
        ensures { result.items ≡ self.state.returned }
    {
        let Pool { returned, .. } = self;
        returned
    }
}

// As many workers as `workers` says, none of which holds a piece.
fn free_workers(alloc: Global, workers: usize) -> Result<Vec<Option<Work>>, AllocError>
    ensures { IfOk result (λ held. held.items ≡ replicate workers None) }
{
    let mut held = Vec::with_capacity(alloc, workers)?;
    for _ in 0..workers {
        held.push_reserved(None);
    }
    Ok(held)
}
