//! Records that were read and wait for their answers.

ghost use Rattle.std.specs.Prelude.{◌≡◌, ◌++◌, [], length, IfNone, IfOk, IfSome};
ghost use Rattle.std.specs.Vec.Iter.{into_iter_items};
ghost use Rattle.rubis_reading.specs.Readings.{flat, of_next, of_stretch};

use crate::stretches::Stretch;
use rubis_engine::OutOfMemory;
use std::alloc::Global;
use std::marker::Model;
use std::vec::IntoIter;

// How many records a run has.
fn count_stretch(run: &Stretch) -> usize
    ensures { result ≡ length (of_stretch run.now) }
{
    match run {
        Stretch::Messages(list) => list.len(),
        Stretch::One(_) => 1,
    }
}

// How many records several runs have, if a number can tell.
#[tactic(auto, using(crate::proofs::PieceFacts::count_facts))]
fn count_stretches(list: &[Stretch]) -> Option<usize>
    ensures { IfSome result (λ many. many ≡ length (flat list.now)) }
{
    let mut many = 0;
    for run in list {
        let Some(more) = count_stretch(run).checked_add(many) else {
            return None;
        };
        many = more;
    }
    Some(many)
}

/// Records that were read, in order, messages that came together in one run. Contracts see the runs that are left.
#[derive(Drop)]
pub struct Ahead {
    rest: IntoIter<Stretch>,
    // How many records they are.
    many: usize,
    ghost same: { many ≡ length (flat (into_iter_items rest)) },
}

impl Model for Ahead {
    ghost use Rattle.std.specs.Prelude.{List};
    ghost use Rattle.std.specs.Vec.Iter.{into_iter_items};
    ghost use Rattle.rubis_reading.specs.declared.stretches.Stretch.{Stretch};

    ghost Value = { List Stretch };

    ghost view = { λ a. into_iter_items a.rest };
}

impl Ahead {
    /// None.
    pub fn new(alloc: Global) -> Ahead
        ensures { result ≡ [] }
    {
        Ahead {
            rest: Vec::new(alloc).into_iter(),
            many: 0,
        }
    }

    /// What these runs have.
    ///
    /// # Errors
    ///
    /// Where they have more records than a number can tell.
    pub fn of(list: Vec<Stretch>) -> Result<Ahead, OutOfMemory>
        ensures { IfOk result (λ ahead. ahead ≡ list.items) }
    {
        let Some(many) = count_stretches(list.as_slice()) else {
            return Err(OutOfMemory);
        };
        Ok(Ahead {
            rest: list.into_iter(),
            many,
        })
    }

    /// How many are left.
    pub fn len(&self) -> usize
        ensures { result ≡ length (flat self.now) }
    {
        self.many
    }

    /// The next, and where messages came together all of them.
    pub fn next_stretch(&mut self) -> Option<Stretch>
        ensures parts { self.old ≡ of_next result ++ self.new }
        ensures none { IfNone result (self.old ≡ []) }
    {
        let Some(run) = self.rest.next() else {
            return None;
        };
        self.many -= count_stretch(&run);
        Some(run)
    }
}
