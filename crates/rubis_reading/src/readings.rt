//! Pieces of text as jobs, for a crew that reads them.

use crate::stretches::{Stretch, read_piece};
use rubis_crew::Job;
use rubis_engine::OutOfMemory;
use std::sync::Wait;

/// A piece of text that is to be read: of how many sites its messages may be, and how many that come one after the other are one run, at most.
#[derive(Drop)]
pub struct Reading {
    pub text: Vec<u8>,
    pub sites: u8,
    pub window: usize,
}

impl Job for Reading {
    type Output = Result<Vec<Stretch>, OutOfMemory>;

    ghost use Rattle.std.specs.Prelude.{◌≤◌, IfOk};
    ghost use Rattle.rubis_reading.specs.Readings.{AreRead};

    ghost Fits = { λ reading. reading.sites ≤ 16 };

    ghost Worked = { λ reading result. IfOk result (λ list. AreRead reading.sites reading.window reading.text.items list.items) };

    fn work<R: Wait>(self, _rt: &R) -> Result<Vec<Stretch>, OutOfMemory> {
        let alloc = *self.text.allocator();
        read_piece(alloc, self.text.as_slice(), self.sites, self.window)
    }
}
