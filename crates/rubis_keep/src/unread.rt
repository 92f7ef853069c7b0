//! What of an input was read and isn't looked at yet.

ghost use Rattle.std.specs.Prelude.{◌≡◌, ◌<◌, ◌≤◌, [], IfErr, IfOk, drop, false, length, true};
ghost use Rattle.std.specs.Io.KnownBytes.{Consumes, IsAtEnd};
ghost use Rattle.rubis_keep.specs.Faults.{IsFailure};
ghost use Rattle.rubis_keep.specs.Turns.{left_to_read};

use crate::fault::KeepFault;
use rubis_engine::read_through_signals;
use std::alloc::{AllocError, Global};
use std::io::Read;
use std::marker::Model;

/// How many bytes are read at once.
pub(crate) const PIECE: usize = 65_536;

/// Bytes of an input that were read at once, of which some first ones were looked at. Contracts see the others.
#[derive(Drop)]
pub struct Unread {
    piece: Vec<u8>,
    at: usize,
    end: usize,
}

impl Model for Unread {
    ghost use Rattle.std.specs.Prelude.{◌<◌, ◌≤◌, ◌-◌, ℕ, List, drop, take};
    ghost use Rattle.std.specs.Vec.{vec_len};

    ghost Value = { List ℕ };

    ghost view = { λ u. take (u.end - u.at) (drop u.at u.piece.items) };

    ghost invariant = { λ u. (u.at ≤ u.end) × (u.end ≤ vec_len u.piece) × (0 < vec_len u.piece) };
}

impl Unread {
    /// Nothing was read. At most `most` bytes are read at once.
    pub(crate) fn new(alloc: Global, most: usize) -> Result<Unread, AllocError>
        requires { 0 < most }
        ensures { IfOk result (λ unread. unread ≡ []) }
    {
        let mut piece = Vec::new(alloc);
        piece.resize(most, 0)?;
        Ok(Unread {
            piece,
            at: 0,
            end: 0,
        })
    }

    /// Lets the bytes go.
    pub(crate) fn clear(&mut self)
        ensures { self.new ≡ [] }
    {
        self.at = 0;
        self.end = 0;
    }

    /// Lets the bytes go. From now on at most `most` are read at once, and no more than before.
    pub(crate) fn restart(&mut self, most: usize)
        requires { 0 < most }
        ensures { self.new ≡ [] }
    {
        self.at = 0;
        self.end = 0;
        self.piece.truncate(most);
    }

    /// Reads the next bytes of an input, if all are looked at. Whether there are any.
    pub(crate) fn fill<R: Read>(&mut self, live: &mut R) -> Result<bool, KeepFault>
        ensures same { Consumes (left_to_read self.old (R.remaining live.old)) (left_to_read self.new (R.remaining live.new)) [] }
        ensures end { IfOk result (λ more. more ≡ false → (self.new ≡ []) × IsAtEnd (R.remaining live.new)) }
        ensures more { IfOk result (λ more. more ≡ true → 0 < length self.new) }
        ensures fault { IfErr result IsFailure }
    {
        if self.at < self.end {
            return Ok(true);
        }
        self.clear();
        match read_through_signals(live, &mut self.piece) {
            Ok(0) => Ok(false),
            Ok(given) => {
                self.at = 0;
                self.end = given;
                Ok(true)
            }
            Err(e) => Err(KeepFault::ReadInput(e)),
        }
    }

    /// The bytes.
    pub(crate) fn bytes(&self) -> &[u8]
        ensures { result.now ≡ self.now }
    {
        &self.piece[self.at..self.end]
    }

    /// Passes over some of them.
    pub(crate) fn pass(&mut self, count: usize)
        requires { count ≤ length self.old }
        ensures { self.new ≡ drop count self.old }
    {
        self.at += count;
    }
}
