//! A part of a message with the message's place in the log, and a misfit that it left.

ghost use Rattle.std.specs.Prelude.{◌≡◌, IfOk};

use crate::changes::MisfitKind;
use crate::keyed_change::Effect;
use rubis_schema::Id;
use std::alloc::AllocError;

/// A part with its place: the message's place in the log, from 1, the part's place in its message, from 1, and the
/// message's id.
pub struct Numbered {
    pub entry: u32,
    pub part: u8,
    pub id: Id,
    pub effect: Effect,
}

impl Drop for Numbered {
    // Proved here, once: a derived drop is proved anew in each crate that lets a part go.
    fn drop(self) {
        let Numbered {
            entry: _,
            part: _,
            id: _,
            effect: _,
        } = self;
    }
}

impl Numbered {
    /// Its effect, taken out.
    #[inline(always)]
    pub fn into_effect(self) -> Effect
        ensures { result ≡ self.effect }
    {
        let Numbered {
            entry: _,
            part: _,
            id: _,
            effect,
        } = self;
        effect
    }

    /// An equal part.
    pub fn copy(&self) -> Result<Numbered, AllocError>
        ensures { IfOk result (λ part. part ≡ self.now) }
    {
        Ok(Numbered {
            entry: self.entry,
            part: self.part,
            id: self.id,
            effect: self.effect.copy()?,
        })
    }
}

/// A part that didn't fit, by its place, and why.
#[derive(Clone, Copy)]
pub struct Misfit {
    pub entry: u32,
    pub part: u8,
    pub id: Id,
    pub kind: MisfitKind,
}
