//! Whether helpers are worth their threads.

ghost use Rattle.std.specs.Prelude.{◌≡◌, ◌<◌, ◌≤◌, ◌-◌, ◌==◌};
ghost use Rattle.rubis_reading.specs.declared.worth.TheConstants.{ALONE_MAX, COUNTED};

// Of how many pieces it is counted who read them.
const COUNTED: u32 = 64;

// How many pieces the caller's thread reads alone at first, and at most, before helpers are tried again.
const ALONE_MIN: u32 = 8;

const ALONE_MAX: u32 = 256;

/// Who read the last pieces.
#[derive(Clone, Copy)]
pub struct Worth {
    pieces: u32,
    mine: u32,
    // How many pieces are still to be read alone, and how many were when it last came to that.
    alone: u32,
    last: u32,
    ghost few: { pieces < COUNTED },
    ghost some: { mine ≤ pieces },
    ghost most: { last ≤ ALONE_MAX },
}

impl Worth {
    ghost use Rattle.rubis_reading.specs.Readings.{Counts, HasCounted, ReadsAlone, alone_after};

    /// Nothing was read yet.
    pub fn new() -> Worth
        ensures { Counts 0 0 result × ReadsAlone 0 0 result }
    {
        Worth {
            pieces: 0,
            mine: 0,
            alone: 0,
            last: 0,
        }
    }

    /// Whether the next piece is given to helpers.
    pub fn feeds(&mut self) -> bool
        ensures fed { result ≡ (self.old.alone == 0) }
        ensures counted { Counts self.old.pieces self.old.mine self.new }
        ensures left { ReadsAlone (self.old.alone - 1) self.old.last self.new }
    {
        if self.alone == 0 {
            return true;
        }
        self.alone -= 1;
        false
    }

    // How many pieces are read alone, where the caller's thread read `mine` of those that were counted.
    fn alone_after(&self, mine: u32) -> u32
        ensures known { result ≡ alone_after mine self.now.last }
        ensures most { result ≤ ALONE_MAX }
    {
        if mine > COUNTED / 8 * 7 {
            (self.last * 2).max(ALONE_MIN).min(ALONE_MAX)
        } else {
            0
        }
    }

    /// A piece was read, by the caller's thread or by a helper. Where helpers read less than an eighth, they aren't fed for a while.
    pub fn count(&mut self, mine: bool)
        ensures { HasCounted mine self.old self.new }
    {
        let pieces = self.pieces + 1;
        let mine = self.mine + u32::from(mine);
        if pieces < COUNTED {
            self.pieces = pieces;
            self.mine = mine;
            return;
        }
        let alone = self.alone_after(mine);
        *self = Worth {
            pieces: 0,
            mine: 0,
            alone,
            last: alone,
        };
    }
}
