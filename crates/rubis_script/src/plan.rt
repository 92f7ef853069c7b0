//! How a site reads ahead.

ghost use Rattle.std.specs.Prelude.{◌≡◌, ◌+◌, ◌<◌, max};
ghost use Rattle.rubis_script.specs.declared.plan.TheConstants.{WINDOW_MIN};

use rubis_replica::Config;

// The least number of messages that are taken in together, where the text has them: all of a piece. With fewer a piece would take several
// turns.
const WINDOW_MIN: usize = 4096;

/// How a text is read ahead.
#[derive(Clone, Copy)]
pub struct Plan {
    /// How many helpers read, besides the thread that answers; with none, nothing is read ahead.
    pub helpers: u8,
    /// How many messages are taken in together, at most.
    pub window: usize,
}

impl Plan {
    /// How a site of that configuration reads ahead: all of its workers but one are helpers, and a window has at most as many
    /// messages as a batch, or as a piece of the text.
    pub fn of(config: &Config) -> Plan
        ensures helpers { result.helpers + 1 ≡ config.now.workers }
        ensures window { result.window ≡ max config.now.batch WINDOW_MIN }
        ensures some { 0 < result.window }
    {
        Plan {
            helpers: config.workers() - 1,
            window: (config.batch() as usize).max(WINDOW_MIN),
        }
    }
}
