//! The stamp of a message: its id, its counts, and its red number.

ghost use Rattle.std.specs.Prelude.{◌≡◌};
ghost use Rattle.rubis_clock.specs.Clocks.{widening_stamp};

use crate::counts::Deps;
use rubis_schema::{COUNTED_MAX, Id};

/// A message's id, its red number (0 for a blue shadow), and what its origin had released when it made it.
#[derive(Clone, Copy, PartialEq, Eq)]
pub struct Stamp {
    pub id: Id,
    pub red: u32,
    pub deps: Deps,
}

impl Stamp {
    /// The stamp with counts of 0 for the further sites, `sites` in all. It takes no memory.
    ///
    /// # Errors
    ///
    /// The stamp itself, if it counts more than `sites` or if `sites` is above 16.
    pub fn widen(self, sites: u8) -> Result<Stamp, Stamp>
        ensures { result ≡ widening_stamp sites self }
    {
        let counted = self.deps.len();
        let wanted = usize::from(sites);
        if wanted < counted || wanted > COUNTED_MAX {
            return Err(self);
        }
        let mut deps = self.deps;
        for _ in counted..wanted {
            deps.push(0);
        }
        Ok(Stamp {
            id: self.id,
            red: self.red,
            deps,
        })
    }
}
