//! The audit: a walk over one log after another.

ghost use Rattle.std.specs.Prelude.{◌≡◌, ◌≤◌, IfOk};
ghost use Rattle.rubis_schema.specs.declared.limits.TheConstants.{COUNTED_MAX};
ghost use Rattle.rubis_message.specs.declared.answers.Verdict.TheVariants.{Agree};
ghost use Rattle.rubis_model.specs.Audit.{AreFaultless, AreSound};
ghost use Rattle.rubis_model.specs.Verdict.{verdict};
ghost use Rattle.rubis_audit.specs.Walks.{HaveMessagesAmong};

use crate::logs::Log;
use crate::seen::Seen;
use crate::walks::walk;
use rubis_message::Verdict;
use rubis_schema::Hashes;
use std::alloc::{AllocError, Global};

// How many messages the longest log has.
fn longest(logs: &[Log]) -> usize {
    let mut many = 0;
    for log in logs {
        many = log.messages().len().max(many);
    }
    many
}

/// The first fault of these logs, in order, or Agree if there is none. Logs of which it says Agree pass the checks together, and
/// are sound: they causally serialize one RedBlue order, and the invariants hold over all of them. It hashes by keys that are the
/// same in each run; `audit_hashed` takes others.
///
/// # Errors
///
/// `AllocError` if memory runs out.
pub fn audit(alloc: Global, logs: &[Log], sites: u8) -> Result<Verdict, AllocError>
    requires few { sites ≤ COUNTED_MAX }
    requires among { HaveMessagesAmong sites logs.now }
    ensures verdict { IfOk result (λ found. found ≡ verdict logs.now) }
    ensures faultless { IfOk result (λ found. found ≡ Agree → AreFaultless logs.now) }
    ensures sound { IfOk result (λ found. found ≡ Agree → AreSound logs.now) }
{
    audit_hashed(alloc, logs, sites, Hashes::fixed())
}

/// Audits logs as `audit`, hashing by these keys: logs that were chosen to collide under other keys cost no more than others.
///
/// # Errors
///
/// `AllocError` if memory runs out.
pub fn audit_hashed(
    alloc: Global,
    logs: &[Log],
    sites: u8,
    hashes: Hashes,
) -> Result<Verdict, AllocError>
    requires few { sites ≤ COUNTED_MAX }
    requires among { HaveMessagesAmong sites logs.now }
    ensures verdict { IfOk result (λ found. found ≡ verdict logs.now) }
    ensures faultless { IfOk result (λ found. found ≡ Agree → AreFaultless logs.now) }
    ensures sound { IfOk result (λ found. found ≡ Agree → AreSound logs.now) }
{
    let mut seen = Seen::with_room(alloc, hashes, longest(logs))?;
    for at in 0..logs.len() {
        if let Some((kind, entry)) = walk(alloc, &mut seen, logs, at, sites)? {
            return Ok(Verdict::Found(kind, at + 1, entry));
        }
    }
    Ok(Verdict::Agree)
}
