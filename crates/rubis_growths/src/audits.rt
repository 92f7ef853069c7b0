//! An audit of a log.

ghost use Rattle.std.specs.Prelude.{◌≡◌, All};
ghost use Rattle.rubis_message.specs.Message.{sites_of};

use crate::records::shop;
use crate::telling::{Host, Stop};
use rubis_audit::{Log, MessagePool, Verdict, audit};
use rubis_message::Message;
use rubis_schema::Items;
use std::alloc::{AllocError, Global};

// The verdict on one log of messages.
fn verdict_on(alloc: Global, messages: Items<Message>) -> Result<Verdict, AllocError>
    requires { All (λ m. sites_of m ≡ 2) messages }
{
    let mut pool = MessagePool::new(alloc);
    let shared = pool.share_all(messages.as_slice())?;
    let log = Log::new(0, shared, None);
    audit(alloc, &[log], 2)
}

/// An audit of the log of a shop, in which more is bought than there is.
pub fn audit_of_a_shop(rt: &impl Host) -> Result<(), Stop> {
    let window = shop(rt.alloc())?;
    let verdict = verdict_on(rt.alloc(), window.messages.into())?;
    let _ = println!(rt; "{verdict:?}");
    Ok(())
}
