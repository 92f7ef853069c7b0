//! A message as an entry of a log.

ghost use Rattle.std.specs.Prelude.{◌≡◌};
ghost use Rattle.rubis_message.specs.Message.{IsMessage};
ghost use Rattle.rubis_model.specs.Log.{core};

use rubis_message::Message;
use rubis_schema::Id;
use rubis_shadow::Shadow;

/// A message as an entry of a log: all of it that tables depend on.
#[derive(Clone, Copy)]
pub struct LogEntry<'a> {
    /// Its number in the log, from 1.
    pub number: u32,
    pub id: Id,
    /// The red number, 0 for a blue shadow.
    pub red: u32,
    pub shadow: &'a Shadow,
}

impl<'a> LogEntry<'a> {
    ghost use Rattle.rubis_shard.specs.Holdings.{core_of};

    /// The message as the entry of that number.
    #[inline(always)]
    pub fn new(number: u32, message: &'a Message) -> LogEntry<'a>
        ensures number { result.number ≡ number }
        ensures core { core_of result ≡ core message.now }
        ensures conditions { IsMessage message.now }
    {
        LogEntry {
            number,
            id: message.id(),
            red: message.red(),
            shadow: message.shadow(),
        }
    }
}
