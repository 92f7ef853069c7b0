//! What keys are for.

ghost use Rattle.rubis_keys.specs.KeyedRuns.{RedKeysAreUsedOnce};
ghost use Rattle.rubis_keys.specs.Laws.{AnsweredAsThen, AnswersGoOn, KeysChangeNothing, KnownIsThere, KnownStays, OneAskAKey};

/// What holds of any records of a site: keys change nothing of what it comes to, but that an ask that was accepted isn't accepted again; a message
/// that is known is released or waits, and stays known; of the asks of a colour under a key one is accepted at most; and each later one is told
/// the id of that, or that the key is taken by another ask.
pub fn keys_hold()
    ensures goes_on { AnswersGoOn }
    ensures bare { KeysChangeNothing }
    ensures there { KnownIsThere }
    ensures stays { KnownStays }
    ensures once { OneAskAKey }
    ensures again { AnsweredAsThen }
{}

/// In every run whose packets are carried unchanged, with the keys under which their messages were asked, two red messages that were asked under
/// one key are the same; and where a red ask comes under it later, its site knows that message under it, or refuses the ask as `Full`, `NoToken` or
/// `RedBehind`. A blue ask may be accepted at each of several sites, as long as these don't have each other's message.
pub fn red_keys_are_used_once()
    ensures { RedKeysAreUsedOnce }
{}
