//! The law of a site's run from records to answers, cut in two: what was answered before, and what is answered after.

ghost use Rattle.rubis_script.specs.Headline.{ReplaysGoOn};

/// A site that is fed the records that it was fed before stands where it stood, has answered what it answered, and goes on
/// from there: its answers to some records and then to more are those to the first, followed by those to the others of the
/// site as it stands then, with numbers that go on.
pub fn replays_go_on()
    ensures { ReplaysGoOn }
{}
