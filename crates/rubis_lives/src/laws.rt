//! What holds of runs that are cut off and start again.

ghost use Rattle.rubis_lives.specs.Crashes.{EndsAsUncut, DifferencesAreFound, EditsAreFound, EndsLeft, LivesLeft, QuestionsLeaveNothing};
ghost use Rattle.rubis_lives.specs.Calls.{CallsAreLives, RaisedCallsRaise, ShortenedMayReplace};
ghost use Rattle.rubis_lives.specs.Folders.{FoldersAreARun};
ghost use Rattle.rubis_lives.specs.Histories.{HistoriesAreRuns, RaisedKeepsTakeTheSame, RefusedAsFullAreNoEvents, LivesAreHistories, ShopLivesAreRuns};
ghost use Rattle.rubis_lives.specs.Histories.{AnsweredBeforeMore, BegunTooEarlyIsUnsafe, KeptTooEarlyIsUnsafe, KillsLeaveFiles, PowerFailuresLeaveFiles};
ghost use Rattle.rubis_lives.specs.Histories.{RaisedKeepsTellTheSame, ShownTooEarlyIsUnsafe, SiteTextsExtend, ToldTooEarlyIsUnsafe};
ghost use Rattle.rubis_lives.specs.Shops.{SendsWithoutKeys};
ghost use Rattle.rubis_lives.specs.Rewriting.{NamedBeforeEmptied, NamedBeforeFlushed, RewritingLeavesFiles, ShorteningKeepsThePromise};

/// A run that was cut off any number of times, and anywhere, comes to where one comes that was never cut off. However a run ends,
/// it leaves what the next one can begin with. Questions leave nothing. Answers that aren't those to what was kept, and a line that no run kept, are found
/// before a file is changed.
pub fn crash_and_restart()
    ensures comes_back { EndsAsUncut }
    ensures ends { EndsLeft }
    ensures lives { LivesLeft }
    ensures differences { DifferencesAreFound }
    ensures edits { EditsAreFound }
    ensures questions { QuestionsLeaveNothing }
{}

/// What `keep_site` promises of each moment. A process that is killed at any moment, also within a write, leaves files with which the next
/// one can begin; and so does a power failure, if what was flushed survives it: all that was told is told again then. What a site tells stays
/// when more records come, and it keeps none before all that was kept before is answered, and the line `kept,..` says so.
pub fn moments_leave_files()
    ensures kills { KillsLeaveFiles }
    ensures power_failures { PowerFailuresLeaveFiles }
    ensures sites { SiteTextsExtend }
    ensures answered { AnsweredBeforeMore }
{}

/// A site that keeps more messages from now on tells again what it told, or changes neither file. Where it tells it, it takes the same of the
/// records that it has kept; and those that it refuses as full are no events: a site that keeps more comes to the same state, and sends the
/// same, by the others.
pub fn raised_keeps_tell_the_same()
    ensures told { RaisedKeepsTellTheSame }
    ensures taken { RaisedKeepsTakeTheSame }
    ensures refused { RefusedAsFullAreNoEvents }
{}

/// A site whose records were shortened keeps the promise: it comes to the state, and sends the packets, that it would have come to and sent, and
/// answers later records as it would have answered them, but for their numbers. At each moment of the rewriting a kill and a power failure
/// leave what was kept, or all of what replaces it with no answers yet; in other orders of its flushes and its rename they don't.
pub fn shortening_keeps_the_promise()
    ensures answers { ShorteningKeepsThePromise }
    ensures files { RewritingLeavesFiles }
    ensures emptied { NamedBeforeEmptied }
    ensures flushed { NamedBeforeFlushed }
{}

/// The histories of the sites of a shop, interleaved in any way, are a run of the model, also after power failures, and where what a site
/// has kept is shortened, or it keeps more messages from then on: if packets are carried unchanged.
pub fn histories_are_runs()
    ensures { HistoriesAreRuns }
{}

/// What a site sends under a key is, without it, what a process of the model sends: where packets are carried unchanged, those of the processes
/// are, whose moments are the records of the sites without their keys.
pub fn packets_are_sent_without_their_keys()
    ensures { SendsWithoutKeys }
{}

/// What the calls of a site in a folder promise makes its lives: a call of `keep_site`, as far as it came, is one; what `shorten` writes may
/// replace what was kept; and a run that keeps more messages, after one without input, raises the site or changes neither file.
pub fn calls_make_lives()
    ensures lives { CallsAreLives }
    ensures shortened { ShortenedMayReplace }
    ensures raised { RaisedCallsRaise }
{}

/// What `keep_site` promises of each of its calls makes a shop. The lives of a site, each over the files that the one before has left, which
/// end anywhere, by a kill or a power failure, or after which what was kept is shortened or the site keeps more messages, keep its files safe
/// at each step, whatever happens elsewhere; so sites with such lives, interleaved in any way, are a run of the model: if packets are carried
/// unchanged.
pub fn shop_lives_are_runs()
    ensures histories { LivesAreHistories }
    ensures runs { ShopLivesAreRuns }
{}

/// Folders with their lives, which end anywhere, and may be shortened and raised in between, are a run that keeps its promises on auctions, if
/// packets are carried unchanged: equal sets of messages have equal tables, nicknames are unique, no more is sold than there was, and the
/// winner of a closed auction is its highest accepted bid. A folder that is lost is rebuilt from what its site sent, and with the new one
/// in its place the folders are such a run again.
pub fn folders_are_a_run()
    ensures { FoldersAreARun }
{}

/// A history is refused in which something is told before its line is kept and flushed, or shown before the line `kept,..` or before `out` has
/// it; in which a line is kept before `kept,..`, or before all that was told is shown; and in which that is shown twice, or before it is written down how the site is set up.
pub fn early_answers_are_unsafe()
    ensures told { ToldTooEarlyIsUnsafe }
    ensures shown { ShownTooEarlyIsUnsafe }
    ensures kept { KeptTooEarlyIsUnsafe }
    ensures begun { BegunTooEarlyIsUnsafe }
{}
