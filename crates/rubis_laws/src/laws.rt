//! The laws of runs and of logs, each with its statement in rubis_model/specs.

ghost use Rattle.rubis_model.specs.AuditRecords.{AgreedAuditsAreSound, LinesAreReadAsWritten, LogsAreReadAsWritten};
ghost use Rattle.rubis_model.specs.Laws.{AllCanBeDelivered, AllHadAreReleased, DeliveredAreHad, DeliveringAllConverges, HavingAllConverges, MomentsAreReleased};
ghost use Rattle.rubis_model.specs.Laws.{NoMessageIsRefused, LogsOnlyGrow, MeaningIsOne, FoldIsMeaning, CheckedLogsHold, DecidedShadowsFit};
ghost use Rattle.rubis_model.specs.Laws.{EqualSetsEqualTables, RunsAreInOrder, RunsKeepInvariants, RunsAgreeOnTables, RunsSendDeliverables};
ghost use Rattle.rubis_model.specs.Laws.{RefusalsChangeNothing, FaultlessLogsAreSound, RunsAreFaultless, AgreesWhereFaultless, AgreedLogsAreSound, RunsAgree};
ghost use Rattle.rubis_model.specs.Laws.{NicknamesAreUnique, RedsAreInOneOrder};
ghost use Rattle.rubis_model.specs.Commuting.{BlueMessagesCommute};
ghost use Rattle.rubis_model.specs.Forged.{NamesAreHeld, NamesStay, SitesKeepStock, StockIsKept};
ghost use Rattle.rubis_model.specs.Rebuild.{GivenAreReleased, GivenConverge, GivenHaveTheTablesOfTheRun, InputsRebuild, SitesAreRebuilt, AsksAreReadOff};
ghost use Rattle.rubis_model.specs.Rebuild.{RecordsRebuild};
ghost use Rattle.rubis_model.specs.Lack.{CompletedTablesAreEqual, LackIsReleased, LackIsReleasedInRuns, LackNeverWaits, LacksTheRest, OneRoundConverges};
ghost use Rattle.rubis_model.specs.Lack.{WaitingIsExplained, LackFollowsTheAudit};
ghost use Rattle.rubis_model.specs.Widening.{MeaningStays, VerdictStays, WidenedAreAmong, AuditStays};
ghost use Rattle.rubis_model.specs.Processes.{ProcessesAgree, ProcessesAgreeOnTables, ProcessesAreARun, ProcessesAreInRun, ProcessesConverge};
ghost use Rattle.rubis_model.specs.Processes.{ProcessesKeepInvariants, ProcessesKnowTheirOwn, AnswersAreARun, AuditsAgree, RecordsAreARun};
ghost use Rattle.rubis_model.specs.Processes.{RecordsKeepInvariants, AnswersStay, NewRecordsAreRead, NothingIsLeftOut, ReadingsAreMoments, RecordingsReplay};
ghost use Rattle.rubis_model.specs.Processes.{RestartedAgree, RestartedConverge, RestartsChangeNothing};

/// A log that passes the checks folds without misfit to the meaning of its set, and there is only one.
pub fn fold_is_meaning()
    ensures fold { FoldIsMeaning }
    ensures one { MeaningIsOne }
{}

/// In a log that passes the checks no more is sold than there was, each nickname has one user, and the winner of a closed
/// item is its highest bid.
pub fn checked_logs_hold()
    ensures { CheckedLogsHold }
{}

/// The shadow of an ask that isn't refused at the tables of a log that passes the checks fits after it.
pub fn decided_shadows_fit()
    ensures { DecidedShadowsFit }
{}

/// A blue message and another one may follow a log that passes the checks in either order, and the tables are the same: a restock
/// and a purchase of the same item, too.
pub fn blue_messages_commute()
    ensures { BlueMessagesCommute }
{}

/// Logs that pass the checks and have equal sets fold to equal tables.
pub fn equal_sets_equal_tables()
    ensures { EqualSetsEqualTables }
{}

/// In every run all logs causally serialize one RedBlue order.
pub fn every_run_is_in_order()
    ensures { RunsAreInOrder }
{}

/// In every run each log passes the checks, and the invariants hold over all sites.
pub fn every_run_keeps_invariants()
    ensures { RunsKeepInvariants }
{}

/// Logs with equal sets have equal tables, at any two sites and moments of any two runs.
pub fn every_run_agrees_on_tables()
    ensures { RunsAgreeOnTables }
{}

/// Whatever happens afterwards, what a site has released stays in its log, in its place.
pub fn logs_only_grow()
    ensures { LogsOnlyGrow }
{}

/// A site that has every message that was sent has released them all, and such sites have equal tables; if sites keep as many
/// messages as were sent, they get there once each message was delivered, in any order and however often. And a site that has
/// every message sent up to some moment has released these, whatever was sent since.
pub fn every_run_converges()
    ensures released { AllHadAreReleased }
    ensures moments { MomentsAreReleased }
    ensures tables { HavingAllConverges }
    ensures had { DeliveredAreHad }
    ensures delivered { DeliveringAllConverges }
    ensures taken { NoMessageIsRefused }
    ensures possible { AllCanBeDelivered }
{}

/// A new site that is given all messages of a run, one by one or many at a time, in any order and repeated at will, has released
/// exactly these, and has the tables of each other such site, and of each site of the run that has released them. What `arrive`
/// and `arrive_all` of a site promise is what it is given here, whatever its batch, shards and workers.
pub fn given_sites_converge()
    ensures released { GivenAreReleased }
    ensures tables { GivenConverge }
    ensures run { GivenHaveTheTablesOfTheRun }
{}

/// Of logs that pass the checks together, what a log lacks of the others is released by a site with that log in the order in
/// which it is listed, each message as it arrives; then the site has all messages of the logs, and such sites have equal
/// tables. So after one round of that all sites of a run have all messages and equal tables.
pub fn what_is_lacking_completes()
    ensures rest { LacksTheRest }
    ensures released { LackIsReleased }
    ensures runs { LackIsReleasedInRuns }
    ensures held { LackNeverWaits }
    ensures tables { CompletedTablesAreEqual }
    ensures round { OneRoundConverges }
{}

/// What is answered as lacking follows the audit: where that is Agree, the records are those of logs that pass the checks, and
/// each log's lack is answered; else the auditor's record is.
pub fn lack_follows_the_audit()
    ensures { LackFollowsTheAudit }
{}

/// A message that waits at a site of a run waits for one that was sent, precedes it or has a smaller red number, and isn't
/// in the site's log; and what is named by id or by red number is one.
pub fn waiting_is_explained()
    ensures { WaitingIsExplained }
{}

/// Among at most 16 sites, each packet of a run can be taken in by each of them.
pub fn every_run_sends_deliverables()
    ensures { RunsSendDeliverables }
{}

/// An event that is refused changes nothing, nor does a packet that came again, nor a listing.
pub fn refusals_change_nothing()
    ensures { RefusalsChangeNothing }
{}

/// Logs that pass the checks together are sound.
pub fn faultless_logs_are_sound()
    ensures { FaultlessLogsAreSound }
{}

/// The logs of every run, each as it was at any moment, with its tables then or without, pass the checks together.
pub fn every_run_is_faultless()
    ensures { RunsAreFaultless }
{}

/// An auditor's verdict is Agree if and only if the logs pass the checks together.
pub fn verdict_agrees_where_faultless()
    ensures { AgreesWhereFaultless }
{}

/// Logs of which the verdict is Agree are sound.
pub fn agreed_logs_are_sound()
    ensures { AgreedLogsAreSound }
{}

/// Of the logs of every run, each as it was at any moment, with its tables then or without, the verdict is Agree.
pub fn every_run_is_agreed()
    ensures { RunsAgree }
{}

/// The records of an audit are those of exactly the logs that they are read as.
pub fn audits_are_read_as_written()
    ensures lines { LinesAreReadAsWritten }
    ensures logs { LogsAreReadAsWritten }
{}

/// The logs that the records of an audit say are sound, if its answer is Agree.
pub fn agreed_audits_are_sound()
    ensures { AgreedAuditsAreSound }
{}

/// The records of several sites are a run of them: after any records the claims of every run hold, an audit is answered
/// Agree, and the answers are the text of that run.
pub fn records_are_a_run()
    ensures run { RecordsAreARun }
    ensures invariants { RecordsKeepInvariants }
    ensures audits { AuditsAgree }
    ensures text { AnswersAreARun }
{}

/// Over all sites of a run, nicknames are unique: at each point of the one order of its red messages, no nickname has two users.
/// Two sites may show one nickname for two users at one moment, since one of them may not have a rename yet.
pub fn nicknames_are_unique()
    ensures unique { NicknamesAreUnique }
    ensures order { RedsAreInOneOrder }
{}

/// Separate processes are a run, if packets are carried unchanged: whenever a process reads a packet, one of them had sent it
/// with the same fields. Then their logs causally serialize one RedBlue order and the invariants hold, equal sets of messages
/// have equal tables, the verdict on their logs is Agree, and none answers NotOurs. Processes that have read all messages have
/// released exactly these, and have equal tables.
pub fn processes_are_a_run()
    ensures run { ProcessesAreARun }
    ensures claims { ProcessesAreInRun }
    ensures invariants { ProcessesKeepInvariants }
    ensures tables { ProcessesAgreeOnTables }
    ensures audits { ProcessesAgree }
    ensures own { ProcessesKnowTheirOwn }
    ensures converge { ProcessesConverge }
{}

/// Processes that stop at any moment, and are restarted on their recordings, are processes that never stopped: what a process
/// answered stays as it was when it reads more. The verdict on their logs, each as it was at any moment, is Agree, and processes
/// that have read all messages have equal tables, however often they were restarted. A recording may be read again at any
/// moment, and may lack records that changed nothing; after that the process may read new records.
pub fn restarts_change_nothing()
    ensures answers { AnswersStay }
    ensures processes { RestartsChangeNothing }
    ensures audits { RestartedAgree }
    ensures converge { RestartedConverge }
    ensures readings { ReadingsAreMoments }
    ensures recordings { RecordingsReplay }
    ensures whole { NothingIsLeftOut }
    ensures new { NewRecordsAreRead }
{}

/// A site that lost its disk can be made again from what the sites sent: a fresh one is given, for each packet that the site sent,
/// what that counts and needs, and then the ask of its shadow. Then it sends the same packets again, its log has exactly what
/// those count, and with it in its place the sites are a run that sent the same. What it is given are records, each of which it
/// reads as what it is there for, and the rows that it sends are those of before; the record of an ask is read off its message.
pub fn sites_are_rebuilt()
    ensures again { SitesAreRebuilt }
    ensures inputs { InputsRebuild }
    ensures records { RecordsRebuild }
    ensures asks { AsksAreReadOff }
{}

/// In every log, forged ones too, no stock is below zero, and a nickname's row stays until its user is renamed. Of a log that a
/// site can have that holds with no condition on sums.
pub fn every_log_holds()
    ensures stock { StockIsKept }
    ensures sites { SitesKeepStock }
    ensures names { NamesStay }
    ensures held { NamesAreHeld }
{}

/// Logs whose messages were widened to a number of sites are of that number, and have the same meaning and verdict.
pub fn widened_logs_agree()
    ensures among { WidenedAreAmong }
    ensures meaning { MeaningStays }
    ensures verdict { VerdictStays }
    ensures records { AuditStays }
{}
