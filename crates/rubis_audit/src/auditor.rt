//! The auditor as a service: it reads logs, record by record, and answers once it has read them all.

ghost use Rattle.std.proofs.Common.{rules};
ghost use Rattle.std.specs.Prelude.{◌≡◌, ◌++◌, ◌≤◌, ℕ, List, [], IfOk, None, Ok, OnErr, OnOk, Some, false, refl, reverse, ⊤};
ghost use Rattle.rubis_message.specs.Message.{sites_of};
ghost use Rattle.rubis_model.specs.Verdict as logs;
ghost use Rattle.std.specs.Bool.{MatchBool};
ghost use Rattle.rubis_schema.specs.declared.limits.TheConstants.{COUNTED_MAX};
ghost use Rattle.rubis_model.specs.AuditRecords.{with_line};
ghost use Rattle.rubis_model.specs.AuditRecords.Line.{Begin, Claim, Next};
ghost use Rattle.rubis_audit.specs.Running.{IsAmongLine, line_as, AreAudited, IsCurrentAmong, LeadsAuditor, account_from, is_well, logs_so_far, rows_for};
ghost use Rattle.rubis_engine.specs.Text.{rows_text};

use crate::audits::audit_hashed;
use crate::lacks::write_lacks;
use crate::lines::{Line, read_line};
use crate::logs::Log;
use crate::pools::MessagePool;
use crate::verdicts::{write_bad_record, write_verdict};
use rubis_engine::{Course, InputRecord, OutOfMemory, Reply, RunFault, Service, Sink};
use rubis_message::{Message, Verdict};
use rubis_schema::{Fields, Hashes, Items, Shared};
use std::alloc::{AllocError, Global};
use std::io::Write;
use std::marker::Model;

/// What is answered once all logs are read.
#[derive(Clone, Copy, PartialEq, Eq)]
pub enum LogQuestion {
    /// Whether they agree.
    Agreement,
    /// What each log lacks of the others.
    Lacks,
}

/// An auditor of the logs of `sites` sites, as far as it has read them. Contracts see what is asked, the logs, newest first, and
/// whether nothing wrong was found in them.
#[derive(Drop)]
pub struct Auditor {
    asked: LogQuestion,
    // The logs before the one that is read, in order.
    ended: Vec<Log>,
    current: Option<Log>,
    pool: MessagePool,
    // Whether the end was reached, and nothing wrong was found.
    well: bool,
    sites: u8,
    hashes: Hashes,
    alloc: Global,
}

impl Model for Auditor {
    ghost use Rattle.rubis_audit.specs.Running.{AreForAuditor, AuditorState, logs_so_far};

    ghost Value = { AuditorState };

    ghost view = { λ a. record { sites = a.sites; asked = a.asked; logs = logs_so_far a.ended.items a.current; well = a.well } };

    ghost invariant = { λ a. AreForAuditor a.sites a.ended.items a.current };
}

// Appends the log that was read to those that ended. Before the first log there is none.
fn end_log(ended: &mut Vec<Log>, current: Option<Log>) -> Result<(), AllocError>
    ensures ok { OnOk result (ended.new.items ≡ reverse (logs_so_far ended.old.items current)) }
    ensures err { OnErr result (ended.new.items ≡ ended.old.items) }
{
    match current {
        Some(log) => {
            if ended.push(log).is_err() {
                return Err(AllocError);
            }
        }
        None => ended.clear(),
    }
    Ok(())
}

// Appends a message to the log that is read, if there is one that claims no row so far, and says whether there is.
fn push_message(current: &mut Option<Log>, message: Shared<Message>) -> Result<bool, AllocError>
    ensures ok { IfOk result (λ pushed. (ended : List logs.Log) → MatchBool pushed
        (with_line (logs_so_far ended current.old) (Next message) ≡ Some (logs_so_far ended current.new))
        (with_line (logs_so_far ended current.old) (Next message) ≡ None)) }
    ensures among { (sites : ℕ) → sites_of message ≡ sites → IsCurrentAmong sites current.old → IsCurrentAmong sites current.new }
{
    match current {
        Some(log) => {
            if log.rows().is_some() {
                return Ok(false);
            }
            log.push(message)?;
            Ok(true)
        }
        None => Ok(false),
    }
}

// Claims a row of the log that is read, if there is one, and says whether there is.
fn claim_row(
    alloc: Global,
    current: &mut Option<Log>,
    row: &InputRecord,
) -> Result<bool, AllocError>
    ensures ok { IfOk result (λ claimed. (ended : List logs.Log) → MatchBool claimed
        (with_line (logs_so_far ended current.old) (Claim row.now) ≡ Some (logs_so_far ended current.new))
        (with_line (logs_so_far ended current.old) (Claim row.now) ≡ None)) }
    ensures among { (sites : ℕ) → IsCurrentAmong sites current.old → IsCurrentAmong sites current.new }
{
    match current {
        Some(log) => {
            log.claim(alloc, row.to_fields(alloc)?)?;
            Ok(true)
        }
        None => Ok(false),
    }
}

// Writes what was asked of the logs, of which that is the verdict, and says whether it finds nothing wrong.
fn write_answer(
    alloc: Global,
    sink: &mut Sink,
    asked: LogQuestion,
    sites: u8,
    logs: &[Log],
    verdict: Verdict,
) -> Result<bool, AllocError>
    requires { AreAudited sites logs.now verdict }
    ensures rows { OnOk result (sink.new ≡ sink.old ++ rows_text (rows_for asked (Ok (reverse logs.now)))) }
    ensures well { IfOk result (λ well. well ≡ is_well asked logs.now verdict) }
{
    if let (LogQuestion::Lacks, Verdict::Agree) = (asked, verdict) {
        return write_lacks(alloc, sink, sites, logs);
    }
    let mut fields = Fields::new(alloc);
    write_verdict(&mut fields, sink, verdict)?;
    Ok(matches!(verdict, Verdict::Agree))
}

impl Auditor {
    /// An auditor of the logs of `sites` sites that has read no log. It hashes by keys that are the same in each run.
    pub fn new(alloc: Global, sites: u8, asked: LogQuestion) -> Auditor
        requires { sites ≤ COUNTED_MAX }
        ensures { result ≡ record { sites = sites; asked = asked; logs = []; well = false } }
    {
        Auditor::hashed(alloc, sites, asked, Hashes::fixed())
    }

    /// The same, hashing by these keys.
    pub fn hashed(alloc: Global, sites: u8, asked: LogQuestion, hashes: Hashes) -> Auditor
        requires { sites ≤ COUNTED_MAX }
        ensures { result ≡ record { sites = sites; asked = asked; logs = []; well = false } }
    {
        Auditor {
            asked,
            ended: Vec::new(alloc),
            current: None,
            pool: MessagePool::new(alloc),
            well: false,
            sites,
            hashes,
            alloc,
        }
    }

    /// Whether all logs were read and what was asked of them finds nothing wrong: they agree, and, if it is what they lack, none
    /// has lost messages of its own site.
    pub fn is_well(&self) -> bool
        ensures { result ≡ self.now.well }
    {
        self.well
    }

    // Begins a log of that site.
    fn begin(&mut self, site: u8) -> Result<(), AllocError>
        ensures sites { (self.new.sites ≡ self.old.sites) × (self.new.asked ≡ self.old.asked) }
        ensures well { self.new.well ≡ self.old.well }
        ensures log { OnOk result (with_line self.old.logs (Begin site) ≡ Some self.new.logs) }
    {
        let log = Log::new(site, Items::new(self.alloc), None);
        let current = self.current.replace(log);
        end_log(&mut self.ended, current)
    }

    // Takes what a record says, if it may stand here, and says whether it does.
    fn take(&mut self, fields: &InputRecord, line: Line) -> Result<bool, AllocError>
        requires { IsAmongLine self.old.sites (Some line) }
        ensures sites { (self.new.sites ≡ self.old.sites) × (self.new.asked ≡ self.old.asked) }
        ensures well { self.new.well ≡ self.old.well }
        ensures logs { IfOk result (λ taken. MatchBool taken
            (with_line self.old.logs (line_as fields.now line) ≡ Some self.new.logs)
            (with_line self.old.logs (line_as fields.now line) ≡ None)) }
    {
        match line {
            Line::Begin(site) => {
                self.begin(site)?;
                Ok(true)
            }
            Line::Next(message) => {
                let message = self.pool.share(message)?;
                push_message(&mut self.current, message)
            }
            Line::Claim => claim_row(self.alloc, &mut self.current, fields),
        }
    }
}

impl Service for Auditor {
    ghost account = { λ s n. account_from s.asked s.sites n s.logs };

    ghost leads = { λ old n records new. LeadsAuditor old records new };

    ghost Setup = { ⊤ };

    ghost setup = { λ s. tt };

    ghost shares = { ⊤ };

    ghost reads_none = { λ s n. refl };

    ghost reads_next = { Prim.search rules };

    fn answer<W: Write>(
        &mut self,
        fields: &InputRecord,
        reply: &mut Reply,
        _writer: &mut W,
    ) -> Result<Course, RunFault> {
        if let Some(line) = read_line(self.alloc, fields, self.sites)?
            && self.take(fields, line)?
        {
            return Ok(Course::GoesOn);
        }
        write_bad_record(&mut reply.draft.fields, &mut reply.sink, reply.number)?;
        Ok(Course::Ends)
    }

    fn answer_held(&mut self, _reply: &mut Reply) -> Result<(), OutOfMemory> {
        Ok(())
    }

    fn answer_end(&mut self, reply: &mut Reply) -> Result<(), OutOfMemory> {
        let current = self.current.take();
        end_log(&mut self.ended, current)?;
        let verdict = audit_hashed(self.alloc, &self.ended, self.sites, self.hashes)?;
        self.well = write_answer(
            self.alloc,
            &mut reply.sink,
            self.asked,
            self.sites,
            &self.ended,
            verdict,
        )?;
        Ok(())
    }
}
