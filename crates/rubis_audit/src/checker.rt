//! The check of an input: a row for each record that is outside the grammar.

ghost use Rattle.std.specs.Prelude.{◌≡◌, ◌≤◌, ◌∷◌, ◌++◌, ℕ, List, [], IfErr, IfOk, IfSome, OnOk, Option};
ghost use Rattle.std.specs.Bool.{MatchBool};
ghost use Rattle.rubis_schema.specs.declared.limits.TheConstants.{COUNTED_MAX, RECORDS_MAX};
ghost use Rattle.rubis_engine.specs.Reading.{ReadsNext};
ghost use Rattle.rubis_engine.specs.Text.{input_records, rows_text};
ghost use Rattle.rubis_audit.specs.Checking.{CanCheckOneMore, ChecksRow, CountsNext, HasChecked, HasCheckedAll, IsChecked, OfEachCheck, StopsChecking, bad_row, checked_row};
ghost use Rattle.rubis_audit.specs.Checking.{checker_after, fault_for, none_so_far, recent};

use crate::line_reader::LineReader;
use crate::readings::is_read;
use crate::reasons::{Lines, reason_text};
use crate::record_faults::{RecordFault, place_after, record_fault};
use crate::widener::LinePlace;
use rubis_engine::{RunFault, Sink};
use rubis_schema::{Fields, RECORDS_MAX, Record, push_number};
use std::alloc::{AllocError, Global};
use std::io::{Read, Write};

/// As what records are read.
#[derive(Clone, Copy, PartialEq, Eq, Debug)]
pub enum Grammar {
    /// As those of a site.
    Site,
    /// As those of several sites in one run.
    World,
    /// As those of an audit.
    Audit,
}

/// How many records were read, and how many of them are outside the grammar.
#[derive(Clone, Copy, PartialEq, Eq, Debug)]
pub struct Tally {
    pub records: u64,
    pub bad: u64,
}

// What is known of the records so far: as what they are read, where the next one stands, and how many there are.
#[derive(Clone, Copy)]
struct Checker {
    grammar: Grammar,
    sites: u8,
    place: LinePlace,
    tally: Tally,
}

impl Checker {
    // What is wrong with the next record, if anything.
    fn fault<F: Record>(&self, alloc: Global, fields: &F) -> Result<Option<RecordFault>, AllocError>
        requires { self.now.sites ≤ COUNTED_MAX }
        ensures { IfOk result (λ fault. fault ≡ fault_for self.now.grammar self.now.sites self.now.place (F.fields fields.now)) }
    {
        if is_read(alloc, fields, self.grammar, self.sites)? {
            return Ok(None);
        }
        Ok(record_fault(fields, self.grammar, self.place, self.sites))
    }

    // Counts the next record, and says what is wrong with it, if anything.
    fn check<F: Record>(
        &mut self,
        alloc: Global,
        fields: &F,
    ) -> Result<Option<RecordFault>, AllocError>
        requires { CanCheckOneMore self.old }
        ensures fault { IfOk result (λ fault. fault ≡ fault_for self.old.grammar self.old.sites self.old.place (F.fields fields.now)) }
        ensures state { OnOk result (self.new ≡ checker_after self.old (F.fields fields.now)) }
        ensures sites { self.new.sites ≡ self.old.sites }
    {
        let fault = self.fault(alloc, fields)?;
        self.tally.records += 1;
        match (self.grammar, fault) {
            (_, Some(_)) => self.tally.bad += 1,
            (Grammar::Audit, None) => self.place = place_after(fields, self.place),
            _ => {}
        }
        Ok(fault)
    }
}

// Writes what is wrong with the record that was counted last.
fn write_bad<F: Record>(
    alloc: Global,
    sink: &mut Sink,
    checker: &Checker,
    row: &F,
    fault: RecordFault,
    lines: Lines,
) -> Result<(), AllocError>
    ensures { OnOk result (sink.new ≡ sink.old ++ rows_text (bad_row checker.now.sites checker.now.tally.records lines fault (F.fields row.now) ∷ [])) }
{
    let reason = reason_text(alloc, row, fault, lines, checker.sites)?;
    let mut fields = Fields::new(alloc);
    fields.push_plain(b"bad")?;
    push_number(&mut fields, checker.tally.records)?;
    push_number(&mut fields, lines.first)?;
    push_number(&mut fields, fault.field as u64)?;
    fields.push(&reason)?;
    sink.write_fields(&fields)
}

// Writes how many records there were, and how many of them are outside the grammar.
fn write_checked(alloc: Global, sink: &mut Sink, tally: Tally) -> Result<(), AllocError>
    ensures { OnOk result (sink.new ≡ sink.old ++ rows_text (checked_row tally ∷ [])) }
{
    let mut fields = Fields::new(alloc);
    fields.push_plain(b"checked")?;
    push_number(&mut fields, tally.records)?;
    push_number(&mut fields, tally.bad)?;
    sink.write_fields(&fields)
}

// A check as far as it has come.
#[derive(Drop)]
struct Check<R> {
    records: LineReader<R>,
    checker: Checker,
    sink: Sink,
    alloc: Global,
}

impl<R: Read> Check<R> {
    // Writes what is wrong with the record that was read last, if anything is.
    fn check_row(&mut self) -> Result<(), AllocError>
        requires { CanCheckOneMore self.old.checker }
        ensures checks { OnOk result (ChecksRow self.old self.new) }
        ensures records { self.new.records ≡ self.old.records }
        ensures sites { self.new.checker.sites ≡ self.old.checker.sites }
    {
        let row = self.records.row();
        let Some(fault) = self.checker.check(self.alloc, row)? else {
            return Ok(());
        };
        write_bad(
            self.alloc,
            &mut self.sink,
            &self.checker,
            row,
            fault,
            self.records.lines(fault.field),
        )
    }

    // Goes on to the next record, and says whether there was one. If it can't be read, what was found so far is written out.
    fn advance<W: Write>(&mut self, writer: &mut W) -> Result<bool, RunFault>
        ensures takes { IfOk result (λ found. ReadsNext (recent R.remaining) self.old.records.reader self.new.records.reader found self.new.records.row) }
        ensures kept { OnOk result ((self.new.sink ≡ self.old.sink) × (writer.new ≡ writer.old)) }
        ensures checker { self.new.checker ≡ self.old.checker }
        ensures broke { IfErr result (λ fault. OfEachCheck R.remaining self.old (W.contents writer.old) (λ grammar sites old all.
            StopsChecking grammar sites old (W.contents writer.new) all fault)) }
    {
        match self.records.advance() {
            Ok(found) => Ok(found),
            Err(fault) => {
                self.sink.close(writer)?;
                Err(fault)
            }
        }
    }

    // Checks the next record, if there is one, and says whether there was.
    fn check_next<W: Write>(&mut self, writer: &mut W) -> Result<bool, RunFault>
        requires { CanCheckOneMore self.old.checker }
        ensures goes { IfOk result (λ found. OfEachCheck R.remaining self.old (W.contents writer.old) (λ grammar sites old all. MatchBool found
            (HasChecked R.remaining grammar sites self.new old (W.contents writer.new) all)
            (HasCheckedAll grammar sites self.new.checker.tally self.new.sink old (W.contents writer.new) all))) }
        ensures counted { IfOk result (λ found. CountsNext found self.old.checker.tally self.new.checker.tally) }
        ensures sites { self.new.checker.sites ≡ self.old.checker.sites }
        ensures broke { IfErr result (λ fault. OfEachCheck R.remaining self.old (W.contents writer.old) (λ grammar sites old all.
            StopsChecking grammar sites old (W.contents writer.new) all fault)) }
    {
        if !self.advance(writer)? {
            return Ok(false);
        }
        self.check_row()?;
        if self.sink.is_full() {
            self.sink.drain(writer)?;
        }
        Ok(true)
    }

    // Writes the last row, and says how many records there were.
    fn end<W: Write>(&mut self, writer: &mut W) -> Result<Tally, RunFault>
        ensures done { IfOk result (λ tally. (grammar : Grammar) (sites : ℕ) (old : Option (List ℕ)) (all : List (List (List ℕ)))
            → HasCheckedAll grammar sites self.old.checker.tally self.old.sink old (W.contents writer.old) all
            → IsChecked grammar sites old (W.contents writer.new) all tally) }
        ensures broke { IfErr result (λ fault. (grammar : Grammar) (sites : ℕ) (old : Option (List ℕ)) (all : List (List (List ℕ)))
            → HasCheckedAll grammar sites self.old.checker.tally self.old.sink old (W.contents writer.old) all
            → StopsChecking grammar sites old (W.contents writer.new) all fault) }
    {
        write_checked(self.alloc, &mut self.sink, self.checker.tally)?;
        self.sink.close(writer)?;
        Ok(self.checker.tally)
    }

    // Ends a check that has read as many records as it reads at most.
    fn stop<W: Write>(&mut self, writer: &mut W) -> Result<Tally, RunFault>
        requires { self.old.checker.tally.records ≡ RECORDS_MAX }
        ensures done { IfOk result (λ tally. OfEachCheck R.remaining self.old (W.contents writer.old) (λ grammar sites old all.
            IsChecked grammar sites old (W.contents writer.new) all tally)) }
        ensures broke { IfErr result (λ fault. OfEachCheck R.remaining self.old (W.contents writer.old) (λ grammar sites old all.
            StopsChecking grammar sites old (W.contents writer.new) all fault)) }
    {
        if self.advance(writer)? {
            self.sink.close(writer)?;
            return Err(RunFault::TooLong);
        }
        self.end(writer)
    }
}

// Checks records until none is left, or as many as it reads at most.
fn check_all<R: Read, W: Write>(check: &mut Check<R>, writer: &mut W) -> Result<Tally, RunFault>
    requires few { check.old.checker.sites ≤ COUNTED_MAX }
    requires none { check.old.checker.tally ≡ none_so_far }
    ensures done { IfOk result (λ tally. OfEachCheck R.remaining check.old (W.contents writer.old) (λ grammar sites old all.
        IsChecked grammar sites old (W.contents writer.new) all tally)) }
    ensures broke { IfErr result (λ fault. OfEachCheck R.remaining check.old (W.contents writer.old) (λ grammar sites old all.
        StopsChecking grammar sites old (W.contents writer.new) all fault)) }
{
    'steps: for _checked in 0..RECORDS_MAX {
        if !check.check_next(writer)? {
            return check.end(writer);
        }
    }
    check.stop(writer)
}

/// Checks the records of `reader`, at most 4,000,000, as those of `sites` sites: appends to `writer` a row for each that is
/// outside the grammar, and last how many records there were and how many of these. Says as many.
///
/// # Errors
///
/// `Read` if the reader failed, and `TooLong` if the input has more records: what was found so far is written then. `Write` if
/// the writer failed. `Memory` if memory ran out.
pub fn run_check<R: Read + Drop, W: Write>(
    alloc: Global,
    reader: R,
    writer: &mut W,
    grammar: Grammar,
    sites: u8,
) -> Result<Tally, RunFault>
    requires { sites ≤ COUNTED_MAX }
    ensures done { IfOk result (λ tally. IfSome (R.remaining reader) (λ input.
        IsChecked grammar sites (W.contents writer.old) (W.contents writer.new) (input_records input) tally)) }
    ensures broke { IfErr result (λ fault. IfSome (R.remaining reader) (λ input.
        StopsChecking grammar sites (W.contents writer.old) (W.contents writer.new) (input_records input) fault)) }
{
    let mut check = Check {
        records: LineReader::new(alloc, reader),
        checker: Checker {
            grammar,
            sites,
            place: LinePlace::BeforeLogs,
            tally: Tally { records: 0, bad: 0 },
        },
        sink: Sink::new(alloc),
        alloc,
    };
    check_all(&mut check, writer)
}
