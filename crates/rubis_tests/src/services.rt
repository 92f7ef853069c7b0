//! Tests of runs of a service from bytes to bytes: to their end, to their limit, with streams that fail, and with readers that wait for
//! the answers before they give more.

ghost use Rattle.std.proofs.Common.{rules};
ghost use Rattle.std.specs.Prelude.{◌≡◌, ◌∷◌, ◌++◌, None, OnOk, codes, length, map, ⊤, refl};
ghost use Rattle.std.specs.Option.{option_to_list};
ghost use Rattle.rubis_engine.specs.Text.{rows_text};

use crate::failing_streams::{read_until_each_byte, write_until_each_call};
use rubis_engine::{Count, Course, InputRecord, OutOfMemory, Reply, RunFault, Service, Sink};
use rubis_reading::Chunks;
use rubis_schema::Fields;
use rubis_serving::run_service;
use std::alloc::Global;
use std::cell::Cell;
use std::io;
use std::io::{Read, Write};

// Answers each record by itself after `got`, one record late.
#[derive(Drop)]
struct Echo {
    last: Option<Fields>,
    alloc: Global,
}

impl Echo {
    fn new(alloc: Global) -> Echo {
        Echo { last: None, alloc }
    }

    fn write_last(&mut self, sink: &mut Sink) -> Result<(), OutOfMemory>
        ensures held { OnOk result (self.new.last ≡ None) }
        ensures text { OnOk result (sink.new ≡ sink.old ++ rows_text (map (λ fields. codes "got" ∷ fields) (option_to_list self.old.last))) }
    {
        if let Some(last) = self.last.take() {
            sink.write_after(&[b"got".as_slice()], &last)?;
        }
        Ok(())
    }
}

impl Service for Echo {
    ghost account = { λ s n. record {
      text = λ ending records. rows_text (map (λ fields. codes "got" ∷ fields) (option_to_list s.last ++ records));
      read = λ records. length records;
    } };

    ghost leads = { λ old n records new. ⊤ };

    ghost Setup = { ⊤ };

    ghost setup = { λ s. tt };

    ghost shares = { ⊤ };

    ghost reads_none = { λ s n. refl };

    ghost reads_next = { Prim.search rules };

    fn answer<W: Write>(
        &mut self,
        fields: &InputRecord,
        reply: &mut Reply,
        _writer: &mut W,
    ) -> Result<Course, RunFault> {
        let next = fields.to_fields(self.alloc)?;
        self.write_last(&mut reply.sink)?;
        self.last = Some(next);
        Ok(Course::GoesOn)
    }

    fn answer_held(&mut self, reply: &mut Reply) -> Result<(), OutOfMemory> {
        self.write_last(&mut reply.sink)
    }

    fn answer_end(&mut self, reply: &mut Reply) -> Result<(), OutOfMemory> {
        self.write_last(&mut reply.sink)
    }
}

const INPUT: &[u8; 25] = b"ann,1\r\nbob\n\n\"c\"\"d\"\n,\nlast";

const WANT: &[u8; 44] = b"got,ann,1\ngot,bob\ngot,\"c\"\"d\"\ngot,,\ngot,last\n";

// Runs an echo, which asks the reader for `at_once` bytes at a time.
fn run_echo<R: Read + Drop, W: Write>(
    alloc: Global,
    reader: R,
    writer: &mut W,
    at_once: usize,
    limit: u64,
) -> Result<Count, RunFault> {
    let mut chunks = Chunks::new(alloc, reader, at_once);
    let mut service = Echo::new(alloc);
    run_service(alloc, &mut chunks, writer, &mut service, limit)
}

#[test]
fn answers_in_order(rt: HostRuntime) {
    let mut out = Vec::new(rt.alloc());
    let end = run_echo(rt.alloc(), INPUT.as_slice(), &mut out, 4, 5);
    assert!(rt; end == Ok(Count { records: 5 }));
    assert!(rt; out.as_slice() == WANT.as_slice());
}

#[test]
fn stops_at_the_limit(rt: HostRuntime) {
    let mut out = Vec::new(rt.alloc());
    let end = run_echo(rt.alloc(), INPUT.as_slice(), &mut out, 4, 1);
    assert!(rt; end == Err(RunFault::TooLong));
    assert!(rt; out.as_slice() == b"got,ann,1\n".as_slice());
}

#[test]
fn a_failing_reader(rt: HostRuntime) {
    read_until_each_byte(&rt, INPUT, WANT, 12, &WANT[..18], |reader, out| {
        run_echo(rt.alloc(), reader, out, 4, 9)
    });
}

#[test]
fn a_failing_writer(rt: HostRuntime) {
    let failed = write_until_each_call(&rt, WANT, |writer| {
        run_echo(rt.alloc(), INPUT.as_slice(), writer, 4, 9)
    });
    assert!(rt; failed > WANT.len().div_ceil(3));
}

// Gives a line three times, each by itself, and notes when it is asked for more before the answers to all that it
// gave are there.
#[derive(Drop)]
struct GivenLines<'a> {
    line: &'a [u8],
    at: usize,
    given: usize,
    flushed: &'a Cell<usize>,
    late: &'a Cell<bool>,
}

impl<'a> Read for GivenLines<'a> {
    fn read(&mut self, buf: &mut [u8]) -> io::Result<usize> {
        if self.at >= self.line.len() {
            self.at = 0;
            self.given = self.given.saturating_add(1);
        }
        if self.at == 0 && self.flushed.get() != self.given.saturating_mul(8) {
            self.late.set(true);
        }
        if self.given >= 3 {
            return Ok(0);
        }
        let rest = &self.line[self.at..];
        let count = rest.len().min(buf.len());
        buf[..count].copy_from_slice(&rest[..count]);
        self.at = self.at.saturating_add(count);
        Ok(count)
    }
}

// Counts the bytes that were written and flushed.
#[derive(Drop)]
struct Wire<'a> {
    written: usize,
    flushed: &'a Cell<usize>,
}

impl<'a> Write for Wire<'a> {
    fn write(&mut self, buf: &[u8]) -> io::Result<usize> {
        self.written = self.written.saturating_add(buf.len());
        Ok(buf.len())
    }

    fn flush(&mut self) -> io::Result<()> {
        self.flushed.set(self.written);
        Ok(())
    }
}

#[test]
fn answers_before_it_asks_for_more(rt: HostRuntime) {
    for line in [b"ann\n".as_slice(), b"ann\r\n", b"ann\n\r\n\n"] {
        let (flushed, late) = (Cell::new(0), Cell::new(false));
        let reader = GivenLines {
            line,
            at: 0,
            given: 0,
            flushed: &flushed,
            late: &late,
        };
        let mut writer = Wire {
            written: 0,
            flushed: &flushed,
        };
        let end = run_echo(rt.alloc(), reader, &mut writer, 16, 9);
        assert!(rt; end == Ok(Count { records: 3 }));
        assert!(rt; !late.get());
    }
}
