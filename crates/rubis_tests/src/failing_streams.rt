//! For tests: a reader and a writer that fail, and runs on them.

ghost use Rattle.std.specs.Prelude.{◌≡◌, Some, Ok, Err, []};

use rubis_engine::{Count, RunFault};
use std::alloc::Global;
use std::io;
use std::io::{Read, Write};
use std::marker::Model;
use std::process::Abort;

/// The most bytes that a `FailingWriter` takes in one call.
const BYTES_A_CALL: usize = 3;

fn broken() -> io::Error {
    io::Error::from(io::ErrorKind::BrokenPipe)
}

/// Gives a text one byte at a time, or all at once as far as there is room for it, and then an error, again and again, in place of
/// its end. Contracts see the bytes that it still gives.
#[derive(Drop)]
pub struct FailingReader<'a> {
    rest: &'a [u8],
    at_once: bool,
}

impl<'a> Model for FailingReader<'a> {
    ghost use Rattle.std.specs.Prelude.{ℕ, List};

    ghost Value = { List ℕ };

    ghost view = { λ r. r.rest.now };
}

impl<'a> FailingReader<'a> {
    /// A reader that gives this text, and then fails.
    pub fn new(rest: &'a [u8], at_once: bool) -> FailingReader<'a>
        ensures { result ≡ rest.now }
    {
        FailingReader { rest, at_once }
    }
}

impl<'a> Read for FailingReader<'a> {
    ghost remaining = { λ r. Some r };

    fn read(&mut self, buf: &mut [u8]) -> io::Result<usize> {
        if self.at_once && !self.rest.is_empty() {
            return self.rest.read(buf);
        }
        match (self.rest.split_first(), buf.first_mut()) {
            (Some((byte, rest)), Some(place)) => {
                *place = *byte;
                self.rest = rest;
                Ok(1)
            }
            _ => Err(broken()),
        }
    }
}

/// Takes at most three bytes in one call, and fails at one call; a flush is a call too. Contracts see the bytes that it has
/// taken.
#[derive(Drop)]
pub struct FailingWriter {
    taken: Vec<u8>,
    // How many calls there were, the failed one among them.
    calls: usize,
    bad: usize,
}

impl Model for FailingWriter {
    ghost use Rattle.std.specs.Prelude.{ℕ, List};

    ghost Value = { List ℕ };

    ghost view = { λ w. w.taken.items };
}

impl FailingWriter {
    /// A writer that fails at call `bad`, counted from 1, and at no other.
    pub fn new(alloc: Global, bad: usize) -> FailingWriter
        ensures { result ≡ [] }
    {
        FailingWriter {
            taken: Vec::new(alloc),
            calls: 0,
            bad,
        }
    }

    // Counts a call, and fails if it is the bad one.
    fn call(&mut self) -> io::Result<()>
        ensures { self.new ≡ self.old }
    {
        self.calls = self.calls.saturating_add(1);
        if self.calls == self.bad {
            return Err(broken());
        }
        Ok(())
    }
}

impl Write for FailingWriter {
    ghost contents = { λ w. Some w };

    fn write(&mut self, buf: &[u8]) -> io::Result<usize> {
        self.call()?;
        let most = buf.len().min(BYTES_A_CALL);
        self.taken.write(&buf[..most])
    }

    fn flush(&mut self) -> io::Result<()> {
        self.call()
    }
}

// More calls than any writer here gets.
const CALLS_MAX: usize = 1000;

/// Runs over each prefix of a text, with a reader that fails after it. Each run ends with Read, and has written a prefix of
/// `answers`: once it has read `from` bytes, one that begins with `sure`.
pub fn read_until_each_byte<
    'a,
    F: FnMut(FailingReader<'a>, &mut Vec<u8>) -> Result<Count, RunFault>,
>(
    rt: &(impl Abort + AllocGlobal),
    text: &'a [u8],
    answers: &[u8],
    from: usize,
    sure: &[u8],
    mut run: F,
)
    requires { F.IsAlwaysCallable run }
{
    for cut in 0..text.len() + 1 {
        let mut out = Vec::new(rt.alloc());
        let end = run(FailingReader::new(&text[..cut], false), &mut out);
        assert!(rt; end == Err(RunFault::Read), "after {cut}");
        assert!(rt; answers.starts_with(out.as_slice()), "after {cut}");
        assert!(rt;
            cut < from || out.as_slice().starts_with(sure),
            "after {cut}"
        );
    }
}

/// Runs with a writer that fails at its first call, at its second, and so on, until a run ends well, with `answers` written. Each
/// run before ends with Write, and has written a prefix of them. Returns how many those were.
pub fn write_until_each_call<F: FnMut(&mut FailingWriter) -> Result<Count, RunFault>>(
    rt: &(impl Abort + AllocGlobal),
    answers: &[u8],
    mut run: F,
) -> usize
    requires { F.IsAlwaysCallable run }
{
    for bad in 1..CALLS_MAX {
        let mut writer = FailingWriter::new(rt.alloc(), bad);
        let end = run(&mut writer);
        if end.is_ok() {
            assert!(rt; writer.calls < bad);
            assert!(rt; writer.taken.as_slice() == answers);
            return bad - 1;
        }
        assert!(rt; end == Err(RunFault::Write), "at call {bad}");
        assert!(rt;
            answers.starts_with(writer.taken.as_slice()),
            "at call {bad}"
        );
    }
    panic!(rt; "no run ended well")
}
