//! The lines of an input that comes in pieces.

ghost use Rattle.std.specs.Prelude.{◌≡◌, [], ◌<◌, ◌≤◌, ℕ, List, IfOk, false, length, nat_le, take, true};
ghost use Rattle.rubis_keep.specs.Lines.{closes_quotes, is_sound, CutsLines, begun_bytes, line_limit};

use rubis_reading::{CsvState, after};
use std::alloc::{AllocError, Global};
use std::marker::Model;

/// How many bytes a line has at most that is kept as it is, without its end.
pub const LINE_MAX: usize = 4096;

/// The same of a line that begins with `key,`: as many more as that, a key in quotes and the comma behind it take at most.
pub const KEYED_MAX: usize = 4613;

/// The first byte of a byte order mark, with which no record begins.
pub(crate) const MARK: u8 = 0xEF;

// Whether the quotes of a line close.
#[tactic(auto, using(crate::proofs::LineFacts::state_take_more))]
pub(crate) fn closes(line: &[u8]) -> bool
    ensures { result ≡ closes_quotes line.now }
{
    let mut at = CsvState::Start;
    for byte in line {
        at = after(at, *byte);
    }
    !matches!(at, CsvState::Quoted)
}

// Whether a line isn't too long.
#[tactic(auto, using(crate::proofs::LineFacts::short_line, crate::proofs::LineFacts::keyed_line, crate::proofs::LineFacts::long_line))]
fn is_short(line: &[u8]) -> bool
    ensures { result ≡ nat_le (length line.now) (line_limit line.now) }
{
    line.len() <= LINE_MAX || (line.len() <= KEYED_MAX && line.starts_with(b"key,"))
}

/// Whether a line is kept as it is.
#[tactic(auto, using(crate::proofs::LineFacts::plain_closes))]
pub(crate) fn is_sound(line: &[u8]) -> bool
    ensures { result ≡ is_sound line.now }
{
    is_short(line) && (!line.contains(&b'"') || closes(line)) && line.first() != Some(&MARK)
}

/// How many bytes of a piece were taken, and whether a question ended with the last of them.
#[derive(Clone, Copy)]
pub struct Cut {
    pub taken: usize,
    pub is_asked: bool,
}

/// The lines of an input that comes in pieces: the line that is begun.
#[derive(Drop)]
pub struct LineCutter {
    // At most one byte more than any line may have.
    begun: Vec<u8>,
}

impl Model for LineCutter {
    ghost use Rattle.std.specs.Prelude.{ℕ, List};

    ghost Value = { List ℕ };

    ghost view = { λ c. c.begun.items };
}

impl LineCutter {
    /// No line is begun.
    pub fn new(alloc: Global) -> LineCutter
        ensures { result ≡ [] }
    {
        LineCutter {
            begun: Vec::new(alloc),
        }
    }

    /// Takes the next piece of the input, up to the end of its first question if it asks questions. What is kept of the lines that
    /// end in it is added to `kept`, and the question is put into `question`: of a long one the first bytes.
    pub fn take(
        &mut self,
        piece: &[u8],
        asks: bool,
        kept: &mut Vec<u8>,
        question: &mut Vec<u8>,
    ) -> Result<Cut, AllocError>
        ensures asks { IfOk result (λ cut. cut.is_asked ≡ true → asks ≡ true) }
        ensures bound { IfOk result (λ cut. (cut.taken ≤ length piece.now) × (cut.is_asked ≡ false → cut.taken ≡ length piece.now)
            × (0 < length piece.now → 0 < cut.taken)) }
        ensures cut { IfOk result (λ cut. (line : List ℕ) → self.old ≡ begun_bytes line
            → CutsLines asks line (take cut.taken piece.now) self.new kept.old.items kept.new.items cut.is_asked question.new.items) }
    {
        let mut taken = 0;
        for byte in piece {
            taken += 1;
            if *byte != b'\n' {
                if self.begun.len() <= KEYED_MAX {
                    self.begun.push(*byte)?;
                }
                continue;
            }
            if asks && self.begun.first() == Some(&b'?') {
                question.clear();
                question.extend_from_slice(&self.begun)?;
                self.begun.clear();
                return Ok(Cut {
                    taken,
                    is_asked: true,
                });
            }
            if is_sound(&self.begun) {
                kept.extend_from_slice(&self.begun)?;
                kept.push(b'\n')?;
            } else {
                kept.extend_from_slice(b"broken\n")?;
            }
            self.begun.clear();
        }
        Ok(Cut {
            taken,
            is_asked: false,
        })
    }
}
