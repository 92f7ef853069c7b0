//! Where a text may be cut.

ghost use Rattle.std.specs.Bool.{MatchBool};
ghost use Rattle.std.specs.Prelude.{◌≡◌, ◌≤◌, ◌<◌, ◌↔◌, ◌⊎◌, ℕ, IsTrue, List, drop, length, nat_lt, take};
ghost use Rattle.csv.specs.Reading.{strip_bom};
ghost use Rattle.csv.specs.declared.parser.State.TheVariants as st;
ghost use Rattle.rubis_reading.specs.Streams.{state_of_csv, HasEnd, HasLooked, EndsFrom, EndsNoRecord, HasNoQuote, IsLike, IsOutside, IsWhole, NoEndAfter};
ghost use Rattle.rubis_reading.specs.Streams.{NoWholeAfter, stands};

use crate::csv_state::{CsvState, after, in_field};
use memchr::{memchr, memrchr2};

// Whether the machine stands between quotes.
fn is_quoted(at: CsvState) -> bool
    ensures { MatchBool result (state_of_csv at ≡ st.InQuoted) (IsOutside (state_of_csv at)) }
{
    matches!(at, CsvState::Quoted)
}

// How many bytes of a text with no quote there are up to the end of its last line, where the machine stands so before it: none
// in the midst of a field with quotes.
fn last_line(at: CsvState, run: &[u8]) -> usize
    requires { HasNoQuote run.now }
    ensures within { result ≤ length run.now }
    ensures ends { 0 < result → EndsFrom (state_of_csv at) run.now result }
    ensures last { NoEndAfter (state_of_csv at) run.now result }
{
    if is_quoted(at) {
        return 0;
    }
    match memrchr2(b'\n', b'\r', run) {
        Some(last) => last + 1,
        None => 0,
    }
}

// Where the machine stands after a text with no quote, as far as what follows goes.
fn over(at: CsvState, run: &[u8]) -> CsvState
    requires { HasNoQuote run.now }
    ensures { IsLike (state_of_csv result) (stands (state_of_csv at) run.now) }
{
    if is_quoted(at) {
        return at;
    }
    if run.is_empty() {
        return at;
    }
    in_field(run[run.len() - 1])
}

/// How far a text was looked through for ends of records, the byte order mark at its start left aside.
#[derive(Clone, Copy)]
pub struct Looked {
    // Where the machine stands there.
    at: CsvState,
    // How many bytes were looked at.
    place: usize,
    // The end of the last line among them after which no record is begun, quoted or not: between two quotes only lines and fields
    // end. 0 where there is none.
    end: usize,
}

impl Looked {
    /// No byte was looked at.
    pub fn none() -> Looked
        ensures { (text : List ℕ) → HasLooked text result }
    {
        Looked {
            at: CsvState::Start,
            place: 0,
            end: 0,
        }
    }

    /// Whether a record ends in them, behind the line end at their start, if there is one.
    pub fn ends(self) -> bool
        ensures value { result ≡ nat_lt 1 self.end }
        ensures ends { IsTrue result ↔ HasEnd self }
    {
        self.end > 1
    }
}

// Looks on to the end of a text.
fn look_on(from: Looked, text: &[u8]) -> Looked
    requires { HasLooked text.now from }
    ensures looked { HasLooked text.now result }
    ensures all { NoEndAfter st.StartRecord text.now result.end }
    ensures whole { result.place ≡ length text.now }
{
    let Looked {
        mut at,
        mut place,
        mut end,
    } = from;
    'quotes: loop {
        let (_, rest) = text.split_at(place);
        let Some(quote) = memchr(b'"', rest) else {
            let line = last_line(at, rest);
            return Looked {
                at: over(at, rest),
                place: text.len(),
                end: if line > 0 { place + line } else { end },
            };
        };
        let (run, _) = rest.split_at(quote);
        let line = last_line(at, run);
        if line > 0 {
            end = place + line;
        }
        at = after(over(at, run), b'"');
        place += quote + 1;
    }
}

// How many bytes a byte order mark at the start has.
fn mark_len(text: &[u8]) -> usize
    ensures within { result ≤ length text.now }
    ensures rest { strip_bom text.now ≡ drop result text.now }
{
    if text.len() >= 3 && text[0] == 0xEF && text[1] == 0xBB && text[2] == 0xBF {
        3
    } else {
        0
    }
}

/// How many of the first bytes are whole records whose last ends with a line feed or a carriage return, as many as there are: 0
/// where none are.
pub fn whole_end(text: &[u8]) -> usize
    ensures within { result ≤ length text.now }
    ensures whole { 0 < result → IsWhole (take result text.now) }
    ensures last { NoWholeAfter text.now result }
    ensures none { result ≤ 1 → EndsNoRecord text.now }
{
    let mark = mark_len(text);
    let (_, rest) = text.split_at(mark);
    let end = look_on(Looked::none(), rest).end;
    if end > 0 { mark + end } else { 0 }
}

// How many bytes are looked through at once, where one end of a record is enough.
const LOOK: usize = 4_096;

/// Looks on through a text until a record ends in what was looked at, or to its end.
pub fn look_for_end(from: Looked, text: &[u8]) -> Looked
    requires { HasLooked (strip_bom text.now) from }
    ensures looked { HasLooked (strip_bom text.now) result }
    ensures none { result.end ≤ 1 → EndsNoRecord text.now }
    ensures upto { HasEnd result ⊎ (result.place ≡ length (strip_bom text.now)) }
{
    let (_, rest) = text.split_at(mark_len(text));
    let mut looked = from;
    'looks: while !looked.ends() && looked.place < rest.len() {
        let front = rest.len().min(looked.place.saturating_add(LOOK));
        looked = look_on(looked, &rest[..front]);
    }
    looked
}
