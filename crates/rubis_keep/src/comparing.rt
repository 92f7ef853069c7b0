//! Answers that are compared with those that were given before, as far as these go.

ghost use Rattle.std.specs.Prelude.{◌≡◌, ◌≤◌, ◌++◌, IfErr, IfOk, IfSome, false, length, string_bytes, take, true};
ghost use Rattle.rubis_keep.specs.Faults.{HasDifference, IsDifference, MayDiffer, ends_in, first_line, last_line, same_in, shown_line, DiffersFrom, Found};

use crate::fault::{Difference, KeepFault};
use rubis_engine::read_through_signals;
use std::alloc::{AllocError, Global};
use std::io::Read;

// How many bytes are read of what stands there before at once.
const AT_ONCE: usize = 4096;

// How many bytes of a line are shown, where it differs.
const SHOWN: usize = 200;

// Whether two texts of one length are the same.
fn is_same(found: &[u8], text: &[u8]) -> bool
    requires { length found.now ≡ length text.now }
    ensures same { result ≡ true → found.now ≡ text.now }
    ensures differ { result ≡ false → DiffersFrom found.now text.now }
{
    found == text
}

// How many lines end in a text.
pub(crate) fn ends_in(text: &[u8]) -> u64
    ensures { result ≡ ends_in text.now }
{
    text.iter().filter(|byte| **byte == b'\n').count() as u64
}

// How long the beginning is that two texts have in common.
fn common(found: &[u8], text: &[u8]) -> usize
    ensures same { result ≡ same_in found.now text.now }
    ensures found { result ≤ length found.now }
    ensures text { result ≤ length text.now }
{
    let most = found.len().min(text.len());
    for at in 0..most {
        if found[at] != text[at] {
            return at;
        }
    }
    most
}

// The line in which a text ends, as far as it goes.
fn last_line(text: &[u8]) -> &[u8]
    ensures { result.now ≡ last_line text.now }
{
    match text.iter().rposition(|byte| *byte == b'\n') {
        Some(at) => &text[at + 1..],
        None => text,
    }
}

// The first line of a text, as far as it is shown.
fn first_line(text: &[u8]) -> &[u8]
    ensures { result.now ≡ first_line text.now }
{
    let begun = &text[..SHOWN.min(text.len())];
    match begun.iter().position(|byte| *byte == b'\n') {
        Some(at) => &begun[..at],
        None => begun,
    }
}

// What is shown of a line that begins with the one text and goes on with the other.
fn show_line(alloc: Global, begun: &[u8], more: &[u8]) -> Result<String, AllocError>
    ensures { IfOk result (λ line. string_bytes line ≡ shown_line begun.now more.now) }
{
    let mut line = Vec::new(alloc);
    line.extend_from_slice(begun)?;
    line.extend_from_slice(first_line(more))?;
    String::from_utf8_lossy(alloc, first_line(&line))
}

// What differs: the text begins after `lines` whole lines, and from its byte `at` on this was found.
fn difference(
    alloc: Global,
    text: &[u8],
    at: usize,
    found: &[u8],
    lines: u64,
) -> Result<Difference, AllocError>
    requires { at ≤ length text.now }
    ensures { IfOk result (λ d. IsDifference (take at text.now ++ found.now) text.now lines d) }
{
    let same = common(found, &text[at..]);
    let (begun, answer) = text.split_at(at + same);
    let line = last_line(begun);
    Ok(Difference {
        line: lines.saturating_add(ends_in(begun)).saturating_add(1),
        found: show_line(alloc, line, &found[same..])?,
        answered: show_line(alloc, line, answer)?,
    })
}

/// What differs, as a fault.
pub(crate) fn differ(alloc: Global, text: &[u8], at: usize, found: &[u8], lines: u64) -> KeepFault
    requires { at ≤ length text.now }
    ensures { MayDiffer result (λ d. IsDifference (take at text.now ++ found.now) text.now lines d) }
{
    match difference(alloc, text, at, found, lines) {
        Ok(difference) => KeepFault::Differs(difference),
        Err(_) => KeepFault::Memory,
    }
}

/// Compares a text, which begins after `lines` whole lines, with the next bytes of a reader, as far as it has any. Returns how
/// many bytes of the text were found there.
pub(crate) fn compare<O: Read>(
    alloc: Global,
    before: &mut O,
    text: &[u8],
    lines: u64,
) -> Result<usize, KeepFault>
    ensures found { IfOk result (λ n. Found (O.remaining before.old) (O.remaining before.new) text.now n) }
    ensures differs { IfErr result (λ e. MayDiffer e (λ d. IfSome (O.remaining before.old) (λ old. HasDifference old text.now lines d))) }
{
    let mut buffer = [0; AT_ONCE];
    let mut at = 0;
    for _turn in 0..text.len() {
        if at >= text.len() {
            return Ok(at);
        }
        let most = AT_ONCE.min(text.len() - at);
        match read_through_signals(before, &mut buffer[..most]) {
            Ok(0) => return Ok(at),
            Ok(given) => {
                if !is_same(&buffer[..given], &text[at..at + given]) {
                    return Err(differ(alloc, text, at, &buffer[..given], lines));
                }
                at += given;
            }
            Err(e) => return Err(KeepFault::ReadOut(e)),
        }
    }
    Ok(at)
}
