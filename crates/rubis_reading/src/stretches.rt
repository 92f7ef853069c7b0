//! What the records of a piece of text are.

ghost use Rattle.std.specs.Prelude.{◌≡◌, ◌≤◌, ◌<◌, ◌++◌, ◌∷◌, [], List, ℕ, IfOk, OnOk};
ghost use Rattle.rubis_engine.specs.Reading.{Gives};
ghost use Rattle.rubis_engine.specs.Text.{input_records};
ghost use Rattle.rubis_reading.specs.Readings.{AreInputs, FitWindow, HasRead, HaveWindow, all_came, flat, of_stretch};
ghost use Rattle.rubis_message.specs.declared.tokens.Packet.TheVariants.{Msg};
ghost use Rattle.rubis_message.specs.declared.inputs.Input.TheVariants.{Came};

use rubis_engine::{OutOfMemory, Records};
use rubis_message::{Input, Message, Packet, read_input};
use std::alloc::Global;
use std::io::Read;
use std::mem;

/// What records are, one after the other: messages, which come in great numbers, in a list of their own.
#[derive(Drop)]
pub enum Stretch {
    /// Messages of other sites.
    Messages(Vec<Message>),
    /// One record.
    One(Input),
}

/// Puts a run behind.
#[tactic(auto, using(crate::proofs::PieceFacts::run_facts))]
pub(crate) fn push_stretch(list: &mut Vec<Stretch>, run: Stretch) -> Result<(), OutOfMemory>
    ensures records { OnOk result (flat list.new.items ≡ flat list.old.items ++ of_stretch run) }
    ensures last { OnOk result (list.new.items ≡ list.old.items ++ run ∷ []) }
{
    match list.push(run) {
        Ok(()) => Ok(()),
        Err(_) => Err(OutOfMemory),
    }
}

// Puts the messages behind that came together, if there are any.
#[inline(always)]
fn keep_messages(list: &mut Vec<Stretch>, messages: Vec<Message>) -> Result<(), OutOfMemory>
    ensures records { OnOk result (flat list.new.items ≡ flat list.old.items ++ all_came messages.items) }
    ensures window { OnOk result ((window : ℕ) → HaveWindow window list.old.items messages.items → FitWindow window list.new.items) }
{
    if messages.is_empty() {
        return Ok(());
    }
    push_stretch(list, Stretch::Messages(messages))
}

// Puts one more behind: a message to those that came together, which are put behind first where they are as many as a window
// has; anything else after them.
#[inline(always)]
fn keep(
    alloc: Global,
    list: &mut Vec<Stretch>,
    messages: &mut Vec<Message>,
    window: usize,
    input: Input,
) -> Result<(), OutOfMemory>
    requires window { HaveWindow window list.old.items messages.old.items }
    ensures records { OnOk result (flat list.new.items ++ all_came messages.new.items ≡ (flat list.old.items ++ all_came messages.old.items) ++ input ∷ []) }
    ensures window { OnOk result (HaveWindow window list.new.items messages.new.items) }
{
    match input {
        Input::Came(Packet::Msg(message)) => {
            if messages.len() >= window {
                let full = mem::replace(messages, Vec::new(alloc));
                keep_messages(list, full)?;
            }
            if messages.push(message).is_err() {
                return Err(OutOfMemory);
            }
            Ok(())
        }
        other => {
            let before = mem::replace(messages, Vec::new(alloc));
            keep_messages(list, before)?;
            push_stretch(list, Stretch::One(other))
        }
    }
}

// How many bytes of text a message takes at least, as a rule: where a piece has messages alone, their list never grows.
const SHORT: usize = 48;

// For how many messages there is room from the start, at most.
const ROOM_MAX: usize = 16_384;

// What all records of a reader are.
fn read_all<R: Read>(
    alloc: Global,
    records: &mut Records<R>,
    list: &mut Vec<Stretch>,
    messages: &mut Vec<Message>,
    sites: u8,
    window: usize,
) -> Result<(), OutOfMemory>
    requires few { sites ≤ 16 }
    requires known { (rows : List (List (List ℕ))) × Gives R.remaining records.old rows }
    requires none { (list.old.items ≡ []) × (messages.old.items ≡ []) }
    ensures { OnOk result (HasRead R.remaining sites window records.old list.new.items messages.new.items) }
{
    'steps: loop {
        let Ok(found) = records.advance() else {
            return Err(OutOfMemory);
        };
        if !found {
            return Ok(());
        }
        let input = read_input(alloc, records.fields(), sites)?;
        keep(alloc, list, messages, window, input)?;
    }
}

/// What the records of a piece of text are, in order. At most `window` messages that come one after the other are one run, or
/// one message where `window` is 0.
pub fn read_piece(
    alloc: Global,
    piece: &[u8],
    sites: u8,
    window: usize,
) -> Result<Vec<Stretch>, OutOfMemory>
    requires { sites ≤ 16 }
    ensures parsed { IfOk result (λ list. AreInputs sites (input_records piece.now) (flat list.items)) }
    ensures window { IfOk result (λ list. FitWindow window list.items) }
{
    let mut list = Vec::new(alloc);
    let room = (piece.len() / SHORT).min(window).min(ROOM_MAX);
    let mut messages = Vec::with_capacity(alloc, room)?;
    let mut records = Records::new(alloc, piece);
    read_all(alloc, &mut records, &mut list, &mut messages, sites, window)?;
    keep_messages(&mut list, messages)?;
    Ok(list)
}
