//! What was kept, without the lines whose records changed nothing.

ghost use Rattle.std.specs.Prelude.{◌≡◌, ◌++◌, ◌∷◌, [], ℕ, List, IfOk, OnErr, OnOk, cond, false};
ghost use Rattle.std.specs.Io.KnownBytes.{Appends};
ghost use Rattle.rubis_message.specs.Grammar.{IsRequest};
ghost use Rattle.rubis_message.specs.Message.{sites_of};
ghost use Rattle.rubis_schema.specs.declared.refusals.Refusal.{Refusal};
ghost use Rattle.rubis_script.specs.Replica.fault_variants as Fault;
ghost use Rattle.rubis_message.specs.declared.tokens.Packet.TheVariants as Packet;
ghost use Rattle.rubis_message.specs.Inputs.{FitsIn};
ghost use Rattle.rubis_message.specs.declared.inputs.Input.TheVariants.{Asked, Came};
ghost use Rattle.rubis_engine.specs.Progress.{AppendsFront};
ghost use Rattle.rubis_engine.specs.Text.{input_records};
ghost use Rattle.rubis_script.specs.Replica.{setup_place};
ghost use Rattle.rubis_keys.specs.Desks.{standing_at};
ghost use Rattle.rubis_keys.specs.Keys.{KeyedSite, keyed_opening};
ghost use Rattle.rubis_keep.specs.Lines.{HasSoundLines};
ghost use Rattle.rubis_keep.specs.Shortened.{IsShort, Shortens, TakesRecord, TakesRecords};

use crate::fault::KeepFault;
use rubis_engine::{InputRecord, OutOfMemory, Records, Reply, read_through_signals, write_front};
use rubis_keys::{KeyedDesk, KeyedInput};
use rubis_message::{Arrival, Input, Message, Packet, Request, Taken, Token};
use rubis_script::{Config, Fault, Site, SiteGate};
use std::alloc::{AllocError, Global};
use std::io::{Read, Write};
use std::sync::Wait;
use std::thread::Threads;
use std::{io, mem};

// How many bytes are read at once.
const PIECE: usize = 65_536;

// What a call of a site that failed did to it: nothing, if it was refused.
fn unchanged(fault: Fault) -> Result<bool, OutOfMemory>
    ensures { IfOk result (λ changed. (changed ≡ false) × (r : Refusal) × (fault ≡ Fault.Refused r)) }
{
    match fault {
        Fault::Refused(_) => Ok(false),
        Fault::Behind | Fault::Memory => Err(OutOfMemory),
    }
}

// Takes a message in. Whether it changed the site.
fn take_message<T: Threads + Wait + Sync>(
    rt: &T,
    site: &mut Site<SiteGate>,
    message: Message,
) -> Result<bool, OutOfMemory>
    requires { sites_of message ≡ site.old.place.sites }
    ensures place { site.new.place ≡ site.old.place }
    ensures takes { IfOk result (TakesRecord site.old site.new (Came (Packet.Msg message))) }
{
    match site.arrive(rt, message) {
        Ok(Arrival::Repeat) => Ok(false),
        Ok(Arrival::Held) | Ok(Arrival::Released(_)) => Ok(true),
        Err(fault) => unchanged(fault),
    }
}

// Takes a token in. Whether it changed the site.
fn take_token(site: &mut Site<SiteGate>, token: Token) -> Result<bool, OutOfMemory>
    ensures place { site.new.place ≡ site.old.place }
    ensures takes { IfOk result (TakesRecord site.old site.new (Came (Packet.Token token))) }
{
    match site.token(token) {
        Ok(Taken::Repeat) => Ok(false),
        Ok(Taken::Holding) => Ok(true),
        Err(fault) => unchanged(fault),
    }
}

// Takes a request. Whether it changed the site.
fn take_request<T: Threads + Wait + Sync>(
    rt: &T,
    site: &mut Site<SiteGate>,
    request: Request,
) -> Result<bool, OutOfMemory>
    requires { IsRequest site.old.place.sites request }
    ensures place { site.new.place ≡ site.old.place }
    ensures takes { IfOk result (TakesRecord site.old site.new (Asked request)) }
{
    match request {
        Request::Ask(ask) => match site.request(rt, ask) {
            Ok(_) => Ok(true),
            Err(fault) => unchanged(fault),
        },
        Request::Pass(to) => match site.pass(to) {
            Ok(_) => Ok(true),
            Err(fault) => unchanged(fault),
        },
        Request::List(_) => Ok(false),
    }
}

// Takes a record without a key. Whether it changed the site.
fn take_input<T: Threads + Wait + Sync>(
    rt: &T,
    site: &mut Site<SiteGate>,
    input: Input,
) -> Result<bool, OutOfMemory>
    requires { FitsIn site.old.place.sites input }
    ensures place { site.new.place ≡ site.old.place }
    ensures takes { IfOk result (TakesRecord site.old site.new input) }
{
    match input {
        Input::Came(Packet::Msg(message)) => take_message(rt, site, message),
        Input::Came(Packet::Token(token)) => take_token(site, token),
        Input::Asked(request) => take_request(rt, site, request),
        Input::Neither => Ok(false),
    }
}

// Takes a record, whose answer isn't told. Whether it changed the site. Where no record is under a key, one that says so is malformed.
fn take_record<T: Threads + Wait + Sync>(
    rt: &T,
    desk: &mut KeyedDesk<'_, T>,
    knows_keys: bool,
    reply: &mut Reply,
    fields: &InputRecord,
) -> Result<bool, OutOfMemory>
    ensures place { desk.new.desk.site.place ≡ desk.old.desk.site.place }
    ensures takes { IfOk result (TakesRecords knows_keys desk.old.desk.site.place (standing_at desk.old) (standing_at desk.new)
        (fields.now ∷ [])) }
{
    match desk.read(fields)? {
        KeyedInput::Plain(input) => {
            let plain = &mut desk.desk;
            take_input(rt, &mut plain.site, input)
        }
        KeyedInput::AskedUnder(key, ask) if knows_keys => desk.ask(reply, key, ask),
        KeyedInput::CameUnder(key, message) if knows_keys => desk.receive(reply, key, message),
        KeyedInput::AskedUnder(..) | KeyedInput::CameUnder(..) => Ok(false),
    }
}

// Takes the records of a line. Whether any of them changed the site.
fn take_line<T: Threads + Wait + Sync>(
    rt: &T,
    alloc: Global,
    desk: &mut KeyedDesk<'_, T>,
    knows_keys: bool,
    line: &[u8],
) -> Result<bool, KeepFault>
    ensures place { desk.new.desk.site.place ≡ desk.old.desk.site.place }
    ensures takes { IfOk result (TakesRecords knows_keys desk.old.desk.site.place (standing_at desk.old) (standing_at desk.new)
        (input_records line.now)) }
{
    let mut records = Records::new(alloc, line);
    let mut reply = Reply::new(alloc);
    let mut changed = false;
    'turns: loop {
        if !records.advance()? {
            return Ok(changed);
        }
        if take_record(rt, desk, knows_keys, &mut reply, records.fields())? {
            changed = true;
        }
    }
}

// Adds a byte to a line.
fn push(line: &mut Vec<u8>, byte: u8) -> Result<(), AllocError>
    ensures { OnOk result (line.new.items ≡ line.old.items ++ byte ∷ []) }
{
    line.push(byte)?;
    Ok(())
}

// Adds a line to a text, if it is to be kept.
fn add_if(is_kept: bool, line: &[u8], text: &mut Vec<u8>) -> Result<(), AllocError>
    ensures { OnOk result (text.new.items ≡ cond is_kept (text.old.items ++ line.now) text.old.items) }
{
    if is_kept {
        text.extend_from_slice(line)?;
    }
    Ok(())
}

// Takes the next byte. A line that ends with it is added to `text`, if any of its records changed the site.
fn take_next<T: Threads + Wait + Sync>(
    rt: &T,
    desk: &mut KeyedDesk<'_, T>,
    knows_keys: bool,
    line: &mut Vec<u8>,
    byte: u8,
    text: &mut Vec<u8>,
) -> Result<(), KeepFault>
    ensures place { desk.new.desk.site.place ≡ desk.old.desk.site.place }
    ensures short { OnOk result ((s : KeyedSite) (done told : List ℕ) → HasSoundLines [] (done ++ byte ∷ [])
        → IsShort knows_keys desk.old.desk.site.place s done line.old.items (told ++ text.old.items) (standing_at desk.old)
        → IsShort knows_keys desk.old.desk.site.place s (done ++ byte ∷ []) line.new.items (told ++ text.new.items) (standing_at desk.new)) }
{
    push(line, byte)?;
    if byte != b'\n' {
        return Ok(());
    }
    let alloc = *text.allocator();
    let changed = take_line(rt, alloc, desk, knows_keys, line)?;
    add_if(changed, line, text)?;
    line.clear();
    Ok(())
}

// Takes the bytes of a piece.
fn take_piece<T: Threads + Wait + Sync>(
    rt: &T,
    desk: &mut KeyedDesk<'_, T>,
    knows_keys: bool,
    line: &mut Vec<u8>,
    piece: &[u8],
    text: &mut Vec<u8>,
) -> Result<(), KeepFault>
    ensures place { desk.new.desk.site.place ≡ desk.old.desk.site.place }
    ensures short { OnOk result ((s : KeyedSite) (done told : List ℕ) → HasSoundLines [] (done ++ piece.now)
        → IsShort knows_keys desk.old.desk.site.place s done line.old.items (told ++ text.old.items) (standing_at desk.old)
        → IsShort knows_keys desk.old.desk.site.place s (done ++ piece.now) line.new.items (told ++ text.new.items) (standing_at desk.new)) }
{
    for byte in piece {
        take_next(rt, desk, knows_keys, line, *byte, text)?;
    }
    Ok(())
}

// Writes these bytes, and flushes the writer. A writer that failed has a prefix of them.
fn write_and_flush<W: Write>(writer: &mut W, bytes: &[u8]) -> io::Result<()>
    ensures ok { OnOk result (Appends (W.contents writer.old) (W.contents writer.new) bytes.now) }
    ensures err { OnErr result (AppendsFront (W.contents writer.old) (W.contents writer.new) bytes.now) }
{
    write_front(writer, bytes)?;
    writer.flush()
}

// Reads what was kept to its end, and writes it without the lines whose records change nothing.
fn shorten_at<T: Threads + Wait + Sync, P: Read, W: Write>(
    rt: &T,
    alloc: Global,
    past: &mut P,
    fresh: &mut W,
    desk: &mut KeyedDesk<'_, T>,
    knows_keys: bool,
) -> Result<(), KeepFault>
    ensures { OnOk result (Shortens knows_keys desk.old.desk.site.place (standing_at desk.old) (P.remaining past.old) (W.contents fresh.old)
        (W.contents fresh.new)) }
{
    let mut line = Vec::new(alloc);
    let mut text = Vec::new(alloc);
    let mut piece = [0; PIECE];
    for _turn in rt.forever() {
        match read_through_signals(past, &mut piece) {
            Ok(0) => return Ok(()),
            Ok(given) => {
                text.clear();
                take_piece(rt, desk, knows_keys, &mut line, &piece[..given], &mut text)?;
                if let Err(e) = write_and_flush(fresh, &text) {
                    return Err(KeepFault::WriteKept(e));
                }
            }
            Err(e) => return Err(KeepFault::ReadKept(e)),
        }
    }
    unreachable!()
}

/// Writes what was kept without the lines whose records changed nothing where they were read: refusals, repeats and listings. A
/// site that reads what is written comes to the same state, and sends the same packets in the same order. A last line without its
/// end is left out.
///
/// # Errors
///
/// `ReadKept` or `WriteKept` if a file failed, and `Memory` if memory ran out.
pub fn shorten<T: Threads + Wait + Sync, P: Read, W: Write>(
    rt: &T,
    alloc: Global,
    past: &mut P,
    fresh: &mut W,
    config: &Config,
    knows_keys: bool,
) -> Result<(), KeepFault>
    ensures { OnOk result (Shortens knows_keys (setup_place config.now) (keyed_opening config.now.site) (P.remaining past.old) (W.contents fresh.old)
        (W.contents fresh.new)) }
{
    let mut desk = KeyedDesk::new(rt, alloc, config)?;
    let ended = shorten_at(rt, alloc, past, fresh, &mut desk, knows_keys);
    mem::forget(desk);
    ended
}
