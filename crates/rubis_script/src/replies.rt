//! The records that answer a record.

ghost use Rattle.std.specs.Prelude.{◌≡◌, ◌≤◌, ◌+◌, ◌∷◌, ◌++◌, [], ℕ, List, Ok, OnOk, decimal};
ghost use Rattle.rubis_message.specs.Grammar.{message_record};
ghost use Rattle.rubis_message.specs.declared.answers.Arrival.TheVariants.{Released};
ghost use Rattle.rubis_model.specs.Site.{arrived_rows, asked_rows, listed_rows, passed_rows, refused_row, reply, send_row, took_rows};
ghost use Rattle.rubis_script.specs.declared.replies.TheConstants.{REPLY_ROOM};
ghost use Rattle.rubis_script.specs.Windows.{HasRows, IsWord};
ghost use Rattle.rubis_engine.specs.Text.{rows_text};

use rubis_engine::{Draft, PlainSink, Sink};
use rubis_message::{Arrival, Message, Taken, Token, append_message, put_message, put_token};
use rubis_schema::{Counted, Fields, Items, PlainRow, Refusal, RowSink};
use std::alloc::AllocError;

/// The most bytes that the beginning of a reply takes: the word, the number of a record and a word of eight letters.
pub const REPLY_ROOM: usize = 36;

/// Puts the beginning of the reply to the record with that number first.
#[inline(always)]
pub fn put_reply(row: &mut PlainRow, number: u64, word: &[u8])
    requires word { IsWord word.now }
    requires room { REPLY_ROOM ≤ row.old.left }
    ensures fields { row.new.fields ≡ reply number (word.now ∷ row.old.fields) }
    ensures left { row.old.left ≤ row.new.left + REPLY_ROOM }
{
    row.put_plain(word);
    row.put_number(number);
    row.put_plain(b"reply");
}

/// Says why a record is refused.
#[tactic(auto, using(crate::proofs::Names::name_plain, crate::proofs::Names::name_short))]
pub fn write_refusal<S: PlainSink>(
    row: &mut PlainRow,
    sink: &mut S,
    number: u64,
    refusal: Refusal,
) -> Result<(), AllocError>
    ensures { OnOk result (S.adds (refused_row number refusal ∷ []) sink.old sink.new) }
{
    row.clear();
    row.put_plain(refusal.name().as_bytes());
    row.put_number(u64::from(refusal.code()));
    put_reply(row, number, b"refused");
    sink.put_plain(row)
}

// Sends a message, some field of which may call for quotes.
#[cold]
fn write_message<S: RowSink>(
    fields: &mut Fields,
    sink: &mut S,
    message: &Message,
) -> Result<(), AllocError>
    ensures { OnOk result (S.adds (send_row (message_record message.now) ∷ []) sink.old sink.new) }
{
    fields.clear();
    fields.push_plain(b"send")?;
    append_message(fields, message)?;
    sink.put(fields)
}

/// Gives the id of an accepted ask, and sends its message.
pub fn write_sent<S: PlainSink>(
    draft: &mut Draft,
    sink: &mut S,
    number: u64,
    message: &Message,
) -> Result<(), AllocError>
    ensures { OnOk result (S.adds (asked_rows number (Ok message.now)) sink.old sink.new) }
{
    let row = &mut draft.row;
    row.clear();
    row.put_id(message.id());
    put_reply(row, number, b"ok");
    sink.put_plain(row)?;
    row.clear();
    if !put_message(row, message) {
        return write_message(&mut draft.fields, sink, message);
    }
    row.put_plain(b"send");
    sink.put_plain(row)
}

/// Says that the token is handed on, and sends it.
pub fn write_passed<S: PlainSink>(
    row: &mut PlainRow,
    sink: &mut S,
    number: u64,
    token: &Token,
) -> Result<(), AllocError>
    ensures { OnOk result (S.adds (passed_rows number (Ok token.now)) sink.old sink.new) }
{
    write_word(row, sink, number, b"passed")?;
    row.clear();
    put_token(row, token);
    row.put_plain(b"send");
    sink.put_plain(row)
}

// Answers with one word.
fn write_word<S: PlainSink>(
    row: &mut PlainRow,
    sink: &mut S,
    number: u64,
    word: &[u8],
) -> Result<(), AllocError>
    requires { IsWord word.now }
    ensures { OnOk result (S.adds (reply number (word.now ∷ []) ∷ []) sink.old sink.new) }
{
    row.clear();
    put_reply(row, number, word);
    sink.put_plain(row)
}

/// Answers with one word and a number.
#[inline(always)]
pub(crate) fn write_number<S: PlainSink>(
    row: &mut PlainRow,
    sink: &mut S,
    number: u64,
    word: &[u8],
    value: u64,
) -> Result<(), AllocError>
    requires { IsWord word.now }
    ensures { OnOk result (S.adds (reply number (word.now ∷ decimal value ∷ []) ∷ []) sink.old sink.new) }
{
    row.clear();
    row.put_number(value);
    put_reply(row, number, word);
    sink.put_plain(row)
}

/// Says what became of a message that arrived.
pub fn write_arrival<S: PlainSink>(
    row: &mut PlainRow,
    sink: &mut S,
    number: u64,
    arrival: Arrival,
) -> Result<(), AllocError>
    ensures { OnOk result (S.adds (arrived_rows number (Ok arrival)) sink.old sink.new) }
{
    match arrival {
        Arrival::Released(count) => write_number(row, sink, number, b"released", u64::from(count)),
        Arrival::Held => write_word(row, sink, number, b"held"),
        Arrival::Repeat => write_word(row, sink, number, b"repeat"),
    }
}

/// Says what became of a token that arrived.
pub fn write_taken<S: PlainSink>(
    row: &mut PlainRow,
    sink: &mut S,
    number: u64,
    taken: Taken,
) -> Result<(), AllocError>
    ensures { OnOk result (S.adds (took_rows number (Ok taken)) sink.old sink.new) }
{
    match taken {
        Taken::Holding => write_word(row, sink, number, b"holding"),
        Taken::Repeat => write_word(row, sink, number, b"repeat"),
    }
}

/// Writes rows as they are.
pub fn write_rows<S: RowSink>(sink: &mut S, rows: &[Fields]) -> Result<(), AllocError>
    ensures { OnOk result (S.adds rows.now sink.old sink.new) }
{
    for row in rows {
        sink.put(row)?;
    }
    Ok(())
}

/// Says how many rows a listing has, and gives them.
pub fn write_listed<S: PlainSink>(
    row: &mut PlainRow,
    sink: &mut S,
    number: u64,
    rows: &Items<Fields>,
) -> Result<(), AllocError>
    ensures { OnOk result (S.adds (listed_rows number (Ok rows.now)) sink.old sink.new) }
{
    write_number(row, sink, number, b"rows", rows.len() as u64)?;
    write_rows(sink, rows.as_slice())
}

/// Says how many rows a listing has, and gives their text.
pub fn write_listed_text(
    row: &mut PlainRow,
    sink: &mut Sink,
    number: u64,
    listing: Counted<Sink>,
) -> Result<(), AllocError>
    ensures { OnOk result ((rows : List (List (List ℕ))) → HasRows rows listing → sink.new ≡ sink.old ++ rows_text (listed_rows number (Ok rows))) }
{
    write_number(row, sink, number, b"rows", listing.count)?;
    sink.add_text(listing.rows)
}
