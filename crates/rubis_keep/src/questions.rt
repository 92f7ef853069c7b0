//! Questions, and what a site answers to them.

ghost use Rattle.std.specs.Prelude.{◌≡◌, ◌++◌, ◌∷◌, [], IfOk, MatchBool, Some, length};
ghost use Rattle.rubis_model.specs.Site.{counted, rows_at};
ghost use Rattle.rubis_replica.specs.Follow.{resting_at};
ghost use Rattle.rubis_engine.specs.Text.{input_records, rows_text};
ghost use Rattle.rubis_keep.specs.Questions.{IsUnmoved, AreListed, asked_key, or_none, question_in, question_of, reply_rows, row_asked, row_shown, says_state};
ghost use Rattle.rubis_keep.specs.Questions.{shown_to, state_row};
ghost use Rattle.rubis_keep.specs.declared.questions.Question.TheVariants as Question;

use crate::counts::push_counts;
use crate::fault::KeepFault;
use crate::lines::{LINE_MAX, closes};
use crate::pages::{Listed, Page, read_page, turn_page};
use crate::plain_lines::{behind_first, read_plain};
use crate::showing::{refuse, row, show_counted};
use crate::site::Clerk;
use rubis_engine::{OutOfMemory, Records, Sink};
use rubis_message::{ReadFault, Request, read_request};
use rubis_replica::put_record;
use rubis_schema::{CAT_MAX, Counted, Fields, Id, Listing, Nick, Row, RowKey, read_number};
use rubis_script::Fault;
use std::alloc::{AllocError, Global};
use std::sync::Wait;
use std::thread::Threads;

/// What a question asks.
#[derive(Drop)]
pub enum Question {
    /// The rows of a listing.
    List(Listing),
    /// A page of a listing.
    Page(Page),
    /// The row at a key, or the user who has a nickname.
    Row(RowKey),
    /// How far the site has come.
    State,
}

// Whether the fields are the word `state` alone.
fn says_state(fields: &Fields) -> bool
    ensures { result ≡ says_state fields.now }
{
    match (fields.len(), fields.field(0)) {
        (1, Some(word)) => word == b"state".as_slice(),
        _ => false,
    }
}

// The key that two words say: a table, and what names a row of it.
fn read_key(table: &[u8], name: &[u8], sites: u8) -> Option<RowKey>
    ensures { result ≡ asked_key sites table.now name.now }
{
    if table == b"user".as_slice() {
        Some(RowKey::User(Id::read(name, sites)?))
    } else if table == b"item".as_slice() {
        Some(RowKey::Item(Id::read(name, sites)?))
    } else if table == b"bid".as_slice() {
        Some(RowKey::Bid(Id::read(name, sites)?))
    } else if table == b"purchase".as_slice() {
        Some(RowKey::Purchase(Id::read(name, sites)?))
    } else if table == b"comment".as_slice() {
        Some(RowKey::Comment(Id::read(name, sites)?))
    } else if table == b"category".as_slice() {
        Some(RowKey::Cat(read_number(name, CAT_MAX)? as u16))
    } else if table == b"nickname".as_slice() {
        Some(RowKey::Nick(Nick::read(name)?))
    } else {
        None
    }
}

// The row that a record asks for, if it does.
fn read_row(fields: &Fields, sites: u8) -> Option<RowKey>
    ensures { result ≡ row_asked sites fields.now }
{
    match (
        fields.len(),
        fields.field(0),
        fields.field(1),
        fields.field(2),
    ) {
        (3, Some(word), Some(table), Some(name)) => {
            if word != b"row".as_slice() {
                return None;
            }
            read_key(table, name, sites)
        }
        _ => None,
    }
}

// What a record asks, if it is a question.
fn read_question(alloc: Global, fields: &Fields, sites: u8) -> Result<Option<Question>, OutOfMemory>
    ensures { IfOk result (λ asked. asked ≡ question_of sites fields.now) }
{
    if says_state(fields) {
        return Ok(Some(Question::State));
    }
    if let Some(key) = read_row(fields, sites) {
        return Ok(Some(Question::Row(key)));
    }
    if let Some(page) = read_page(alloc, fields, sites)? {
        return Ok(Some(Question::Page(page)));
    }
    match read_request(alloc, fields, sites) {
        Ok(Request::List(listing)) => Ok(Some(Question::List(listing))),
        Ok(_) => Ok(None),
        Err(ReadFault::BadRecord) => Ok(None),
        Err(ReadFault::Memory) => Err(OutOfMemory),
    }
}

// What a text asks, if it is one record that is a question.
fn question_in(alloc: Global, text: &[u8], sites: u8) -> Result<Option<Question>, KeepFault>
    ensures { IfOk result (λ asked. asked ≡ question_in sites (input_records text.now)) }
{
    let mut records = Records::new(alloc, text);
    if !records.advance()? {
        return Ok(None);
    }
    let fields = records.fields().to_fields(alloc)?;
    if records.advance()? {
        return Ok(None);
    }
    Ok(read_question(alloc, &fields, sites)?)
}

// A line with its end.
fn with_end(alloc: Global, line: &[u8]) -> Result<Vec<u8>, AllocError>
    ensures { IfOk result (λ text. text.items ≡ line.now ++ 10 ∷ []) }
{
    let mut text = Vec::from_slice(alloc, line)?;
    text.push(b'\n')?;
    Ok(text)
}

// What a line asks: the text after its '?'. Most lines are read without a reader of CSV, which takes several times as long to make as a
// row to find.
fn read_line(alloc: Global, rest: &[u8], sites: u8) -> Result<Option<Question>, KeepFault>
    ensures { IfOk result (λ asked. asked ≡ question_in sites (input_records (rest.now ++ 10 ∷ []))) }
{
    if let Some(fields) = read_plain(alloc, rest)? {
        return Ok(read_question(alloc, &fields, sites)?);
    }
    let text = with_end(alloc, rest)?;
    question_in(alloc, &text, sites)
}

// How many messages a site released of its own.
fn own_count<T>(clerk: &Clerk<'_, T>) -> u32
    ensures { result ≡ counted clerk.now.keyed.desk.site.place.site clerk.now.keyed.desk.site.state.log }
{
    let intake = clerk.keyed.desk.site.intake();
    intake.clock().count(intake.site())
}

// How far a site has come.
fn state_of<T>(clerk: &Clerk<'_, T>) -> Result<Fields, AllocError>
    ensures { IfOk result (λ fields. fields ≡ state_row clerk.now.keyed.desk.site.place clerk.now.keyed.desk.site.state clerk.now.served.answered) }
{
    let intake = clerk.keyed.desk.site.intake();
    let mut fields = Fields::new(clerk.served.alloc);
    fields.push_plain(b"state")?;
    fields.push_number(clerk.served.answered)?;
    fields.push_number(u64::from(own_count(clerk)))?;
    push_counts(&mut fields, intake.clock().deps().as_slice())?;
    match intake.token() {
        Some(held) => fields.push_number(u64::from(held.turn))?,
        None => fields.push_plain(b"none")?,
    }
    fields.push_number(u64::from(intake.last_turn()))?;
    fields.push_number(intake.waiting() as u64)?;
    Ok(fields)
}

// Shows how far a site has come.
fn show_state<T>(clerk: &Clerk<'_, T>) -> Result<Sink, AllocError>
    ensures { IfOk result (λ sink. sink ≡ rows_text (state_row clerk.now.keyed.desk.site.place clerk.now.keyed.desk.site.state clerk.now.served.answered ∷ [])) }
{
    let fields = state_of(clerk)?;
    row(clerk.served.alloc, &fields)
}

// Shows the rows of a listing.
fn show_listing<T: Threads + Wait + Sync>(
    rt: &T,
    clerk: &mut Clerk<'_, T>,
    listing: &Listing,
) -> Result<Sink, KeepFault>
    ensures same { IsUnmoved clerk.old clerk.new }
    ensures rows { IfOk result (λ sink. sink ≡ rows_text (shown_to clerk.old.keyed.desk.site.place clerk.old.keyed.desk.site.state clerk.old.served.answered
        (Some (Question.List listing.now)))) }
{
    let mut rows = Counted::new(Sink::new(clerk.served.alloc));
    let desk = &mut clerk.keyed.desk;
    match desk.site.list_into(rt, listing, &mut rows) {
        Ok(()) => Ok(show_counted(clerk.served.alloc, rows)?),
        Err(_) => Err(KeepFault::Memory),
    }
}

// The record of the row at a key, as listings show it, or of the user who has a nickname. Whether there is one.
fn put_shown(fields: &mut Fields, key: &RowKey, row: &Row) -> Result<bool, AllocError>
    ensures { IfOk result (λ has. MatchBool has (row_shown key.now (Some row.now) ≡ fields.new ∷ []) (row_shown key.now (Some row.now) ≡ [])) }
{
    let (RowKey::Nick(nick), Row::Nick(id)) = (key, row) else {
        return put_record(fields, key, row);
    };
    fields.clear();
    fields.push_plain(b"row")?;
    fields.push_plain(b"nickname")?;
    fields.push(nick.as_bytes())?;
    id.push_to(fields)?;
    Ok(true)
}

// Shows the row at a key, or that there is none.
fn show_row<T>(clerk: &Clerk<'_, T>, key: &RowKey) -> Result<Sink, AllocError>
    requires { clerk.now.keyed.desk.site.progress ≡ resting_at (length clerk.now.keyed.desk.site.state.log) }
    ensures { IfOk result (λ sink. sink ≡ rows_text (or_none (row_shown key.now (rows_at clerk.now.keyed.desk.site.state.log key.now)))) }
{
    let mut fields = Fields::new(clerk.served.alloc);
    let has = match clerk.keyed.desk.site.row(key) {
        Some(found) => put_shown(&mut fields, key, found)?,
        None => false,
    };
    if !has {
        fields.clear();
        fields.push_plain(b"none")?;
    }
    row(clerk.served.alloc, &fields)
}

// Applies all that is pending, and shows the row at a key.
fn look_up<T: Threads + Wait + Sync>(
    rt: &T,
    clerk: &mut Clerk<'_, T>,
    key: &RowKey,
) -> Result<Sink, KeepFault>
    ensures same { IsUnmoved clerk.old clerk.new }
    ensures rows { IfOk result (λ sink. sink ≡ rows_text (shown_to clerk.old.keyed.desk.site.place clerk.old.keyed.desk.site.state clerk.old.served.answered
        (Some (Question.Row key.now)))) }
{
    let desk = &mut clerk.keyed.desk;
    if desk.site.cut(rt).is_err() {
        return Err(KeepFault::Memory);
    }
    Ok(show_row(clerk, key)?)
}

/// Answers a line that is a question, or the first bytes of it: with '?' before them, these rows are its answer. What is pending may be
/// applied; nothing else changes of the site. What is held of a listing is that of this moment, before and afterwards.
pub(crate) fn answer<T: Threads + Wait + Sync>(
    rt: &T,
    clerk: &mut Clerk<'_, T>,
    listed: &mut Option<Listed>,
    line: &[u8],
) -> Result<Sink, KeepFault>
    requires listed { AreListed clerk.old.keyed.desk.site.state listed.old }
    ensures same { IsUnmoved clerk.old clerk.new }
    ensures listed { AreListed clerk.old.keyed.desk.site.state listed.new }
    ensures rows { IfOk result (λ sink. sink ≡ rows_text (reply_rows clerk.old.keyed.desk.site.place clerk.old.keyed.desk.site.state clerk.old.served.answered line.now)) }
{
    if line.len() > LINE_MAX {
        return Ok(refuse(clerk.served.alloc, b"TooLong")?);
    }
    let rest = behind_first(line);
    if !closes(rest) {
        return Ok(refuse(clerk.served.alloc, b"OpenQuote")?);
    }
    match read_line(clerk.served.alloc, rest, clerk.keyed.desk.sites())? {
        Some(Question::List(listing)) => show_listing(rt, clerk, &listing),
        Some(Question::Page(page)) => turn_page(rt, clerk, listed, &page),
        Some(Question::Row(key)) => look_up(rt, clerk, &key),
        Some(Question::State) => Ok(show_state(clerk)?),
        None => Ok(refuse(clerk.served.alloc, b"BadQuestion")?),
    }
}
