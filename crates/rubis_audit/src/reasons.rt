//! Why a record is outside the grammar, in words.

ghost use Rattle.std.specs.Prelude.{◌≡◌, ◌≤◌, IfOk, length};
ghost use Rattle.std.specs.List.{list_all};
ghost use Rattle.rubis_schema.specs.FieldForms.{is_digit};
ghost use Rattle.rubis_audit.specs.Forms.{row};
ghost use Rattle.rubis_audit.specs.Reasons.{count_text, counts_text, has, marks, named_text, noun, number_text, quote_text, reason_text, shown_byte, words_of};

use crate::forms::{Form, field_at, form_of, says};
use crate::record_faults::RecordFault;
use crate::rules::{Rule, is_printable};
use rubis_schema::{COUNT_MAX, Record};
use std::alloc::{AllocError, Global};

// How many bytes of a word are shown.
const SHOWN: usize = 20;

/// The lines of an input in which a record begins, and a field of it begins and ends.
#[derive(Clone, Copy)]
pub struct Lines {
    pub first: u64,
    pub opened: u64,
    pub closed: u64,
}

// What is said of a rule, or what comes before what is said of the field.
fn words_of(rule: Rule) -> &'static str
    ensures { result.now ≡ words_of rule }
{
    match rule {
        Rule::Nick => "a nickname has 1 to 20 of a-z, 0-9 and _, the first a letter",
        Rule::Name => "a name has 1 to 64 bytes from space to ~",
        Rule::Text => "a text has up to 200 bytes from space to ~",
        Rule::Rating => "a rating is 0, 1 to 5 or -1 to -5",
        Rule::Id => "an id is site.number, the site below ",
        Rule::Winner => "a winner is none or site.number, the site below ",
        Rule::Site => "a site is below ",
        Rule::Number(_) | Rule::Positive(_) => "below 1",
        Rule::Red => "a red message has a red number from 1",
        Rule::Blue => "a blue message has the red number 0",
        Rule::First => "the version is 1",
        Rule::Second => "the version is 2",
        Rule::Version => "the version is 1 or 2",
        Rule::Effect => "no message has ",
        Rule::Shown => "no list is of ",
        Rule::Record => "no record begins with ",
        Rule::Request => "no request begins with ",
        Rule::Next => "a message counts as many of its own site as came before it",
        Rule::NewNick => "the new nickname is the old one",
        Rule::Log => "no log has begun: site,0 begins that of site 0",
        Rule::BeforeRows => "no message follows the rows of a log",
        Rule::InGrammar => "not in the grammar",
        Rule::Counts | Rule::Told | Rule::Count(_) | Rule::OneLine => "",
    }
}

// A byte of the record as a reason shows it: none that a terminal would obey.
fn shown_byte(byte: u8) -> u8
    ensures { result ≡ shown_byte byte }
{
    if is_printable(byte) { byte } else { b'?' }
}

// A text, and then the first bytes of a word of the record.
fn named(alloc: Global, words: &str, word: &[u8]) -> Result<Vec<u8>, AllocError>
    ensures { IfOk result (λ text. text.items ≡ named_text words.now word.now) }
{
    let mut text = Vec::from_slice(alloc, words.as_bytes())?;
    let shown = &word[..word.len().min(SHOWN)];
    for byte in shown {
        text.push(shown_byte(*byte))?;
    }
    Ok(text)
}

fn is_digit(byte: u8) -> bool
    ensures { result ≡ is_digit byte }
{
    byte >= b'0' && byte <= b'9'
}

fn all_digits(field: &[u8]) -> bool
    ensures { result ≡ list_all is_digit field.now }
{
    field.iter().all(|byte| is_digit(*byte))
}

// Why a field is no number, or that it is beyond the limit.
fn number_reason(
    alloc: Global,
    field: &[u8],
    beyond: &str,
    limit: u64,
) -> Result<Vec<u8>, AllocError>
    ensures { IfOk result (λ text. text.items ≡ number_text beyond.now limit field.now) }
{
    if field.is_empty() || !all_digits(field) {
        return Vec::from_slice(alloc, b"a number has digits alone");
    }
    if field.len() > 1 && field[0] == b'0' {
        return Vec::from_slice(alloc, b"a number has no leading zero");
    }
    Ok(format!(in alloc; "{beyond}{limit}")?.into_bytes())
}

// How many marks a field has between its parts.
fn marks(field: &[u8]) -> usize
    ensures value { result ≡ marks field.now }
    ensures few { result ≤ length field.now }
{
    field.iter().filter(|byte| **byte == b':').count()
}

// Why a field isn't the counts of `sites` sites.
fn counts_reason(alloc: Global, field: &[u8], sites: u8) -> Result<Vec<u8>, AllocError>
    ensures { IfOk result (λ text. text.items ≡ counts_text sites field.now) }
{
    let given = marks(field) + 1;
    if given == usize::from(sites) {
        return Ok(format!(in alloc; "a count is a number up to {COUNT_MAX}")?.into_bytes());
    }
    if sites == 1 {
        return Ok(format!(in alloc; "1 site has 1 count, here are {given}")?.into_bytes());
    }
    Ok(format!(in alloc; "{sites} sites have {sites} counts, here are {given}")?.into_bytes())
}

fn has(form: &Form) -> &'static str
    ensures { result.now ≡ has (row form.now) }
{
    if form.is_open {
        " has at least "
    } else {
        " has "
    }
}

fn noun(count: usize) -> &'static str
    ensures { result.now ≡ noun count }
{
    if count == 1 { " field" } else { " fields" }
}

// How many fields a record has whose first word is the field with the number `start`, and how many this one has.
fn count_reason<F: Record>(alloc: Global, fields: &F, start: u8) -> Result<Vec<u8>, AllocError>
    ensures { IfOk result (λ text. text.items ≡ count_text start (F.fields fields.now)) }
{
    let Some(form) = form_of(fields, start) else {
        return Ok(Vec::new(alloc));
    };
    let (name, has, given) = (form.name, has(form), fields.len());
    let wanted = usize::from(start) + form.rules.len();
    let noun = noun(wanted);
    let text = format!(in alloc; "{name}{has}{wanted}{noun}, this record has {given}")?;
    Ok(text.into_bytes())
}

// Where the quote of a field with a line end opened and closes.
fn quote_reason(alloc: Global, lines: Lines) -> Result<Vec<u8>, AllocError>
    ensures { IfOk result (λ text. text.items ≡ quote_text lines) }
{
    let Lines { opened, closed, .. } = lines;
    let text = format!(in alloc; "a quote that opened at line {opened} closes at line {closed}")?;
    Ok(text.into_bytes())
}

/// Why a record is outside the grammar.
///
/// # Errors
///
/// `AllocError` if memory runs out.
pub fn reason_text<F: Record>(
    alloc: Global,
    fields: &F,
    fault: RecordFault,
    lines: Lines,
    sites: u8,
) -> Result<Vec<u8>, AllocError>
    ensures { IfOk result (λ text. text.items ≡ reason_text sites lines fault (F.fields fields.now)) }
{
    let field = field_at(fields, fault.field);
    let words = words_of(fault.rule);
    match fault.rule {
        Rule::Id | Rule::Winner => {
            Ok(format!(in alloc; "{words}{sites}, the number from 1 to 1000000")?.into_bytes())
        }
        Rule::Site => number_reason(alloc, field, words, u64::from(sites)),
        Rule::Counts => counts_reason(alloc, field, sites),
        Rule::Number(high) | Rule::Positive(high) if !says(field, b"0") => {
            number_reason(alloc, field, "above ", high)
        }
        Rule::Red if !says(field, b"0") => number_reason(alloc, field, "above ", COUNT_MAX),
        Rule::Record if says(field, b"send") => Vec::from_slice(
            alloc,
            b"this is an answer of a site: leave out the first field",
        ),
        Rule::Effect | Rule::Shown | Rule::Record | Rule::Request => named(alloc, words, field),
        Rule::Count(start) => count_reason(alloc, fields, start),
        Rule::OneLine => quote_reason(alloc, lines),
        _ => Vec::from_slice(alloc, words.as_bytes()),
    }
}
