//! What is wrong with a record: which field, and the rule that it breaks.

ghost use Rattle.std.specs.Prelude.{◌≡◌, ◌≤◌};
ghost use Rattle.rubis_schema.specs.declared.limits.TheConstants.{COUNTED_MAX};
ghost use Rattle.rubis_audit.specs.Forms.{row};
ghost use Rattle.rubis_audit.specs.Checking.{discord, fault, fault_in, form_fault, further, has_line_end, has_section, is_next, line_end_at, line_end_from};
ghost use Rattle.rubis_audit.specs.Checking.{misfit, misplaced, place_after, record_fault, request_fault};

use crate::checker::Grammar;
use crate::counts::read_counts;
use crate::forms::Section::{self, At, Event, LogRow, LogSite, Message, Request, Token};
use crate::forms::{Form, field_at, form_of, says};
use crate::rules::Rule;
use crate::widener::LinePlace;
use rubis_schema::{Record, SEQ_MAX, read_number};

/// What is wrong with a record: the number of the field, from 1, or 0 for the whole record; and the rule that it breaks.
#[derive(Clone, Copy)]
pub struct RecordFault {
    pub field: usize,
    pub rule: Rule,
}

// That the field breaks the rule.
fn broken(field: usize, rule: Rule) -> Option<RecordFault>
    ensures { result ≡ fault field rule }
{
    Some(RecordFault { field, rule })
}

// The first of the fields from the number `first` on that isn't as its rule says.
fn misfit<F: Record>(fields: &F, first: usize, rules: &[Rule], sites: u8) -> Option<RecordFault>
    requires few { sites ≤ COUNTED_MAX }
    requires near { first ≤ 256 }
    ensures { result ≡ misfit sites (F.fields fields.now) first rules.now }
{
    for (place, rule) in rules.iter().enumerate() {
        if !rule.fits(field_at(fields, first + place), sites) {
            return broken(first + place, *rule);
        }
    }
    None
}

// What is wrong with the fields of a record of this form whose first word is the field with the number `start`.
fn form_fault<F: Record>(fields: &F, start: u8, form: &Form, sites: u8) -> Option<RecordFault>
    requires { sites ≤ COUNTED_MAX }
    ensures { result ≡ form_fault sites start (F.fields fields.now) (row form.now) }
{
    let wanted = usize::from(start) + form.rules.len();
    let given = fields.len();
    if given < wanted || (given > wanted && !form.is_open) {
        return broken(0, Rule::Count(start));
    }
    misfit(fields, usize::from(start) + 1, form.rules, sites)
}

// Whether a message counts those of its own site before it.
fn is_next<F: Record>(fields: &F, sites: u8) -> bool
    requires { sites ≤ COUNTED_MAX }
    ensures { result ≡ is_next sites (F.fields fields.now) }
{
    let site = read_number(field_at(fields, 3), 255);
    let number = read_number(field_at(fields, 4), u64::from(SEQ_MAX));
    match (site, number, read_counts(field_at(fields, 6), sites)) {
        (Some(site), Some(number), Some(counts)) => {
            site < counts.len() as u64 && counts.is_next(site as u8, number)
        }
        _ => false,
    }
}

// What is wrong with a message each field of which is as its rule says.
fn discord<F: Record>(fields: &F, sites: u8) -> Option<RecordFault>
    requires { sites ≤ COUNTED_MAX }
    ensures { result ≡ discord sites (F.fields fields.now) }
{
    if !is_next(fields, sites) {
        return broken(6, Rule::Next);
    }
    if says(field_at(fields, 7), b"rename") && says(field_at(fields, 9), field_at(fields, 10)) {
        return broken(10, Rule::NewNick);
    }
    None
}

// What is wrong with the request in a record of a world, from the third field on.
fn request_fault<F: Record>(fields: &F, sites: u8) -> Option<RecordFault>
    requires { sites ≤ COUNTED_MAX }
    ensures { result ≡ request_fault sites (F.fields fields.now) }
{
    match form_of(fields, 3) {
        Some(form) if matches!(form.section, Request) => { form_fault(fields, 3, form, sites) }
        _ => broken(3, Rule::Request),
    }
}

// What is wrong with a record of that section, if each field is as its rule says and they agree: in an audit it may stand in the
// wrong place, and elsewhere it couldn't be read.
fn misplaced(grammar: Grammar, place: LinePlace, section: Section) -> Option<RecordFault>
    ensures { result ≡ misplaced grammar place section }
{
    match (grammar, place, section) {
        (Grammar::Site | Grammar::World, _, _) => broken(0, Rule::InGrammar),
        (Grammar::Audit, _, LogSite) => None,
        (Grammar::Audit, LinePlace::BeforeLogs, _) => broken(1, Rule::Log),
        (Grammar::Audit, LinePlace::InRows, Message) => broken(1, Rule::BeforeRows),
        (Grammar::Audit, _, _) => None,
    }
}

// Whether a record of the grammar may have a form of that section.
fn has_section(grammar: Grammar, section: Section) -> bool
    ensures { result ≡ has_section grammar section }
{
    match grammar {
        Grammar::Site => matches!(section, Request | Message | Token),
        Grammar::World => matches!(section, At | Event),
        Grammar::Audit => matches!(section, Message | LogSite | LogRow),
    }
}

// What is wrong with a record of that section each field of which is as its rule says.
fn further<F: Record>(fields: &F, section: Section, sites: u8) -> Option<RecordFault>
    requires { sites ≤ COUNTED_MAX }
    ensures { result ≡ further sites (F.fields fields.now) section }
{
    match section {
        Message => discord(fields, sites),
        At => request_fault(fields, sites),
        _ => None,
    }
}

// What is wrong with a record, whatever line ends it has.
fn fault_in<F: Record>(
    fields: &F,
    grammar: Grammar,
    place: LinePlace,
    sites: u8,
) -> Option<RecordFault>
    requires { sites ≤ COUNTED_MAX }
    ensures { result ≡ fault_in grammar sites place (F.fields fields.now) }
{
    match form_of(fields, 1) {
        Some(form) if has_section(grammar, form.section) => form_fault(fields, 1, form, sites)
            .or(further(fields, form.section, sites))
            .or(misplaced(grammar, place, form.section)),
        _ => broken(1, Rule::Record),
    }
}

// Whether a field has a line end, as only one in quotes has.
fn has_line_end(field: &[u8]) -> bool
    ensures { result ≡ has_line_end field.now }
{
    field.contains(&b'\n')
}

// The number of the first field that has a line end.
fn first_line_end<F: Record>(fields: &F) -> Option<usize>
    ensures { result ≡ line_end_from 1 (F.fields fields.now) }
{
    for place in 0..fields.len() {
        if has_line_end(fields.field(place)?) {
            return Some(place + 1);
        }
    }
    None
}

// The number of the field with a line end, if it is that what is wrong.
fn line_end_at<F: Record>(fields: &F, number: usize) -> Option<usize>
    ensures { result ≡ line_end_at (F.fields fields.now) number }
{
    if number == 0 {
        return first_line_end(fields);
    }
    if has_line_end(field_at(fields, number)) {
        return Some(number);
    }
    None
}

/// What is wrong with a record of the grammar for `sites` sites that stands there, if anything: a quote that wasn't closed
/// swallowed what follows if the field at fault has a line end.
pub fn record_fault<F: Record>(
    fields: &F,
    grammar: Grammar,
    place: LinePlace,
    sites: u8,
) -> Option<RecordFault>
    requires { sites ≤ COUNTED_MAX }
    ensures { result ≡ record_fault grammar sites place (F.fields fields.now) }
{
    let fault = fault_in(fields, grammar, place, sites)?;
    match line_end_at(fields, fault.field) {
        Some(field) => broken(field, Rule::OneLine),
        None => Some(fault),
    }
}

/// Where the next record of an audit stands, after one that is well.
pub fn place_after<F: Record>(fields: &F, place: LinePlace) -> LinePlace
    ensures { result ≡ place_after place (F.fields fields.now) }
{
    match form_of(fields, 1) {
        Some(form) if matches!(form.section, LogSite) => LinePlace::InMessages,
        Some(form) if matches!(form.section, LogRow) => LinePlace::InRows,
        _ => place,
    }
}
