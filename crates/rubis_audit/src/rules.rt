//! The rules of records, and whether a field is as its rule says.

ghost use Rattle.std.specs.Prelude.{◌≡◌, ◌≤◌};
ghost use Rattle.std.specs.List.{list_all};
ghost use Rattle.rubis_schema.specs.FieldForms.{is_printable};
ghost use Rattle.rubis_schema.specs.declared.limits.TheConstants.{COUNTED_MAX};
ghost use Rattle.rubis_audit.specs.Forms.{fits, is_within};

use crate::counts::read_counts;
use crate::forms::says;
use rubis_schema::{COUNT_MAX, Id, NAME_MAX, Nick, TEXT_MAX, read_number, read_rating};

/// A rule of records: what a field or a record has to be.
#[derive(Clone, Copy)]
pub enum Rule {
    /// A nickname.
    Nick,
    /// The name of an item.
    Name,
    /// The text of a comment.
    Text,
    Rating,
    /// An id whose site is one of the sites.
    Id,
    /// Such an id, or `none`.
    Winner,
    /// The number of one of the sites.
    Site,
    /// A count for each site.
    Counts,
    /// A number up to this one.
    Number(u64),
    /// A number from 1 to this one.
    Positive(u64),
    /// The red number of a red message.
    Red,
    /// The red number of a blue message, which is 0.
    Blue,
    /// The version of most messages and of tokens.
    First,
    /// The version of restocks and renames.
    Second,
    /// Either version.
    Version,
    /// The word that told the form.
    Told,
    /// A word for what a message does, where none told the form.
    Effect,
    /// A word for what a listing shows, where none told the form.
    Shown,
    /// A word that a record begins with.
    Record,
    /// A word that a request begins with.
    Request,
    /// As many fields as the form has whose first word is the field with that number.
    Count(u8),
    /// A message counts those of its own site before it.
    Next,
    /// A rename changes the nickname.
    NewNick,
    /// The site of a log comes first.
    Log,
    /// The messages of a log stand before its rows.
    BeforeRows,
    /// A field is on one line.
    OneLine,
    /// A record is in the grammar.
    InGrammar,
}

/// Whether it is a byte from space to `~`.
pub fn is_printable(byte: u8) -> bool
    ensures { result ≡ is_printable byte }
{
    byte >= b' ' && byte <= b'~'
}

fn all_printable(text: &[u8]) -> bool
    ensures { result ≡ list_all is_printable text.now }
{
    text.iter().all(|byte| is_printable(*byte))
}

// Whether it is a number from `low` to `high`.
fn is_within(field: &[u8], low: u64, high: u64) -> bool
    ensures { result ≡ is_within low high field.now }
{
    read_number(field, high).is_some_and(|number| low <= number)
}

impl Rule {
    /// Whether a field is as the rule says, which is about a field alone, when there are `sites` sites.
    #[tactic(auto, unfolding(rubis_schema::specs::FieldForms::nick_of))]
    pub fn fits(self, field: &[u8], sites: u8) -> bool
        requires { sites ≤ COUNTED_MAX }
        ensures { result ≡ fits sites self field.now }
    {
        match self {
            Rule::Nick => Nick::read(field).is_some(),
            Rule::Name => { !field.is_empty() && field.len() <= NAME_MAX && all_printable(field) }
            Rule::Text => field.len() <= TEXT_MAX && all_printable(field),
            Rule::Rating => read_rating(field).is_some(),
            Rule::Id => Id::read(field, sites).is_some(),
            Rule::Winner => says(field, b"none") || Id::read(field, sites).is_some(),
            Rule::Site => sites > 0 && is_within(field, 0, u64::from(sites) - 1),
            Rule::Counts => read_counts(field, sites).is_some(),
            Rule::Number(high) => is_within(field, 0, high),
            Rule::Positive(high) => is_within(field, 1, high),
            Rule::Red => is_within(field, 1, COUNT_MAX),
            Rule::Blue => says(field, b"0"),
            Rule::First => says(field, b"1"),
            Rule::Second => says(field, b"2"),
            Rule::Version => says(field, b"1") || says(field, b"2"),
            Rule::Told => true,
            _ => false,
        }
    }
}
