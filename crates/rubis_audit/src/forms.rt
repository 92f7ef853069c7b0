//! The forms of records: a table of the words that tell each, what it is called and what its fields may be.

ghost use Rattle.std.specs.Prelude.{◌≡◌, map, bytes_eq, option_map};
ghost use Rattle.rubis_audit.specs.Forms.{field_at, form_of, forms, is_told, row};

use crate::rules::Rule::{
    self, Blue, Counts, Effect, First, Id, Name, Nick, Number, Positive, Rating, Red, Second,
    Shown, Site, Text, Told, Version, Winner,
};
use rubis_schema::{
    AMOUNT_MAX, CAT_MAX, COUNT_MAX, PASS_MAX, QUANTITY_MAX, RECORDS_MAX, Record, SEQ_MAX, TURN_MAX,
};

/// The section of the grammars that a form belongs to.
#[derive(Clone, Copy)]
pub enum Section {
    Request,
    Message,
    Token,
    /// A request at a site of a world.
    At,
    /// A delivery or an audit of a world.
    Event,
    /// The site of a log.
    LogSite,
    /// A row of a log's tables.
    LogRow,
}

/// A form of records.
#[derive(Clone, Copy)]
pub struct Form {
    pub section: Section,
    // Its first word; and the word that tells it from others with that, and how many fields behind the first it stands.
    first: &'static [u8],
    at: u8,
    told: &'static [u8],
    /// What a record of this form is called.
    pub name: &'static str,
    /// What its fields after the first word may be.
    pub rules: &'static [Rule],
    /// Whether more fields may follow these.
    pub is_open: bool,
}

// A form, by its first word; and, `at` fields behind that, by the word that tells it from others that begin so.
macro_rules! form {
    ($section:ident, $first:literal, $at:literal, $told:literal, $name:literal, $is_open:literal, [$($rule:expr),*]) => {
        Form {
            section: Section::$section,
            first: $first,
            at: $at,
            told: $told,
            name: $name,
            rules: &[$($rule),*],
            is_open: $is_open,
        }
    };
}

// A form that its first word tells.
macro_rules! plain {
    ($section:ident, $word:literal, $name:literal, $is_open:literal, $rules:tt) => {
        form!($section, $word, 0, $word, $name, $is_open, $rules)
    };
}

macro_rules! listed {
    ($word:literal, $name:literal, [$($rule:expr),*]) => {
        form!(Request, b"list", 1, $word, $name, false, [Told $(, $rule)*])
    };
}

// A message says in its seventh field what it does.
macro_rules! sent {
    ($version:expr, $red:expr, $word:literal, $name:literal, [$($rule:expr),*]) => {
        form!(Message, b"msg", 6, $word, $name, false, [$version, Site, SEQ, $red, Counts, Told $(, $rule)*])
    };
}

/// The number of a message of a site.
pub const SEQ: Rule = Positive(SEQ_MAX as u64);

/// A category.
pub const CATEGORY: Rule = Number(CAT_MAX);

/// A quantity, or the stock of a new item.
pub const QUANTITY: Rule = Positive(QUANTITY_MAX);

/// The amount of a bid, or a start price.
pub const AMOUNT: Rule = Positive(AMOUNT_MAX);

/// A price at once; 0 where there is none.
pub const PRICE: Rule = Number(AMOUNT_MAX);

/// The turn of a token.
pub const TURN: Rule = Number(TURN_MAX as u64);

/// A count of messages, or a red number of either colour.
pub const COUNT: Rule = Number(COUNT_MAX);

// Those that begin with one word stand in the order in which they are tried. Most records are messages.
const FORMS: [Form; 34] = [
    sent! { First, Red, b"user", "a message with a user", [Nick] },
    sent! { First, Blue, b"item", "a message with an item", [Id, Name, CATEGORY, QUANTITY, AMOUNT, PRICE] },
    sent! { First, Red, b"bid", "a message with a bid", [Id, Id, AMOUNT] },
    sent! { First, Red, b"buy", "a message with a buy", [Id, Id, QUANTITY] },
    sent! { First, Red, b"close", "a message with a close", [Id, CATEGORY, Winner] },
    sent! { First, Blue, b"comment", "a message with a comment", [Id, Id, Id, Rating, Text] },
    sent! { Second, Blue, b"restock", "a message with a restock", [Id, QUANTITY] },
    sent! { Second, Red, b"rename", "a message with a rename", [Id, Nick, Nick] },
    plain! { Message, b"msg", "a message", true, [Version, Site, SEQ, COUNT, Counts, Effect] },
    plain! { Token, b"token", "a token", false, [First, TURN, Site, COUNT] },
    plain! { LogSite, b"site", "the site of a log", false, [Site] },
    plain! { LogRow, b"row", "a row", true, [] },
    plain! { Request, b"user", "a user", false, [Nick] },
    plain! { Request, b"item", "an item", false, [Id, Name, CATEGORY, QUANTITY, AMOUNT, PRICE] },
    plain! { Request, b"bid", "a bid", false, [Id, Id, AMOUNT] },
    plain! { Request, b"buy", "a buy", false, [Id, Id, QUANTITY] },
    plain! { Request, b"close", "a close", false, [Id, Id] },
    plain! { Request, b"comment", "a comment", false, [Id, Id, Id, Rating, Text] },
    plain! { Request, b"restock", "a restock", false, [Id, Id, QUANTITY] },
    plain! { Request, b"rename", "a rename", false, [Id, Nick] },
    plain! { Request, b"pass", "a pass", false, [Number(PASS_MAX)] },
    listed! { b"users", "a list of users", [] },
    listed! { b"items", "a list of items", [CATEGORY] },
    listed! { b"bids", "a list of bids", [Id] },
    listed! { b"purchases", "a list of purchases", [Id] },
    listed! { b"comments", "a list of comments", [Id] },
    listed! { b"categories", "a list of categories", [] },
    listed! { b"log", "a list of the log", [] },
    listed! { b"misfits", "a list of misfits", [] },
    listed! { b"tables", "a list of the tables", [] },
    plain! { Request, b"list", "a list", true, [Shown] },
    plain! { At, b"at", "a request at a site", true, [Site, Told] },
    plain! { Event, b"deliver", "a delivery", false, [Site, Number(RECORDS_MAX)] },
    plain! { Event, b"audit", "an audit", false, [] },
];

// The table.
fn forms() -> &'static [Form]
    ensures { map row result.now ≡ forms }
{
    &FORMS
}

/// Whether the field is this word.
#[inline(always)]
pub fn says(field: &[u8], word: &[u8]) -> bool
    ensures { result ≡ bytes_eq field.now word.now }
{
    field == word
}

/// The field with that number, from 1; nothing where there is none.
pub fn field_at<F: Record>(fields: &F, number: usize) -> &[u8]
    ensures { result.now ≡ field_at (F.fields fields.now) number }
{
    if number == 0 {
        return &[];
    }
    match fields.field(number - 1) {
        Some(field) => field,
        None => &[],
    }
}

impl Form {
    // Whether the words of a record tell this form, the first of them in the field with the number `start`.
    fn is_told<F: Record>(&self, fields: &F, start: u8) -> bool
        ensures { result ≡ is_told start (F.fields fields.now) (row self.now) }
    {
        let start = usize::from(start);
        says(field_at(fields, start), self.first)
            && says(field_at(fields, start + usize::from(self.at)), self.told)
    }
}

/// The form of a record whose first word is the field with the number `start`, if its words tell one.
pub fn form_of<F: Record>(fields: &F, start: u8) -> Option<&'static Form>
    ensures { option_map (λ f. row f.now) result ≡ form_of start (F.fields fields.now) }
{
    let all = forms();
    for form in all {
        if form.is_told(fields, start) {
            return Some(form);
        }
    }
    None
}
