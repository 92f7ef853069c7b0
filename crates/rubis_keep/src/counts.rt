//! How many messages of each site a log has, and the texts that say so.

ghost use Rattle.std.specs.Prelude.{◌≡◌, ◌≤◌, ◌++◌, ◌∷◌, [], IfOk, OnOk, length, map, string_bytes};
ghost use Rattle.std.specs.List.{range_with_len};
ghost use Rattle.rubis_schema.specs.declared.limits.TheConstants.{COUNTED_MAX};
ghost use Rattle.rubis_message.specs.Grammar.{deps_text};
ghost use Rattle.rubis_model.specs.Site.{counted};
ghost use Rattle.rubis_keep.specs.KeptLine.{kept_line};

use rubis_message::Message;
use rubis_schema::{COUNTS_TEXT_MAX, Fields, ShortText};
use std::alloc::{AllocError, Global};

// How many messages of that site there are.
fn count_of(messages: &[Message], site: u8) -> u64
    ensures { result ≡ counted site messages.now }
{
    let mut count: u64 = 0;
    for message in messages {
        if message.id().site == site {
            count += 1;
        }
    }
    count
}

/// How many messages there are of each site, of the first `sites`.
#[tactic(auto, using(crate::proofs::CountFacts::counts_more))]
pub(crate) fn counts_of(
    alloc: Global,
    messages: &[Message],
    sites: u8,
) -> Result<Vec<u64>, AllocError>
    ensures { IfOk result (λ counts. counts.items ≡ map (λ i. counted i messages.now) (range_with_len 0 sites)) }
{
    let mut counts = Vec::new(alloc);
    for site in 0..sites {
        counts.push(count_of(messages, site))?;
    }
    Ok(counts)
}

/// Adds the counts of sites as one field.
pub(crate) fn push_counts(fields: &mut Fields, counts: &[u32]) -> Result<(), AllocError>
    requires { length counts.now ≤ COUNTED_MAX }
    ensures { OnOk result (fields.new ≡ fields.old ++ deps_text counts.now ∷ []) }
{
    let mut text: ShortText<COUNTS_TEXT_MAX> = ShortText::new();
    for site in (0..counts.len()).rev() {
        if site + 1 < counts.len() {
            text.put_byte(b':');
        }
        text.put_number(counts[site]);
    }
    fields.push_plain(text.as_bytes())
}

/// The line that says that all that was kept is answered: how many records that is, and how many messages of each site are released.
pub(crate) fn kept_line(alloc: Global, records: u64, counts: &[u64]) -> Result<String, AllocError>
    ensures { IfOk result (λ line. string_bytes line ≡ kept_line records counts.now) }
{
    let mut line = format!(in alloc; "kept,{records}")?;
    let mut mark = ",";
    for count in counts {
        line.push_str(format!(in alloc; "{mark}{count}")?.as_str())?;
        mark = ":";
    }
    line.push('\n')?;
    Ok(line)
}
