//! The text of the counts of a stamp.

ghost use Rattle.std.specs.Prelude.{◌≡◌, ◌<◌, ◌≤◌, [], ◌∷◌, ◌++◌, IfSome, OnErr, OnOk, length, option_map};
ghost use Rattle.rubis_message.specs.Counts.{deps_of};
ghost use Rattle.rubis_message.specs.Grammar.{deps_text};

use rubis_clock::PackedDeps;
use rubis_schema::{
    COUNT_MAX, COUNTED_MAX, COUNTS_TEXT_MAX, Fields, ShortText, read_number, read_number_before,
};
use std::alloc::AllocError;

/// Parses the counts of `sites` sites into `deps`, which has none. `None` if `text` is malformed.
///
/// They are put where the caller has them: a row of counts that is handed back is cleared and copied at each step of the way.
#[inline(always)]
pub fn read_deps(text: &[u8], sites: u8, deps: &mut PackedDeps) -> Option<()>
    requires none { deps.old ≡ [] }
    requires some_sites { 0 < sites }
    requires few_sites { sites ≤ COUNTED_MAX }
    ensures value { option_map (λ _. deps.new) result ≡ deps_of sites text.now }
    ensures counted { IfSome result (λ _. length deps.new ≡ sites) }
{
    let mut rest = text;
    for _site in 1..sites {
        let (count, others) = read_number_before(rest, b':', COUNT_MAX)?;
        deps.push(count as u32);
        rest = others;
    }
    let last = read_number(rest, COUNT_MAX)?;
    deps.push(last as u32);
    Some(())
}

/// Adds the counts as one field.
pub fn push_deps(fields: &mut Fields, deps: &PackedDeps) -> Result<(), AllocError>
    ensures ok { OnOk result (fields.new ≡ fields.old ++ deps_text deps.now ∷ []) }
    ensures err { OnErr result (fields.new ≡ fields.old) }
{
    let sites = deps.sites();
    let mut text: ShortText<COUNTS_TEXT_MAX> = ShortText::new();
    for site in (0..sites).rev() {
        if site + 1 < sites {
            text.put_byte(b':');
        }
        text.put_number(deps.count(site));
    }
    fields.push_plain(text.as_bytes())
}
