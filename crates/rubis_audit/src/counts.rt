//! The counts of a message, in one field.

ghost use Rattle.std.specs.Prelude.{◌≡◌, ◌≤◌, IfSome, length};
ghost use Rattle.rubis_schema.specs.declared.limits.TheConstants.{COUNTED_MAX};
ghost use Rattle.rubis_message.specs.Counts.{deps_of};

use rubis_clock::Deps;
use rubis_schema::{COUNT_MAX, read_number, split_once};

/// The counts of `sites` sites, separated by `:`. `None` if the text is malformed.
pub fn read_counts(text: &[u8], sites: u8) -> Option<Deps>
    requires { sites ≤ COUNTED_MAX }
    ensures value { result ≡ deps_of sites text.now }
    ensures counted { IfSome result (λ d. length d ≡ sites) }
{
    if sites == 0 {
        return None;
    }
    let mut deps = Deps::new();
    let mut rest = text;
    for _site in 1..sites {
        let (digits, others) = split_once(rest, b':')?;
        let count = read_number(digits, COUNT_MAX)?;
        deps.push(count as u32);
        rest = others;
    }
    let last = read_number(rest, COUNT_MAX)?;
    deps.push(last as u32);
    Some(deps)
}
