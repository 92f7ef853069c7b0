//! Whether a record is in the grammar of a site or of a world: read as these read it.

ghost use Rattle.std.specs.Prelude.{◌≡◌, ◌≤◌, IfOk};
ghost use Rattle.rubis_schema.specs.declared.limits.TheConstants.{COUNTED_MAX};
ghost use Rattle.rubis_audit.specs.Checking.{is_read};

use crate::checker::Grammar;
use rubis_message::{Input, WorldInput, read_input, read_world_input};
use rubis_schema::Record;
use std::alloc::{AllocError, Global};

/// Whether a record of that grammar is read: by a site as a packet or a request; by several in one run as an event, with a
/// request if it is one at a site. One of an audit isn't read here.
///
/// # Errors
///
/// `AllocError` if out of memory for a name or a text.
pub fn is_read<F: Record>(
    alloc: Global,
    fields: &F,
    grammar: Grammar,
    sites: u8,
) -> Result<bool, AllocError>
    requires { sites ≤ COUNTED_MAX }
    ensures { IfOk result (λ is. is ≡ is_read grammar sites (F.fields fields.now)) }
{
    match grammar {
        Grammar::Site => match read_input(alloc, fields, sites)? {
            Input::Came(_) | Input::Asked(_) => Ok(true),
            Input::Neither => Ok(false),
        },
        Grammar::World => match read_world_input(alloc, fields, sites)? {
            WorldInput::Asked(_, Some(_)) | WorldInput::Delivered(_, _) | WorldInput::Audit => Ok(
                true,
            ),
            WorldInput::Asked(_, None) | WorldInput::Neither => Ok(false),
        },
        Grammar::Audit => Ok(false),
    }
}
