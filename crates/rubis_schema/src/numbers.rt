//! Numbers as fields.

ghost use Rattle.std.specs.Prelude.{◌≡◌, ◌≤◌, ◌+◌, ◌∷◌, ◌++◌, [], OnErr, OnOk, decimal};
ghost use Rattle.rubis_schema.specs.Ids.{int_text};
ghost use Rattle.rubis_schema.specs.declared.limits.TheConstants.{NUMBER_TEXT_MAX};

use crate::field_list::Fields;
use crate::plain_rows::PlainRow;
use itoa::Buffer;
use std::alloc::AllocError;

/// Adds a number as a field. Without memory for it the record stays as it was.
#[inline(always)]
pub fn push_number(fields: &mut Fields, number: u64) -> Result<(), AllocError>
    ensures ok { OnOk result (fields.new ≡ fields.old ++ decimal number ∷ []) }
    ensures err { OnErr result (fields.new ≡ fields.old) }
{
    fields.push_number(number)
}

/// Adds a number, with `-` in front where it is below 0, as a field. Without memory for it the record stays as it was.
pub fn push_int(fields: &mut Fields, number: i64) -> Result<(), AllocError>
    ensures ok { OnOk result (fields.new ≡ fields.old ++ int_text number ∷ []) }
    ensures err { OnErr result (fields.new ≡ fields.old) }
{
    if let Ok(size) = u64::try_from(number) {
        return push_number(fields, size);
    }
    let mut buffer = Buffer::new();
    fields.push(buffer.format(number).as_bytes())
}

/// Puts a number, with `-` in front where it is below 0, first, as a field.
#[inline(always)]
pub fn put_int(row: &mut PlainRow, number: i64)
    requires room { NUMBER_TEXT_MAX + 2 ≤ row.old.left }
    ensures fields { row.new.fields ≡ int_text number ∷ row.old.fields }
    ensures left { row.old.left ≤ row.new.left + (NUMBER_TEXT_MAX + 2) }
{
    row.put_number(number.unsigned_abs());
    if number < 0 {
        row.put_mark(b'-');
    }
}
