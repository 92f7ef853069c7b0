//! Room for what is appended, and a few bytes where there is room.

ghost use Rattle.std.specs.Prelude.{◌≡◌, ◌≤◌, ◌+◌, ◌++◌, OnOk, length};
ghost use Rattle.std.specs.Vec.{vec_capacity, vec_len};

use std::alloc::AllocError;

/// Makes room for `more` further elements; usually the capacity is already there.
#[inline(always)]
pub fn make_room<T>(list: &mut Vec<T>, more: usize) -> Result<(), AllocError>
    ensures items { list.new.items ≡ list.old.items }
    ensures room { OnOk result (vec_len list.new + more ≤ vec_capacity list.new) }
{
    if list.capacity() - list.len() >= more {
        return Ok(());
    }
    list.reserve(more)
}

/// Appends a few bytes to a text that has room for them. That is less than a call of what copies any number of them.
#[inline(always)]
pub fn push_bytes(text: &mut Vec<u8>, bytes: &[u8])
    requires room { vec_len text.old + length bytes.now ≤ vec_capacity text.old }
    ensures text { text.new.items ≡ text.old.items ++ bytes.now }
    ensures len { vec_len text.new ≡ vec_len text.old + length bytes.now }
    ensures room { vec_capacity text.new ≡ vec_capacity text.old }
{
    for byte in bytes {
        text.push_reserved(*byte);
    }
}
