//! Parts of a text.

ghost use Rattle.std.specs.Prelude.{◌≡◌, ◌==◌, ◌<◌, ◌≤◌, ◌^◌, ◌⊎◌, IfSome, length, option_map, position, slice_index};
ghost use Rattle.rubis_schema.specs.FieldForms.{cut_at, number_before};

#[inline(always)]
fn place_of(bytes: &[u8], mark: u8) -> Option<usize>
    ensures { result ≡ position (λ b. b == mark) bytes.now }
{
    bytes.iter().position(|byte| *byte == mark)
}

/// The bytes before the first `mark`, and those after it, or `None` where it stands nowhere.
#[inline(always)]
pub fn split_once(bytes: &[u8], mark: u8) -> Option<(&[u8], &[u8])>
    ensures { option_map (λ parts. (parts.0.now, parts.1.now)) result ≡ cut_at mark bytes.now }
{
    let place = place_of(bytes, mark)?;
    Some((&bytes[..place], &bytes[place + 1..]))
}

// What `read_number_before` gives where the mark is the second byte: the number is one digit, as most are.
#[inline(always)]
fn read_digit_before(bytes: &[u8], mark: u8, max: u64) -> Option<(u64, &[u8])>
    requires mark { (mark < 48) ⊎ (57 < mark) }
    requires max { (9 ≤ max) × (max < 10 ^ 19) }
    requires second { (1 < length bytes.now) × (slice_index bytes.now 1 ≡ mark) }
    ensures value { option_map (λ found. (found.0, found.1.now)) result ≡ number_before mark max bytes.now }
    ensures small { IfSome result (λ found. found.0 ≤ max) }
{
    let byte = bytes[0];
    if byte < b'0' || byte > b'9' {
        return None;
    }
    Some((u64::from(byte - b'0'), &bytes[2..]))
}

// What `read_number_before` gives, whatever stands where.
#[inline(always)]
fn read_digits_before(bytes: &[u8], mark: u8, max: u64) -> Option<(u64, &[u8])>
    requires mark { (mark < 48) ⊎ (57 < mark) }
    requires short { max < 10 ^ 19 }
    ensures value { option_map (λ found. (found.0, found.1.now)) result ≡ number_before mark max bytes.now }
    ensures small { IfSome result (λ found. found.0 ≤ max) }
{
    let mut number: u64 = 0;
    for at in 0..bytes.len() {
        let byte = bytes[at];
        if byte == mark {
            if at == 0 || number > max || (at > 1 && bytes[0] == b'0') {
                return None;
            }
            return Some((number, &bytes[at + 1..]));
        }
        if byte < b'0' || byte > b'9' || at >= 19 {
            return None;
        }
        number = number * 10 + u64::from(byte - b'0');
    }
    None
}

/// The number up to `max` before the first `mark`, and the bytes after the mark, in one pass. `None` where the mark stands
/// nowhere, or no such number before it. It is what `split_once`, and then `read_number` of the first part, would give.
#[inline(always)]
pub fn read_number_before(bytes: &[u8], mark: u8, max: u64) -> Option<(u64, &[u8])>
    requires mark { (mark < 48) ⊎ (57 < mark) }
    requires short { max < 10 ^ 19 }
    ensures value { option_map (λ found. (found.0, found.1.now)) result ≡ number_before mark max bytes.now }
    ensures small { IfSome result (λ found. found.0 ≤ max) }
{
    if max > 8 && bytes.len() > 1 && bytes[1] == mark {
        read_digit_before(bytes, mark, max)
    } else {
        read_digits_before(bytes, mark, max)
    }
}
