//! Numbers as text, each in one spelling.

ghost use Rattle.std.specs.Prelude.{◌≡◌, ◌≤◌, ◌<◌, ◌↔◌, IfSome, IsTrue, length, slice_index};
ghost use Rattle.rubis_numbers.specs.Numbers.{below_zero_of, number_of, rating_of};

/// The greatest rating of a comment; the least is as far below 0.
pub const RATING_MAX: u8 = 5;

// Whether the bytes begin with a 0 that isn't the whole number.
fn has_leading_zero(bytes: &[u8]) -> bool
    ensures { IsTrue result ↔ ((slice_index bytes.now 0 ≡ 48) × (1 < length bytes.now)) }
{
    bytes.len() > 1 && bytes[0] == b'0'
}

// The number up to `max` that is written so by more than 19 digits: it may be too great for its type.
fn read_long_number(bytes: &[u8], max: u64) -> Option<u64>
    requires { 19 < length bytes.now }
    ensures value { result ≡ number_of max bytes.now }
    ensures small { IfSome result (λ n. n ≤ max) }
{
    if has_leading_zero(bytes) {
        return None;
    }
    let mut number: u64 = 0;
    for byte in bytes {
        if *byte < b'0' || *byte > b'9' {
            return None;
        }
        let digit = u64::from(*byte - b'0');
        number = number.checked_mul(10)?.checked_add(digit)?;
    }
    if number <= max { Some(number) } else { None }
}

/// The number up to `max` that is written so, without leading zeros.
#[inline(always)]
pub fn read_number(bytes: &[u8], max: u64) -> Option<u64>
    ensures value { result ≡ number_of max bytes.now }
    ensures small { IfSome result (λ n. n ≤ max) }
{
    if bytes.len() > 19 {
        return read_long_number(bytes, max);
    }
    if bytes.is_empty() || has_leading_zero(bytes) {
        return None;
    }
    let mut number: u64 = 0;
    for byte in bytes {
        if *byte < b'0' || *byte > b'9' {
            return None;
        }
        number = number * 10 + u64::from(*byte - b'0');
    }
    if number <= max { Some(number) } else { None }
}

// The rating whose digit, after a `-`, is written so: not 0, which has no sign.
#[tactic(auto, unfolding(crate::specs::Numbers::below_zero_of))]
fn below_zero(digits: &[u8]) -> Option<i8>
    ensures { result ≡ below_zero_of digits.now }
{
    let size = read_number(digits, u64::from(RATING_MAX))?;
    if size == 0 {
        return None;
    }
    Some(-(size as i8))
}

/// The rating, -5 to 5, that is written so: 0 without a sign, and no sign but `-`.
#[tactic(auto, unfolding(crate::specs::Numbers::rating_of))]
pub fn read_rating(bytes: &[u8]) -> Option<i8>
    ensures { result ≡ rating_of bytes.now }
{
    match bytes.split_first() {
        Some((b'-', digits)) => below_zero(digits),
        _ => {
            let size = read_number(bytes, u64::from(RATING_MAX))?;
            Some(size as i8)
        }
    }
}
