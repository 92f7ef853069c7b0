//! Texts of a few bytes, in place.

ghost use Rattle.std.specs.Prelude.{◌≡◌, ◌≤◌, ◌<◌, ◌+◌, [], ◌∷◌, ◌++◌, decimal, drop, length, true};
ghost use Rattle.rubis_schema.specs.FieldList.{is_plain};
ghost use Rattle.rubis_schema.specs.declared.limits.TheConstants.{NUMBER_TEXT_MAX};

use crate::limits::NUMBER_TEXT_MAX;
use itoa::write_digits;
use std::marker::Model;

/// A text of at most `N` bytes that is written from its last byte to its first, without memory. Contracts see its
/// bytes.
#[derive(Drop)]
pub struct ShortText<const N: usize> {
    // The text is what stands from `start` on.
    bytes: [u8; N],
    start: usize,
}

impl<const N: usize> Model for ShortText<N> {
    ghost use Rattle.std.specs.Prelude.{List, ℕ, ◌≤◌, drop};

    ghost Value = { List ℕ };

    ghost view = { λ t. drop t.start t.bytes };

    ghost invariant = { λ t. t.start ≤ N };
}

impl<const N: usize> ShortText<N> {
    /// No bytes.
    pub fn new() -> ShortText<N>
        ensures { result ≡ [] }
    {
        ShortText {
            bytes: [0; N],
            start: N,
        }
    }

    /// Takes all bytes away.
    #[inline(always)]
    pub fn clear(&mut self)
        ensures { self.new ≡ [] }
    {
        self.start = N;
    }

    /// Takes the first byte away.
    #[inline(always)]
    pub fn drop_first(&mut self)
        requires { 0 < length self.old }
        ensures { self.new ≡ drop 1 self.old }
    {
        self.start += 1;
    }

    /// Puts a byte first.
    #[inline(always)]
    pub fn put_byte(&mut self, byte: u8)
        requires { length self.old < N }
        ensures { self.new ≡ byte ∷ self.old }
    {
        self.start -= 1;
        self.bytes[self.start] = byte;
    }

    // Puts the digits of a number first.
    #[inline(always)]
    fn put_digits(&mut self, number: u64)
        requires { length (decimal number) + length self.old ≤ N }
        ensures { self.new ≡ decimal number ++ self.old }
    {
        if number < 10 {
            self.put_byte(b'0' + number as u8);
        } else {
            self.start = write_digits(number, &mut self.bytes, self.start);
        }
    }

    /// Puts the digits of a number first, none of which calls for quotes.
    #[tactic(auto, using(crate::proofs::PlainRows::decimal_plain))]
    #[inline(always)]
    pub fn put_number(&mut self, number: u32)
        requires { length self.old + 10 ≤ N }
        ensures text { self.new ≡ decimal number ++ self.old }
        ensures short { length self.new ≤ length self.old + 10 }
        ensures plain { is_plain (decimal number) ≡ true }
    {
        self.put_digits(u64::from(number));
    }

    /// Puts the digits of a number of 64 bits first, none of which calls for quotes.
    #[tactic(auto, using(crate::proofs::PlainRows::decimal_plain))]
    #[inline(always)]
    pub fn put_long(&mut self, number: u64)
        requires { length self.old + NUMBER_TEXT_MAX ≤ N }
        ensures text { self.new ≡ decimal number ++ self.old }
        ensures short { length self.new ≤ length self.old + NUMBER_TEXT_MAX }
        ensures plain { is_plain (decimal number) ≡ true }
    {
        self.put_digits(number);
    }

    /// Puts bytes first, in their order.
    #[inline(always)]
    pub fn put_bytes(&mut self, bytes: &[u8])
        requires { length bytes.now + length self.old ≤ N }
        ensures { self.new ≡ bytes.now ++ self.old }
    {
        let end = self.start;
        let start = end - bytes.len();
        let all = &mut self.bytes[..];
        all[start..end].copy_from_slice(bytes);
        self.start = start;
    }

    /// The bytes, in order.
    #[inline(always)]
    pub fn as_bytes(&self) -> &[u8]
        ensures { result.now ≡ self.now }
    {
        let all = &self.bytes[..];
        &all[self.start..]
    }
}
