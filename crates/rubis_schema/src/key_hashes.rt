//! How the maps of a site hash their keys.

ghost use Rattle.std.specs.Prelude.{◌≡◌, ◌≤◌, slice_index};
ghost use Rattle.std.specs.Int.{from_le_bytes, w64};
ghost use Rattle.rubis_schema.specs.Keys.{fixed_hashes};
ghost use Rattle.rubis_schema.specs.Keys as model;

use std::hash::{BuildHasher, Hasher};
use std::random::RandomSource;

const FIXED: u64 = 0x9e37_79b9_7f4a_7c15;

const FIXED_NICKS: NickHashes = NickHashes {
    first: 0x243f_6a88_85a3_08d3,
    second: 0x1319_8a2e_0370_7344,
    last: 0xa409_3822_299f_31d0,
};

/// Hashes a key that is written as one number by one multiplication.
#[derive(Clone, Copy)]
pub struct KeyHasher {
    state: u64,
    multiplier: u64,
}

/// Makes the hashers of ids and of keys with ids.
#[derive(Clone, Copy)]
pub struct KeyHashes {
    multiplier: u64,
}

/// Makes the hashers of nicknames, from secret numbers: for the first eight bytes, for the next eight, and for the last product.
#[derive(Clone, Copy)]
pub struct NickHashes {
    first: u64,
    second: u64,
    last: u64,
}

/// Hashes the bytes of a nickname, with zeros behind them up to 24, as three words of eight bytes. The first two words are each
/// added to a secret number, and multiplied. The product's two halves are joined, the third word is added, and the sum is multiplied
/// by a further secret number, and joined.
///
/// That is enough against somebody who chooses nicknames that are to collide and doesn't know the numbers. Where two nicknames
/// differ in one of the first words, their products differ by that difference times a factor with a secret number in it, so that of
/// all numbers about one in 2^64 makes them equal; where they differ in the third word alone, so do the last products. Which of the
/// products have halves that are joined to the same hash, the numbers decide. Somebody would have to know them, from the memory of
/// the run, or to see hashes, which no answer shows.
#[derive(Clone, Copy)]
pub struct NickHasher {
    keys: NickHashes,
    state: u64,
}

/// What the maps of a site hash by.
#[derive(Clone, Copy)]
pub struct Hashes {
    pub keys: KeyHashes,
    pub nicks: NickHashes,
}

// The byte at a place, or 0.
#[inline(always)]
fn byte_at(bytes: &[u8], at: usize) -> u8
    ensures { result ≡ slice_index bytes.now at }
{
    match bytes.get(at) {
        Some(byte) => *byte,
        None => 0,
    }
}

// The first eight bytes as a number, the lowest first, with zeros for those that are missing.
#[inline(always)]
fn word_of(bytes: &[u8]) -> u64
    ensures { result ≡ from_le_bytes w64 bytes.now }
{
    let low = [
        byte_at(bytes, 0),
        byte_at(bytes, 1),
        byte_at(bytes, 2),
        byte_at(bytes, 3),
    ];
    let high = [
        byte_at(bytes, 4),
        byte_at(bytes, 5),
        byte_at(bytes, 6),
        byte_at(bytes, 7),
    ];
    u64::from(u32::from_le_bytes(high)) * (1 << 32) + u64::from(u32::from_le_bytes(low))
}

// The four bytes from a place on as a number, the lowest first, with zeros for those that are missing.
#[inline(always)]
fn half_at(bytes: &[u8], at: usize) -> u64
    requires { at ≤ 20 }
    ensures { result ≡ model.half_at at bytes.now }
{
    u64::from(u32::from_le_bytes([
        byte_at(bytes, at),
        byte_at(bytes, at + 1),
        byte_at(bytes, at + 2),
        byte_at(bytes, at + 3),
    ]))
}

// The eight bytes from a place on as a number.
#[inline(always)]
fn word_at(bytes: &[u8], at: usize) -> u64
    requires { at ≤ 16 }
    ensures { result ≡ model.word_at at bytes.now }
{
    half_at(bytes, at).wrapping_add(half_at(bytes, at + 4).wrapping_mul(1 << 32))
}

// The two halves of a product, joined.
#[inline(always)]
fn joined_product(a: u64, b: u64) -> u64
    ensures { result ≡ model.joined_product a b }
{
    let high = (u128::from(a) * u128::from(b)) >> 64;
    a.wrapping_mul(b) ^ high as u64
}

impl Hasher for NickHasher {
    ghost use Rattle.rubis_schema.specs.Keys.{with_bytes};

    ghost write = { with_bytes };

    ghost finish = { λ h. h.state };

    #[inline(always)]
    fn finish(&self) -> u64 {
        self.state
    }

    #[tactic(auto, unfolding(crate::specs::Keys::with_bytes))]
    #[inline(always)]
    fn write(&mut self, bytes: &[u8]) {
        let first = word_at(bytes, 0).wrapping_add(self.keys.first);
        let second = word_at(bytes, 8).wrapping_add(self.keys.second);
        let third = word_at(bytes, 16).wrapping_add(joined_product(first, second));
        self.state = joined_product(self.state.wrapping_add(third), self.keys.last);
    }
}

impl Hasher for KeyHasher {
    ghost use Rattle.rubis_schema.specs.Keys.{written};

    ghost write = { written };

    ghost finish = { λ s. s.state };

    #[inline(always)]
    fn finish(&self) -> u64 {
        self.state
    }

    #[tactic(auto, unfolding(crate::specs::Keys::written))]
    #[inline(always)]
    fn write(&mut self, bytes: &[u8]) {
        self.state = (self.state ^ word_of(bytes)).wrapping_mul(self.multiplier);
    }

    #[inline(always)]
    fn write_u64(&mut self, i: u64) {
        self.state = (self.state ^ i).wrapping_mul(self.multiplier);
    }
}

impl BuildHasher for KeyHashes {
    type Hasher = KeyHasher;

    ghost use Rattle.rubis_schema.specs.Keys.{key_hasher};

    ghost build_hasher = { key_hasher };

    #[inline(always)]
    fn build_hasher(&self) -> KeyHasher {
        KeyHasher {
            state: 0,
            multiplier: self.multiplier,
        }
    }
}

impl BuildHasher for NickHashes {
    type Hasher = NickHasher;

    ghost use Rattle.rubis_schema.specs.Keys.{nick_hasher};

    ghost build_hasher = { nick_hasher };

    #[inline(always)]
    fn build_hasher(&self) -> NickHasher {
        NickHasher {
            keys: *self,
            state: 0,
        }
    }
}

// A number at random, if there is one.
fn random_number(rt: &impl RandomSource) -> Option<u64> {
    let mut bytes = [0; 8];
    match rt.fill_bytes(&mut bytes) {
        Ok(()) => Some(u64::from_le_bytes(bytes)),
        Err(_) => None,
    }
}

// Numbers at random for nicknames, if there are some.
fn random_nicks(rt: &impl RandomSource) -> Option<NickHashes> {
    Some(NickHashes {
        first: random_number(rt)?,
        second: random_number(rt)?,
        last: random_number(rt)?,
    })
}

impl Hashes {
    /// Hashes that are the same in each run.
    pub fn fixed() -> Hashes
        ensures { result ≡ fixed_hashes }
    {
        Hashes {
            keys: KeyHashes { multiplier: FIXED },
            nicks: FIXED_NICKS,
        }
    }

    /// Hashes drawn at random, so that nobody can choose colliding keys beforehand; the fixed ones if the system has no
    /// randomness. No clause says what is drawn, because no contract depends on it: maps find the same rows whatever they
    /// hash by, and listings are sorted by key.
    pub fn random(rt: &impl RandomSource) -> Hashes {
        match (random_number(rt), random_nicks(rt)) {
            (Some(number), Some(nicks)) => Hashes {
                // A product with an odd number loses nothing.
                keys: KeyHashes {
                    multiplier: number | 1,
                },
                nicks,
            },
            _ => Hashes::fixed(),
        }
    }
}
