//! The digits of a number, appended to a text that has room for them.

ghost use Rattle.std.specs.Prelude.{◌≡◌, ◌+◌, ◌/◌, ◌%◌, ◌<◌, ◌≤◌, ◌++◌, ◌∷◌, [], decimal, length};
ghost use Rattle.std.specs.Vec.{vec_capacity, vec_len};
ghost use Rattle.rubis_schema.specs.FieldList.{Appends};

use crate::limits::NUMBERS_TEXT_MAX;

// Appends one digit to the text.
#[inline(always)]
fn push_digit(text: &mut Vec<u8>, digit: u64)
    requires digit { digit < 10 }
    requires room { vec_len text.old < vec_capacity text.old }
    ensures { Appends text.old ((48 + digit) ∷ []) text.new }
{
    text.push_reserved(b'0' + digit as u8);
}

// Appends two digits to the text, the first of which may be 0.
#[inline(always)]
fn push_pair(text: &mut Vec<u8>, pair: u64)
    requires pair { pair < 100 }
    requires room { vec_len text.old + 2 ≤ vec_capacity text.old }
    ensures { Appends text.old ((48 + pair / 10) ∷ (48 + pair % 10) ∷ []) text.new }
{
    push_digit(text, pair / 10);
    push_digit(text, pair % 10);
}

// Appends the digits of a number below 100 to the text.
#[inline(always)]
fn push_short(text: &mut Vec<u8>, number: u64)
    requires short { number < 100 }
    requires room { vec_len text.old + length (decimal number) ≤ vec_capacity text.old }
    ensures { Appends text.old (decimal number) text.new }
{
    if number < 10 {
        push_digit(text, number);
    } else {
        push_pair(text, number);
    }
}

// Appends the digits of a number below 10,000 to the text.
#[inline(always)]
fn push_middle(text: &mut Vec<u8>, number: u64)
    requires middle { number < 10000 }
    requires room { vec_len text.old + length (decimal number) ≤ vec_capacity text.old }
    ensures { Appends text.old (decimal number) text.new }
{
    if number < 100 {
        push_short(text, number);
    } else {
        push_short(text, number / 100);
        push_pair(text, number % 100);
    }
}

// Appends the digits of a number from 10,000 to 99,999,999 to the text.
#[inline(always)]
fn push_eight(text: &mut Vec<u8>, number: u64)
    requires long { 10000 ≤ number }
    requires eight { number < 100000000 }
    requires room { vec_len text.old + length (decimal number) ≤ vec_capacity text.old }
    ensures { Appends text.old (decimal number) text.new }
{
    let rest = number / 100;
    push_middle(text, rest / 100);
    push_pair(text, rest % 100);
    push_pair(text, number % 100);
}

// Appends the digits of a number from 10,000 on to the text, four at a time.
fn push_long(text: &mut Vec<u8>, number: u64)
    requires long { 10000 ≤ number }
    requires room { vec_len text.old + length (decimal number) ≤ vec_capacity text.old }
    ensures { Appends text.old (decimal number) text.new }
{
    let rest = number / 100;
    let front = rest / 100;
    if front < 10000 {
        push_middle(text, front);
    } else {
        push_long(text, front);
    }
    push_pair(text, rest % 100);
    push_pair(text, number % 100);
}

// Appends the digits of a number, most often of one from 10 on, to the text.
#[inline(never)]
fn push_more(text: &mut Vec<u8>, number: u64)
    requires room { vec_len text.old + length (decimal number) ≤ vec_capacity text.old }
    ensures { Appends text.old (decimal number) text.new }
{
    if number < 10000 {
        push_middle(text, number);
    } else if number < 100_000_000 {
        push_eight(text, number);
    } else {
        push_long(text, number);
    }
}

/// Appends the digits of a number to the text.
#[inline(always)]
pub fn push_digits(text: &mut Vec<u8>, number: u64)
    requires room { vec_len text.old + length (decimal number) ≤ vec_capacity text.old }
    ensures text { text.new.items ≡ text.old.items ++ decimal number }
    ensures len { vec_len text.new ≡ vec_len text.old + length (decimal number) }
    ensures room { vec_capacity text.new ≡ vec_capacity text.old }
{
    if number < 10 {
        push_digit(text, number);
    } else {
        push_more(text, number);
    }
}

/// Appends the digits of two numbers to the text, with a point between them.
#[inline(always)]
pub fn push_numbers(text: &mut Vec<u8>, first: u64, second: u64)
    requires room { vec_len text.old + NUMBERS_TEXT_MAX ≤ vec_capacity text.old }
    ensures text { text.new.items ≡ text.old.items ++ (decimal first ++ 46 ∷ decimal second) }
{
    push_digits(text, first);
    text.push_reserved(b'.');
    push_digits(text, second);
}
