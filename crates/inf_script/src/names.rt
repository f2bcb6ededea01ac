//! The words that are names of clients, modes and numbers.

ghost use Rattle.std.specs.Prelude.{◌≡◌, ◌+◌, ◌^◌, ◌<◌, ◌≤◌, ◌||◌, length, IfOk, IsTrue};
ghost use Rattle.std.specs.List.{list_all};
ghost use Rattle.inf_base.specs.Memory.{Gives};
ghost use Rattle.inf_base.specs.Setup.{is_letter, is_digit, is_client_name};
ghost use Rattle.inf_base.specs.declared.limits.TheConstants.{MOST_NAME_BYTES};
ghost use Rattle.inf_script.specs.Faults.{line_cause};
ghost use Rattle.inf_script.specs.Names.{is_octal, mode_of, is_number, value_from, if_below, number_below, number_within};

use crate::fault::{BAD_NUMBER, LineFault};

fn is_letter(byte: u8) -> bool
    ensures { result ≡ is_letter byte }
{
    b'a' <= byte && byte <= b'z'
}

fn is_digit(byte: u8) -> bool
    ensures { result ≡ is_digit byte }
{
    b'0' <= byte && byte <= b'9'
}

fn are_letters_or_digits(bytes: &[u8]) -> bool
    ensures { result ≡ list_all (λ byte. is_letter byte || is_digit byte) bytes.now }
{
    bytes.iter().all(|b| is_letter(*b) || is_digit(*b))
}

/// Whether a word may be the name of a client.
pub fn is_client_name(name: &[u8]) -> bool
    ensures value { result ≡ is_client_name name.now }
    ensures not_empty { IsTrue result → 0 < length name.now }
    ensures short { IsTrue result → length name.now ≤ MOST_NAME_BYTES }
{
    let Some((first, others)) = name.split_first() else {
        return false;
    };
    is_letter(*first) && are_letters_or_digits(others) && others.len() < 16
}

fn is_octal(byte: u8) -> bool
    ensures { result ≡ is_octal byte }
{
    b'0' <= byte && byte <= b'7'
}

/// The mode that a word spells in three octal digits.
pub fn mode_of(word: &[u8]) -> Result<u16, LineFault>
    ensures { Gives line_cause result (mode_of word.now) }
{
    let [a, b, c] = word else {
        return Err(BAD_NUMBER);
    };
    if is_octal(*a) && is_octal(*b) && is_octal(*c) {
        Ok(u16::from(*a - b'0') * 64 + u16::from(*b - b'0') * 8 + u16::from(*c - b'0'))
    } else {
        Err(BAD_NUMBER)
    }
}

fn are_digits(bytes: &[u8]) -> bool
    ensures { result ≡ list_all is_digit bytes.now }
{
    bytes.iter().all(|b| is_digit(*b))
}

fn is_number(word: &[u8]) -> bool
    ensures { result ≡ is_number word.now }
{
    match word {
        [] => false,
        [first] => is_digit(*first),
        [first, _, ..] => *first != b'0' && are_digits(word),
    }
}

/// The number below the bound that digits spell.
fn value_below(bound: u32, digits: &[u8]) -> Result<u32, LineFault>
    ensures value { Gives line_cause result (if_below bound (value_from 0 digits.now)) }
    ensures below { IfOk result (λ number. number < bound) }
{
    let mut value: u64 = 0;
    let mut rest = digits;
    while let Some((digit, others)) = rest.split_first() {
        // More digits would only make it greater.
        if value >= u64::from(bound) {
            return Err(BAD_NUMBER);
        }
        value = value * 10 + u64::from(digit.saturating_sub(b'0'));
        rest = others;
    }
    if value >= u64::from(bound) {
        return Err(BAD_NUMBER);
    }
    Ok(value as u32)
}

/// The number that a word spells, of those below a bound.
pub fn number_below(bound: u32, word: &[u8]) -> Result<u32, LineFault>
    ensures value { Gives line_cause result (number_below bound word.now) }
    ensures below { IfOk result (λ number. number < bound) }
{
    if !is_number(word) {
        return Err(BAD_NUMBER);
    }
    value_below(bound, word)
}

/// The number that a word spells, from `low` to `high`.
pub fn number_within(low: u32, high: u32, word: &[u8]) -> Result<u32, LineFault>
    requires { high + 1 < 2 ^ 32 }
    ensures value { Gives line_cause result (number_within low high word.now) }
    ensures at_most { IfOk result (λ number. number ≤ high) }
{
    let number = number_below(high + 1, word)?;
    if number < low {
        return Err(BAD_NUMBER);
    }
    Ok(number)
}
