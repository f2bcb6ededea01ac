//! How numbers, modes and a file's metadata are printed: each function appends one part of a line.

ghost use Rattle.std.specs.Prelude.{◌≡◌, ◌+◌, ◌<◌, ◌++◌, OnOk, codes, if◌then◌else◌};
ghost use Rattle.std.specs.Fmt.{decimal};
ghost use Rattle.inf_report.specs.Numbers.{mode_text, meta_text, later_number, numbers_text, set_positions};

use inf_base::{FileMeta, NoMemory};

/// No number of 64 bits has more decimal digits.
const MOST_DIGITS: usize = 20;

fn decimal_digit(digit: u64) -> u8
    requires { digit < 10 }
    ensures { result ≡ 48 + digit }
{
    b'0' + digit as u8
}

pub fn push_number(out: &mut Vec<u8>, number: u64) -> Result<(), NoMemory>
    ensures { OnOk result (out.new.items ≡ out.old.items ++ decimal number) }
{
    if number < 10 {
        out.push(decimal_digit(number))?;
        return Ok(());
    }
    // The digits are found from the last to the first.
    let mut digits = [0u8; MOST_DIGITS];
    let mut start = MOST_DIGITS;
    let mut left = number;
    while left >= 10 {
        start -= 1;
        digits[start] = decimal_digit(left % 10);
        left /= 10;
    }
    start -= 1;
    digits[start] = decimal_digit(left);
    out.extend_from_slice(&digits[start..])?;
    Ok(())
}

fn octal_digit(digit: u16) -> u8
    requires { digit < 8 }
    ensures { result ≡ 48 + digit }
{
    b'0' + digit as u8
}

pub fn push_mode(out: &mut Vec<u8>, mode: u16) -> Result<(), NoMemory>
    ensures { OnOk result (out.new.items ≡ out.old.items ++ mode_text mode) }
{
    let digits = [
        octal_digit(mode / 64 % 8),
        octal_digit(mode / 8 % 8),
        octal_digit(mode % 8),
    ];
    out.extend_from_slice(&digits)?;
    Ok(())
}

/// A space and a number.
pub fn push_next_number(out: &mut Vec<u8>, number: u64) -> Result<(), NoMemory>
    ensures { OnOk result (out.new.items ≡ out.old.items ++ codes " " ++ decimal number) }
{
    out.extend_from_slice(b" ")?;
    push_number(out, number)
}

pub fn push_meta(out: &mut Vec<u8>, meta: &FileMeta) -> Result<(), NoMemory>
    ensures { OnOk result (out.new.items ≡ out.old.items ++ meta_text meta.now) }
{
    push_mode(out, meta.mode)?;
    push_next_number(out, u64::from(meta.owner))?;
    push_next_number(out, u64::from(meta.group))?;
    push_next_number(out, meta.length)
}

/// A number, behind a comma where others stand before it.
pub fn push_joined(out: &mut Vec<u8>, is_first: bool, number: u64) -> Result<(), NoMemory>
    ensures { OnOk result
        (out.new.items ≡ out.old.items ++ (if is_first then decimal number else later_number number)) }
{
    if is_first {
        return push_number(out, number);
    }
    out.extend_from_slice(b",")?;
    push_number(out, number)
}

/// The positions of the set bits, joined by commas.
pub fn push_positions(out: &mut Vec<u8>, hits: u128) -> Result<(), NoMemory>
    ensures { OnOk result (out.new.items ≡ out.old.items ++ numbers_text (set_positions hits)) }
{
    let mut left = hits;
    let mut is_first = true;
    for position in 0..128u64 {
        if left % 2 == 1 {
            push_joined(out, is_first, position)?;
            is_first = false;
        }
        left /= 2;
    }
    if is_first {
        out.extend_from_slice(b"-")?;
    }
    Ok(())
}
