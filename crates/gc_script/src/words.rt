//! The kinds of words: numbers, registers, mutators and the letters of type names.

ghost use Rattle.std.specs.Prelude.{◌≡◌, ◌<◌, ◌^◌, ◌&&◌, Some, None, IfOk, if◌then◌else◌, nat_lt};
ghost use Rattle.std.specs.List.{list_all};
ghost use Rattle.std.specs.Str.{all_ascii_digits};
ghost use Rattle.std.specs.Str.Parse.{digits_value};
ghost use Rattle.gc_script.specs.Words.{numeral, number_below, number, small, common_place, register, is_type_name, is_letter};
ghost use Rattle.gc_script.specs.declared.fault.Cause.TheVariants.{Mutator};

use crate::fault::Cause;
use gc_layout::{COMMON_SLOTS, REGISTERS};
use gc_model::Reg;

/// The most bytes of a type name.
const LONGEST_NAME: usize = 16;

/// A number, at most 18446744073709551615: `0`, or a digit 1 to 9 and then digits.
#[tactic(auto, unfolding(crate::specs::Words::number_below))]
pub(crate) fn number(word: &[u8]) -> Result<u64, Cause>
    ensures { result ≡ number word.now }
{
    match numeral(word) {
        Some(value) => Ok(value),
        None => Err(Cause::Number),
    }
}

/// A number at most 255.
pub(crate) fn small(word: &[u8]) -> Result<u8, Cause>
    ensures { result ≡ small word.now }
{
    let value = number_below(256, Cause::Number, word)?;
    Ok(value as u8)
}

/// A number at most 15, a place of the common object.
pub(crate) fn common_place(word: &[u8]) -> Result<u8, Cause>
    ensures { result ≡ common_place word.now }
{
    let value = number_below(u64::from(COMMON_SLOTS), Cause::Number, word)?;
    Ok(value as u8)
}

/// `r` and a number at most 15: a register.
#[tactic(auto, unfolding(crate::specs::Words::register))]
pub(crate) fn register(word: &[u8]) -> Result<Reg, Cause>
    ensures { result ≡ register word.now }
{
    let [b'r', digits @ ..] = word else {
        return Err(Cause::Register);
    };
    let value = number_below(u64::from(REGISTERS), Cause::Register, digits)?;
    Reg::make(value as u8).ok_or(Cause::Register)
}

/// A number below that of the script's mutators.
pub(crate) fn mutator_below(mutators: u8, word: &[u8]) -> Result<u8, Cause>
    ensures value { result ≡ number_below mutators Mutator word.now }
    ensures below { IfOk result (λ mutator. mutator < mutators) }
{
    let value = number_below(u64::from(mutators), Cause::Mutator, word)?;
    Ok(value as u8)
}

/// A number below a limit.
#[tactic(auto, unfolding(crate::specs::Words::number_below))]
fn number_below(limit: u64, cause: Cause, word: &[u8]) -> Result<u64, Cause>
    ensures value { result ≡ number_below limit cause word.now }
    ensures below { IfOk result (λ value. value < limit) }
{
    match numeral(word) {
        Some(value) if value < limit => Ok(value),
        _ => Err(cause),
    }
}

/// The number that a numeral writes. None where it is no numeral, or above 18446744073709551615.
#[tactic(auto, unfolding(crate::specs::Words::numeral))]
fn numeral(word: &[u8]) -> Option<u64>
    ensures { result ≡ numeral word.now }
{
    match word {
        [] | [b'0', _, ..] => None,
        digits => value_of(digits),
    }
}

/// The number that digits write. None where a byte is no digit, or the number is too large.
fn value_of(digits: &[u8]) -> Option<u64>
    ensures { result ≡ (if all_ascii_digits digits.now && nat_lt (digits_value 10 digits.now) (2 ^ 64) then Some (digits_value 10 digits.now) else None) }
{
    let mut value: u64 = 0;
    for byte in digits {
        if !byte.is_ascii_digit() {
            return None;
        }
        let tens = value.checked_mul(10)?;
        value = tens.checked_add(u64::from(*byte - b'0'))?;
    }
    Some(value)
}

/// Whether the word is 1 to 16 bytes `a` to `z`.
pub(crate) fn is_type_name(word: &[u8]) -> bool
    ensures { result ≡ is_type_name word.now }
{
    !word.is_empty() && word.len() <= LONGEST_NAME && has_letters_alone(word)
}

/// Whether each byte is `a` to `z`.
fn has_letters_alone(word: &[u8]) -> bool
    ensures { result ≡ list_all is_letter word.now }
{
    word.iter().all(|byte| byte.is_ascii_lowercase())
}
