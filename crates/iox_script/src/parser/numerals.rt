//! Words that are numbers.
ghost use Rattle.std.specs.Prelude.{ℕ, ◌≡◌, ◌+◌, ◌-◌, ◌*◌, ◌^◌, ◌≤◌, ◌&&◌, nat_lt, if◌then◌else◌, IfOk};
ghost use Rattle.iox_script.specs.Numerals.{is_digit, number_below, number_of, id_number_of};

use crate::command::LineCause;

/// A number of 64 bits.
pub(super) fn number(word: &[u8]) -> Result<u64, LineCause>
    ensures { result ≡ number_of word.now }
{
    number_up_to(word, u64::MAX)
}

/// A number of 32 bits.
pub(super) fn id_number(word: &[u8]) -> Result<u32, LineCause>
    ensures { result ≡ id_number_of word.now }
{
    let number = number_up_to(word, u64::from(u32::MAX))?;
    Ok(number as u32)
}

/// A number that is not above `most`.
pub(super) fn number_up_to(word: &[u8], most: u64) -> Result<u64, LineCause>
    ensures value { result ≡ number_below (most + 1) word.now }
    ensures within { IfOk result (λ number. number ≤ most) }
{
    if word.is_empty() {
        return Err(LineCause::BadNumber);
    }
    let mut number = 0;
    for byte in word {
        number = with_digit(number, *byte, most).ok_or(LineCause::BadNumber)?;
    }
    Ok(number)
}

/// The number with one more digit behind it, if the byte is a digit and the number is not above
/// `most`.
fn with_digit(number: u64, byte: u8, most: u64) -> Option<u64>
    ensures { let longer = number * 10 + (byte - 48) in
        result ≡ (if is_digit byte && nat_lt longer (most + 1) then Some longer else None) }
{
    if !byte.is_ascii_digit() {
        return None;
    }
    let longer = number.checked_mul(10)?.checked_add(u64::from(byte - b'0'))?;
    (longer <= most).then_some(longer)
}
