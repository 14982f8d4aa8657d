//! Numbers of a plan file: digits in base ten.
ghost use Rattle.std.specs.Prelude.{◌≡◌, ℕ, ◌^◌, ◌<◌, ◌≤◌, ◌⊎◌, true, false, IfOk, Ok, decimal, MatchOption};
ghost use Rattle.std.specs.Char.{is_ascii_digit};
ghost use Rattle.planfile.specs.Checks.{NumberRead};
ghost use Rattle.planfile.specs.Text.{DigitsPushed, HasNoLeadingZero, with_digit};

use super::FieldFault;

// The number with one more digit, if the byte is a digit and the number still fits.
fn push_digit(number: u32, byte: u8) -> Option<u32>
    ensures { MatchOption result
        ((is_ascii_digit byte ≡ false) ⊎ (2 ^ 32 ≤ with_digit number byte))
        (λ n. (is_ascii_digit byte ≡ true) × (n ≡ with_digit number byte) × (n < 2 ^ 32)) }
{
    if !byte.is_ascii_digit() {
        return None;
    }
    number.checked_mul(10)?.checked_add(u32::from(byte - b'0'))
}

// The number with these digits behind it, if all are digits and it still fits.
fn push_digits(number: u32, digits: &[u8]) -> Option<u32>
    ensures { DigitsPushed number digits.now result }
{
    digits
        .iter()
        .try_fold(number, |number, byte| push_digit(number, *byte))
}

/// The number that a field writes, in base ten. Zeros in front count for nothing. An `Err` says that it is empty, has other
/// bytes than digits, or is above 4,294,967,295: check 16.
#[tactic(auto, using(crate::proofs::Numbers::empty_read, crate::proofs::Numbers::pushed_read, crate::proofs::Numbers::some_digit, crate::proofs::Numbers::written_value, crate::proofs::Numbers::writes_read))]
pub fn read_number(field: &[u8]) -> Result<u32, FieldFault>
    ensures value { NumberRead field.now result }
    ensures inverse { (n : ℕ) → n < 2 ^ 32 → field.now ≡ decimal n → result ≡ Ok n }
    ensures canonical { IfOk result (λ n. HasNoLeadingZero field.now → decimal n ≡ field.now) }
{
    if field.is_empty() {
        return Err(FieldFault::NotNumber);
    }
    push_digits(0, field).ok_or(FieldFault::NotNumber)
}
