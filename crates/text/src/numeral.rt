//! Numbers as text: digits with no leading zero.
ghost use Rattle.std.specs.Prelude.{◌≡◌, ◌↔◌, ℕ, [], ◌∷◌, Some};
ghost use Rattle.text.specs.Numerals.{digits_upto, numeral, number, IsTextOf};

/// The number that `field` writes in at most `most` digits, if it has the form and is at most
/// `cap`. The form is that of a plain number: no sign, and no leading zero but in `0` itself.
#[tactic(auto, unfolding(crate::specs::Numerals::numeral))]
pub fn read_numeral(field: &[u8], most: usize, cap: u64) -> Option<u64>
    ensures value { result ≡ numeral most cap field.now }
    ensures exact { (n : ℕ) → (result ≡ Some n) ↔ IsTextOf most cap n field.now }
{
    match field {
        [] | [b'0', _, ..] => None,
        _ if field.len() > most => None,
        _ => read_digits(field, cap),
    }
}

/// The number that `field` writes, if it is a number of the table file: at most 65535.
pub fn read_number(field: &[u8]) -> Option<u16>
    ensures { result ≡ number field.now }
{
    let value = read_numeral(field, 5, u64::from(u16::MAX))?;
    Some(value as u16)
}

/// The number that `digits` write, if all are digits and it is at most `cap`.
fn read_digits(digits: &[u8], cap: u64) -> Option<u64>
    ensures { result ≡ digits_upto cap 0 digits.now }
{
    // A loop with `?`: `try_fold` was tried, and the proof did not close.
    let mut value = 0;
    for byte in digits {
        value = with_digit(value, *byte, cap)?;
    }
    Some(value)
}

/// The number `value` with one digit more, if `byte` is a digit and the number is at most `cap`.
fn with_digit(value: u64, byte: u8, cap: u64) -> Option<u64>
    ensures { result ≡ digits_upto cap value (byte ∷ []) }
{
    if !byte.is_ascii_digit() {
        return None;
    }
    value
        .checked_mul(10)?
        .checked_add(u64::from(byte - b'0'))
        .filter(|next| *next <= cap)
}
