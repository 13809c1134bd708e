//! Numbers as decimal digits write them.

ghost use Rattle.std.specs.Prelude.{◌≡◌, ◌≤◌, nat_lt, if◌then◌else◌, IsTrue, Some, None};
ghost use Rattle.std.specs.List.{All, list_all};
ghost use Rattle.par_base.specs.Names.{is_digit};
ghost use Rattle.par_base.specs.Numbers.{value, has_leading_zero, is_decimal, magnitude_of};

/// More than one byte, of which the first is 0.
pub fn has_leading_zero(text: &[u8]) -> bool
    ensures { result ≡ has_leading_zero text.now }
{
    text.starts_with(b"0") && text.len() > 1
}

// Decimal digits alone.
fn all_digits(text: &[u8]) -> bool
    ensures { result ≡ list_all is_digit text.now }
{
    text.iter().all(|byte| byte.is_ascii_digit())
}

// Digits, at least one, of which the first is no 0 that stands before others.
fn is_decimal(text: &[u8]) -> bool
    ensures { result ≡ is_decimal text.now }
{
    !text.is_empty() && all_digits(text) && !has_leading_zero(text)
}

/// The number that digits write, or none where it is above the greatest.
pub fn value_of(digits: &[u8], greatest: u32) -> Option<u32>
    requires digits { All (λ digit. IsTrue (is_digit digit)) digits.now }
    requires small { greatest ≤ 2147483648 }
    ensures { result
        ≡ (if nat_lt greatest (value digits.now) then None else Some (value digits.now)) }
{
    let mut number: u32 = 0;
    for digit in digits {
        let longer = 10 * u64::from(number) + u64::from(*digit - b'0');
        if longer > u64::from(greatest) {
            return None;
        }
        number = longer as u32;
    }
    Some(number)
}

/// The number that a text of decimal digits writes, at most the greatest. A first digit 0 stands
/// alone.
pub fn magnitude_of(text: &[u8], greatest: u32) -> Option<u32>
    requires { greatest ≤ 2147483648 }
    ensures { result ≡ magnitude_of greatest text.now }
{
    if !is_decimal(text) {
        return None;
    }
    value_of(text, greatest)
}

// The number that digits write, where 64 bits hold it.
fn long_value_of(digits: &[u8]) -> Option<u64>
    requires { All (λ digit. IsTrue (is_digit digit)) digits.now }
    ensures { result
        ≡ (if nat_lt 18446744073709551615 (value digits.now) then None
        else Some (value digits.now)) }
{
    let mut number: u64 = 0;
    for digit in digits {
        let added = u64::from(*digit - b'0');
        let limit = (u64::MAX - added) / 10;
        if number > limit {
            return None;
        }
        number = 10 * number + added;
    }
    Some(number)
}

/// The number that a text of decimal digits writes, where 64 bits hold it. A first digit 0 stands
/// alone.
pub fn long_magnitude_of(text: &[u8]) -> Option<u64>
    ensures { result ≡ magnitude_of 18446744073709551615 text.now }
{
    if !is_decimal(text) {
        return None;
    }
    long_value_of(text)
}
