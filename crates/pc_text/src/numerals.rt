//! Digits and numerals.

ghost use Rattle.std.specs.Prelude.{◌≡◌, ◌<◌, ◌≤◌, ◌^◌, IfSome, None, Some, nat_le, true, if◌then◌else◌};
ghost use Rattle.std.specs.List.{list_all};
ghost use Rattle.pc_text.specs.Numerals.{is_digit, is_digits, is_numeral, numeral, value};

fn is_digit(b: u8) -> bool
    ensures { result ≡ is_digit b }
{
    b'0' <= b && b <= b'9'
}

fn all_digits(bytes: &[u8]) -> bool
    ensures { result ≡ list_all is_digit bytes.now }
{
    bytes.iter().all(|b| is_digit(*b))
}

/// Whether the bytes are digits, at least one.
pub fn is_digits(bytes: &[u8]) -> bool
    ensures { result ≡ is_digits bytes.now }
{
    !bytes.is_empty() && all_digits(bytes)
}

// The bytes are a numeral.
fn is_numeral(bytes: &[u8]) -> bool
    ensures { result ≡ is_numeral bytes.now }
{
    match bytes {
        [] => false,
        [first, rest @ ..] => (rest.is_empty() || *first != b'0') && all_digits(bytes),
    }
}

// The number of digits, where it is at most `high`.
fn read_digits(high: u32, digits: &[u8]) -> Option<u32>
    requires small { high < 2 ^ 16 }
    requires digits { list_all is_digit digits.now ≡ true }
    ensures { result ≡ (if nat_le (value digits.now) high then Some (value digits.now) else None) }
{
    let mut number = 0;
    for digit in digits {
        number = 10 * number + u32::from(*digit - b'0');
        if number > high {
            return None;
        }
    }
    Some(number)
}

/// The number of a numeral, where it is from low to high, which is below 2^16.
pub fn numeral(low: u32, high: u32, bytes: &[u8]) -> Option<u32>
    requires { high < 2 ^ 16 }
    ensures numeral { result ≡ numeral low high bytes.now }
    ensures range { IfSome result (λ n. (low ≤ n) × (n ≤ high)) }
{
    if !is_numeral(bytes) {
        return None;
    }
    match read_digits(high, bytes) {
        Some(number) if low <= number => Some(number),
        _ => None,
    }
}
