// Numbers as digits. Each has one spelling: no sign, and no zero before other digits.
ghost use Rattle.std.specs.Prelude.{◌≡◌, ◌+◌, ◌*◌, ◌<◌, ◌≤◌, ◌^◌, ◌↔◌, IsTrue, SomeIff, get_or, length};
ghost use Rattle.std.specs.Char.{digit_value};
ghost use Rattle.std.specs.Str.Parse.{AllDigits, digits_value};
ghost use Rattle.rss_line.specs.Reads.{ReadsAs, IsBelow, HasOneSpelling};

/// The number whose digits are those of this one, and then this digit.
fn with_digit(number: u64, digit: u8) -> Option<u64>
    ensures { SomeIff result
        ((digit_value digit < 10) × (number * 10 + digit_value digit < 2 ^ 64))
        (number * 10 + digit_value digit) }
{
    if digit.is_ascii_digit() {
        number.checked_mul(10)?.checked_add(u64::from(digit - b'0'))
    } else {
        None
    }
}

/// The number of these digits, if it is below 2^64.
fn number_of(digits: &[u8]) -> Option<u64>
    ensures { SomeIff result
        (AllDigits 10 digits.now × (digits_value 10 digits.now < 2 ^ 64))
        (digits_value 10 digits.now) }
{
    let mut number = 0;
    for digit in digits {
        number = with_digit(number, *digit)?;
    }
    Some(number)
}

/// Whether there are digits, with no zero before others.
fn has_one_spelling(digits: &[u8]) -> bool
    ensures { IsTrue result ↔ HasOneSpelling digits.now }
{
    !matches!(digits, [] | [b'0', _, ..])
}

/// A number below 2^64.
pub fn read_decimal(word: &[u8]) -> Option<u64>
    ensures { ReadsAs (IsBelow (2 ^ 64) word.now) result }
{
    if has_one_spelling(word) {
        number_of(word)
    } else {
        None
    }
}
