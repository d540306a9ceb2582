//! Whole numbers in decimal digits.

ghost use Rattle.std.specs.Prelude.{◌≡◌, ◌^◌, ◌-◌, min, IsTrue};
ghost use Rattle.std.specs.Char.{is_ascii_digit};
ghost use Rattle.std.specs.List.{list_all};
ghost use Rattle.std.specs.Str.Parse.{digits_value};
ghost use Rattle.lg_heads.specs.Fields.{is_whole_number, significant_digits, is_same_number};

/// Whether the value is a whole number, and the one that the digits write.
pub(crate) fn is_same_number(digits: &[u8], value: &[u8]) -> bool
    ensures { result ≡ is_same_number digits.now value.now }
{
    is_whole_number(value) && significant_digits(digits) == significant_digits(value)
}

/// The number that the digits write; 2 ^ 64 - 1 stands for that number and all above.
pub(crate) fn value_within(digits: &[u8]) -> u64
    requires { IsTrue (is_whole_number digits.now) }
    ensures { result ≡ min (digits_value 10 digits.now) (2 ^ 64 - 1) }
{
    let mut value: u64 = 0;
    'digits: for digit in digits {
        value = value
            .saturating_mul(10)
            .saturating_add(u64::from(*digit - b'0'));
    }
    value
}

/// Whether these are one or more decimal digits.
fn is_whole_number(value: &[u8]) -> bool
    ensures { result ≡ is_whole_number value.now }
{
    !value.is_empty() && are_digits(value)
}

/// Whether each byte is a decimal digit.
fn are_digits(value: &[u8]) -> bool
    ensures { result ≡ list_all is_ascii_digit value.now }
{
    value.iter().all(|digit| digit.is_ascii_digit())
}

/// The digits without the zeros in front.
fn significant_digits(mut digits: &[u8]) -> &[u8]
    ensures { result.now ≡ significant_digits digits.now }
{
    while let [b'0', rest @ ..] = digits {
        digits = rest;
    }
    digits
}
