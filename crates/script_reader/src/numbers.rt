// Parsers of a field that is a number: `number`, decimal digits, or `0x` and hexadecimal digits, below 2^64; `signed`, of 64
// bits. And the values of single digits.

ghost use Rattle.std.specs.Prelude.{◌≡◌, ◌^◌, Some};
ghost use Rattle.script_reader.specs.Digits.{value_or_255};
ghost use Rattle.script_language.specs.Numbers.{digit_of, digits_in, if_below, number_of, signed_of, as_negative};

/// For each byte its value as a hexadecimal digit of either case, 255 if it is none.
static HEXADECIMAL_DIGITS: [u8; 256] = [
    255, 255, 255, 255, 255, 255, 255, 255, 255, 255, 255, 255, 255, 255, 255, 255, 255, 255, 255,
    255, 255, 255, 255, 255, 255, 255, 255, 255, 255, 255, 255, 255, 255, 255, 255, 255, 255, 255,
    255, 255, 255, 255, 255, 255, 255, 255, 255, 255, 0, 1, 2, 3, 4, 5, 6, 7, 8, 9, 255, 255, 255,
    255, 255, 255, 255, 10, 11, 12, 13, 14, 15, 255, 255, 255, 255, 255, 255, 255, 255, 255, 255,
    255, 255, 255, 255, 255, 255, 255, 255, 255, 255, 255, 255, 255, 255, 255, 255, 10, 11, 12, 13,
    14, 15, 255, 255, 255, 255, 255, 255, 255, 255, 255, 255, 255, 255, 255, 255, 255, 255, 255,
    255, 255, 255, 255, 255, 255, 255, 255, 255, 255, 255, 255, 255, 255, 255, 255, 255, 255, 255,
    255, 255, 255, 255, 255, 255, 255, 255, 255, 255, 255, 255, 255, 255, 255, 255, 255, 255, 255,
    255, 255, 255, 255, 255, 255, 255, 255, 255, 255, 255, 255, 255, 255, 255, 255, 255, 255, 255,
    255, 255, 255, 255, 255, 255, 255, 255, 255, 255, 255, 255, 255, 255, 255, 255, 255, 255, 255,
    255, 255, 255, 255, 255, 255, 255, 255, 255, 255, 255, 255, 255, 255, 255, 255, 255, 255, 255,
    255, 255, 255, 255, 255, 255, 255, 255, 255, 255, 255, 255, 255, 255, 255, 255, 255, 255, 255,
    255, 255, 255, 255, 255, 255, 255, 255, 255, 255, 255, 255, 255, 255, 255, 255, 255, 255, 255,
    255, 255, 255,
];

/// Returns the value of a byte as a hexadecimal digit of either case, 255 if it is none.
pub fn hexadecimal_value(byte: u8) -> u8
    ensures { result ≡ value_or_255 (digit_of 16 byte) }
{
    HEXADECIMAL_DIGITS[byte as usize]
}

/// The value of a byte as a hexadecimal digit of either case, `None` if it is none.
fn hexadecimal_digit(byte: u8) -> Option<u64>
    ensures { result ≡ digit_of 16 byte }
{
    let value = hexadecimal_value(byte);
    if value < 16 {
        Some(u64::from(value))
    } else {
        None
    }
}

/// Returns the value of a byte as a decimal digit, 255 if it is none.
pub fn decimal_value(byte: u8) -> u8
    ensures { result ≡ value_or_255 (digit_of 10 byte) }
{
    match byte {
        b'0'..=b'9' => byte - b'0',
        _ => 255,
    }
}

/// The value of a byte as a decimal digit, `None` if it is none.
fn decimal_digit(byte: u8) -> Option<u64>
    ensures { result ≡ digit_of 10 byte }
{
    match byte {
        b'0'..=b'9' => Some(u64::from(byte - b'0')),
        _ => None,
    }
}

/// The number of hexadecimal digits. `None`: there is no digit, another byte, or the number is 2^64 or more.
fn hexadecimal(digits: &[u8]) -> Option<u64>
    ensures { result ≡ if_below (2 ^ 64) (digits_in 16 digits.now) }
{
    if digits.is_empty() {
        return None;
    }
    let mut value = 0u64;
    for byte in digits {
        let digit = hexadecimal_digit(*byte)?;
        if value >= 1 << 60 {
            return None;
        }
        value = value * 16 + digit;
    }
    Some(value)
}

/// The number of decimal digits. `None`: there is no digit, another byte, or the number is 2^64 or more.
fn decimal(digits: &[u8]) -> Option<u64>
    ensures { result ≡ if_below (2 ^ 64) (digits_in 10 digits.now) }
{
    if digits.is_empty() {
        return None;
    }
    let mut value = 0u64;
    for byte in digits {
        value = value.checked_mul(10)?.checked_add(decimal_digit(*byte)?)?;
    }
    Some(value)
}

/// Parses a number: decimal digits, or `0x` and hexadecimal digits. `None`: the field has another form, or
/// the number is 2^64 or more.
pub fn number(field: &[u8]) -> Option<u64>
    ensures { result ≡ number_of field.now }
{
    match field {
        [b'0', b'x', hex @ ..] => hexadecimal(hex),
        _ => decimal(field),
    }
}

/// Parses a signed number: a number, or `-` and a number. `None`: the field has another form, or is
/// below -2^63 or above 2^63 - 1.
pub fn signed(field: &[u8]) -> Option<i64>
    ensures { result ≡ signed_of field.now }
{
    match field {
        [b'-', magnitude @ ..] => negative(number(magnitude)?),
        _ => i64::try_from(number(field)?).ok(),
    }
}

fn negative(magnitude: u64) -> Option<i64>
    ensures { result ≡ as_negative (Some magnitude) }
{
    0i64.checked_sub_unsigned(magnitude)
}
