// Numbers of a text: the number without a sign that bytes are, up to a limit, and the word that a field's bytes are.
ghost use Rattle.std.specs.Prelude.{◌≡◌, ◌&&◌, eqb, ltb, length, get_or};
ghost use Rattle.text_numbers.specs.Number.{decimal as decimal_of, natural_of, positive as positive_of, negative as negative_of, number_of};
ghost use Rattle.text_numbers.specs.Reader.{at_most};

// The value of decimal digits. It stops above the limit, so that no value wraps.
fn decimal(bytes: &[u8], limit: u32) -> Option<u32>
    ensures { result ≡ at_most limit (decimal_of 0 bytes.now) }
{
    let mut value: u64 = 0;
    for &byte in bytes {
        if !byte.is_ascii_digit() {
            return None;
        }
        value = 10 * value + u64::from(byte - b'0');
        if value > u64::from(limit) {
            return None;
        }
    }
    Some(value as u32)
}

// Whether a zero leads further bytes.
fn zero_leads(bytes: &[u8]) -> bool
    ensures { result ≡ (ltb 1 (length bytes.now) && eqb (get_or bytes.now 0 0) 48) }
{
    bytes.len() > 1 && bytes[0] == b'0'
}

// At least one digit, and no leading zero.
pub fn natural_of(bytes: &[u8], limit: u32) -> Option<u32>
    ensures { result ≡ at_most limit (natural_of bytes.now) }
{
    if bytes.is_empty() || zero_leads(bytes) {
        return None;
    }
    decimal(bytes, limit)
}

fn positive(digits: Option<u32>) -> Option<i32>
    ensures { result ≡ positive_of digits }
{
    i32::try_from(digits?).ok()
}

// A number after a minus sign, which is not 0.
fn negative(digits: Option<u32>) -> Option<i32>
    ensures { result ≡ negative_of digits }
{
    let value = digits?;
    if value == 0 {
        return None;
    }
    i32::try_from(-i64::from(value)).ok()
}

// The number that a field is.
pub fn number(field: &[u8]) -> Option<i32>
    ensures { result ≡ number_of field.now }
{
    if !field.is_empty() && field[0] == b'-' {
        return negative(natural_of(&field[1..], 2147483648));
    }
    positive(natural_of(field, 2147483648))
}
