// Numbers of a text: how many bytes one is written with, and those bytes.
ghost use Rattle.std.specs.Prelude.{◌≡◌, ◌≤◌, length};
ghost use Rattle.text_numbers.specs.Number.{digits, number_bytes};
ghost use Rattle.text_numbers.specs.Writer.{Put};

// How many digits `n` is written with.
fn digit_count(n: u64) -> usize
    requires { n ≤ 2147483648 }
    ensures { result ≡ length (digits n) }
{
    if n < 10 {
        return 1;
    }
    digit_count(n / 10) + 1
}

// How many bytes a number is written with.
pub fn number_size(number: i32) -> usize
    ensures { result ≡ length (number_bytes number) }
{
    let count = digit_count(u64::from(number.unsigned_abs()));
    if number < 0 {
        return count + 1;
    }
    count
}

// Writes the digits of `n` at the start of `text`, and answers how many there are.
pub fn put_digits(n: u64, text: &mut [u8]) -> usize
    requires { length (digits n) ≤ length text.old }
    ensures { Put (digits n) text.old result text.new }
{
    if n < 10 {
        text[0] = b'0' + n as u8;
        return 1;
    }
    let count = put_digits(n / 10, text);
    text[count] = b'0' + (n % 10) as u8;
    count + 1
}

// Writes a number at the start of `text`, and answers how many bytes it takes.
pub fn put_number(number: i32, text: &mut [u8]) -> usize
    requires { length (number_bytes number) ≤ length text.old }
    ensures { Put (number_bytes number) text.old result text.new }
{
    let n = u64::from(number.unsigned_abs());
    if number < 0 {
        text[0] = b'-';
        return put_digits(n, &mut text[1..]) + 1;
    }
    put_digits(n, text)
}
