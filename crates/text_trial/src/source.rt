// The input's lines, and the texts that they stand for.
ghost use Rattle.std.specs.Prelude.{◌≤◌, length};

// Puts a byte at `at`, if there is room, and answers what follows.
fn put_byte(byte: u8, text: &mut [u8], at: usize) -> usize
    requires { at ≤ length text.old }
    ensures { result ≤ length text.old }
{
    if at < text.len() {
        text[at] = byte;
        return at + 1;
    }
    at
}

// Puts `count` rows' lines.
fn put_rows(count: usize, text: &mut [u8], at: usize) -> usize
    requires { at ≤ length text.old }
    ensures { result ≤ length text.old }
{
    let mut end = at;
    for _row in 0..count {
        for byte in b"1\t0\t0\t0\t0\t0\n" {
            end = put_byte(*byte, text, end);
        }
    }
    end
}

fn put_symbol(symbol: u8, text: &mut [u8], at: usize) -> usize
    requires { at ≤ length text.old }
    ensures { result ≤ length text.old }
{
    match symbol {
        b'|' => put_byte(b'\t', text, at),
        b'/' => put_byte(b'\n', text, at),
        b'r' => put_byte(b'\r', text, at),
        b'z' => put_byte(0, text, at),
        b'A' => put_rows(1, text, at),
        b'C' => put_rows(2048, text, at),
        _ => put_byte(symbol, text, at),
    }
}

// Puts the text that a line stands for, and answers how many bytes it has.
pub fn expanded(line: &[u8], text: &mut [u8]) -> usize
    ensures { result ≤ length text.old }
{
    let mut end = 0;
    for symbol in line.iter().skip(1) {
        end = put_symbol(*symbol, text, end);
    }
    end
}
