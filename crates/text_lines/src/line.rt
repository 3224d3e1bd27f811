// Lines of a text: where a field or a line ends, and the numbers of a line.
ghost use Rattle.std.specs.Prelude.{◌≡◌, ◌+◌, ◌≤◌, length, drop};
ghost use Rattle.text_lines.specs.Line.{fields_of, numbers_of};
ghost use Rattle.words.specs.Over.{over};
ghost use Rattle.text_lines.specs.Reader.{piece_end, number_count, Holds, numbers_in};

use text_numbers::number::number;

// Where the first `separator` from `at` on stands; the end, where there is none.
pub fn piece_end(bytes: &[u8], at: usize, separator: u8) -> usize
    requires { at ≤ length bytes.now }
    ensures { result ≡ at + piece_end separator (drop at bytes.now) }
{
    let rest = &bytes[at..];
    at + rest
        .iter()
        .position(|&byte| byte == separator)
        .unwrap_or(rest.len())
}

// Counts the numbers of a line.
pub fn count_numbers(line: &[u8]) -> Option<usize>
    ensures { result ≡ number_count (numbers_of (fields_of line.now)) }
{
    let mut count: usize = 0;
    for field in line.split(|&byte| byte == b'\t') {
        number(field)?;
        count += 1;
    }
    Some(count)
}

// Writes the numbers of a line at the start of `table`.
pub fn store_numbers(line: &[u8], table: &mut [i32])
    requires { Holds (numbers_of (fields_of line.now)) table.old }
    ensures { table.new ≡ over (numbers_in (numbers_of (fields_of line.now))) table.old }
{
    let fields = line.split(|&byte| byte == b'\t');
    for (count, field) in fields.enumerate() {
        let Some(value) = number(field) else {
            return;
        };
        table[count] = value;
    }
}
