// The day of one value, from a store of zeros, and its line at the start of `output`; the answer is how many bytes it has.
ghost use Rattle.std.specs.Prelude.{◌≡◌, ◌∷◌, ◌<◌, ◌≤◌, pos, length};
ghost use Rattle.words.specs.Layout.{store_words, zeros};
ghost use Rattle.words.specs.declared.Form.TheVariants.{Source};
ghost use Rattle.text_lines.specs.Line.{lines_of, line_bytes};
ghost use Rattle.text_numbers.specs.Writer.{Put};
ghost use Rattle.day_run.specs.Days.{pairs_of};
ghost use Rattle.day_values.specs.Values.{day_line};
ghost use Rattle.day_values.specs.Conditions.{Fits, most_in_line, line_room};

use day_run::line::store_at;
use day_run::lines::do_lines;
use text_lines::writer::{put_line, size_of};
use words::Form;
use words::layout::store_words;
use words::table::natural;
use words_copying::put;

// The line of some numbers.
fn put_sized(numbers: &[i32], output: &mut [u8]) -> usize
    requires numbers_nonzero { 0 < length numbers.now }
    requires numbers_len_bound { length numbers.now ≤ most_in_line }
    requires line_room_in_bounds { line_room ≤ length output.old }
    ensures put { Put (line_bytes numbers.now) output.old result output.new }
    ensures upper_bound { result ≤ line_room }
{
    let size = size_of(numbers);
    put_line(numbers, output);
    size
}

// "The value, lines that ended plainly, lines that didn't, and the V variables": the numbers are put together in a table.
fn put_in_table(
    value: i32,
    plain: usize,
    other: usize,
    variables: &[i32],
    table: &mut [i32],
    output: &mut [u8],
) -> usize
    requires plain_bound { (plain ≤ 200) × (other ≤ 200) }
    requires variables_len_bound { length variables.now ≤ 256 }
    requires table_len { length table.old ≡ most_in_line }
    requires line_room_in_bounds { line_room ≤ length output.old }
    ensures put { Put (line_bytes (value ∷ (pos plain ∷ (pos other ∷ variables.now)))) output.old result output.new }
    ensures upper_bound { result ≤ line_room }
{
    put(&[value, plain as i32, other as i32], table);
    put(variables, &mut table[3..]);
    let count = variables.len() + 3;
    put_sized(&table[0..count], output)
}

// The line of a value.
fn put_numbers(
    value: i32,
    plain: usize,
    other: usize,
    variables: &[i32],
    output: &mut [u8],
) -> usize
    requires plain_bound { (plain ≤ 200) × (other ≤ 200) }
    requires variables_len_bound { length variables.now ≤ 256 }
    requires line_room_in_bounds { line_room ≤ length output.old }
    ensures put { Put (line_bytes (value ∷ (pos plain ∷ (pos other ∷ variables.now)))) output.old result output.new }
    ensures upper_bound { result ≤ line_room }
{
    let mut table = [0i32; 259];
    put_in_table(value, plain, other, variables, &mut table, output)
}

// The day of one value, on a store of zeros.
fn put_day_on(
    header: &[i32],
    rows: &[i32],
    variable: usize,
    value: i32,
    text: &[u8],
    store: &mut [i32],
    output: &mut [u8],
) -> usize
    requires fits { Fits header.now rows.now text.now }
    requires store_value { store.old ≡ zeros (store_words Source header.now rows.now) }
    requires line_room_in_bounds { line_room ≤ length output.old }
    ensures put { Put (day_line header.now rows.now variable (pairs_of (lines_of text.now)) value) output.old result output.new }
    ensures upper_bound { result ≤ line_room }
{
    store_at(variable, value, store);
    let tally = do_lines(header, rows, text, store);
    let variables = natural(header[0]);
    put_numbers(
        value,
        tally.plain,
        tally.other,
        &store[0..variables],
        output,
    )
}

// The day of one value.
pub fn put_day(
    header: &[i32],
    rows: &[i32],
    variable: usize,
    value: i32,
    text: &[u8],
    output: &mut [u8],
) -> usize
    requires fits { Fits header.now rows.now text.now }
    requires line_room_in_bounds { line_room ≤ length output.old }
    ensures put { Put (day_line header.now rows.now variable (pairs_of (lines_of text.now)) value) output.old result output.new }
    ensures upper_bound { result ≤ line_room }
{
    let size = store_words(Form::Source, header, rows);
    let mut store = [0i32; 1088];
    put_day_on(
        header,
        rows,
        variable,
        value,
        text,
        &mut store[0..size],
        output,
    )
}
