// The reader: one pass finds the shape of a text, a second stores its words.
ghost use Rattle.std.specs.Prelude.{◌≡◌, true, ◌+◌};
ghost use Rattle.text_lines.specs.Line.{ended, lines_of, fields_of, numbers_of};
ghost use Rattle.text_form.specs.Text.{header_line, row_line, rows_from, parse_table};
ghost use Rattle.words.specs.Over.{over};
ghost use Rattle.text_form.specs.Answers.{cause_of, read_result, Reads};
ghost use Rattle.text_lines.specs.Reader.{number_count, numbers_in};
ghost use Rattle.text_form.specs.Reader.{is_found, cause_says, HoldsExactly, rows_say, words_of, words_in, HoldsRows, HasLines, Shaped, read_by};

use super::limits::first_cause;
use text_lines::line::{count_numbers, piece_end, store_numbers};
use words::layout::leading;
use words::{Cause, Form, Refusal};

// How many numbers a first line has.
pub fn header_numbers(form: Form, line: &[u8]) -> Option<usize>
    ensures { result ≡ number_count (header_line form (ended line.now)) }
{
    let count = count_numbers(line)?;
    let first = leading(form);
    if count < first {
        return None;
    }
    if count > first + 32 {
        return None;
    }
    Some(count)
}

fn is_row(width: usize, line: &[u8]) -> bool
    ensures { result ≡ is_found (row_line width (ended line.now)) }
{
    count_numbers(line) == Some(width)
}

// Counts the words of the rows, `width` each, behind the first line, or finds the first malformed line.
fn count_rows(width: usize, text: &[u8]) -> Result<usize, usize>
    ensures { rows_say result ≡ words_of (rows_from width 2 (lines_of text.now)) }
{
    // Kept as a while: the step is the length of a line.
    let mut at: usize = 0;
    let mut count: usize = 0;
    while at < text.len() {
        let end = piece_end(text, at, b'\n');
        if end == text.len() {
            return Err(count + 2);
        }
        if !is_row(width, &text[at..end]) {
            return Err(count + 2);
        }
        count += 1;
        at = end + 1;
    }
    Ok(width * count)
}

// Writes the words of the rows, `width` each, behind the first line at the start of `table`.
fn store_rows(width: usize, text: &[u8], table: &mut [i32])
    requires { HoldsRows (rows_from width 2 (lines_of text.now)) table.old }
    ensures { table.new ≡ over (words_in (rows_from width 2 (lines_of text.now))) table.old }
{
    // Kept as a while: the step is the length of a line.
    let mut at: usize = 0;
    let mut count: usize = 0;
    while at < text.len() {
        let end = piece_end(text, at, b'\n');
        let start = width * count;
        store_numbers(&text[at..end], &mut table[start..]);
        count += 1;
        at = end + 1;
    }
}

// The shape of a text whose rows have `width` words.
pub fn shape_of(width: usize, form: Form, text: &[u8]) -> Result<(usize, usize, usize), usize>
    ensures { Shaped width form text.now result }
{
    let end = piece_end(text, 0, b'\n');
    if end == text.len() {
        return Err(1);
    }
    let numbers = header_numbers(form, &text[0..end]).ok_or(1usize)?;
    let next = end + 1;
    let words = count_rows(width, &text[next..])?;
    Ok((end, numbers, words))
}

// The first of the causes 1 and 2 that a text meets.
fn text_cause(form: Form, line: &[u8], numbers: usize, words: usize) -> Option<Cause>
    requires { HoldsExactly (numbers_of (fields_of line.now)) numbers }
    ensures { cause_says result ≡ cause_of form (numbers_in (numbers_of (fields_of line.now))) words true }
{
    let mut header = [0i32; 35];
    store_numbers(line, &mut header);
    first_cause(form, &header[0..numbers], words)
}

// Stores the words of a well-formed text, unless there is a cause before 10, or a table is short. A refusal leaves both tables as they were.
pub fn store_text(
    width: usize,
    form: Form,
    text: &[u8],
    end: usize,
    numbers: usize,
    words: usize,
    cause: Option<Cause>,
    header: &mut [i32],
    rows: &mut [i32],
) -> Result<(usize, usize), Refusal>
    requires { HasLines width form text.now end numbers words }
    ensures { Reads (read_by (cause_says cause) (parse_table width form text.now) header.old rows.old) result header.new rows.new }
{
    if let Some(cause) = cause {
        return Err(Refusal { cause, place: 0 });
    }
    if header.len() < numbers {
        return Err(Refusal {
            cause: Cause::NoRoom,
            place: 0,
        });
    }
    if rows.len() < words {
        return Err(Refusal {
            cause: Cause::NoRoom,
            place: 0,
        });
    }
    store_numbers(&text[0..end], header);
    let next = end + 1;
    store_rows(width, &text[next..], rows);
    Ok((numbers, words))
}

// Reads a well-formed text.
pub fn read_lines(
    form: Form,
    text: &[u8],
    end: usize,
    numbers: usize,
    words: usize,
    header: &mut [i32],
    rows: &mut [i32],
) -> Result<(usize, usize), Refusal>
    requires { HasLines 6 form text.now end numbers words }
    ensures { Reads (read_result form text.now header.old rows.old) result header.new rows.new }
{
    let cause = text_cause(form, &text[0..end], numbers, words);
    store_text(6, form, text, end, numbers, words, cause, header, rows)
}
