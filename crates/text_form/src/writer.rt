// The writer: the bytes of rows, and of a text.
ghost use Rattle.std.specs.Prelude.{◌≡◌, ◌*◌, ◌<◌, ◌≤◌, length};
ghost use Rattle.text_form.specs.Text.{rows_bytes, table_bytes};
ghost use Rattle.text_numbers.specs.Writer.{Put};
ghost use Rattle.text_form.specs.Writer.{Fills};

use text_lines::writer::put_line;

// Writes `count` rows of `width` words at the start of `text`, and answers how many bytes they have.
fn put_rows(width: usize, count: usize, rows: &[i32], text: &mut [u8]) -> usize
    requires width_nonzero { 0 < width }
    requires rows_len { length rows.now ≡ width * count }
    requires rows_in_bounds { length (rows_bytes width count rows.now) ≤ length text.old }
    ensures { Put (rows_bytes width count rows.now) text.old result text.new }
{
    let mut at: usize = 0;
    for row in 0..count {
        let start = width * row;
        let end = start + width;
        at += put_line(&rows[start..end], &mut text[at..]);
    }
    at
}

// Writes the text of a header and `count` rows of `width` words at the start of `text`, and answers how many bytes it has.
pub fn put_text(width: usize, count: usize, header: &[i32], rows: &[i32], text: &mut [u8]) -> usize
    requires { Fills width count header.now rows.now text.old }
    ensures { Put (table_bytes width count header.now rows.now) text.old result text.new }
{
    let end = put_line(header, text);
    end + put_rows(width, count, rows, &mut text[end..])
}
