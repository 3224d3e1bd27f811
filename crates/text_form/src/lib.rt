// The text form: reader and writer for source and kernel texts.
#![tactic(auto)]

pub mod limits; // limits.rt: the causes that reader and writer test alike
pub mod reader; // reader.rt: the shape of a text, and its words
pub mod writer; // writer.rt: the bytes of a text

ghost use Rattle.text_form.specs.Answers.{read_result, Reads, write_result, Writes};

use self::limits::first_cause;
use self::reader::{read_lines, shape_of};
use self::writer::put_text;
use text_lines::writer::size_of;
use words::{Cause, Form, Refusal};

// Reads a text into a header and rows. Document 01, "Text": causes 14, 1, 2 and 10, in this order.
pub fn read(
    form: Form,
    text: &[u8],
    header: &mut [i32],
    rows: &mut [i32],
) -> Result<(usize, usize), Refusal>
    ensures { Reads (read_result form text.now header.old rows.old) result header.new rows.new }
{
    let (end, numbers, words) = shape_of(6, form, text).map_err(|line| Refusal {
        cause: Cause::MalformedText,
        place: line,
    })?;
    read_lines(form, text, end, numbers, words, header, rows)
}

// Writes a header and rows as a text. Document 01, "Text": causes 1, 2 and 10, in this order.
pub fn write(form: Form, header: &[i32], rows: &[i32], text: &mut [u8]) -> Result<usize, Refusal>
    ensures { Writes (write_result form header.now rows.now text.old) result text.new }
{
    if let Some(cause) = first_cause(form, header, rows.len()) {
        return Err(Refusal { cause, place: 0 });
    }
    if text.len() < size_of(header) + size_of(rows) {
        return Err(Refusal {
            cause: Cause::NoRoom,
            place: 0,
        });
    }
    Ok(put_text(6, rows.len() / 6, header, rows, text))
}
