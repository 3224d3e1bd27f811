// Texts of flat lists: their reader and writer.
#![tactic(auto)]

pub mod reader; // reader.rt: a well-formed text read
pub mod writer; // writer.rt: whether a text fits

ghost use Rattle.text_form.specs.Answers.{Reads, Writes};
ghost use Rattle.flat_text.specs.Answers.{flat_read_result, flat_write_result};

use self::reader::read_lines;
use self::writer::text_fits;
use text_form::reader::shape_of;
use text_form::writer::put_text;
use words::layout::header_fits;
use words::{Cause, Form, Refusal};

// Reads a text into a header and a list: causes 14, 1 and 10, in this order.
pub fn read(text: &[u8], header: &mut [i32], list: &mut [i32]) -> Result<(usize, usize), Refusal>
    ensures { Reads (flat_read_result text.now header.old list.old) result header.new list.new }
{
    let (end, numbers, words) = shape_of(5, Form::Kernel, text).map_err(|line| Refusal {
        cause: Cause::MalformedText,
        place: line,
    })?;
    read_lines(text, end, numbers, words, header, list)
}

// Writes a header and a list as a text: causes 1, 2 and 10, in this order.
pub fn write(header: &[i32], list: &[i32], text: &mut [u8]) -> Result<usize, Refusal>
    ensures { Writes (flat_write_result header.now list.now text.old) result text.new }
{
    if !header_fits(Form::Kernel, header) {
        return Err(Refusal {
            cause: Cause::Header,
            place: 0,
        });
    }
    if list.len() % 5 != 0 {
        return Err(Refusal {
            cause: Cause::RowCount,
            place: 0,
        });
    }
    if !text_fits(header, list, text.len()) {
        return Err(Refusal {
            cause: Cause::NoRoom,
            place: 0,
        });
    }
    Ok(put_text(5, list.len() / 5, header, list, text))
}
