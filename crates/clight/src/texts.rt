// Reader and writer of both forms' texts.
ghost use Rattle.words.specs.declared.Form.TheVariants.{Source, Kernel};
ghost use Rattle.text_form.specs.Answers.{read_result, Reads, write_result, Writes};

use words::{Form, Refusal};

// Reads a source text into a header and rows: "The reader tests 14 first, then 1, 2 and 10".
pub fn read_source(
    text: &[u8],
    header: &mut [i32],
    rows: &mut [i32],
) -> Result<(usize, usize), Refusal>
    ensures { Reads (read_result Source text.now header.old rows.old) result header.new rows.new }
{
    text_form::read(Form::Source, text, header, rows)
}

// Reads a kernel text.
pub fn read_kernel(
    text: &[u8],
    header: &mut [i32],
    rows: &mut [i32],
) -> Result<(usize, usize), Refusal>
    ensures { Reads (read_result Kernel text.now header.old rows.old) result header.new rows.new }
{
    text_form::read(Form::Kernel, text, header, rows)
}

// Writes a source program as a text: "the writer tests 1, 2 and 10".
pub fn write_source(header: &[i32], rows: &[i32], text: &mut [u8]) -> Result<usize, Refusal>
    ensures { Writes (write_result Source header.now rows.now text.old) result text.new }
{
    text_form::write(Form::Source, header, rows, text)
}

// Writes a kernel program as a text.
pub fn write_kernel(header: &[i32], rows: &[i32], text: &mut [u8]) -> Result<usize, Refusal>
    ensures { Writes (write_result Kernel header.now rows.now text.old) result text.new }
{
    text_form::write(Form::Kernel, header, rows, text)
}
