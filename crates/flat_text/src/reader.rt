// The reader of well-formed texts: cause 1 by the first line, the rest as the text form's.
ghost use Rattle.std.specs.Prelude.{◌≡◌, true};
ghost use Rattle.words.specs.Layout.{header_fits};
ghost use Rattle.words.specs.declared.Form.TheVariants.{Kernel};
ghost use Rattle.text_lines.specs.Line.{fields_of, numbers_of};
ghost use Rattle.text_lines.specs.Reader.{numbers_in};
ghost use Rattle.text_form.specs.Answers.{Reads};
ghost use Rattle.text_form.specs.Reader.{HoldsExactly, cause_says, HasLines};
ghost use Rattle.flat_text.specs.Answers.{flat_cause, flat_read_result};

use text_form::reader::store_text;
use text_lines::line::store_numbers;
use words::layout::header_fits;
use words::{Cause, Form, Refusal};

// Whether a text's header is within its limits.
fn first_fits(line: &[u8], numbers: usize) -> bool
    requires { HoldsExactly (numbers_of (fields_of line.now)) numbers }
    ensures { result ≡ header_fits Kernel (numbers_in (numbers_of (fields_of line.now))) }
{
    let mut header = [0i32; 35];
    store_numbers(line, &mut header);
    header_fits(Form::Kernel, &header[0..numbers])
}

// The cause before 10 that a text meets, if any.
fn text_cause(line: &[u8], numbers: usize) -> Option<Cause>
    requires { HoldsExactly (numbers_of (fields_of line.now)) numbers }
    ensures { cause_says result ≡ flat_cause (numbers_in (numbers_of (fields_of line.now))) true }
{
    if first_fits(line, numbers) {
        return None;
    }
    Some(Cause::Header)
}

// Reads a well-formed text. A refusal leaves both tables as they were.
pub fn read_lines(
    text: &[u8],
    end: usize,
    numbers: usize,
    words: usize,
    header: &mut [i32],
    list: &mut [i32],
) -> Result<(usize, usize), Refusal>
    requires { HasLines 5 Kernel text.now end numbers words }
    ensures { Reads (flat_read_result text.now header.old list.old) result header.new list.new }
{
    let cause = text_cause(&text[0..end], numbers);
    store_text(
        5,
        Form::Kernel,
        text,
        end,
        numbers,
        words,
        cause,
        header,
        list,
    )
}
