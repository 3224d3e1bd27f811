// What `translate` and `translate-page` print, and the page of a kernel program. A writer puts its bytes at the start of `out`, and answers how
// many they are.
ghost use Rattle.std.specs.Prelude.{◌≤◌, length};
ghost use Rattle.words.specs.declared.Form.TheVariants.{Kernel};
ghost use Rattle.text_numbers.specs.Writer.{Put};
ghost use Rattle.command_text.specs.Texts.{Roomy, output_room, Printable};
ghost use Rattle.command_questions.specs.Pages.{kernel_page};
ghost use Rattle.command_questions.specs.Translations.{sheet_of, translation_sheet, translation_output};

use clight::pages::print_kernel;
use clight::translate::translate;
use command_request::request::Sheet;
use command_text::{output_room, put_program, read_program};
use text_report::line::refused_line;
use words::Form;

// Prints a kernel program. The page has the room that every output has.
pub fn put_page(header: &[i32], rows: &[i32], out: &mut [u8]) -> usize
    requires { output_room ≤ length out.old }
    ensures { Put (kernel_page header.now rows.now) out.old result out.new }
{
    let room = output_room();
    let answer = print_kernel(header, rows, &mut out[0..room]);
    match answer {
        Ok(size) => size,
        Err(refusal) => refused_line(refusal, out),
    }
}

// Shows a kernel program: its text, or its page.
fn put_sheet(sheet: Sheet, header: &[i32], rows: &[i32], out: &mut [u8]) -> usize
    requires printable { Printable header.now rows.now }
    requires output_room_in_bounds { output_room ≤ length out.old }
    ensures { Put (sheet_of sheet header.now rows.now) out.old result out.new }
{
    match sheet {
        Sheet::Text => put_program(header, rows, out),
        Sheet::Page => put_page(header, rows, out),
    }
}

// Translates a program into the lent tables, and shows them.
fn put_translation(
    sheet: Sheet,
    header: &[i32],
    rows: &[i32],
    kernel_header: &mut [i32],
    kernel_rows: &mut [i32],
    out: &mut [u8],
) -> usize
    requires roomy { Roomy Kernel kernel_header.old kernel_rows.old }
    requires output_room_in_bounds { output_room ≤ length out.old }
    ensures { Put (translation_sheet sheet header.now rows.now) out.old result out.new }
{
    let answer = translate(header, rows, kernel_header, kernel_rows);
    match answer {
        Err(refusal) => refused_line(refusal, out),
        Ok((numbers, words)) => put_sheet(
            sheet,
            &kernel_header[0..numbers],
            &kernel_rows[0..words],
            out,
        ),
    }
}

// `translate` and `translate-page`. The tables are lent for the kernel program.
pub fn translation_answer(
    sheet: Sheet,
    text: &[u8],
    kernel_header: &mut [i32],
    kernel_rows: &mut [i32],
    out: &mut [u8],
) -> usize
    requires roomy { Roomy Kernel kernel_header.old kernel_rows.old }
    requires output_room_in_bounds { output_room ≤ length out.old }
    ensures { Put (translation_output sheet text.now) out.old result out.new }
{
    let mut header = [0i32; 33];
    let mut rows = [0i32; 12288];
    let answer = read_program(Form::Source, text, &mut header, &mut rows);
    match answer {
        Err(refusal) => refused_line(refusal, out),
        Ok((numbers, words)) => put_translation(
            sheet,
            &header[0..numbers],
            &rows[0..words],
            kernel_header,
            kernel_rows,
            out,
        ),
    }
}
