// What the command prints for a text: the text is read into lent tables, and a program is written as a text.
#![tactic(auto)]

ghost use Rattle.std.specs.Prelude.{◌≡◌, ◌≤◌, length};
ghost use Rattle.text_form.specs.Text.{table_bytes, text_bytes};
ghost use Rattle.text_numbers.specs.Writer.{Put};
ghost use Rattle.command_text.specs.Texts.{Roomy, output_room, Tabled, Printable, text_output};
ghost use Rattle.command_text.specs.Read.{ReadFor};

use text_form::writer::put_text;
use text_lines::writer::size_of;
use words::{Form, Refusal};

// Bytes that every output has room in.
pub fn output_room() -> usize
    ensures { result ≡ output_room }
{
    2950980
}

// Reads a program into tables as long as a legal one needs.
pub fn read_program(
    form: Form,
    text: &[u8],
    header: &mut [i32],
    rows: &mut [i32],
) -> Result<(usize, usize), Refusal>
    requires { Roomy form header.old rows.old }
    ensures { ReadFor (text_output form text.now) form result header.new rows.new }
{
    text_form::read(form, text, header, rows)
}

// Writes the text of a header and `count` rows of `width` words at the start of `out`, into as many bytes as it takes, and answers how
// many. They have room: a word takes at most twelve.
pub fn put_table(width: usize, count: usize, header: &[i32], rows: &[i32], out: &mut [u8]) -> usize
    requires tabled { Tabled width count header.now rows.now }
    requires output_room_in_bounds { output_room ≤ length out.old }
    ensures { Put (table_bytes width count header.now rows.now) out.old result out.new }
{
    let size = size_of(header) + size_of(rows);
    put_text(width, count, header, rows, &mut out[0..size])
}

// Writes a program's text at the start of `out`, and answers how many bytes it has.
pub fn put_program(header: &[i32], rows: &[i32], out: &mut [u8]) -> usize
    requires printable { Printable header.now rows.now }
    requires output_room_in_bounds { output_room ≤ length out.old }
    ensures { Put (text_bytes header.now rows.now) out.old result out.new }
{
    put_table(6, rows.len() / 6, header, rows, out)
}
