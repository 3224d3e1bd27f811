// What `join` prints. A writer puts its bytes at the start of `out`, and answers how many they are.
ghost use Rattle.std.specs.Prelude.{◌≡◌, true, ◌≤◌, length};
ghost use Rattle.words.specs.Layout.{header_fits};
ghost use Rattle.words.specs.declared.Form.TheVariants.{Source};
ghost use Rattle.text_numbers.specs.Writer.{Put};
ghost use Rattle.text_report.specs.Lines.{refused_line};
ghost use Rattle.program_runs.specs.Runs.{refusal_of};
ghost use Rattle.command_text.specs.Texts.{output_room};
ghost use Rattle.command_questions.specs.Joins.{after_check, join_text, second_output, join_output};

use clight::joins::join;
use clight::runs::check;
use command_text::put_program;
use text_report::line::refused_line;
use words::{Form, Refusal};

// Joins two programs in the lent table, and writes the text of the joined rows, under their header.
fn put_join(
    header: &[i32],
    rows: &[i32],
    second_header: &[i32],
    second_rows: &[i32],
    table: &mut [i32],
    out: &mut [u8],
) -> usize
    requires table_len { length table.old ≡ 12288 }
    requires output_room_in_bounds { output_room ≤ length out.old }
    ensures { Put (join_text header.now rows.now second_header.now second_rows.now) out.old result out.new }
{
    let answer = join(header, rows, second_header, second_rows, table);
    match answer {
        Err(refusal) => refused_line(refusal, out),
        Ok(words) => put_program(header, &table[0..words], out),
    }
}

// The same in a table of its own.
fn put_join_text(
    header: &[i32],
    rows: &[i32],
    second_header: &[i32],
    second_rows: &[i32],
    out: &mut [u8],
) -> usize
    requires { output_room ≤ length out.old }
    ensures { Put (join_text header.now rows.now second_header.now second_rows.now) out.old result out.new }
{
    let mut table = [0i32; 12288];
    put_join(header, rows, second_header, second_rows, &mut table, out)
}

// A second text that is refused: the first program's own causes come before it.
fn put_refused(header: &[i32], rows: &[i32], refusal: Refusal, out: &mut [u8]) -> usize
    requires { output_room ≤ length out.old }
    ensures { Put (after_check (refusal_of Source header.now rows.now) (refused_line refusal.number refusal.place)) out.old result out.new }
{
    let verdict = check(header, rows);
    match verdict {
        Ok(()) => refused_line(refusal, out),
        Err(found) => refused_line(found, out),
    }
}

// The join of a program with the one of the second text.
fn join_second(header: &[i32], rows: &[i32], text: &[u8], out: &mut [u8]) -> usize
    requires { output_room ≤ length out.old }
    ensures { Put (second_output text.now header.now rows.now) out.old result out.new }
{
    let mut second_header = [0i32; 33];
    let mut second_rows = [0i32; 12288];
    let answer = text_form::read(Form::Source, text, &mut second_header, &mut second_rows);
    match answer {
        Err(refusal) => put_refused(header, rows, refusal, out),
        Ok((numbers, words)) => put_join_text(
            header,
            rows,
            &second_header[0..numbers],
            &second_rows[0..words],
            out,
        ),
    }
}

// `join`.
pub fn join_answer(text: &[u8], second: &[u8], out: &mut [u8]) -> usize
    requires { output_room ≤ length out.old }
    ensures { Put (join_output text.now second.now) out.old result out.new }
{
    let mut header = [0i32; 33];
    let mut rows = [0i32; 12288];
    let answer = text_form::read(Form::Source, text, &mut header, &mut rows);
    match answer {
        Err(refusal) => refused_line(refusal, out),
        Ok((numbers, words)) => { join_second(&header[0..numbers], &rows[0..words], second, out) }
    }
}
