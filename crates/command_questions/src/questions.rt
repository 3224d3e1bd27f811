// What is printed for a question about one text. A writer puts its bytes at the start of `out`, and answers how many they are. The tables `header`
// and `rows` are lent to read the text into; what stands in them after it is of no use to a caller.
ghost use Rattle.std.specs.Prelude.{◌≡◌, ◌≤◌, length};
ghost use Rattle.text_numbers.specs.Writer.{Put};
ghost use Rattle.command_written_lines.specs.Lines.{is_in, written_lines, writes_room};
ghost use Rattle.program_runs.specs.Runs.{refusal_of};
ghost use Rattle.command_text.specs.Texts.{Roomy, output_room};
ghost use Rattle.command_text.specs.Read.{ReadFor};
ghost use Rattle.command_questions.specs.Checks.{check_line};
ghost use Rattle.command_questions.specs.Writes.{writes_lines};
ghost use Rattle.command_questions.specs.Questions.{question_form, question_text, question_lines, question_output};

use super::translations::put_page;
use clight::runs;
use command_flat::flattenings::put_flattened;
use command_flat::{put_list_check, read_list};
use command_lines::verdict_line;
use command_request::request::Question;
use command_text::read_program;
use command_written_lines::put_lines;
use text_report::line::refused_line;
use words::{Form, Refusal};
use write_sets_entry::writes_of;
use write_sets_programs::Writes;

fn check_form(form: Form, header: &[i32], rows: &[i32]) -> Result<(), Refusal>
    ensures { result ≡ refusal_of form header.now rows.now }
{
    match form {
        Form::Source => runs::check(header, rows),
        Form::Kernel => runs::kernel_check(header, rows),
    }
}

fn put_check(form: Form, header: &[i32], rows: &[i32], out: &mut [u8]) -> usize
    requires { output_room ≤ length out.old }
    ensures { Put (check_line form header.now rows.now) out.old result out.new }
{
    let verdict = check_form(form, header, rows);
    verdict_line(verdict, out)
}

fn put_sets(writes: Writes, out: &mut [u8]) -> usize
    requires { writes_room ≤ length out.old }
    ensures { Put (written_lines (is_in writes.variables writes.arrays)) out.old result out.new }
{
    let set = writes.variables;
    put_lines(set, writes.arrays, out)
}

fn put_writes(header: &[i32], rows: &[i32], out: &mut [u8]) -> usize
    requires { output_room ≤ length out.old }
    ensures { Put (writes_lines header.now rows.now) out.old result out.new }
{
    let verdict = writes_of(header, rows);
    match verdict {
        Ok(writes) => put_sets(writes, out),
        Err(refusal) => refused_line(refusal, out),
    }
}

// Reads the text that a question is about.
fn read_question(
    question: Question,
    text: &[u8],
    header: &mut [i32],
    rows: &mut [i32],
) -> Result<(usize, usize), Refusal>
    requires { Roomy (question_form question) header.old rows.old }
    ensures { ReadFor (question_text question text.now) (question_form question) result header.new rows.new }
{
    match question {
        Question::Check(form) => read_program(form, text, header, rows),
        Question::Writes => read_program(Form::Source, text, header, rows),
        Question::Page => read_program(Form::Kernel, text, header, rows),
        Question::Flatten => read_program(Form::Kernel, text, header, rows),
        Question::FlatCheck => read_list(text, header, rows),
    }
}

// Writes what is printed for a header and rows.
fn put_question(question: Question, header: &[i32], rows: &[i32], out: &mut [u8]) -> usize
    requires { output_room ≤ length out.old }
    ensures { Put (question_lines question header.now rows.now) out.old result out.new }
{
    match question {
        Question::Check(form) => put_check(form, header, rows, out),
        Question::Writes => put_writes(header, rows, out),
        Question::Page => put_page(header, rows, out),
        Question::Flatten => put_flattened(header, rows, out),
        Question::FlatCheck => put_list_check(header, rows, out),
    }
}

// `check`, `kernel-check`, `writes`, `page`, `flatten` and `flat-check`: the text is read, then the question answered.
pub fn question_answer(
    question: Question,
    text: &[u8],
    header: &mut [i32],
    rows: &mut [i32],
    out: &mut [u8],
) -> usize
    requires roomy { Roomy (question_form question) header.old rows.old }
    requires output_room_in_bounds { output_room ≤ length out.old }
    ensures { Put (question_output question text.now) out.old result out.new }
{
    let answer = read_question(question, text, header, rows);
    match answer {
        Err(refusal) => refused_line(refusal, out),
        Ok((numbers, words)) => {
            put_question(question, &header[0..numbers], &rows[0..words], out)
        }
    }
}
