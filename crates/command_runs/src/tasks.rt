// What the runs and previews print. A writer puts its bytes at the start of `out`, and answers how many they are. The tables `header` and `rows` are
// lent to read the text into; what stands in them after it is of no use to a caller.
ghost use Rattle.std.specs.Prelude.{◌≡◌, true, ◌≤◌, length};
ghost use Rattle.words.specs.Layout.{header_fits, store_words};
ghost use Rattle.text_numbers.specs.Writer.{Put};
ghost use Rattle.text_report.specs.Lines.{line_room};
ghost use Rattle.program_dispatcher.specs.DispatcherRuns.{dispatcher_result};
ghost use Rattle.program_runs.specs.Runs.{run_result, answer_and_store};
ghost use Rattle.command_request.specs.StoreFile.{store_in};
ghost use Rattle.command_text.specs.Texts.{Roomy, most_store, output_room, store_limit};
ghost use Rattle.command_text.specs.Read.{ReadFor};
ghost use Rattle.command_runs.specs.Tasks.{form_of, task_text, start_words, result_line, shown_line, task_lines, task_output, zeros_lines, zeros_output, stored_output, started_output};

use super::previews::put_preview;
use clight::dispatcher::dispatcher_run;
use clight::runs;
use command_flat::{put_list_run, read_list};
use command_lines::{dispatcher_line, malformed_line, run_line};
use command_request::request::Task;
use command_request::store_file::read_words;
use command_text::read_program;
use text_report::line::refused_line;
use words::layout::{header_store, store_size, store_words};
use words::{Form, Refusal, RunAnswer};

fn run_form(
    form: Form,
    header: &[i32],
    rows: &[i32],
    store: &mut [i32],
    budget: u32,
) -> Result<RunAnswer, Refusal>
    ensures { answer_and_store result store.new ≡ run_result form header.now rows.now budget store.old }
{
    match form {
        Form::Source => runs::run(header, rows, store, budget),
        Form::Kernel => runs::kernel_run(header, rows, store, budget),
    }
}

// Runs a program on the store, and writes the line.
fn put_run(
    form: Form,
    header: &[i32],
    rows: &[i32],
    store: &mut [i32],
    budget: u32,
    out: &mut [u8],
) -> usize
    requires { line_room (length store.old) ≤ length out.old }
    ensures { Put (result_line (run_result form header.now rows.now budget store.old)) out.old result out.new }
{
    let verdict = run_form(form, header, rows, store, budget);
    run_line(verdict, store, out)
}

// Runs a kernel program on the words that a dispatcher sees, and writes the line.
fn put_dispatcher_run(
    header: &[i32],
    rows: &[i32],
    words: &mut [i32],
    budget: u32,
    out: &mut [u8],
) -> usize
    requires { line_room (length words.old) ≤ length out.old }
    ensures { Put (shown_line (dispatcher_result header.now rows.now budget words.old)) out.old result out.new }
{
    let verdict = dispatcher_run(header, rows, words, budget);
    dispatcher_line(verdict, words, out)
}

// Reads the text that a task is about.
fn read_task(
    task: Task,
    text: &[u8],
    header: &mut [i32],
    rows: &mut [i32],
) -> Result<(usize, usize), Refusal>
    requires { Roomy (form_of task) header.old rows.old }
    ensures { ReadFor (task_text task text.now) (form_of task) result header.new rows.new }
{
    match task {
        Task::Run(form) => read_program(form, text, header, rows),
        Task::Preview => read_program(Form::Source, text, header, rows),
        Task::DispatcherRun => read_program(Form::Kernel, text, header, rows),
        Task::FlatRun => read_list(text, header, rows),
    }
}

// How many words a task starts from.
fn start_words(task: Task, header: &[i32], rows: &[i32]) -> usize
    requires { header_fits (form_of task) header.now ≡ true }
    ensures { result ≡ start_words task header.now rows.now }
{
    match task {
        Task::Run(form) => store_words(form, header, rows),
        Task::Preview => store_words(Form::Source, header, rows),
        Task::DispatcherRun => store_size(Form::Kernel, header),
        Task::FlatRun => header_store(Form::Kernel, header),
    }
}

// Runs a program on the store, or previews that, and writes what is printed for it.
fn put_task(
    task: Task,
    header: &[i32],
    rows: &[i32],
    store: &mut [i32],
    budget: u32,
    out: &mut [u8],
) -> usize
    requires header_value { header_fits (form_of task) header.now ≡ true }
    requires rows_bound { store_words (form_of task) header.now rows.now ≤ most_store }
    requires store_in_bounds { line_room (length store.old) ≤ length out.old }
    requires output_room_in_bounds { output_room ≤ length out.old }
    ensures { Put (task_lines task budget store.old header.now rows.now) out.old result out.new }
{
    match task {
        Task::Run(form) => put_run(form, header, rows, store, budget, out),
        Task::Preview => put_preview(header, rows, store, budget, out),
        Task::DispatcherRun => put_dispatcher_run(header, rows, store, budget, out),
        Task::FlatRun => put_list_run(header, rows, store, budget, out),
    }
}

// A run or preview from the words of a store file.
fn start_text(
    task: Task,
    budget: u32,
    text: &[u8],
    store: &mut [i32],
    header: &mut [i32],
    rows: &mut [i32],
    out: &mut [u8],
) -> usize
    requires roomy { Roomy (form_of task) header.old rows.old }
    requires store_in_bounds { line_room (length store.old) ≤ length out.old }
    requires output_room_in_bounds { output_room ≤ length out.old }
    ensures { Put (task_output task budget text.now store.old) out.old result out.new }
{
    let answer = read_task(task, text, header, rows);
    match answer {
        Err(refusal) => refused_line(refusal, out),
        Ok((numbers, words)) => put_task(
            task,
            &header[0..numbers],
            &rows[0..words],
            store,
            budget,
            out,
        ),
    }
}

// The same of a store of zeros.
fn put_zeros_task(task: Task, header: &[i32], rows: &[i32], budget: u32, out: &mut [u8]) -> usize
    requires header_value { header_fits (form_of task) header.now ≡ true }
    requires rows_bound { store_words (form_of task) header.now rows.now ≤ most_store }
    requires output_room_in_bounds { output_room ≤ length out.old }
    ensures { Put (zeros_lines task budget header.now rows.now) out.old result out.new }
{
    let count = start_words(task, header, rows);
    let mut store = [0i32; 16448];
    put_task(task, header, rows, &mut store[0..count], budget, out)
}

// A run or preview from zeros.
fn start_zeros(
    task: Task,
    budget: u32,
    text: &[u8],
    header: &mut [i32],
    rows: &mut [i32],
    out: &mut [u8],
) -> usize
    requires roomy { Roomy (form_of task) header.old rows.old }
    requires output_room_in_bounds { output_room ≤ length out.old }
    ensures { Put (zeros_output task budget text.now) out.old result out.new }
{
    let answer = read_task(task, text, header, rows);
    match answer {
        Err(refusal) => refused_line(refusal, out),
        Ok((numbers, words)) => {
            put_zeros_task(task, &header[0..numbers], &rows[0..words], budget, out)
        }
    }
}

// A run or preview from a store file, read before the text.
fn start_stored(
    task: Task,
    budget: u32,
    text: &[u8],
    stored: &[u8],
    header: &mut [i32],
    rows: &mut [i32],
    out: &mut [u8],
) -> usize
    requires roomy { Roomy (form_of task) header.old rows.old }
    requires stored_len_bound { length stored.now ≤ store_limit }
    requires output_room_in_bounds { output_room ≤ length out.old }
    ensures { Put (stored_output task budget text.now (store_in stored.now)) out.old result out.new }
{
    let mut store = [0i32; 98688];
    let read = read_words(stored, &mut store);
    match read {
        Err(number) => malformed_line(number, out),
        Ok(count) => start_text(task, budget, text, &mut store[0..count], header, rows, out),
    }
}

// `run`, `kernel-run`, `preview`, `dispatcher-run` and `flat-run`.
pub fn start_answer(
    task: Task,
    budget: u32,
    text: &[u8],
    given: bool,
    stored: &[u8],
    header: &mut [i32],
    rows: &mut [i32],
    out: &mut [u8],
) -> usize
    requires roomy { Roomy (form_of task) header.old rows.old }
    requires stored_len_bound { length stored.now ≤ store_limit }
    requires output_room_in_bounds { output_room ≤ length out.old }
    ensures { Put (started_output task budget text.now given stored.now) out.old result out.new }
{
    if given {
        return start_stored(task, budget, text, stored, header, rows, out);
    }
    start_zeros(task, budget, text, header, rows, out)
}
