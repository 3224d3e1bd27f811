// Answers the requests of standard input one after the other, as the command answers each, and prints the case up to its text, then the answer.
//
// A case is a line of arguments, parted by single blanks; the bytes of a store file, up to a %; and from the next line on the text, up to
// a #. What stands behind the % or the # on its line is passed over.
#![tactic(auto)]

mod arguments; // arguments.rt: the words of a line of arguments
mod stream; // stream.rt: where the parts of a case stand

ghost use Rattle.std.specs.Prelude.{◌≤◌, ◌<◌, IfOk, length};
ghost use Rattle.words.specs.declared.Form.TheVariants.{Kernel};
ghost use Rattle.command_request.specs.Inputs.{bytes_read};
ghost use Rattle.command_text.specs.Texts.{Roomy, output_room};

use self::arguments::{argument_count, first_end, second_end, second_start};
use self::stream::{behind, find};
use command_answer::answer::inputs_answer;
use command_program::buffers::{header_table, output_buffer, row_table};
use command_request::Input;
use command_request::request::{Request, reads_store, reads_text, request_of};
use console::{read_full, write_all};
use std::io;

// What is read where something is wanted: all of the bytes.
fn input_of(wanted: bool, bytes: &[u8]) -> Input
    ensures { bytes_read result ≤ length bytes.now }
{
    if wanted {
        return Input::Bytes(bytes.len());
    }
    Input::Absent
}

fn answer_request(
    rt: &impl Print,
    request: Request,
    stored: &[u8],
    text: &[u8],
    header: &mut [i32],
    rows: &mut [i32],
    out: &mut [u8],
) -> io::Result<()>
    requires roomy { Roomy Kernel header.old rows.old }
    requires output_room_in_bounds { output_room ≤ length out.old }
{
    let text_input = input_of(reads_text(request), text);
    let store_input = input_of(reads_store(request), stored);
    let bytes = inputs_answer(
        request,
        text_input,
        text,
        store_input,
        stored,
        header,
        rows,
        out,
    );
    write_all(rt, &out[..bytes])
}

fn request_from(line: &[u8]) -> Request {
    let first = first_end(line);
    let start = second_start(line);
    let end = second_end(line, start);
    request_of(argument_count(line), &line[..first], &line[start..end])
}

// Answers the case at `start`, and tells where the next one begins.
fn answer_case(
    rt: &impl Print,
    input: &[u8],
    start: usize,
    header: &mut [i32],
    rows: &mut [i32],
    out: &mut [u8],
) -> io::Result<usize>
    requires start_in_bounds { start < length input.now }
    requires roomy { Roomy Kernel header.old rows.old }
    requires output_room_in_bounds { output_room ≤ length out.old }
    ensures { IfOk result (λ next. (start < next) × (next ≤ length input.now)) }
{
    let line = find(input, start, b'\n');
    let store = behind(input, start, b'\n');
    let store_end = find(input, store, b'%');
    let text = behind(input, store_end, b'\n');
    let text_end = find(input, text, b'#');
    write_all(rt, &input[start..text])?;
    answer_request(
        rt,
        request_from(&input[start..line]),
        &input[store..store_end],
        &input[text..text_end],
        header,
        rows,
        out,
    )?;
    Ok(behind(input, text_end, b'\n'))
}

fn answer_cases(
    rt: &impl Print,
    input: &[u8],
    header: &mut [i32],
    rows: &mut [i32],
    out: &mut [u8],
) -> io::Result<()>
    requires roomy { Roomy Kernel header.old rows.old }
    requires output_room_in_bounds { output_room ≤ length out.old }
{
    let mut at: usize = 0;
    // Kept as a while: the step is the length of what was read.
    while at < input.len() {
        at = answer_case(rt, input, at, header, rows, out)?;
    }
    Ok(())
}

fn main(rt: HostRuntime) -> io::Result<()> {
    let mut input = [0u8; 262144];
    let filled = read_full(&rt, &mut input)?;
    let mut header = header_table();
    let mut rows = row_table();
    let mut out = output_buffer();
    answer_cases(&rt, &input[..filled], &mut header, &mut rows, &mut out)
}
