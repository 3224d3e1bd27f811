// The command: reads the arguments, standard input and the file that is named, has `command_answer` put the bytes together, and writes them to
// standard output. What is read and written is the system's to say; all that this crate makes of it is in the contracts.
#![tactic(auto)]

pub mod buffers; // buffers.rt: the tables and buffers that a request is answered in

ghost use Rattle.std.specs.Prelude.{◌≡◌, ◌-◌, ◌≤◌, IfOk, length};
ghost use Rattle.words.specs.declared.Form.TheVariants.{Kernel};
ghost use Rattle.command_text.specs.Texts.{Roomy, output_room};
ghost use Rattle.command_program.specs.Responses.{Responds, Answered};

use self::buffers::{header_table, output_buffer, row_table, store_buffer, text_buffer};
use command_answer::answer::inputs_answer;
use command_files::{read_file, read_text};
use command_request::Input;
use command_request::request::{Request, file_argument, reads_store, request_of};
use console::{argument, argument_count, write_all};
use std::io;
use std::rt::{Env, Files};

// What was read for a request, and how many bytes are printed for it.
#[derive(Clone, Copy)]
pub struct Response {
    pub text: Input,
    pub store: Input,
    pub bytes: usize,
}

// Reads what the request is about, and puts its answer at the start of `out`. The tables are lent to work in; what stands in them after
// it is free.
fn respond_in(
    rt: &(impl io::Input + Env + Files),
    request: Request,
    text: &mut [u8],
    stored: &mut [u8],
    header: &mut [i32],
    rows: &mut [i32],
    out: &mut [u8],
) -> Response
    requires roomy { Roomy Kernel header.old rows.old }
    requires output_room_in_bounds { output_room ≤ length out.old }
    ensures { Responds request result text.new stored.new out.old out.new }
{
    let text_input = read_text(rt, request, text);
    let store_input = read_file(rt, reads_store(request), file_argument(request), stored);
    let bytes = inputs_answer(
        request,
        text_input,
        text,
        store_input,
        stored,
        header,
        rows,
        out,
    );
    Response {
        text: text_input,
        store: store_input,
        bytes: bytes,
    }
}

// Answers a request: everything that was put at the start of `out` is printed.
fn respond(rt: &(impl io::Input + Env + Files + Print), request: Request) -> io::Result<Response>
    ensures { IfOk result (λ response. Answered request response) }
{
    let mut text = text_buffer();
    let mut stored = store_buffer();
    let mut header = header_table();
    let mut rows = row_table();
    let mut out = output_buffer();
    let response = respond_in(
        rt,
        request,
        &mut text,
        &mut stored,
        &mut header,
        &mut rows,
        &mut out,
    );
    let bytes = response.bytes;
    write_all(rt, &out[..bytes])?;
    Ok(response)
}

// How many of a program's arguments stand behind its name.
fn behind_name(count: usize) -> usize
    ensures { result ≡ count - 1 }
{
    if count == 0 {
        return 0;
    }
    count - 1
}

// The whole command.
pub fn run_command(rt: &(impl io::Input + Env + Files + Print)) -> io::Result<()> {
    let mut first = [0u8; 4096];
    let first_bytes = argument(rt, 1, &mut first);
    let mut second = [0u8; 4096];
    let second_bytes = argument(rt, 2, &mut second);
    let count = behind_name(argument_count(rt));
    respond(
        rt,
        request_of(count, &first[..first_bytes], &second[..second_bytes]),
    )?;
    Ok(())
}
