// What the command reads: standard input, and the file that an argument names. What a file holds is the system's to say; that it is read exactly where it is
// wanted, and within the buffer, is in the contracts.
#![tactic(auto)]

ghost use Rattle.std.specs.Prelude.{true, length};
ghost use Rattle.std.specs.Result.{is_ok};
ghost use Rattle.command_request.specs.Requests.{reads_text};
ghost use Rattle.command_request.specs.Inputs.{Fetched};
ghost use Rattle.command_files.specs.Files.{Opened};

use command_request::Input;
use command_request::request::{Request, reads_text};
use console::{argument, fill, open};
use std::io;
use std::io::Read;
use std::rt::{Env, Files};

// Reads to the end of the file, or until `buffer` is full.
fn read_all<F: Read>(file: &mut F, buffer: &mut [u8]) -> Input
    ensures { Fetched true result (length buffer.old) }
{
    match fill(file, buffer) {
        Ok(bytes) => Input::Bytes(bytes),
        Err(_) => Input::Unreadable,
    }
}

// Reads a file that was opened, and closes it. One that could not be opened is unreadable.
fn read_opened<F: Read + Drop>(opened: io::Result<F>, buffer: &mut [u8]) -> Input
    ensures { Opened (is_ok opened) result (length buffer.old) }
{
    match opened {
        Ok(file) => {
            let mut file = file;
            read_all(&mut file, buffer)
        }
        Err(_) => Input::Unreadable,
    }
}

// Reads standard input, where the request is about a text.
pub fn read_text(rt: &impl io::Input, request: Request, buffer: &mut [u8]) -> Input
    ensures { Fetched (reads_text request) result (length buffer.old) }
{
    if !reads_text(request) {
        return Input::Absent;
    }
    let mut input = rt.reader();
    read_all(&mut input, buffer)
}

// Reads the file that an argument names, where one is wanted.
pub fn read_file(rt: &(impl Env + Files), wanted: bool, number: usize, buffer: &mut [u8]) -> Input
    ensures { Fetched wanted result (length buffer.old) }
{
    if !wanted {
        return Input::Absent;
    }
    let mut path = [0u8; 4096];
    let length = argument(rt, number, &mut path);
    read_opened(open(rt, &path[..length]), buffer)
}
