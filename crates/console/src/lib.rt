// Console: what the programs use of the system, by bytes: standard input and output, arguments and files. Which bytes are read is the
// system's to say; that they stay within the buffer is in the contracts.
#![tactic(auto)]

ghost use Rattle.std.specs.Prelude.{◌≤◌, IfOk, length};

use std::env::{Env, FillError};
use std::io::Read;
use std::rt::Files;
use std::{fs, io};

// Reads until the buffer is full or the input ends, and answers how many bytes it put at the start of the buffer.
pub fn fill<R: Read>(input: &mut R, buffer: &mut [u8]) -> io::Result<usize>
    ensures { IfOk result (λ n. n ≤ length buffer.new) }
{
    let mut filled: usize = 0;
    // A while: the step is as many bytes as the system gave.
    while filled < buffer.len() {
        let bytes = input.read(&mut buffer[filled..])?;
        if bytes == 0 {
            break;
        }
        filled += bytes;
    }
    Ok(filled)
}

// The same of standard input.
pub fn read_full<R: Input>(rt: &R, buffer: &mut [u8]) -> io::Result<usize>
    ensures { IfOk result (λ n. n ≤ length buffer.new) }
{
    let mut input = rt.reader();
    fill(&mut input, buffer)
}

// Opens the file of this path for reading. A path that is no text names no file.
pub fn open<R: Files>(rt: &R, path: &[u8]) -> io::Result<R::File> {
    match str::from_utf8(path) {
        Ok(text) => fs::open(rt, text),
        Err(_) => Err(io::Error::from(io::ErrorKind::InvalidInput)),
    }
}

// Puts an argument at the start of the buffer, and answers how many bytes it has: none, where there is no such argument, or it is longer
// than the buffer. The first is the program's name.
pub fn argument<R: Env>(rt: &R, number: usize, buffer: &mut [u8]) -> usize
    ensures { result ≤ length buffer.new }
{
    rt.arg(number, buffer).unwrap_or(0)
}

// How many arguments there are, the program's name among them.
pub fn argument_count<R: Env>(rt: &R) -> usize {
    let mut buffer = [0u8; 1];
    for i in 0..usize::MAX {
        if let Err(FillError::NotPresent) = rt.arg(i, &mut buffer) {
            return i;
        }
    }
    usize::MAX
}

// Writes all of the bytes to standard output.
pub fn write_all<R: Print>(rt: &R, bytes: &[u8]) -> io::Result<()> {
    rt.write_all(bytes)
}

// Writes a number to standard output, in decimal digits.
pub fn print_decimal<R: Print>(rt: &R, number: u64) -> io::Result<()> {
    rt.print(number)
}
