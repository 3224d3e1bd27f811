// What a program or its run came to, printed as the lines of crate `text_report`. A store has at most 8,256 words, so that its line has
// room.
ghost use Rattle.std.specs.Prelude.{◌≤◌, length};

use console::write_all;
use std::io;
use text_report::line::{kernel_line, refused_line, source_line};
use words::{Ending, Refusal};

pub fn print_refusal(rt: &impl Print, refusal: Refusal) -> io::Result<()> {
    let mut line = [0u8; 64];
    let n = refused_line(refusal, &mut line);
    write_all(rt, &line[..n])
}

pub fn print_source_run(
    rt: &impl Print,
    ending: Ending,
    count: u32,
    store: &[i32],
    written: u32,
) -> io::Result<()>
    requires { length store.now ≤ 8256 }
{
    let mut line = [0u8; 99120];
    let n = source_line(ending, count, store, written, &mut line);
    write_all(rt, &line[..n])
}

pub fn print_kernel_run(rt: &impl Print, ending: Ending, store: &[i32]) -> io::Result<()>
    requires { length store.now ≤ 8256 }
{
    let mut line = [0u8; 99120];
    let n = kernel_line(ending, store, &mut line);
    write_all(rt, &line[..n])
}
