// Runs the cases of standard input: generated programs, damaged ones and document 01's rules, as interpreter/README.md describes them.
//
// For each case it prints the refusal of its program, or the line of the source run and, where that is not spent, the line of its
// translation's run. The file `stdout` holds what the interpreter built apart answers. A line that the interpreter never prints says
// that something else went wrong: `unread`, `untranslated`, `illegal`, `kernel-refused`, `unwritten`, `unequal`.
#![tactic(auto)]

mod kernel; // kernel.rt: the translation of a case's program: its form, its text and its run
mod source; // source.rt: a case's program: read, checked and run
mod stream; // stream.rt: where the cases stand in the input

ghost use Rattle.std.specs.Prelude.{◌≡◌, ◌≤◌, IfOk, length};

use self::source::answer_text;
use self::stream::{find_case, keep_rest};
use console::{read_full, write_all};
use std::io;

// Answers the case at the start of the input, and tells how many bytes it took: none where no whole case stands there.
fn answer_case(
    rt: &impl Print,
    input: &[u8],
    kernel_rows: &mut [i32],
    text: &mut [u8],
    read_rows: &mut [i32],
) -> io::Result<usize>
    ensures { IfOk result (λ used. used ≤ length input.now) }
{
    let found = find_case(input);
    let Some(case) = found else {
        return Ok(0);
    };
    let words = case.words;
    let line = case.line;
    let end = case.end;
    answer_text(
        rt,
        case.budget,
        &input[words..line],
        &input[line + 1..end],
        kernel_rows,
        text,
        read_rows,
    )?;
    Ok(end)
}

// Answers the whole cases of the input, and tells how many bytes they took.
fn answer_cases(
    rt: &impl Print,
    input: &[u8],
    kernel_rows: &mut [i32],
    text: &mut [u8],
    read_rows: &mut [i32],
) -> io::Result<usize>
    ensures { IfOk result (λ used. used ≤ length input.now) }
{
    let mut at: usize = 0;
    // Kept as a while: the step is the length of what was read.
    while at < input.len() {
        let used = answer_case(rt, &input[at..], kernel_rows, text, read_rows)?;
        if used == 0 {
            return Ok(at);
        }
        at += used;
    }
    Ok(at)
}

// Answers the whole cases of the buffer's first `filled` bytes, and reads on behind what is left of them. Tells how many bytes the
// buffer then holds: none at the end.
fn answer_buffer(
    rt: &(impl Input + Print),
    buffer: &mut [u8],
    filled: usize,
    kernel_rows: &mut [i32],
    text: &mut [u8],
    read_rows: &mut [i32],
) -> io::Result<usize>
    requires { filled ≤ length buffer.old }
    ensures { IfOk result (λ kept. kept ≤ length buffer.old) }
{
    let used = answer_cases(rt, &buffer[..filled], kernel_rows, text, read_rows)?;
    if used == 0 {
        write_all(rt, b"unread\n")?;
        return Ok(0);
    }
    keep_rest(buffer, used, filled);
    let kept = filled - used;
    Ok(kept + read_full(rt, &mut buffer[kept..])?)
}

// Answers all cases of the input. Nothing says that the input ends, so the loop has a number of turns that no run uses up.
fn answer_input(
    rt: &(impl Input + Print),
    buffer: &mut [u8],
    kernel_rows: &mut [i32],
    text: &mut [u8],
    read_rows: &mut [i32],
) -> io::Result<()> {
    let mut filled = read_full(rt, buffer)?;
    for _turn in 0..u64::MAX {
        if filled == 0 {
            return Ok(());
        }
        filled = answer_buffer(rt, buffer, filled, kernel_rows, text, read_rows)?;
    }
    Ok(())
}

// Room for the cases that are read at once.
fn input_buffer() -> [u8; 1048576]
    ensures { 1048576 ≡ length result }
{
    [0; 1048576]
}

// Room for the text of a kernel table.
fn text_buffer() -> [u8; 2097152]
    ensures { 2097152 ≡ length result }
{
    [0; 2097152]
}

// The largest kernel table has 40,980 rows.
fn main(rt: HostRuntime) -> io::Result<()> {
    let mut buffer = input_buffer();
    let mut kernel_rows = [0i32; 245880];
    let mut text = text_buffer();
    let mut read_rows = [0i32; 245880];
    answer_input(
        &rt,
        &mut buffer,
        &mut kernel_rows,
        &mut text,
        &mut read_rows,
    )
}
