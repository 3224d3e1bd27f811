// What the command prints for the text of a flat list. A writer puts its bytes at the start of `out`, and answers how many they are.
#![tactic(auto)]

pub mod flattenings; // flattenings.rt: what `flatten` prints

ghost use Rattle.std.specs.Prelude.{◌≡◌, ◌≤◌, length};
ghost use Rattle.words.specs.declared.Form.TheVariants.{Kernel};
ghost use Rattle.text_numbers.specs.Writer.{Put};
ghost use Rattle.text_report.specs.Lines.{line_room};
ghost use Rattle.command_text.specs.Texts.{Roomy, output_room};
ghost use Rattle.command_text.specs.Read.{ReadFor};
ghost use Rattle.command_flat.specs.Lists.{list_room, list_output, list_check_line, list_run_line};

use clight::flat_lists::{flat_check, flat_run};
use command_lines::{run_line, verdict_line};
use words::Refusal;

fn list_room() -> usize
    ensures { result ≡ list_room }
{
    245880
}

// Reads a list into the first words of the table.
pub fn read_list(
    text: &[u8],
    header: &mut [i32],
    list: &mut [i32],
) -> Result<(usize, usize), Refusal>
    requires { Roomy Kernel header.old list.old }
    ensures { ReadFor (list_output text.now) Kernel result header.new list.new }
{
    let room = list_room();
    flat_text::read(text, header, &mut list[0..room])
}

// Checks a list, and writes the line.
pub fn put_list_check(header: &[i32], list: &[i32], out: &mut [u8]) -> usize
    requires { output_room ≤ length out.old }
    ensures { Put (list_check_line header.now list.now) out.old result out.new }
{
    let verdict = flat_check(header, list);
    verdict_line(verdict, out)
}

// Runs a list on the store, and writes the line.
pub fn put_list_run(
    header: &[i32],
    list: &[i32],
    store: &mut [i32],
    budget: u32,
    out: &mut [u8],
) -> usize
    requires { line_room (length store.old) ≤ length out.old }
    ensures { Put (list_run_line budget store.old header.now list.now) out.old result out.new }
{
    let verdict = flat_run(header, list, store, budget);
    run_line(verdict, store, out)
}
