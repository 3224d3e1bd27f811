// What `flatten` prints. A writer puts its bytes at the start of `out`, and answers how many they are.
ghost use Rattle.std.specs.Prelude.{◌≡◌, ◌≤◌, length};
ghost use Rattle.text_numbers.specs.Writer.{Put};
ghost use Rattle.command_text.specs.Texts.{output_room};
ghost use Rattle.command_flat.specs.Flattenings.{flatten_room, list_text};

use clight::flat_lists::flatten;
use command_text::put_table;
use text_report::line::refused_line;

// Flattens a program into the lent table, and writes the text of its list: a word takes at most twelve bytes, so that it has room.
fn put_list(header: &[i32], rows: &[i32], list: &mut [i32], out: &mut [u8]) -> usize
    requires list_len { length list.old ≡ flatten_room }
    requires output_room_in_bounds { output_room ≤ length out.old }
    ensures { Put (list_text header.now rows.now) out.old result out.new }
{
    let answer = flatten(header, rows, list);
    match answer {
        Err(refusal) => refused_line(refusal, out),
        Ok(words) => put_table(5, words / 5, header, &list[0..words], out),
    }
}

// The same in a table of its own.
pub fn put_flattened(header: &[i32], rows: &[i32], out: &mut [u8]) -> usize
    requires { output_room ≤ length out.old }
    ensures { Put (list_text header.now rows.now) out.old result out.new }
{
    let mut list = [0i32; 122880];
    put_list(header, rows, &mut list, out)
}
