// Previews a program, and writes what a preview prints at the start of `text`.
ghost use Rattle.std.specs.Prelude.{◌≡◌, true, ◌≤◌, length};
ghost use Rattle.words.specs.Layout.{header_fits, store_words, zeros};
ghost use Rattle.words.specs.declared.Form.TheVariants.{Source};
ghost use Rattle.text_numbers.specs.Writer.{Put};
ghost use Rattle.program_previews.specs.Previews.{preview_result};
ghost use Rattle.command_text.specs.Texts.{most_store, output_room};
ghost use Rattle.command_runs.specs.Tasks.{result_lines};

use clight::previews::preview;
use command_preview_lines::preview_lines;
use words::Form;
use words::layout::{store_size, store_words};

// Previews a program in the lent scratch, and writes the lines.
fn put_previewed(
    header: &[i32],
    rows: &[i32],
    store: &[i32],
    budget: u32,
    scratch: &mut [i32],
    text: &mut [u8],
) -> usize
    requires header_value { header_fits Source header.now ≡ true }
    requires scratch_len_bound { length scratch.old ≤ most_store }
    requires output_room_in_bounds { output_room ≤ length text.old }
    ensures { Put (result_lines header.now (preview_result header.now rows.now budget store.now scratch.old)) text.old result text.new }
{
    let size = store_size(Form::Source, header);
    let verdict = preview(header, rows, store, budget, scratch);
    preview_lines(verdict, size, store, scratch, text)
}

// Previews a program in a scratch of as many words as its store has, and writes the lines.
pub fn put_preview(
    header: &[i32],
    rows: &[i32],
    store: &[i32],
    budget: u32,
    text: &mut [u8],
) -> usize
    requires header_value { header_fits Source header.now ≡ true }
    requires rows_bound { store_words Source header.now rows.now ≤ most_store }
    requires output_room_in_bounds { output_room ≤ length text.old }
    ensures { Put (result_lines header.now (preview_result header.now rows.now budget store.now (zeros (store_words Source header.now rows.now)))) text.old result text.new }
{
    let words = store_words(Form::Source, header, rows);
    let mut scratch = [0i32; 16448];
    put_previewed(header, rows, store, budget, &mut scratch[0..words], text)
}
