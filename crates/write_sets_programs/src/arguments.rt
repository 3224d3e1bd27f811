// Which arrays the arguments of a call can write an element of.
ghost use Rattle.std.specs.Prelude.{◌+◌, ◌<◌};
ghost use Rattle.words.specs.Table.{row_count};
ghost use Rattle.language.specs.Decode.{argument_list_at};
ghost use Rattle.write_sets_programs.specs.ArrayWrites.{arguments_write_array};
ghost use Rattle.write_sets_programs.specs.Arrays.{ArraysAre, ArraysFrom};

use super::table::linked;
use language_shapes::rows::argument_at;
use words::table::number_at;
use write_sets::arrays::join_arrays;

// The arguments from a link on; they are at most 64.
pub fn argument_arrays(rows: &[i32], arrays: &[u32], link: usize) -> u32
    requires { 0 < link → ArraysFrom rows.now arrays.now (link + 1) × (link < row_count rows.now) }
    ensures { ArraysAre result (arguments_write_array (argument_list_at rows.now link)) }
{
    if link == 0 {
        return 0;
    }
    let next = number_at(rows, link, 5);
    let shape = argument_at(rows, link);
    match shape {
        Some(e) => { join_arrays(linked(arrays, e), argument_arrays(&*rows, &*arrays, next)) }
        None => 0,
    }
}
