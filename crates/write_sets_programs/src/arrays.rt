// The arrays of the rows: which arrays the expression at a row can write an element of, found by a pass over the rows from the last to
// the first.
ghost use Rattle.std.specs.Prelude.{◌≡◌, ◌+◌, ◌≤◌, ◌<◌, length, set};
ghost use Rattle.words.specs.Table.{row_count};
ghost use Rattle.language.specs.Decode.{place_of, expression_at};
ghost use Rattle.language_shapes.specs.Source.{Source};
ghost use Rattle.write_sets_programs.specs.ArrayWrites.{writes_array, place_writes_array};
ghost use Rattle.write_sets_programs.specs.Arrays.{ArraysAre, stored_arrays, linked_arrays, LinksHeld, ArraysFrom};

use super::Links;
use super::arguments::argument_arrays;
use super::operands::links_of;
use super::table::linked;
use language_shapes::PlaceShape;
use language_shapes::rows::{expression_at, place_at};
use write_sets::arrays::{array_bit, join_arrays};

// What an update of the place at a row writes.
fn place_arrays(rows: &[i32], arrays: &[u32], row: usize) -> u32
    requires { ArraysFrom rows.now arrays.now (row + 1) × (row < row_count rows.now) }
    ensures { ArraysAre result (place_writes_array (place_of (expression_at rows.now row))) }
{
    let place = place_at(rows, row);
    match place {
        PlaceShape::Variable(_) => 0,
        PlaceShape::Element(array, index) => {
            join_arrays(array_bit(array), linked(arrays, index))
        }
    }
}

// The same by a link.
fn stored(rows: &[i32], arrays: &[u32], row: usize, place: usize) -> u32
    requires { ArraysFrom rows.now arrays.now (row + 1) × (0 < place → (row < place) × (place < row_count rows.now)) }
    ensures { ArraysAre result (stored_arrays rows.now place) }
{
    if place == 0 {
        return 0;
    }
    place_arrays(rows, arrays, place)
}

// What is at the expressions that are linked.
fn operand_arrays(arrays: &[u32], links: Links) -> u32
    requires { LinksHeld arrays.now links }
    ensures { result ≡ linked_arrays arrays.now links }
{
    let later = join_arrays(linked(arrays, links.second), linked(arrays, links.third));
    join_arrays(linked(arrays, links.first), later)
}

// What the expression at a row writes, from what its operands write.
fn arrays_of(rows: &[i32], arrays: &[u32], row: usize) -> u32
    requires { ArraysFrom rows.now arrays.now (row + 1) × (row < row_count rows.now) }
    ensures { ArraysAre result (writes_array (expression_at rows.now row)) }
{
    let shape = expression_at(rows, row);
    let links = links_of(shape);
    let own = stored(rows, arrays, row, links.place);
    let passed = argument_arrays(rows, arrays, links.arguments);
    join_arrays(own, join_arrays(operand_arrays(arrays, links), passed))
}

// Fills the table of arrays, a word a row.
pub fn fill_arrays(rows: &[i32], arrays: &mut [u32])
    requires { Source rows.now × (row_count rows.now ≤ length arrays.old) }
    ensures { ArraysFrom rows.now arrays.new 0 }
{
    for row in (0..rows.len() / 6).rev() {
        arrays[row] = arrays_of(rows, arrays, row);
    }
}
