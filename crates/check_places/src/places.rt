// Cause 7: break, continue, case or default out of place.
ghost use Rattle.std.specs.Prelude.{◌≡◌, ℕ, ◌/◌, ◌≤◌, length, get_or};
ghost use Rattle.words.specs.Table.{number_at};
ghost use Rattle.words.specs.Search.{lowest_row};
ghost use Rattle.check_structure.specs.Passes.{Notes};
ghost use Rattle.check_notes.specs.RowNotes.{note_at};
ghost use Rattle.check_places.specs.Places.{in_loop, in_loop_or_switch, switch_item, out_of_place, misplaced};

use check_grammar::between;
use check_grammar::search::lowest_row;
use words::table::number_at;

// A row of this kind, with its notes.
fn is_out_of_place(kind: usize, looped: u16, breakable: u16, item: u16) -> bool
    ensures { result ≡ out_of_place kind looped breakable item }
{
    if kind == 50 {
        return breakable == 0;
    }
    if kind == 51 {
        return looped == 0;
    }
    if between(48, 49, kind) {
        return item == 0;
    }
    false
}

// The lowest row out of place, with the notes of all rows.
fn lowest_out_of_place(
    rows: &[i32],
    loops: &[u16],
    breakable: &[u16],
    items: &[u16],
) -> Option<usize>
    requires { (length rows.now / 6 ≤ length loops.now) × (length rows.now / 6 ≤ length breakable.now) × (length rows.now / 6 ≤ length items.now) }
    ensures { result ≡ lowest_row rows.now (λ (row : ℕ). out_of_place (number_at rows.now row 0) (get_or loops.now row 0) (get_or breakable.now row 0) (get_or items.now row 0)) }
{
    lowest_row(rows, |row| {
        is_out_of_place(
            number_at(rows, row, 0),
            loops[row],
            breakable[row],
            items[row],
        )
    })
}

// Cause 7: the same in the definition's words.
pub fn lowest_misplaced(
    rows: &[i32],
    loops: &[u16],
    breakable: &[u16],
    items: &[u16],
) -> Option<usize>
    requires { Notes rows.now (note_at in_loop rows.now) loops.now × Notes rows.now (note_at in_loop_or_switch rows.now) breakable.now × Notes rows.now (note_at switch_item rows.now) items.now }
    ensures { result ≡ lowest_row rows.now (misplaced rows.now) }
{
    lowest_out_of_place(rows, loops, breakable, items)
}
