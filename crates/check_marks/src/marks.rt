// Cause 8: a second equal case, or a second default, in one switch. Each mark knows the mark before it in its list.
ghost use Rattle.std.specs.Prelude.{◌≡◌, ◌/◌, ◌≤◌, length};
ghost use Rattle.words.specs.Search.{lowest_row};
ghost use Rattle.check_structure.specs.Structured.{Tree};
ghost use Rattle.check_structure.specs.Passes.{Notes};
ghost use Rattle.check_notes.specs.RowNotes.{note_at};
ghost use Rattle.check_places.specs.Places.{mark_before};
ghost use Rattle.check_marks.specs.Marks.{repeated};
ghost use Rattle.check_marks.specs.MarkTree.{Roots, HoldsMarks};

use super::mark_tree::{take_in, write_roots};

// The lowest repeated mark: the first row that is not taken in. The trees hold no mark yet.
fn lowest_repeated_row(rows: &[i32], roots: &[u16], children: &mut [u16]) -> Option<usize>
    requires { Tree rows.now × Roots rows.now (length rows.now / 6) roots.now × HoldsMarks rows.now roots.now 0 children.old }
    ensures { result ≡ lowest_row rows.now (repeated rows.now) }
{
    for row in 0..rows.len() / 6 {
        if !take_in(rows, roots, children, row) {
            return Some(row);
        }
    }
    None
}

// The lowest repeated mark, with the mark before each row.
pub fn lowest_repeated(rows: &[i32], before: &[u16]) -> Option<usize>
    requires { Tree rows.now × (length rows.now / 6 ≤ 2048) × Notes rows.now (note_at mark_before rows.now) before.now }
    ensures { result ≡ lowest_row rows.now (repeated rows.now) }
{
    let mut roots = [0u16; 2048];
    let mut children = [0u16; 4096];
    write_roots(rows, before, &mut roots);
    lowest_repeated_row(rows, &roots, &mut children)
}
