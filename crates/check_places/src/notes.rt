// The notes of each row that a pass along the links writes for causes 7 and 8.
ghost use Rattle.std.specs.Prelude.{◌≡◌, ◌<◌, length};
ghost use Rattle.words.specs.Links.{target};
ghost use Rattle.check_structure.specs.Structured.{Tree};
ghost use Rattle.check_structure.specs.Passes.{written};
ghost use Rattle.check_notes.specs.RowNotes.{handed};
ghost use Rattle.check_places.specs.Passes.{NoteRoom, NoNotes, AllNotes};
ghost use Rattle.check_places.specs.Places.{in_loop, in_loop_or_switch, switch_item, mark_before};

use check_grammar::kinds::KindTable;
use check_items::hand_item;
use check_notes::{hand_before, hand_inside};

// The four notes of the row that a word links. Most words link none: they cost one test, not four.
fn write_linked(
    rows: &[i32],
    loops: &mut [u16],
    breakable: &mut [u16],
    items: &mut [u16],
    before: &mut [u16],
    word: usize,
    linked: usize,
)
    requires tree { Tree rows.now × (word < length rows.now) × (linked ≡ target rows.now word) }
    requires note_room { NoteRoom rows.now loops.old × NoteRoom rows.now breakable.old × NoteRoom rows.now items.old × NoteRoom rows.now before.old }
    ensures loops_after { loops.new ≡ written (handed in_loop rows.now) rows.now word loops.old }
    ensures breakable_after { breakable.new ≡ written (handed in_loop_or_switch rows.now) rows.now word breakable.old }
    ensures after { items.new ≡ written (handed switch_item rows.now) rows.now word items.old }
    ensures before_after { before.new ≡ written (handed mark_before rows.now) rows.now word before.old }
{
    if linked != 0 {
        let row = word / 6;
        let field = word % 6;
        let looped = hand_inside(44, 46, rows, row, field, loops[row]);
        loops[linked] = looped;
        let broken = hand_inside(44, 47, rows, row, field, breakable[row]);
        breakable[linked] = broken;
        let item = hand_item(rows, 47, 2, row, field, items[row]);
        items[linked] = item;
        let marked = hand_before(48, 49, rows, row, field, before[row]);
        before[linked] = marked;
    }
}

// All notes of all rows, in one pass: a row's own notes are written before those of the rows that it links.
pub fn write_notes(
    kinds: &KindTable,
    rows: &[i32],
    loops: &mut [u16],
    breakable: &mut [u16],
    items: &mut [u16],
    before: &mut [u16],
)
    requires { Tree rows.now × NoNotes rows.now loops.old × NoNotes rows.now breakable.old × NoNotes rows.now items.old × NoNotes rows.now before.old }
    ensures { AllNotes rows.now loops.new breakable.new items.new before.new }
{
    for word in 0..rows.len() {
        let linked = kinds.link(rows, word / 6, word % 6);
        write_linked(rows, loops, breakable, items, before, word, linked);
    }
}
