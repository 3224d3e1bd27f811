// Notes that each row gets from the row that links it: the first row of its list, and its owner.
ghost use Rattle.std.specs.Prelude.{◌≡◌, ◌+◌, ◌*◌, ◌/◌, ◌%◌, ◌<◌, ◌≤◌, length, get_or};
ghost use Rattle.check_structure.specs.Passes.{written, Notes};
ghost use Rattle.check_structure.specs.Structured.{Tree};
ghost use Rattle.check_labels.specs.Passes.{handed, note_at};

use super::LabelNote;
use check_grammar::kinds::KindTable;
use check_structure::row_number::{narrow, wide};

// What a row hands to the row that its field links.
fn hand(
    kinds: &KindTable,
    which: LabelNote,
    rows: &[i32],
    row: usize,
    field: usize,
    own: usize,
) -> usize
    requires { (6 * row + 5 < length rows.now) × (field < 6) }
    ensures { result ≡ handed which rows.now row field own }
{
    if field == 5 {
        return own;
    }
    match which {
        LabelNote::First => kinds.link(rows, row, field),
        LabelNote::Owner => row,
    }
}

// A word that links a row writes that row's note.
fn write_note(kinds: &KindTable, which: LabelNote, rows: &[i32], notes: &mut [u16], word: usize)
    requires { Tree rows.now × (length rows.now / 6 ≤ length notes.old) × (word < length rows.now) }
    ensures { notes.new ≡ written (handed which rows.now) rows.now word notes.old }
{
    let row = word / 6;
    let field = word % 6;
    let linked = kinds.link(rows, row, field);
    if linked != 0 {
        let note = hand(kinds, which, rows, row, field, wide(notes[row]));
        notes[linked] = narrow(note);
    }
}

// The notes of all rows, in one pass: a row's own note is written before those of the rows that it links.
fn write_notes_by(kinds: &KindTable, which: LabelNote, rows: &[i32], notes: &mut [u16])
    requires { Tree rows.now × (length rows.now / 6 ≤ length notes.old) × (get_or notes.old 0 0 ≡ 0) }
    ensures { Notes rows.now (note_at which rows.now) notes.new }
{
    for word in 0..rows.len() {
        write_note(kinds, which, rows, notes, word);
    }
}

// The same, with the table of kinds: it is built here, once, and lent on.
pub fn write_notes(which: LabelNote, rows: &[i32], notes: &mut [u16])
    requires { Tree rows.now × (length rows.now / 6 ≤ length notes.old) × (get_or notes.old 0 0 ≡ 0) }
    ensures { Notes rows.now (note_at which rows.now) notes.new }
{
    let kinds = KindTable::new();
    write_notes_by(&kinds, which, rows, notes);
}
