// Notes along the links: what a row hands to each row that it links, and a pass over the words that writes the notes of all rows.
#![tactic(auto)]

ghost use Rattle.std.specs.Prelude.{◌≡◌, ◌&&◌, ◌+◌, ◌*◌, ◌/◌, ◌<◌, ◌≤◌, eqb, length, get_or};
ghost use Rattle.words.specs.Word.{pick};
ghost use Rattle.words.specs.Table.{number_at};
ghost use Rattle.words.specs.Links.{target};
ghost use Rattle.check_structure.specs.Structured.{Tree};
ghost use Rattle.check_structure.specs.Passes.{written, Notes};
ghost use Rattle.check_notes.specs.RowNotes.{handed, note_at};
ghost use Rattle.check_notes.specs.declared.Note.TheVariants.{Inside, Before};

use check_grammar::between;
use check_grammar::kinds::KindTable;
use check_items::{hand_earlier, hand_item};
use check_structure::row_number::{narrow, wide};
use words::table::number_at;

// What is noted of each row.
#[derive(Clone, Copy)]
pub enum Note {
    // 1 inside a row of the kinds from the first to the last
    Inside(usize, usize),
    // the innermost row of this kind that the row stands inside, or 0
    Around(usize),
    // 1 for an item of the list that this field of a row of this kind begins
    ItemOf(usize, usize),
    // the nearest row of the kinds from the first to the last before the row in its own list, or 0
    Before(usize, usize),
    // the nearest row of this kind that the row stands behind, in its own list or in one around it, or 0
    Behind(usize),
    // the row of this kind whose field c is the row, or the block in whose own list the row stands, or 0
    BodyOf(usize),
}

// Inside a row: as its part, or where the row stands inside already. `mark` is the note of what stands inside.
fn inside(around: bool, mark: u16, field: usize, own: u16) -> u16
    ensures { result ≡ pick (eqb field 5) own (pick around mark own) }
{
    if field == 5 {
        return own;
    }
    if around {
        return mark;
    }
    own
}

// Behind a row: its next item. `passed` says whether the owner is of the kind.
fn behind(passed: bool, owner: usize, field: usize, own: u16) -> u16
    requires { owner < 65536 }
    ensures { result ≡ pick (eqb field 5 && passed) owner own }
{
    if field == 5 {
        if passed {
            return narrow(owner);
        }
        return own;
    }
    own
}

// From a block to its first item where the block is a body, from an item to the next.
fn body_item(block: bool, field: usize, own: u16) -> u16
    ensures { result ≡ pick block (pick (eqb field 1) own 0) (pick (eqb field 5) own 0) }
{
    if block {
        if field == 1 {
            return own;
        }
        return 0;
    }
    if field == 5 {
        return own;
    }
    0
}

// Field c of a row; 0 beyond the table.
fn third(rows: &[i32], row: usize) -> usize
    requires { row < 65536 }
    ensures { result ≡ number_at rows.now row 3 }
{
    if 6 * row + 3 < rows.len() {
        return number_at(rows, row, 3);
    }
    0
}

// The owner of a body; `owning` says whether it is of the kind.
fn body(owning: bool, rows: &[i32], owner: usize, field: usize, own: u16) -> u16
    requires { owner < 65536 }
    ensures { result ≡ pick (owning && eqb field 3) owner (pick (eqb (number_at rows.now own 3) owner) (pick (eqb field 1) own 0) (pick (eqb field 5) own 0)) }
{
    let item = body_item(third(rows, wide(own)) == owner, field, own);
    if owning {
        if field == 3 {
            return narrow(owner);
        }
        return item;
    }
    item
}

// What stands inside a row of the kinds from the first to the last.
pub fn hand_inside(
    first: usize,
    last: usize,
    rows: &[i32],
    owner: usize,
    field: usize,
    own: u16,
) -> u16
    requires { 6 * owner + 5 < length rows.now }
    ensures { result ≡ handed (Inside first last) rows.now owner field own }
{
    inside(
        between(first, last, number_at(rows, owner, 0)),
        1,
        field,
        own,
    )
}

// The nearest row of the kinds from the first to the last before the next item.
pub fn hand_before(
    first: usize,
    last: usize,
    rows: &[i32],
    owner: usize,
    field: usize,
    own: u16,
) -> u16
    requires { (6 * owner + 5 < length rows.now) × (owner < 65536) }
    ensures { result ≡ handed (Before first last) rows.now owner field own }
{
    hand_earlier(
        between(first, last, number_at(rows, owner, 0)),
        owner,
        field,
        own,
    )
}

// What a row hands to the row that its field links.
fn hand(which: Note, rows: &[i32], owner: usize, field: usize, own: u16) -> u16
    requires { (6 * owner + 5 < length rows.now) × (owner < 65536) }
    ensures { result ≡ handed which rows.now owner field own }
{
    match which {
        Note::Inside(first, last) => hand_inside(first, last, rows, owner, field, own),
        Note::Around(kind) => inside(number_at(rows, owner, 0) == kind, narrow(owner), field, own),
        Note::ItemOf(kind, part) => hand_item(rows, kind, part, owner, field, own),
        Note::Before(first, last) => hand_before(first, last, rows, owner, field, own),
        Note::Behind(kind) => behind(number_at(rows, owner, 0) == kind, owner, field, own),
        Note::BodyOf(kind) => body(number_at(rows, owner, 0) == kind, rows, owner, field, own),
    }
}

// A word that links a row writes that row's note.
pub fn write_note(which: Note, rows: &[i32], notes: &mut [u16], word: usize, linked: usize)
    requires { Tree rows.now × (length rows.now / 6 ≤ length notes.old) × (word < length rows.now) × (linked ≡ target rows.now word) }
    ensures { notes.new ≡ written (handed which rows.now) rows.now word notes.old }
{
    if linked != 0 {
        let row = word / 6;
        let note = hand(which, rows, row, word % 6, notes[row]);
        notes[linked] = note;
    }
}

// The notes of all rows, in one pass: a row's own note is written before those of the rows that it links.
pub fn write_notes(which: Note, kinds: &KindTable, rows: &[i32], notes: &mut [u16])
    requires { Tree rows.now × (length rows.now / 6 ≤ length notes.old) × (get_or notes.old 0 0 ≡ 0) }
    ensures { Notes rows.now (note_at which rows.now) notes.new }
{
    for word in 0..rows.len() {
        let linked = kinds.link(rows, word / 6, word % 6);
        write_note(which, rows, notes, word, linked);
    }
}
