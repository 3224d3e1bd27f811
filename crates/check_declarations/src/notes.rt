// The notes of each row that the causes look up.
ghost use Rattle.std.specs.Prelude.{◌≡◌, ◌/◌, ◌≤◌, length, get_or};
ghost use Rattle.check_structure.specs.Structured.{Tree};
ghost use Rattle.check_structure.specs.Passes.{Notes};
ghost use Rattle.words.specs.Declarations.{is_declaration};
ghost use Rattle.check_items.specs.Items.{item_at, earlier_at};
ghost use Rattle.check_parameter_causes.specs.Parameters.{body_at};

use check_grammar::kinds::KindTable;
use check_notes::{Note, write_notes};

// 1 for an item of a block's list.
pub fn write_block_items(kinds: &KindTable, rows: &[i32], notes: &mut [u16])
    requires { Tree rows.now × (length rows.now / 6 ≤ length notes.old) × (get_or notes.old 0 0 ≡ 0) }
    ensures { Notes rows.now (item_at rows.now 42 1) notes.new }
{
    write_notes(Note::ItemOf(42, 1), kinds, rows, notes);
}

// The nearest declaration before the row in its own list, or 0.
pub fn write_earlier(kinds: &KindTable, rows: &[i32], notes: &mut [u16])
    requires { Tree rows.now × (length rows.now / 6 ≤ length notes.old) × (get_or notes.old 0 0 ≡ 0) }
    ensures { Notes rows.now (earlier_at (is_declaration rows.now) rows.now) notes.new }
{
    write_notes(Note::Before(58, 58), kinds, rows, notes);
}

// The definition of the function whose block the row is, or in whose block's own list it stands, or 0.
pub fn write_bodies(kinds: &KindTable, rows: &[i32], notes: &mut [u16])
    requires { Tree rows.now × (length rows.now / 6 ≤ length notes.old) × (get_or notes.old 0 0 ≡ 0) }
    ensures { Notes rows.now (body_at rows.now) notes.new }
{
    write_notes(Note::BodyOf(59), kinds, rows, notes);
}
