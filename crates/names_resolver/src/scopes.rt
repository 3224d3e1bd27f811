// What is noted of each row: its scope, which is the innermost declaration that it stands behind, and the function that it stands in.
ghost use Rattle.std.specs.Prelude.{◌≡◌, ◌/◌, ◌≤◌, length, get_or};
ghost use Rattle.check_structure.specs.Structured.{Tree};
ghost use Rattle.check_structure.specs.Passes.{Notes};
ghost use Rattle.check_function_causes.specs.Functions.{function_around};
ghost use Rattle.names.specs.Names.{scope_at};

use check_grammar::kinds::KindTable;
use check_notes::{Note, write_notes};

// The scopes of all rows.
pub fn write_scopes(kinds: &KindTable, rows: &[i32], scopes: &mut [u16])
    requires { Tree rows.now × (length rows.now / 6 ≤ length scopes.old) × (get_or scopes.old 0 0 ≡ 0) }
    ensures { Notes rows.now (scope_at rows.now) scopes.new }
{
    write_notes(Note::Behind(58), kinds, rows, scopes);
}

// The definitions of the functions that the rows stand in.
pub fn write_around(kinds: &KindTable, rows: &[i32], around: &mut [u16])
    requires { Tree rows.now × (length rows.now / 6 ≤ length around.old) × (get_or around.old 0 0 ≡ 0) }
    ensures { Notes rows.now (function_around rows.now) around.new }
{
    write_notes(Note::Around(59), kinds, rows, around);
}
