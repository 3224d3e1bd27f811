// Cause 18: an initial expression naming its own number, by a walk down its links.
ghost use Rattle.std.specs.Prelude.{◌≡◌, ◌+◌, ◌*◌, ◌/◌, ◌<◌, length};
ghost use Rattle.check_structure.specs.Structured.{Tree};
ghost use Rattle.check_declaration_causes.specs.Causes.{names_number, named_from};

use check_grammar::kinds::KindTable;
use words::table::number_at;

// The row names the variable with this number.
fn names_number(rows: &[i32], number: usize, row: usize) -> bool
    requires { 6 * row + 5 < length rows.now }
    ensures { result ≡ names_number rows.now number row }
{
    if number_at(rows, row, 0) == 2 {
        return number_at(rows, row, 1) == number;
    }
    false
}

// The row names the number, or a row below it does; row 0 is no link's row. An expression is at most as deep as the check allows, and no
// expression holds a declaration, so all walks together meet each row once.
pub fn named_from(kinds: &KindTable, rows: &[i32], number: usize, row: usize) -> bool
    requires { Tree rows.now × (row < length rows.now / 6) }
    ensures { result ≡ named_from rows.now number row }
{
    if row == 0 {
        return false;
    }
    if names_number(rows, number, row) {
        return true;
    }
    for field in 0..6 {
        if named_from(kinds, rows, number, kinds.link(rows, row, field)) {
            return true;
        }
    }
    false
}
