// Which rows are declarations, and how many there are.
ghost use Rattle.std.specs.Prelude.{◌≡◌, ◌+◌, ◌*◌, ◌<◌, ◌≤◌, length};
ghost use Rattle.words.specs.Word.{one};
ghost use Rattle.words.specs.Declarations.{is_declaration, declaration_count};

use super::table::number_at;

// "Kind 58": the one place in the code that says the number.
const DECLARATION: usize = 58;

pub fn is_declaration(rows: &[i32], row: usize) -> bool
    requires { 6 * row < length rows.now }
    ensures { result ≡ is_declaration rows.now row }
{
    number_at(rows, row, 0) == DECLARATION
}

// One row more.
pub fn counted(rows: &[i32], row: usize, count: usize) -> usize
    requires { (6 * row < length rows.now) × (count ≤ row) }
    ensures { result ≡ count + one (is_declaration rows.now row) }
{
    if is_declaration(rows, row) {
        return count + 1;
    }
    count
}

// D: how many declarations a table has.
pub fn declaration_count(rows: &[i32]) -> usize
    ensures { result ≡ declaration_count rows.now }
{
    let mut count: usize = 0;
    for row in 0..rows.len() / 6 {
        count = counted(rows, row, count);
    }
    count
}
