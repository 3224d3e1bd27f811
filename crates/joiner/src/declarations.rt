// Cause 20 of a join: the 65th declaration of both programs together, in row order.
ghost use Rattle.std.specs.Prelude.{◌≡◌, ◌*◌, ◌<◌, length};
ghost use Rattle.words.specs.Declarations.{declarations_before};
ghost use Rattle.words.specs.Search.{lowest_row};
ghost use Rattle.check_declaration_causes.specs.Causes.{one_too_many};

use words::declarations::{counted, is_declaration};

// "At most 64."
const LIMIT: usize = 64;

// The row is the 65th declaration, with the number of those before it.
fn is_too_many(rows: &[i32], row: usize, before: usize) -> bool
    requires { (6 * row < length rows.now) × (before ≡ declarations_before rows.now row) }
    ensures { result ≡ one_too_many rows.now row }
{
    if before == LIMIT {
        return is_declaration(rows, row);
    }
    false
}

// The row of the 65th declaration, where there is one: they are counted in one pass.
pub fn lowest_too_many(rows: &[i32]) -> Option<usize>
    ensures { result ≡ lowest_row rows.now (one_too_many rows.now) }
{
    let mut before = 0;
    for row in 0..rows.len() / 6 {
        if is_too_many(rows, row, before) {
            return Some(row);
        }
        before = counted(rows, row, before);
    }
    None
}
