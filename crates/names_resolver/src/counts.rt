// How many declarations stand before each row.
ghost use Rattle.std.specs.Prelude.{◌/◌, ◌≤◌, length};
ghost use Rattle.words.specs.Declarations.{declarations_before};
ghost use Rattle.check_structure.specs.Passes.{Notes};

use check_structure::row_number::narrow;
use words::declarations::counted;

// The counts of all rows.
pub fn write_counts(rows: &[i32], counts: &mut [u16])
    requires { (length rows.now / 6 ≤ length counts.old) × (length rows.now / 6 ≤ 2048) }
    ensures { Notes rows.now (declarations_before rows.now) counts.new }
{
    let mut count: usize = 0;
    for row in 0..rows.len() / 6 {
        counts[row] = narrow(count);
        count = counted(rows, row, count);
    }
}
