// The lowest row with a property.
ghost use Rattle.std.specs.Prelude.{ℕ, ◌<◌};
ghost use Rattle.words.specs.Table.{row_count};
ghost use Rattle.check_grammar.specs.Lowest.{IsLowest};

// The lowest row that a test is true of. `lowest_row-is` (specs/LowestLaws): where the test answers as a definition, that is what the definition's
// `lowest_row` finds.
pub fn lowest_row<F: Fn(usize) -> bool>(rows: &[i32], test: F) -> Option<usize>
    requires { (row : ℕ) → row < row_count rows.now → F.pre test row }
    ensures { IsLowest (F.post test) (row_count rows.now) result }
{
    for row in 0..rows.len() / 6 {
        if test(row) {
            return Some(row);
        }
    }
    None
}
