// What goes by the use of a value: the words of the table, what an own row brings, and the use of the second operand's value.
ghost use Rattle.std.specs.Prelude.{◌≡◌};
ghost use Rattle.translation.specs.Uses.{passed_on};
ghost use Rattle.measures_table.specs.Parts.{use_passed, rows_by, levels_by};
ghost use Rattle.measures_table.specs.Measures.{RowsWord, LevelsWord};

use super::{DROPPED_LEVELS, DROPPED_ROWS, LEVELS, Own, ROWS, STORED_LEVELS};
use translation::Use;

// Where the rows of an expression stand in the table.
pub fn rows_for(usage: Use) -> usize
    ensures { RowsWord usage result }
{
    match usage {
        Use::Dropped => DROPPED_ROWS,
        Use::Wanted | Use::Stored(_) => ROWS,
    }
}

// Where its levels stand.
pub fn levels_for(usage: Use) -> usize
    ensures { LevelsWord usage result }
{
    match usage {
        Use::Dropped => DROPPED_LEVELS,
        Use::Wanted => LEVELS,
        Use::Stored(_) => STORED_LEVELS,
    }
}

// The use that a comma passes on to its right side.
fn passed_on(usage: Use) -> Use
    ensures { result ≡ passed_on usage }
{
    match usage {
        Use::Dropped => Use::Dropped,
        Use::Wanted | Use::Stored(_) => Use::Wanted,
    }
}

// The use of the second operand's value, where the expression's has this use.
pub fn second_use(passes: bool, usage: Use) -> Use
    ensures { result ≡ use_passed passes usage }
{
    if passes {
        return passed_on(usage);
    }
    Use::Wanted
}

// The rows of an own row's code.
pub fn rows_by(own: Own, usage: Use) -> usize
    ensures { result ≡ rows_by own usage }
{
    match usage {
        Use::Dropped => own.dropped_rows,
        Use::Wanted | Use::Stored(_) => own.rows,
    }
}

// Its levels.
pub fn levels_by(own: Own, usage: Use) -> usize
    ensures { result ≡ levels_by own usage }
{
    match usage {
        Use::Dropped => own.dropped_levels,
        Use::Wanted => own.levels,
        Use::Stored(_) => own.stored_levels,
    }
}
