// What a call's row says.
ghost use Rattle.std.specs.Prelude.{◌≡◌, true, ◌<◌};
ghost use Rattle.words.specs.Table.{row_count};
ghost use Rattle.language.specs.Decode.{expression_at};
ghost use Rattle.language_shapes.specs.Functions.{is_call};
ghost use Rattle.language_shapes.specs.Source.{Source};
ghost use Rattle.measures_table.specs.Arguments.{call_copies};
ghost use Rattle.measures_table.specs.Parts.{called_in};
ghost use Rattle.measures_table.specs.Measures.{Measured};
ghost use Rattle.writers_calls.specs.Asks.{CallAt};

use super::CallRow;
use language_shapes::ExpressionShape;
use language_shapes::rows::expression_at;
use measures_table::{COPIES, WIDTH};
use writers_steps::WriteSource;

// Whether the expression at a row is a call.
pub fn is_call(rows: &[i32], row: usize) -> bool
    requires { Source rows.now × (row < row_count rows.now) }
    ensures { result ≡ is_call (expression_at rows.now row) }
{
    let shape = expression_at(rows, row);
    match shape {
        ExpressionShape::Number(_) => false,
        ExpressionShape::Read(_) => false,
        ExpressionShape::Operation(_) => false,
        ExpressionShape::Choice(_) => false,
        ExpressionShape::Call(_, _) => true,
    }
}

// The call at a row.
pub fn call_at(rows: &[i32], row: usize) -> CallRow
    requires { Source rows.now × (row < row_count rows.now) × (is_call (expression_at rows.now row) ≡ true) }
    ensures { CallAt rows.now row result }
{
    let none = CallRow {
        function: 0,
        first: 0,
    };
    let shape = expression_at(rows, row);
    match shape {
        ExpressionShape::Number(_) => none,
        ExpressionShape::Read(_) => none,
        ExpressionShape::Operation(_) => none,
        ExpressionShape::Choice(_) => none,
        ExpressionShape::Call(function, first) => CallRow { function, first },
    }
}

// Which arguments of the call at a row are copied.
pub fn call_copies(source: &WriteSource<'_>, row: usize) -> usize
    requires { Measured source.now.rows.now source.now.table.now × (row < row_count source.now.rows.now) }
    ensures { result ≡ call_copies (called_in source.now.rows.now) (expression_at source.now.rows.now row) }
{
    source.table[WIDTH * row + COPIES]
}
