// Which values are copied: a variable's that waits for its use while something is worked out that can write the variable. The declared
// words begin at `store`.
ghost use Rattle.std.specs.Prelude.{◌≡◌, ◌+◌, ◌*◌, ◌≤◌, ◌<◌, length};
ghost use Rattle.words.specs.Word.{pick};
ghost use Rattle.words.specs.Table.{row_count};
ghost use Rattle.language.specs.Decode.{place_of, expression_at, part_at};
ghost use Rattle.translation.specs.Translate.{atom_of};
ghost use Rattle.translation.specs.TranslateSize.{copied};
ghost use Rattle.language_shapes.specs.Source.{NamesFrom, Source, ExpressionAt};
ghost use Rattle.language_shapes.specs.declared.ExpressionShape.TheVariants.{Operation};
ghost use Rattle.write_sets.specs.Sets.{member};
ghost use Rattle.measures_table.specs.Parts.{called_in, index_of, first_copied, Operand};
ghost use Rattle.write_sets_rows.specs.WriteSets.{part_writes, Sets};
ghost use Rattle.measures_table.specs.Measures.{width, MeasuredFrom, MeasuredRow};
ghost use Rattle.measures_expressions.specs.Passed.{CopiedBy};

use super::holders::holder_at;
use language_shapes::rows::{expression_at, place_at};
use language_shapes::{ExpressionShape, OperationShape, PlaceShape};
use measures_table::Holder;
use write_sets::WriteSet;
use write_sets_rows::table::set_at;

// 1 where the set has the variable, else 0.
fn written(store: usize, set: WriteSet, variable: usize) -> usize
    ensures { (result ≡ pick (member store set variable) 1 0) × (result ≤ 1) }
{
    if set.has(store, variable) {
        return 1;
    }
    0
}

// 1 where the value of the expression at a row is copied, because it waits while something is worked out that can write the set; else 0.
pub fn copied_against(
    store: usize,
    rows: &[i32],
    table: &[usize],
    row: usize,
    set: WriteSet,
) -> usize
    requires { Source rows.now × NamesFrom store rows.now × (row < row_count rows.now) × (width * row_count rows.now ≤ length table.now) × MeasuredRow rows.now table.now row }
    ensures { CopiedBy store (called_in rows.now) (expression_at rows.now row) set result }
{
    let holder = holder_at(rows, table, row);
    match holder {
        Holder::Number(_) => 0,
        Holder::Variable(variable) => written(store, set, variable),
        Holder::Temporary => 0,
    }
}

// The same while the expression at a link is worked out.
fn copied_over(
    store: usize,
    rows: &[i32],
    sets: &[WriteSet],
    table: &[usize],
    row: usize,
    meanwhile: usize,
) -> usize
    requires sets { Sets store rows.now sets.now × (row < row_count rows.now) × (meanwhile < row_count rows.now) }
    requires rows_in_bounds { (width * row_count rows.now ≤ length table.now) × MeasuredRow rows.now table.now row }
    ensures { result ≡ copied (atom_of (called_in rows.now) (expression_at rows.now row)) (part_writes (called_in rows.now) (part_at rows.now meanwhile)) }
{
    copied_against(store, rows, table, row, set_at(sets, meanwhile))
}

// The row of the index of the place at a row; 0 for a variable.
fn index_at(rows: &[i32], row: usize) -> usize
    requires { Source rows.now × (row < row_count rows.now) }
    ensures { Operand rows.now row result (index_of (place_of (expression_at rows.now row))) }
{
    let place = place_at(rows, row);
    match place {
        PlaceShape::Variable(_) => 0,
        PlaceShape::Element(_, index) => index,
    }
}

fn copied_operation(
    store: usize,
    rows: &[i32],
    sets: &[WriteSet],
    table: &[usize],
    row: usize,
    operation: OperationShape,
) -> usize
    requires { Sets store rows.now sets.now × MeasuredFrom rows.now table.now (row + 1) × ExpressionAt rows.now row (Operation operation) }
    ensures { result ≡ first_copied (called_in rows.now) (expression_at rows.now row) }
{
    match operation {
        OperationShape::Minus(_) => 0,
        OperationShape::Not(_) => 0,
        OperationShape::Binary(_, a, b) => copied_over(store, rows, sets, table, b, a),
        OperationShape::Comma(_, _) => 0,
        OperationShape::Assign(place, e) => {
            copied_over(store, rows, sets, table, e, index_at(rows, place))
        }
        OperationShape::Compound(_, place, e) => {
            copied_over(store, rows, sets, table, e, index_at(rows, place))
        }
        OperationShape::Prefix(_, _) => 0,
        OperationShape::Postfix(_, _) => 0,
    }
}

// 1 where the expression at a row copies the value of its first operand, else 0.
pub fn copied_at(
    store: usize,
    rows: &[i32],
    sets: &[WriteSet],
    table: &[usize],
    row: usize,
) -> usize
    requires { Sets store rows.now sets.now × MeasuredFrom rows.now table.now (row + 1) × (row < row_count rows.now) }
    ensures { result ≡ first_copied (called_in rows.now) (expression_at rows.now row) }
{
    let shape = expression_at(rows, row);
    match shape {
        ExpressionShape::Number(_) => 0,
        ExpressionShape::Read(_) => 0,
        ExpressionShape::Operation(operation) => {
            copied_operation(store, rows, sets, table, row, operation)
        }
        ExpressionShape::Choice(_) => 0,
        ExpressionShape::Call(_, _) => 0,
    }
}
