// The measures of an expression, from what its own row brings and the measures of its operands, or of its arguments.
ghost use Rattle.std.specs.Prelude.{◌≡◌, false, ◌+◌, ◌≤◌, ◌<◌};
ghost use Rattle.words.specs.Table.{row_count};
ghost use Rattle.language.specs.Decode.{expression_at};
ghost use Rattle.translation.specs.Translate.{expression_levels};
ghost use Rattle.translation.specs.TranslateSize.{expression_size};
ghost use Rattle.language_shapes.specs.Functions.{is_call};
ghost use Rattle.measures_table.specs.Parts.{called_in, OwnAt};
ghost use Rattle.write_sets_rows.specs.WriteSets.{Sets};
ghost use Rattle.measures_table.specs.Measures.{limited as limited_to, MeasuredFrom, ExpressionMeasured};
ghost use Rattle.measures_expressions.specs.Passed.{call_measures};

use super::copies::copied_at;
use super::parts::own_at;
use super::passed::passed_measures;
use language_shapes::ExpressionShape;
use language_shapes::rows::expression_at;
use measures_table::table::{limited, measure_at};
use measures_table::uses::{levels_by, levels_for, rows_by, rows_for, second_use};
use measures_table::{ExpressionMeasures, LEVELS, Own, Passed, ROWS};
use translation::Use;
use write_sets::WriteSet;

// The kernel rows of the expression at a row, where its value has this use, from those of its operands.
fn expression_rows(rows: &[i32], table: &[usize], row: usize, own: Own, usage: Use) -> usize
    requires { MeasuredFrom rows.now table.now (row + 1) × (row < row_count rows.now) × OwnAt rows.now row own × (is_call (expression_at rows.now row) ≡ false) }
    ensures { result ≡ limited_to (expression_size (called_in rows.now) (expression_at rows.now row) usage) }
{
    let first_use = own.first_use;
    let second_use = second_use(own.passes, usage);
    let first = measure_at(table, own.first, rows_for(first_use));
    let second = measure_at(table, own.second, rows_for(second_use));
    let third = measure_at(table, own.third, ROWS);
    let fourth = measure_at(table, own.fourth, ROWS);
    limited(first + second + third + fourth + rows_by(own, usage))
}

// The levels of the expression at a row, where its value has this use, from those of its operands.
fn expression_levels(rows: &[i32], table: &[usize], row: usize, own: Own, usage: Use) -> usize
    requires { MeasuredFrom rows.now table.now (row + 1) × (row < row_count rows.now) × OwnAt rows.now row own }
    ensures { result ≡ limited_to (expression_levels (called_in rows.now) (expression_at rows.now row) usage) }
{
    let first_use = own.first_use;
    let second_use = second_use(own.passes, usage);
    let first = measure_at(table, own.first, levels_for(first_use));
    let second = own.above + measure_at(table, own.second, levels_for(second_use));
    let third = measure_at(table, own.third, LEVELS);
    let fourth = measure_at(table, own.fourth, LEVELS);
    limited(levels_by(own, usage).max(first.max(second).max(third.max(fourth))))
}

// An expression that is no call.
fn measured_plain(
    store: usize,
    rows: &[i32],
    sets: &[WriteSet],
    table: &[usize],
    row: usize,
) -> ExpressionMeasures
    requires { Sets store rows.now sets.now × MeasuredFrom rows.now table.now (row + 1) × (row < row_count rows.now) × (is_call (expression_at rows.now row) ≡ false) }
    ensures { ExpressionMeasured rows.now (expression_at rows.now row) result }
{
    let copied = copied_at(store, rows, sets, table, row);
    let own = own_at(rows, table, row, copied);
    ExpressionMeasures {
        rows: expression_rows(rows, table, row, own, Use::Wanted),
        levels: expression_levels(rows, table, row, own, Use::Wanted),
        value: own.value,
        copied,
        dropped_rows: expression_rows(rows, table, row, own, Use::Dropped),
        dropped_levels: expression_levels(rows, table, row, own, Use::Dropped),
        stored_levels: expression_levels(rows, table, row, own, Use::Stored(0)),
        copies: 0,
    }
}

// A call, from the measures of its arguments.
fn call_measures(row: usize, passed: Passed) -> ExpressionMeasures
    requires { (passed.rows ≤ 65536) × (passed.count ≤ 64) }
    ensures { result ≡ call_measures row passed }
{
    let rows = limited(4 + 2 * passed.count + passed.rows);
    let levels = passed.levels.max(1);
    ExpressionMeasures {
        rows,
        levels,
        value: row,
        copied: 0,
        dropped_rows: rows,
        dropped_levels: levels,
        stored_levels: passed.levels,
        copies: passed.copies,
    }
}

pub fn measured_expression(
    store: usize,
    rows: &[i32],
    sets: &[WriteSet],
    table: &[usize],
    row: usize,
) -> ExpressionMeasures
    requires { Sets store rows.now sets.now × MeasuredFrom rows.now table.now (row + 1) × (row < row_count rows.now) }
    ensures { ExpressionMeasured rows.now (expression_at rows.now row) result }
{
    let shape = expression_at(rows, row);
    match shape {
        ExpressionShape::Number(_) => measured_plain(store, rows, sets, table, row),
        ExpressionShape::Read(_) => measured_plain(store, rows, sets, table, row),
        ExpressionShape::Operation(_) => measured_plain(store, rows, sets, table, row),
        ExpressionShape::Choice(_) => measured_plain(store, rows, sets, table, row),
        ExpressionShape::Call(_, first) => {
            let passed = passed_measures(store, rows, sets, table, first, WriteSet::nothing());
            call_measures(row, passed)
        }
    }
}
