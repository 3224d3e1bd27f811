// The measures of arms, from those of the first arm and of the arms behind it.
ghost use Rattle.std.specs.Prelude.{◌≡◌, ◌+◌, ◌<◌};
ghost use Rattle.words.specs.Table.{row_count};
ghost use Rattle.language.specs.Decode.{arms_at};
ghost use Rattle.measures_table.specs.Parts.{called_in};
ghost use Rattle.measures_table.specs.Measures.{arm_measures, LinkMeasured, MeasuredFrom, ArmsMeasured};

use language_shapes::rows::arm_at;
use measures_table::table::{limited, measure_at};
use measures_table::{
    ARMS_LABELS, ARMS_LEVELS, ARMS_ROWS, LEVELS, ROWS, STATEMENT_LABELS, STATEMENT_LEVELS,
    STATEMENT_ROWS, StatementMeasures,
};
use words::table::number_at;

// An arm brings 5 rows beside its guard and its block: an if with its atom and two blocks, and a goto. `next` is the row behind it.
fn arm_measures(table: &[usize], guard: usize, body: usize, next: usize) -> StatementMeasures
    requires { LinkMeasured table.now guard × LinkMeasured table.now body × LinkMeasured table.now next }
    ensures { result ≡ arm_measures table.now guard body next }
{
    let test = measure_at(table, guard, ROWS);
    let onward = measure_at(table, body, STATEMENT_ROWS);
    let other = measure_at(table, next, ARMS_ROWS);
    let levels = measure_at(table, body, STATEMENT_LEVELS).max(measure_at(
        table,
        next,
        ARMS_LEVELS,
    ));
    let labels = measure_at(table, body, STATEMENT_LABELS);
    StatementMeasures {
        rows: limited(5 + test + onward + other),
        levels: measure_at(table, guard, LEVELS).max(levels),
        labels: limited(labels + measure_at(table, next, ARMS_LABELS)),
    }
}

// The arms from a row on; a row that is no arm ends them.
pub fn measured_arms(rows: &[i32], table: &[usize], row: usize) -> StatementMeasures
    requires { MeasuredFrom rows.now table.now (row + 1) × (row < row_count rows.now) }
    ensures { ArmsMeasured (called_in rows.now) (arms_at rows.now row) result }
{
    let next = number_at(rows, row, 5);
    let shape = arm_at(rows, row);
    match shape {
        Some((guard, body)) => arm_measures(table, guard, body, next),
        None => StatementMeasures {
            rows: 0,
            levels: 0,
            labels: 0,
        },
    }
}
