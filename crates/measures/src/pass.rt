// The pass over the rows, from the last to the first: every link leads to a row that is measured already.
ghost use Rattle.std.specs.Prelude.{◌+◌, ◌*◌, ◌≤◌, ◌<◌, length};
ghost use Rattle.words.specs.Table.{row_count};
ghost use Rattle.language_shapes.specs.Source.{NamesFrom, Source};
ghost use Rattle.write_sets_rows.specs.WriteSets.{Sets};
ghost use Rattle.measures_table.specs.Measures.{width, MeasuredFrom, Measured};

use super::arms::measured_arms;
use super::lists::measured_list;
use super::statements::measured_statement;
use measures_expressions::expressions::measured_expression;
use measures_table::table::set_measures;
use write_sets_functions::functions::gather_functions;
use write_sets_rows::WriteSet;
use write_sets_rows::writes::fill_sets;

fn measure_row(store: usize, rows: &[i32], sets: &[WriteSet], table: &mut [usize], row: usize)
    requires { Sets store rows.now sets.now × MeasuredFrom rows.now table.old (row + 1) × (row < row_count rows.now) }
    ensures { MeasuredFrom rows.now table.new row }
{
    let expression = measured_expression(store, rows, sets, table, row);
    let statement = measured_statement(rows, table, row);
    let list = measured_list(rows, table, row, statement);
    let arms = measured_arms(rows, table, row);
    set_measures(table, row, expression, statement, list, arms);
}

fn measure_rows(store: usize, rows: &[i32], sets: &[WriteSet], table: &mut [usize])
    requires { Sets store rows.now sets.now × (width * row_count rows.now ≤ length table.old) }
    ensures { Measured rows.now table.new }
{
    for row in (0..rows.len() / 6).rev() {
        measure_row(store, rows, sets, table, row);
    }
}

// Fills the table of measures; the write sets, those of the functions first, are needed only here. The declared words begin at `store`.
pub fn measure(store: usize, rows: &[i32], table: &mut [usize])
    requires { Source rows.now × NamesFrom store rows.now × (width * row_count rows.now ≤ length table.old) }
    ensures { Measured rows.now table.new }
{
    let mut sets = [WriteSet::nothing(); 2048];
    gather_functions(store, rows, &mut sets);
    fill_sets(store, rows, &mut sets);
    measure_rows(store, rows, &sets, table);
}
