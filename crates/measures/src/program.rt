// The measures of a program: those of its definitions, one after the other, and of its main part.
ghost use Rattle.std.specs.Prelude.{◌≡◌, true, ◌≤◌, ◌<◌};
ghost use Rattle.words.specs.Table.{row_count};
ghost use Rattle.language.specs.Decode.{list_at, parameter_list_at};
ghost use Rattle.language.specs.Program.{contents};
ghost use Rattle.language_shapes.specs.Source.{Source};
ghost use Rattle.measures_table.specs.Parts.{called_in};
ghost use Rattle.measures_table.specs.Measures.{LinkMeasured, Measured, ProgramMeasured};
ghost use Rattle.write_sets_functions.specs.Definitions.{defines, defined_at};
ghost use Rattle.measures.specs.Programs.{CountIs, SmallMeasures, added as added_to, list_measures, DefinitionMeasured};

use measures_table::table::{limited, measure_at};
use measures_table::{
    LIST_LABELS, LIST_LEVELS, LIST_ROWS, STATEMENT_LABELS, STATEMENT_LEVELS, STATEMENT_ROWS,
    StatementMeasures,
};
use words::table::number_at;
use write_sets_functions::definitions::{is_definition, is_parameter};

// How many parameters there are from a link on.
pub fn parameter_count(rows: &[i32], first: usize) -> usize
    requires { Source rows.now × (first < row_count rows.now) }
    ensures { CountIs (parameter_list_at rows.now first) result }
{
    let mut count: usize = 0;
    let mut row = first;
    while is_parameter(rows, row) {
        count += 1;
        row = number_at(rows, row, 5);
    }
    count
}

// The definition at a row: its row, those of its parameters, and its block.
pub fn definition_measures(rows: &[i32], table: &[usize], row: usize) -> StatementMeasures
    requires { Measured rows.now table.now × (row < row_count rows.now) × (defines rows.now row ≡ true) }
    ensures { DefinitionMeasured (called_in rows.now) (defined_at rows.now row) result }
{
    let parameters = parameter_count(rows, number_at(rows, row, 2));
    let body = number_at(rows, row, 3);
    StatementMeasures {
        rows: limited(1 + parameters + measure_at(table, body, STATEMENT_ROWS)),
        levels: measure_at(table, body, STATEMENT_LEVELS),
        labels: measure_at(table, body, STATEMENT_LABELS),
    }
}

// The list from a link on.
fn list_measures(table: &[usize], list: usize) -> StatementMeasures
    requires { LinkMeasured table.now list }
    ensures { result ≡ list_measures table.now list }
{
    StatementMeasures {
        rows: measure_at(table, list, LIST_ROWS),
        levels: measure_at(table, list, LIST_LEVELS),
        labels: measure_at(table, list, LIST_LABELS),
    }
}

fn added(found: StatementMeasures, more: StatementMeasures) -> StatementMeasures
    requires { SmallMeasures found × SmallMeasures more }
    ensures { result ≡ added_to found more }
{
    StatementMeasures {
        rows: limited(found.rows + more.rows),
        levels: limited(found.levels + more.levels),
        labels: limited(found.labels + more.labels),
    }
}

// The definitions from a link on, and the main part behind them.
pub fn program_measures(rows: &[i32], table: &[usize], first: usize) -> StatementMeasures
    requires { Measured rows.now table.now × (first < row_count rows.now) }
    ensures { ProgramMeasured (called_in rows.now) (list_at rows.now first) result }
{
    let mut found = StatementMeasures {
        rows: 0,
        levels: 0,
        labels: 0,
    };
    let mut row = first;
    while is_definition(rows, row) {
        found = added(found, definition_measures(rows, table, row));
        row = number_at(rows, row, 5);
    }
    added(found, list_measures(table, row))
}

// The program, whose list row 0 has.
pub fn measured_program(rows: &[i32], table: &[usize]) -> StatementMeasures
    requires { Measured rows.now table.now }
    ensures { ProgramMeasured (called_in rows.now) (contents rows.now) result }
{
    program_measures(rows, table, number_at(rows, 0, 1))
}
