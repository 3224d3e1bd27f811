// The measures of a list, from those of its first item and of the list behind it.
ghost use Rattle.std.specs.Prelude.{◌≡◌, ◌+◌, ◌≤◌, ◌<◌};
ghost use Rattle.words.specs.Table.{row_count};
ghost use Rattle.language.specs.Decode.{statement_at, items_at};
ghost use Rattle.language_shapes.specs.Shapes.{ItemAt};
ghost use Rattle.language_shapes.specs.declared.Item.TheVariants.{Mark};
ghost use Rattle.measures_table.specs.Parts.{called_in};
ghost use Rattle.measures_table.specs.Measures.{limited as limited_to, past_labels, MarkAsks, mark_measures, StatementAsks, statement_measures, MeasuredFrom, StatementMeasured, ListMeasured};

use language_shapes::rows::item_at;
use language_shapes::{Item, MarkShape};
use measures_table::table::{limited, measure_at};
use measures_table::{
    LIST_CASES, LIST_DEFAULT, LIST_LABELS, LIST_LEVELS, LIST_ROWS, ListMeasures, StatementMeasures,
};
use words::table::number_at;

// The place of a default that stands behind `more` labels; 0 stays 0.
fn past_labels(more: usize, place: usize) -> usize
    requires { (more ≤ 65536) × (place ≤ 65536) }
    ensures { result ≡ limited_to (past_labels more place) }
{
    if place == 0 {
        return 0;
    }
    limited(place + more)
}

// A list that begins with a mark.
fn behind_mark(table: &[usize], next: usize, cases: usize, default: usize) -> ListMeasures
    requires { MarkAsks table.now next cases default }
    ensures { result ≡ mark_measures table.now next cases default }
{
    ListMeasures {
        rows: limited(1 + measure_at(table, next, LIST_ROWS)),
        levels: measure_at(table, next, LIST_LEVELS),
        labels: limited(1 + measure_at(table, next, LIST_LABELS)),
        cases: limited(cases + measure_at(table, next, LIST_CASES)),
        default,
    }
}

// A list that begins with a statement.
fn behind_statement(table: &[usize], next: usize, s: StatementMeasures) -> ListMeasures
    requires { StatementAsks table.now next s }
    ensures { result ≡ statement_measures table.now next s }
{
    ListMeasures {
        rows: limited(s.rows + measure_at(table, next, LIST_ROWS)),
        levels: s.levels.max(measure_at(table, next, LIST_LEVELS)),
        labels: limited(s.labels + measure_at(table, next, LIST_LABELS)),
        cases: measure_at(table, next, LIST_CASES),
        default: past_labels(s.labels, measure_at(table, next, LIST_DEFAULT)),
    }
}

// The list from a mark on; `next` is the row behind it.
fn measured_mark(
    rows: &[i32],
    table: &[usize],
    row: usize,
    next: usize,
    mark: MarkShape,
) -> ListMeasures
    requires { MeasuredFrom rows.now table.now (row + 1) × ItemAt rows.now row next (Mark mark) }
    ensures { ListMeasured (called_in rows.now) (items_at rows.now row) result }
{
    match mark {
        MarkShape::Case(_) => {
            behind_mark(
                table,
                next,
                1,
                past_labels(1, measure_at(table, next, LIST_DEFAULT)),
            )
        }
        MarkShape::Default => behind_mark(table, next, 0, 1),
        MarkShape::Label(_) => {
            behind_mark(
                table,
                next,
                0,
                past_labels(1, measure_at(table, next, LIST_DEFAULT)),
            )
        }
    }
}

pub fn measured_list(
    rows: &[i32],
    table: &[usize],
    row: usize,
    statement: StatementMeasures,
) -> ListMeasures
    requires { MeasuredFrom rows.now table.now (row + 1) × (row < row_count rows.now) × StatementMeasured (called_in rows.now) (statement_at rows.now row) statement }
    ensures { ListMeasured (called_in rows.now) (items_at rows.now row) result }
{
    let next = number_at(rows, row, 5);
    let item = item_at(rows, row);
    match item {
        Item::Statement => behind_statement(table, next, statement),
        Item::Mark(mark) => measured_mark(rows, table, row, next, mark),
        // adds nothing where it stands
        Item::Definition(_, _, _) => {
            behind_statement(
                table,
                next,
                StatementMeasures {
                    rows: 0,
                    levels: 0,
                    labels: 0,
                },
            )
        }
    }
}
