// The measures of a statement, by its shape, from those of the rows that its links lead to.
ghost use Rattle.std.specs.Prelude.{◌≡◌, ◌+◌, ◌≤◌, ◌<◌};
ghost use Rattle.words.specs.Table.{row_count};
ghost use Rattle.language.specs.Decode.{statement_at};
ghost use Rattle.measures_table.specs.Parts.{called_in};
ghost use Rattle.measures_table.specs.Measures.{plain_measures, express_measures, block_measures, if_measures, loop_measures, switch_measures, guarded_measures, rounds_measures, declare_measures, return_measures, LinkMeasured, TestIs, MeasuredFrom, StatementMeasured};

use language_shapes::StatementShape;
use language_shapes::rows::statement_at;
use measures_expressions::holders::{store_rows, taken_at};
use measures_table::table::{limited, measure_at};
use measures_table::{
    ARMS_LABELS, ARMS_LEVELS, ARMS_ROWS, DROPPED_LEVELS, DROPPED_ROWS, LEVELS, LIST_CASES,
    LIST_LABELS, LIST_LEVELS, LIST_ROWS, ROWS, STATEMENT_LABELS, STATEMENT_LEVELS, STATEMENT_ROWS,
    STORED_LEVELS, StatementMeasures,
};

// The test of a loop takes 5 rows beside its code, where there is one.
fn test_rows(table: &[usize], test: usize) -> usize
    requires { LinkMeasured table.now test }
    ensures { TestIs table.now test result }
{
    if test == 0 {
        return 0;
    }
    measure_at(table, test, ROWS) + 5
}

// A statement of one row.
fn plain_measures() -> StatementMeasures
    ensures { result ≡ plain_measures }
{
    StatementMeasures {
        rows: 1,
        levels: 0,
        labels: 0,
    }
}

fn express_measures(table: &[usize], e: usize) -> StatementMeasures
    requires { LinkMeasured table.now e }
    ensures { result ≡ express_measures table.now e }
{
    StatementMeasures {
        rows: measure_at(table, e, DROPPED_ROWS).max(1),
        levels: measure_at(table, e, DROPPED_LEVELS),
        labels: 0,
    }
}

fn block_measures(table: &[usize], list: usize) -> StatementMeasures
    requires { LinkMeasured table.now list }
    ensures { result ≡ block_measures table.now list }
{
    StatementMeasures {
        rows: limited(1 + measure_at(table, list, LIST_ROWS)),
        levels: measure_at(table, list, LIST_LEVELS),
        labels: measure_at(table, list, LIST_LABELS),
    }
}

fn if_measures(table: &[usize], e: usize, yes: usize, no: usize) -> StatementMeasures
    requires { LinkMeasured table.now e × LinkMeasured table.now yes × LinkMeasured table.now no }
    ensures { result ≡ if_measures table.now e yes no }
{
    let test = measure_at(table, e, ROWS);
    let onward = measure_at(table, yes, STATEMENT_ROWS);
    let other = measure_at(table, no, STATEMENT_ROWS);
    let levels = measure_at(table, yes, STATEMENT_LEVELS).max(measure_at(
        table,
        no,
        STATEMENT_LEVELS,
    ));
    let labels = measure_at(table, yes, STATEMENT_LABELS);
    StatementMeasures {
        rows: limited(4 + test + onward + other),
        levels: measure_at(table, e, LEVELS).max(levels),
        labels: limited(labels + measure_at(table, no, STATEMENT_LABELS)),
    }
}

// While, do and for: what stands first, the test, the step and the body.
fn loop_measures(
    table: &[usize],
    first: usize,
    test: usize,
    step: usize,
    body: usize,
) -> StatementMeasures
    requires { LinkMeasured table.now first × LinkMeasured table.now test × LinkMeasured table.now step × LinkMeasured table.now body }
    ensures { result ≡ loop_measures table.now first test step body }
{
    let before = measure_at(table, first, DROPPED_ROWS) + test_rows(table, test);
    let round = measure_at(table, step, DROPPED_ROWS) + measure_at(table, body, STATEMENT_ROWS);
    let outer = measure_at(table, first, DROPPED_LEVELS).max(measure_at(table, test, LEVELS));
    let inner = measure_at(table, step, DROPPED_LEVELS).max(measure_at(
        table,
        body,
        STATEMENT_LEVELS,
    ));
    StatementMeasures {
        rows: limited(5 + before + round),
        levels: outer.max(inner),
        labels: limited(2 + measure_at(table, body, STATEMENT_LABELS)),
    }
}

// A switch; `taken` is how many temporaries the selector's value takes.
fn switch_measures(table: &[usize], taken: usize, e: usize, list: usize) -> StatementMeasures
    requires { LinkMeasured table.now e × LinkMeasured table.now list × (taken ≤ 1) }
    ensures { result ≡ switch_measures table.now taken e list }
{
    let selector = measure_at(table, e, ROWS);
    let tests = 11 * measure_at(table, list, LIST_CASES);
    let items = measure_at(table, list, LIST_ROWS);
    let levels = measure_at(table, e, LEVELS).max(measure_at(table, list, LIST_LEVELS));
    StatementMeasures {
        rows: limited(2 + selector + tests + items),
        levels: (taken + 1).max(levels),
        labels: limited(1 + measure_at(table, list, LIST_LABELS)),
    }
}

// The arms of a guarded form, with the rows and labels of its own.
fn guarded_measures(table: &[usize], own: usize, labels: usize, arms: usize) -> StatementMeasures
    requires { LinkMeasured table.now arms × (own ≤ 6) × (labels ≤ 2) }
    ensures { result ≡ guarded_measures table.now own labels arms }
{
    StatementMeasures {
        rows: limited(own + measure_at(table, arms, ARMS_ROWS)),
        levels: measure_at(table, arms, ARMS_LEVELS),
        labels: limited(labels + measure_at(table, arms, ARMS_LABELS)),
    }
}

// A guarded do; without arms it has no rounds.
fn rounds_measures(table: &[usize], arms: usize) -> StatementMeasures
    requires { LinkMeasured table.now arms }
    ensures { result ≡ rounds_measures table.now arms }
{
    if measure_at(table, arms, ARMS_ROWS) == 0 {
        return plain_measures();
    }
    guarded_measures(table, 6, 2, arms)
}

// A declaration; `store` is how many rows store its value.
fn declare_measures(table: &[usize], store: usize, e: usize) -> StatementMeasures
    requires { LinkMeasured table.now e × (store ≤ 4) }
    ensures { result ≡ declare_measures table.now store e }
{
    StatementMeasures {
        rows: limited(store + measure_at(table, e, ROWS)),
        levels: measure_at(table, e, STORED_LEVELS),
        labels: 0,
    }
}

// A return takes 2 rows beside the code of its value: its own and that of the atom.
fn return_measures(table: &[usize], value: usize) -> StatementMeasures
    requires { LinkMeasured table.now value }
    ensures { result ≡ return_measures table.now value }
{
    StatementMeasures {
        rows: limited(2 + measure_at(table, value, ROWS)),
        levels: measure_at(table, value, LEVELS),
        labels: 0,
    }
}

pub fn measured_statement(rows: &[i32], table: &[usize], row: usize) -> StatementMeasures
    requires { MeasuredFrom rows.now table.now (row + 1) × (row < row_count rows.now) }
    ensures { StatementMeasured (called_in rows.now) (statement_at rows.now row) result }
{
    let shape = statement_at(rows, row);
    match shape {
        StatementShape::Empty => plain_measures(),
        StatementShape::Express(e) => express_measures(table, e),
        StatementShape::Block(list) => block_measures(table, list),
        StatementShape::If(e, yes, no) => if_measures(table, e, yes, no),
        StatementShape::While(e, body) => loop_measures(table, 0, e, 0, body),
        StatementShape::Do(body, e) => loop_measures(table, 0, e, 0, body),
        StatementShape::For(first, test, step, body) => {
            loop_measures(table, first, test, step, body)
        }
        StatementShape::Switch(e, list) => {
            switch_measures(table, taken_at(rows, table, e), e, list)
        }
        StatementShape::Break => plain_measures(),
        StatementShape::Continue => plain_measures(),
        StatementShape::Goto(_) => plain_measures(),
        StatementShape::GuardedIf(arms) => guarded_measures(table, 2, 1, arms),
        StatementShape::GuardedDo(arms) => rounds_measures(table, arms),
        StatementShape::Abort => plain_measures(),
        StatementShape::Declare(_, e) => declare_measures(table, store_rows(rows, e), e),
        StatementShape::Return(value) => return_measures(table, value),
    }
}
